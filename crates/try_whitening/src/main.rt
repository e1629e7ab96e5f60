// Runs vectors from outside: each channel's whitening octets, CRCs, and the flags of packets as heard. Each line prints what came of one.
#![tactic(auto)]

use octets::error::Error;
use std::io;
use whitening::crc::{CRC_POLY, CRC_PRESET, crc, crc_octets};
use whitening::packet::{ACCESS_ADDRESS, crc_flag, whiten};

fn hex(rt: &HostRuntime, n: u32, digits: usize) -> io::Result<()> {
    print!(rt; " {n:0digits$x}")
}

// Octets as pairs of hexadecimal digits. Each program that prints them has this loop: a crate for it would be no shorter.
fn line_of(rt: &HostRuntime, s: &[u8]) -> io::Result<()> {
    for octet in s {
        print!(rt; " {octet:02x}")?;
    }
    println!(rt)
}

fn refusal(rt: &HostRuntime, e: Error) -> io::Result<()> {
    print!(rt; " refused {}", e.number())
}

fn done(rt: &HostRuntime, whitened: Result<(), Error>) -> io::Result<()> {
    match whitened {
        Ok(()) => print!(rt; " done"),
        Err(e) => refusal(rt, e),
    }
}

// What a packet becomes, twice.
fn whitening(rt: &HostRuntime, channel: u8, packet: &mut [u8]) -> io::Result<()> {
    print!(rt; "whitening")?;
    done(rt, whiten(channel, packet))?;
    line_of(rt, packet)?;
    print!(rt; "again")?;
    done(rt, whiten(channel, packet))?;
    line_of(rt, packet)
}

// A packet of zeros, which shows the whitening octets.
fn zeros(rt: &HostRuntime, channel: u8) -> io::Result<()> {
    let mut packet = [0u8; 42];
    whitening(rt, channel, &mut packet)
}

fn check(rt: &HostRuntime, start: u32, octets: &[u8]) -> io::Result<()> {
    print!(rt; "crc")?;
    hex(rt, crc(start, octets), 6)?;
    let sent = crc_octets(start, octets);
    line_of(rt, &sent)
}

fn flag(rt: &HostRuntime, channel: u8, start: u32, packet: &[u8]) -> io::Result<()> {
    print!(rt; "flag")?;
    match crc_flag(channel, start, packet) {
        Ok(true) => print!(rt; " good")?,
        Ok(false) => print!(rt; " bad")?,
        Err(e) => refusal(rt, e)?,
    }
    println!(rt)
}

fn constants(rt: &HostRuntime) -> io::Result<()> {
    println!(rt; "constants {ACCESS_ADDRESS:08x} {CRC_PRESET:06x} {CRC_POLY:07x}")
}

// Both sides of each limit.
fn limits(rt: &HostRuntime) -> io::Result<()> {
    whitening(rt, 39, &mut [0xA5u8; 43])?;
    whitening(rt, 39, &mut [0xA5u8; 5])?;
    whitening(rt, 39, &mut [0xA5u8; 4])?;
    whitening(rt, 40, &mut [0xA5u8; 43])?;
    whitening(rt, 40, &mut [0xA5u8; 4])?;
    whitening(rt, 255, &mut [0xA5u8; 5])
}

// The check value of CRC-24/BLE, document 01's row, zeros.
fn check_values(rt: &HostRuntime) -> io::Result<()> {
    check(rt, 0x555555, b"\x31\x32\x33\x34\x35\x36\x37\x38\x39")?;
    check(
        rt,
        0x555555,
        b"\x42\x09\x01\x02\x03\x04\x05\xC6\x02\x01\x06",
    )?;
    check(rt, 0x555555, b"\x00\x06\x00\x00\x00\x00\x00\x00")?;
    check(rt, 0x000000, b"\x00\x06\x00\x00\x00\x00\x00\x00")?;
    check(rt, 0x000000, b"\x00\x00")
}

// Start values: all ones, single bits, and some on which the order of octets shows.
fn starts(rt: &HostRuntime) -> io::Result<()> {
    check(rt, 0xFFFFFF, b"\x00\x00")?;
    check(rt, 0x000001, b"\x01\x00")?;
    check(rt, 0x800000, b"\x01\x00")?;
    check(rt, 0x123456, b"\x0D\x00\x00")?;
    check(rt, 0xFF123456, b"\x0D\x00\x00")?;
    check(rt, 0xABCDEF, b"\x02\x03\x01\xA0\xFF")
}

// 39 octets; another start value; no octets.
fn longest(rt: &HostRuntime) -> io::Result<()> {
    check(
        rt,
        0x555555,
        b"\x42\x25\x00\x01\x02\x03\x04\x05\x06\x07\x08\x09\x0A\x0B\x0C\x0D\x0E\x0F\x10\x11\x12\x13\x14\x15\x16\x17\x18\x19\x1A\x1B\x1C\x1D\x1E\x1F\x20\x21\x22\x23\x24",
    )?;
    check(
        rt,
        0x555555,
        b"\xFF\xFF\xFF\xFF\xFF\xFF\xFF\xFF\xFF\xFF\xFF\xFF\xFF\xFF\xFF\xFF\xFF\xFF\xFF\xFF\xFF\xFF\xFF\xFF\xFF\xFF\xFF\xFF\xFF\xFF\xFF\xFF\xFF\xFF\xFF\xFF\xFF\xFF\xFF",
    )?;
    check(rt, 0x563412, b"\x03\x01")?;
    check(rt, 0x123456, &[0u8; 0])
}

// Document 01's row; the fourth has a bit off.
fn on_advertising_channels(rt: &HostRuntime) -> io::Result<()> {
    flag(
        rt,
        37,
        0x000000,
        b"\xCF\xDB\x56\xA3\x3E\xA3\x63\x76\x77\x30\x17\xD7\x41\xB5",
    )?;
    flag(
        rt,
        38,
        0xFFFFFF,
        b"\x94\xCC\x45\x22\x5A\xDA\xE4\x49\x19\xA4\xA9\xDD\xAC\x8C",
    )?;
    flag(
        rt,
        39,
        0x123456,
        b"\x5D\x3E\x4B\x5D\x86\xF2\x99\x5C\xC3\xD7\xC3\xDB\xF7\x9B",
    )?;
    flag(
        rt,
        38,
        0x000000,
        b"\x95\xCC\x45\x22\x5A\xDA\xE4\x49\x19\xA4\xA9\xDD\xAC\x8C",
    )
}

// With the start value, with one above 24 bits, with another, with the CRC's octets swapped.
fn on_data_channels(rt: &HostRuntime) -> io::Result<()> {
    flag(rt, 10, 0x123456, b"\x97\xC1\xD6\xD2\xDB\x07")?;
    flag(rt, 10, 0xFF123456, b"\x97\xC1\xD6\xD2\xDB\x07")?;
    flag(rt, 10, 0x555555, b"\x97\xC1\xD6\xD2\xDB\x07")?;
    flag(rt, 10, 0x123456, b"\x97\xC1\xD6\xE2\xDB\x37")
}

// The start value on 36 and on 37; a header that counts 63 octets; zeros.
fn beside_37(rt: &HostRuntime) -> io::Result<()> {
    flag(rt, 36, 0xABCDEF, b"\x45\x20\x21\x1D\x14")?;
    flag(rt, 37, 0xABCDEF, b"\x8C\xD2\xFE\x45\xB2")?;
    flag(rt, 37, 0xABCDEF, b"\x8C\xD2\x2F\x62\xC8")?;
    flag(
        rt,
        37,
        0x000000,
        b"\xCF\xED\x57\xA1\x3D\xA7\x66\xB0\x75\x31\x11\x48\x96\x77\xF8\xE3\x46\xE9\xAB\xD0\x9E\x53\x33\xD8\xBA\x98\x08\x24\xCB\x3B\xFC\x71\xA3\xF4\x55\x68\xCF\xA9\x19\xFA\x0B\x62",
    )?;
    flag(rt, 0, 0x000000, b"\x40\xB2\xBC\xC3\x1F")
}

// Both sides of each limit.
fn refused_flags(rt: &HostRuntime) -> io::Result<()> {
    flag(rt, 40, 0x000000, &[0u8; 43])?;
    flag(rt, 40, 0x000000, &[0u8; 0])?;
    flag(rt, 39, 0x000000, &[0u8; 43])?;
    flag(rt, 0, 0x000000, &[0u8; 4])?;
    flag(rt, 0, 0x000000, &[0u8; 0])
}

fn main(rt: HostRuntime) -> io::Result<()> {
    constants(&rt)?;
    for channel in 0..40u8 {
        zeros(&rt, channel)?;
    }
    limits(&rt)?;
    check_values(&rt)?;
    starts(&rt)?;
    longest(&rt)?;
    on_advertising_channels(&rt)?;
    on_data_channels(&rt)?;
    beside_37(&rt)?;
    refused_flags(&rt)
}
