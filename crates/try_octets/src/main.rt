// Runs the leaves on worked values of the Core and of Unicode. Each line says what was done and prints what came of it.
#![tactic(auto)]

use octets::bytes::{ByteReader, ByteWriter, FromBytes, ToBytes};
use octets::error::Error;
use octets::time::Instant;
use octets::uuid::{Uuid16, Uuid32, Uuid128};
use std::io;

// Octets as pairs of hexadecimal digits. Each program that prints them has this loop: a crate for it would be no shorter.
fn hex(rt: &HostRuntime, s: &[u8]) -> io::Result<()> {
    for octet in s {
        print!(rt; " {octet:02x}")?;
    }
    Ok(())
}

// A number that was read.
fn number(rt: &HostRuntime, found: Result<u32, Error>) -> io::Result<()> {
    match found {
        Ok(n) => print!(rt; " {n}"),
        Err(e) => refusal(rt, e),
    }
}

fn refusal(rt: &HostRuntime, e: Error) -> io::Result<()> {
    print!(rt; " refused {}", e.number())
}

// Ends a line with the position after what was written.
fn written(rt: &HostRuntime, w: Result<ByteWriter, Error>, out: &[u8]) -> io::Result<()> {
    hex(rt, out)?;
    match w {
        Ok(next) => print!(rt; " next {}", next.at)?,
        Err(e) => refusal(rt, e)?,
    }
    println!(rt)
}

// The access address of the advertising channels, 8E89BED6 (Vol 6 Part B, 2.1.2), goes out least significant octet first.
fn access_address(rt: &HostRuntime) -> io::Result<()> {
    let mut out = [0xFFu8; 6];
    print!(rt; "write 8e89bed6 at 1:")?;
    let w = ByteWriter { at: 1 }.write_u32_le(&mut out, 0x8E89BED6);
    written(rt, w, &out)?;
    print!(rt; "read 32 bits at 1:")?;
    match (ByteReader { at: 1 }).read_u32_le(&out) {
        Ok((v, next)) => println!(rt; " {v:08x} next {}", next.at)?,
        Err(e) => refusal(rt, e)?,
    }
    print!(rt; "write 8e89bed6 at 3:")?;
    let mut short = [0xFFu8; 6];
    let w = ByteWriter { at: 3 }.write_u32_le(&mut short, 0x8E89BED6);
    written(rt, w, &short)
}

// A connect request's interval, 24 steps of 1.25 ms (Vol 6 Part B, 2.3.3.1).
fn interval(rt: &HostRuntime) -> io::Result<()> {
    let s = [0x18u8, 0x00];
    print!(rt; "read 16 bits of 18 00:")?;
    number(rt, ByteReader::new().read_u16_le(&s).map(|(v, _)| v as u32))?;
    print!(rt; "\nread 16 bits at 1:")?;
    number(
        rt,
        ByteReader { at: 1 }.read_u16_le(&s).map(|(v, _)| v as u32),
    )?;
    print!(rt; "\nread 8 bits past the end:")?;
    number(rt, ByteReader { at: 3 }.read_u8(&s).map(|(v, _)| v as u32))?;
    println!(rt)
}

// Six octets, or zeros where they cannot be read.
fn six_octets(rt: &HostRuntime, at: usize, s: &[u8]) -> io::Result<()> {
    print!(rt; "read 6 octets at {at}:")?;
    match (ByteReader { at }).read_array::<6>(s) {
        Ok(read) => {
            let octets = read.0;
            hex(rt, &octets)?;
            print!(rt; " next {}", read.1.at)?;
        }
        Err(e) => {
            hex(rt, &[0; 6])?;
            refusal(rt, e)?;
        }
    }
    println!(rt)
}

fn address(rt: &HostRuntime) -> io::Result<()> {
    let s = [0x42u8, 0x06, 0x01, 0x02, 0x03, 0x04, 0x05, 0xC6];
    six_octets(rt, 2, &s)?;
    six_octets(rt, 3, &s)
}

fn truncated(rt: &HostRuntime) -> io::Result<()> {
    let mut out = [0u8; 4];
    print!(rt; "write as much as fits at 2:")?;
    let w = ByteWriter { at: 2 }.write_slice_truncate(&mut out, b"abc");
    hex(rt, &out)?;
    number(rt, w.map(|(n, _)| n as u32))?;
    println!(rt)
}

// The base UUID with an alias in its front (Vol 3 Part B, 2.5.1): Heart Rate, and an alias of 32 bits.
fn uuids(rt: &HostRuntime) -> io::Result<()> {
    print!(rt; "uuid 180d:")?;
    hex(rt, &Uuid128::from(Uuid16(0x180D)).0)?;
    print!(rt; "\nuuid 12345678:")?;
    hex(rt, &Uuid128::from(Uuid32(0x12345678)).0)?;
    print!(rt; "\nwrite uuid 180d at 0:")?;
    let mut out = [0u8; 3];
    let w = Uuid16(0x180D).to_bytes(ByteWriter::new(), &mut out);
    written(rt, w, &out)?;
    print!(rt; "write uuid 12345678 at 1:")?;
    let mut out = [0xFFu8; 6];
    let w = Uuid32(0x12345678).to_bytes(ByteWriter { at: 1 }, &mut out);
    written(rt, w, &out)?;
    print!(rt; "read uuid at 1:")?;
    match Uuid32::from_bytes(ByteReader { at: 1 }, &out) {
        Ok((uuid, _)) => println!(rt; " {:08x}", uuid.0),
        Err(e) => refusal(rt, e),
    }
}

// A full UUID is written, and read, most significant octet first, as rubble holds it.
fn full_uuids(rt: &HostRuntime) -> io::Result<()> {
    print!(rt; "write uuid 0000180d-0000-1000-8000-00805f9b34fb at 1:")?;
    let mut out = [0xFFu8; 18];
    let full = Uuid128::from(Uuid16(0x180D));
    let w = full.to_bytes(ByteWriter { at: 1 }, &mut out);
    written(rt, w, &out)?;
    print!(rt; "read uuid at 1:")?;
    match Uuid128::from_bytes(ByteReader { at: 1 }, &out) {
        Ok((uuid, _)) => hex(rt, &uuid.0)?,
        Err(e) => refusal(rt, e)?,
    }
    println!(rt)
}

fn instants(rt: &HostRuntime) -> io::Result<()> {
    let late = Instant::from_raw_micros(4294967295);
    let next = late.add(1251);
    println!(rt; "1251 after 4294967295: {}", next.raw_micros())?;
    println!(rt; "from there back: {}", next.duration_since(late))
}

fn utf8(rt: &HostRuntime, s: &[u8]) -> io::Result<()> {
    print!(rt; "utf-8")?;
    hex(rt, s)?;
    println!(rt; ": {}", if utf8::is_utf8(s) { "yes" } else { "no" })
}

// The examples of the Unicode Standard, 3.9: table 3-4, then what the text and tables 3-8 to 3-11 say is ill-formed.
fn names(rt: &HostRuntime) -> io::Result<()> {
    utf8(rt, b"")?;
    utf8(rt, b"\x4D\xD0\xB0\xE4\xBA\x8C\xF0\x90\x8C\x82")?;
    utf8(rt, b"\xF4\x80\x83\x92")?;
    utf8(rt, b"\xC0\xAF")?;
    utf8(rt, b"\xE0\x9F\x80")?;
    utf8(rt, b"\xE0\x80\xBF")?;
    utf8(rt, b"\xED\xA0\x80")?;
    utf8(rt, b"\xED\x9F\xBF")?;
    utf8(rt, b"\xF0\x81\x82\x41")?;
    utf8(rt, b"\xF4\x91\x92\x93")?;
    utf8(rt, b"\xE1\x80")?;
    utf8(rt, b"\x80")?;
    utf8(rt, b"\xFF")
}

fn main(rt: HostRuntime) -> io::Result<()> {
    access_address(&rt)?;
    interval(&rt)?;
    address(&rt)?;
    truncated(&rt)?;
    uuids(&rt)?;
    full_uuids(&rt)?;
    instants(&rt)?;
    names(&rt)
}
