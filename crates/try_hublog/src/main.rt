// Tries the loop of `hub_io` on inputs that are made here, in files that are gone once they are closed. Prints the log of each, and of a long one how long it is, its CRC, and its
// first and last lines.
#![tactic(auto)]

ghost use Rattle.std.specs.Prelude.{◌≡◌, ◌≤◌, length, IfOk};

use hub_io::{Failed, Run, log_all, log_through};
use octets::bytes::part_of;
use std::alloc::AllocError;
use std::fs::File;
use std::io::{Read, Seek, SeekFrom};
use std::{fs, io};
use whitening::crc::{CRC_PRESET, crc};

// The files that are written, and removed again.
const SCRATCH: &str = "try_hublog.scratch";

const LOG: &str = "try_hublog.log";

// A file of these octets, from its front on. It is gone once it is closed.
fn scratch(rt: &HostRuntime, octets: &[u8]) -> io::Result<File> {
    fs::write(rt, SCRATCH, octets)?;
    let file = File::open(rt, SCRATCH)?;
    fs::remove_file(rt, SCRATCH)?;
    Ok(file)
}

// Prints the log of an input.
fn log_of(rt: &HostRuntime, input: &[u8]) -> io::Result<()> {
    let mut file = scratch(rt, input)?;
    let _run = log_all(rt, &mut file, &mut rt.stdout());
    Ok(())
}

fn short_runs(rt: &HostRuntime) -> io::Result<()> {
    println!(rt; "document 01's sample")?;
    log_of(rt, b"\x00\x01\x42\x09\x01\x02\x03\x04\x05\xC6\x02\x01\x06")?;
    println!(rt; "the sample, and an item that is cut short")?;
    log_of(
        rt,
        b"\x00\x01\x42\x09\x01\x02\x03\x04\x05\xC6\x02\x01\x06\x01\x42\x06\x0A",
    )?;
    println!(rt; "the sample, another first octet, and the sample again")?;
    log_of(
        rt,
        b"\x00\x01\x42\x09\x01\x02\x03\x04\x05\xC6\x02\x01\x06\x03\x00\x01\x42\x09\x01\x02\x03\x04\x05\xC6\x02\x01\x06",
    )?;
    println!(rt; "no input")?;
    log_of(rt, b"")
}

// Puts beacon n of the long input, of nine octets, whose sender's first two octets are n; a tick stands before every five-thousandth.
fn put_beacon(input: &mut Vec<u8>, n: u32) -> Result<(), AllocError> {
    if n % 5000 == 4999 {
        input.push(0x00)?;
    }
    let low = (n % 256) as u8;
    let high = (n / 256 % 256) as u8;
    let item = [0x01, 0x42, 0x06, low, high, 0x03, 0x04, 0x05, 0xC6];
    input.extend_from_slice(&item)
}

fn put_beacons(input: &mut Vec<u8>, count: u32) -> Result<(), AllocError> {
    for n in 0..count {
        put_beacon(input, n)?;
    }
    Ok(())
}

// Room for the log of the long input.
fn room() -> [u8; 600000]
    ensures { 600000 ≡ length result }
{
    [0; 600000]
}

// Reads until `buf` is full or the file ends, and answers how many octets it holds then.
fn read_full(file: &mut File, buf: &mut [u8]) -> io::Result<usize>
    ensures { IfOk result (λ n. n ≤ length buf.old) }
{
    let mut n = 0;
    for _ in 0..u64::MAX {
        let got = file.read(&mut buf[n..])?;
        if got == 0 {
            break;
        }
        n += got;
    }
    Ok(n)
}

// Says how long a log is, and prints its CRC, its first line and its last two.
fn print_ends(rt: &HostRuntime, log: &[u8]) -> io::Result<()> {
    println!(rt; " {} octets, CRC {:06x}", log.len(), crc(CRC_PRESET, log))?;
    rt.write_all(part_of(log, 0, 39))?;
    rt.write_all(part_of(log, log.len().saturating_sub(54), 54))
}

// Says how many octets a run wrote, whether it failed, and what of its log is found.
fn print_run(rt: &HostRuntime, run: Result<Run, Failed>, log: &[u8]) -> io::Result<()> {
    match run {
        Ok(run) => print!(rt; "written {}", run.written)?,
        Err(failed) => print!(rt; "written {}, failed", failed.written)?,
    }
    print!(rt; ", found")?;
    print_ends(rt, log)
}

// The log that a run wrote to the file `log`, and what of it is found there.
fn print_found(rt: &HostRuntime, run: Result<Run, Failed>) -> io::Result<()> {
    let mut log = File::open(rt, LOG)?;
    fs::remove_file(rt, LOG)?;
    let mut all = room();
    let n = read_full(&mut log, &mut all)?;
    print_run(rt, run, &all[..n])
}

// Runs the loop of `hub_io` with a buffer of 64 KiB, and prints what it wrote.
fn print_log(rt: &HostRuntime, input: &mut File) -> io::Result<()> {
    let mut log = File::create(rt, LOG)?;
    let run = log_all(rt, input, &mut log);
    print_found(rt, run)
}

// The same with at most 66 octets a read.
fn print_log_by_66(rt: &HostRuntime, input: &mut File) -> io::Result<()> {
    let mut log = File::create(rt, LOG)?;
    let mut buf = [0u8; 66];
    let mut out = [0u8; 288];
    let run = log_through(rt, input, &mut log, &mut buf, &mut out);
    print_found(rt, run)
}

// More than two full buffers of lines: a buffer of input holds 7,281 beacons of nine octets. And the same octets in more than two thousand reads.
fn long_runs(rt: &HostRuntime) -> io::Result<()> {
    let mut input = Vec::new(rt.alloc());
    put_beacons(&mut input, 15000)?;
    println!(rt; "15000 beacons")?;
    let mut file = scratch(rt, input.as_slice())?;
    print_log(rt, &mut file)?;
    println!(rt; "the same, at most 66 octets a read")?;
    let mut file = scratch(rt, input.as_slice())?;
    print_log_by_66(rt, &mut file)
}

// Blocks that just fill the room for their lines, and stop there: 7,281 beacons of nine octets in 64 KiB, seven in 66 octets.
fn full_runs(rt: &HostRuntime) -> io::Result<()> {
    let mut input = Vec::new(rt.alloc());
    put_beacons(&mut input, 7281)?;
    input.push(0x03)?;
    println!(rt; "7281 beacons, and another first octet")?;
    let mut file = scratch(rt, input.as_slice())?;
    print_log(rt, &mut file)?;
    let mut input = Vec::new(rt.alloc());
    put_beacons(&mut input, 7)?;
    input.push(0x03)?;
    println!(rt; "7 of them, at most 66 octets a read")?;
    let mut file = scratch(rt, input.as_slice())?;
    print_log_by_66(rt, &mut file)
}

fn put_ticks(input: &mut Vec<u8>, count: u32) -> Result<(), AllocError> {
    for _ in 0..count {
        input.push(0x00)?;
    }
    Ok(())
}

// A beacon of 66 octets after so many ticks.
fn put_after(input: &mut Vec<u8>, ticks: u32) -> Result<(), AllocError> {
    put_ticks(input, ticks)?;
    input.extend_from_slice(b"\x01\x42\x3F\x01\x02\x03\x04\x05\xC6")?;
    input.extend_from_slice(&[0; 57])
}

// After no tick, one, and so on up to 65: at 66 octets a read, reads of every size.
fn put_sizes(input: &mut Vec<u8>) -> Result<(), AllocError> {
    for k in 0..66 {
        put_after(input, k)?;
    }
    Ok(())
}

fn sized_run(rt: &HostRuntime) -> io::Result<()> {
    let mut input = Vec::new(rt.alloc());
    put_sizes(&mut input)?;
    println!(rt; "reads of 1 to 66 octets")?;
    let mut file = scratch(rt, input.as_slice())?;
    print_log_by_66(rt, &mut file)
}

// Nothing to read from, a folder: nothing is written.
fn failed_run(rt: &HostRuntime) -> io::Result<()> {
    println!(rt; "no descriptor")?;
    print_log(rt, &mut File::open(rt, ".")?)
}

// To the limit: a million beacons and the ticks between them, of which 999,999 items count. The log does not fit in the room, so its end is looked at.
fn longest_run(rt: &HostRuntime) -> io::Result<()> {
    let mut input = Vec::new(rt.alloc());
    put_beacons(&mut input, 1000000)?;
    println!(rt; "1000000 beacons")?;
    let mut file = scratch(rt, input.as_slice())?;
    let mut log = File::create(rt, LOG)?;
    let written = match log_all(rt, &mut file, &mut log) {
        Ok(run) => run.written,
        Err(failed) => failed.written,
    };
    print!(rt; "written {written}, its end")?;
    let mut log = File::open(rt, LOG)?;
    fs::remove_file(rt, LOG)?;
    log.seek(SeekFrom::End(-54))?;
    let mut end = [0u8; 100];
    let n = read_full(&mut log, &mut end)?;
    println!(rt; " {n} octets")?;
    rt.write_all(&end[..n])
}

fn main(rt: HostRuntime) -> io::Result<()> {
    short_runs(&rt)?;
    long_runs(&rt)?;
    full_runs(&rt)?;
    sized_run(&rt)?;
    failed_run(&rt)?;
    longest_run(&rt)
}
