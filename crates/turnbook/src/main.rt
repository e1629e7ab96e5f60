// Reads a club's input from standard input to its end, and prints the lines of its book (docs/TURNBOOK.md). What the lines are is the crate `club`'s.
//
// A read or a write that fails ends the run. Nothing is written after it but a line on standard error.
#![tactic(auto)]

ghost use Rattle.std.specs.Prelude.{◌≤◌, length, IfOk};

use club::Club;
use hub_io::{read_more, write_out};
use octets::bytes::u16_from_le_bytes;
use std::io;
use std::io::{Read, Write};

// The octets of the company number, and the highest that begins an item.
const COMPANY: usize = 2;

const LAST_ITEM: u8 = 0x07;

// What ends a run before the last line is written.
#[derive(Drop)]
enum Failure {
    Read(io::Error),
    Write(io::Error),
    NoCompany,
}

fn usage(rt: &HostRuntime) -> io::Result<()> {
    eprintln!(rt; "usage: turnbook < INPUT > LINES")?;
    eprintln!(rt;
        "turnbook takes no argument. It reads a club's input from standard input and prints the lines of its book to standard output."
    )
}

// Reads to `buf` from `kept` on, and answers how many octets it holds then.
fn read_on<R: Read>(input: &mut R, buf: &mut [u8], kept: usize) -> Result<usize, Failure>
    ensures { IfOk result (λ upto. (kept ≤ upto) × (upto ≤ length buf.old)) }
{
    read_more(input, buf, kept).map_err(Failure::Read)
}

// Reads until the company number is there, or the input has ended.
fn read_company<R: Read>(input: &mut R, buf: &mut [u8]) -> Result<usize, Failure>
    ensures { IfOk result (λ upto. upto ≤ length buf.old) }
{
    match read_on(input, buf, 0)? {
        1 => read_on(input, buf, 1),
        upto => Ok(upto),
    }
}

fn write_on<W: Write>(rt: &HostRuntime, output: &mut W, s: &[u8]) -> Result<(), Failure> {
    let mut done = 0;
    write_out(rt, output, s, &mut done).map_err(Failure::Write)
}

// Takes the items at the front of s, as many as there is room for lines in `out`, and writes their lines; and so on until no whole item stands at the front of what
// is left. Answers the club and how many octets the items have.
fn print<W: Write>(
    rt: &HostRuntime,
    output: &mut W,
    mut club: Club,
    s: &[u8],
    out: &mut [u8],
) -> Result<(Club, usize), Failure>
    ensures { IfOk result (λ taken. taken.1 ≤ length s.now) }
{
    let mut at = 0;
    // By a loop: each call says how many octets it took.
    while at < s.len() {
        let done = club.take_items(&s[at..], out);
        write_on(rt, output, &out[..done.written])?;
        club = done.club;
        at += done.taken;
        if done.taken == 0 {
            break;
        }
    }
    Ok((club, at))
}

// No item begins with these octets, whatever follows them.
fn is_stuck(rest: &[u8]) -> bool {
    matches!(rest.first(), Some(first) if LAST_ITEM < *first)
}

// Takes the items of the first `filled` octets and of those that are read after them, and writes the last line at the end.
fn serve<R: Read, W: Write>(
    rt: &HostRuntime,
    input: &mut R,
    output: &mut W,
    mut club: Club,
    buf: &mut [u8],
    mut filled: usize,
    out: &mut [u8],
) -> Result<(), Failure>
    requires { filled ≤ length buf.old }
{
    // A count: each loop is proved to end, and how often the system is asked is not known.
    for _ in 0..u64::MAX {
        let (after, taken) = print(rt, output, club, &buf[..filled], out)?;
        club = after;
        buf.copy_within(taken..filled, 0);
        let left = filled - taken;
        let is_last = is_stuck(&buf[..left]);
        if !is_last {
            filled = read_on(input, buf, left)?;
        }
        if is_last || filled == left {
            return write_on(rt, output, &club.last_line(left));
        }
    }
    Ok(())
}

fn run<R: Read, W: Write>(rt: &HostRuntime, input: &mut R, output: &mut W) -> Result<(), Failure> {
    let mut buf = [0u8; 65536];
    let start = read_company(input, &mut buf)?;
    if start < COMPANY {
        return Err(Failure::NoCompany);
    }
    let club = Club::new(u16_from_le_bytes(buf[0], buf[1]));
    buf.copy_within(COMPANY..start, 0);
    let mut out = [0u8; 65536];
    serve(rt, input, output, club, &mut buf, start - COMPANY, &mut out)
}

fn main(rt: HostRuntime) -> io::Result<()> {
    let _said = if fail::has_argument(&rt) {
        usage(&rt)
    } else {
        match run(&rt, &mut rt.stdin(), &mut rt.stdout()) {
            Ok(()) => Ok(()),
            Err(Failure::Read(e)) => fail::fail(&rt, b"turnbook: reading failed", &e),
            Err(Failure::Write(e)) => fail::fail(&rt, b"turnbook: writing failed", &e),
            Err(Failure::NoCompany) => eprintln!(&rt; "turnbook: no company number"),
        }
    };
    Ok(())
}
