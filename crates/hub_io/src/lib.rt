// The hub's log from a reader to a writer: octets are read, and what the crate `hub` says is to be written is written.
//
// A read or a write that fails ends the run. Nothing is written after it but a line on standard error, which has the item.
#![tactic(auto)]

mod say;

ghost use Rattle.std.specs.Prelude.{◌≡◌, ◌&&◌, ◌+◌, ◌<◌, ◌≤◌, nat_le, length, take, IfOk, IfErr, OnOk};
ghost use Rattle.hub.specs.State.{hub_state, block_step};
ghost use Rattle.hub_spec.specs.Line.{last_size, room_for};
ghost use Rattle.hub_spec.specs.Log.{octets_left, block_lines, block_of, RunCounts};
ghost use Rattle.hub_spec.specs.Reads.{NextBlock, Ended};

use hub::{Block, Hub};
use say::Said;
use std::io::{ErrorKind, Read, Write};
use std::time::Duration;
use std::{io, thread};

// The octets of the longest item, and of the shortest that is reported; of a report's line, and of the last line.
const LONGEST: usize = 66;

const SHORTEST: usize = 9;

const LINE: usize = 39;

const LAST: usize = 15;

// A block, and how many octets were written for it.
#[derive(Clone, Copy)]
struct Step {
    block: Block,
    written: usize,
}

// A run that has ended: its hub, and how many octets were written.
#[derive(Clone, Copy)]
pub struct Run {
    pub hub: Hub,
    pub written: usize,
}

// A run whose read or write failed, which was said on standard error, or whose buffers are too small: its hub after the last block that it took in, also where
// the lines of that one were not all written, and how many octets were written for whole blocks before.
#[derive(Clone, Copy, Debug, PartialEq, Eq)]
pub struct Failed {
    pub hub: Hub,
    pub written: usize,
}

// Reads to `buf` from `kept` on, and says how many octets it holds then. The first `kept` octets stay. At the end of the input there are no more than these.
// A place beside the slice, here and below: what lies before it stays, on Err too, and the caller says so of the whole slice.
fn read_once<R: Read>(input: &mut R, buf: &mut [u8], kept: usize) -> io::Result<usize>
    requires { kept < length buf.old }
    ensures upto { IfOk result (λ upto. (kept ≤ upto) × (upto ≤ length buf.old)) }
    ensures kept { take kept buf.new ≡ take kept buf.old }
{
    let got = input.read(&mut buf[kept..])?;
    Ok(kept + got)
}

// The same, made again where a signal interrupts it.
fn read_again<R: Read>(input: &mut R, buf: &mut [u8], kept: usize) -> io::Result<usize>
    requires { kept < length buf.old }
    ensures upto { IfOk result (λ upto. (kept ≤ upto) × (upto ≤ length buf.old)) }
    ensures kept { take kept buf.new ≡ take kept buf.old }
{
    // A count, here and below: each loop is proved to end, and how often the system is asked is not known.
    for _ in 0..u64::MAX {
        match read_once(input, buf, kept) {
            Ok(upto) => return Ok(upto),
            Err(e) => {
                if e.kind() != ErrorKind::Interrupted {
                    return Err(e);
                }
            }
        }
    }
    Err(io::Error::from(ErrorKind::Interrupted))
}

// The same of any buffer: where there is no room, it fails and nothing is read.
pub fn read_more<R: Read>(input: &mut R, buf: &mut [u8], kept: usize) -> io::Result<usize>
    ensures upto { IfOk result (λ upto. (kept ≤ upto) × (upto ≤ length buf.old)) }
    ensures kept { take kept buf.new ≡ take kept buf.old }
{
    if buf.len() <= kept {
        return Err(io::Error::from(ErrorKind::InvalidInput));
    }
    read_again(input, buf, kept)
}

// Waits a millisecond.
fn wait(rt: &HostRuntime) {
    thread::sleep(rt, Duration::from_millis(1));
}

// Whether a write that failed may be tried again: a signal interrupted it, or there is no room yet. Then it waits first.
fn may_try_again(rt: &HostRuntime, e: &io::Error) -> bool {
    match e.kind() {
        ErrorKind::WouldBlock => {
            wait(rt);
            true
        }
        ErrorKind::Interrupted => true,
        _ => false,
    }
}

// Writes the octets of s from `done` on, or the first of them, and says how many of its octets are written then.
fn write_some<W: Write>(
    rt: &HostRuntime,
    output: &mut W,
    s: &[u8],
    done: usize,
) -> io::Result<usize>
    requires { done ≤ length s.now }
    ensures { IfOk result (λ upto. (done ≤ upto) × (upto ≤ length s.now)) }
{
    match output.write(&s[done..]) {
        Ok(0) => Err(io::Error::from(ErrorKind::WriteZero)),
        Ok(put) => Ok(done + put),
        Err(e) => {
            if may_try_again(rt, &e) {
                return Ok(done);
            }
            Err(e)
        }
    }
}

// Writes all of s, each write from where the one before it stopped, up to a write that fails. `done` says how many of its octets are written then.
pub fn write_out<W: Write>(
    rt: &HostRuntime,
    output: &mut W,
    s: &[u8],
    done: &mut usize,
) -> io::Result<()>
    ensures most { done.new ≤ length s.now }
    ensures all { OnOk result (done.new ≡ length s.now) }
{
    *done = 0;
    for _ in 0..u64::MAX {
        if s.len() <= *done {
            return Ok(());
        }
        *done = write_some(rt, output, s, *done)?;
    }
    Err(io::Error::from(ErrorKind::WriteZero))
}

// Writes lines, and answers how many octets these are, or says at which one writing failed.
fn write_lines<W: Write>(
    rt: &HostRuntime,
    output: &mut W,
    lines: &[u8],
    has_last: bool,
) -> Result<usize, Said>
    ensures { IfOk result (λ upto. upto ≡ length lines.now) }
{
    let mut upto = 0;
    match write_out(rt, output, lines, &mut upto) {
        Ok(()) => Ok(upto),
        Err(e) => Err(say::unwritten(rt, lines, upto, has_last, &e)),
    }
}

// Where nothing is taken in.
fn untaken(hub: Hub, kept: usize) -> Block
    ensures { result.hub ≡ hub }
{
    Block {
        hub,
        written: 0,
        kept,
        is_stopped: true,
    }
}

// Takes in the first `filled` octets, and writes what is to be written for them. What is left over of them stands at the front of `buf` then.
// Where a write failed, the block is answered too.
fn log_block<W: Write>(
    rt: &HostRuntime,
    output: &mut W,
    hub: Hub,
    buf: &mut [u8],
    filled: usize,
    is_end: bool,
    out: &mut [u8],
) -> Result<Step, Block>
    requires { RunCounts (hub_state hub) × ((filled ≤ length buf.old) × (room_for filled + last_size ≤ length out.old)) }
    ensures written { IfOk result (λ step. (block_step step.block ≡ block_of (hub_state hub) (take filled buf.old) is_end) × ((take step.block.kept buf.new ≡ octets_left (hub_state hub) (take filled buf.old)) × ((step.written ≡ step.block.written) × (take step.written out.new ≡ block_lines (hub_state hub) (take filled buf.old) is_end)))) }
    ensures failed { IfErr result (λ block. (block_step block ≡ block_of (hub_state hub) (take filled buf.old) is_end) × (take block.kept buf.new ≡ octets_left (hub_state hub) (take filled buf.old))) }
{
    // The proof shows that there is a block.
    let Some(block) = hub.take_in(buf, filled, is_end, out) else {
        return Err(untaken(hub, 0));
    };
    match write_lines(rt, output, &out[..block.written], block.is_stopped) {
        Ok(written) => Ok(Step { block, written }),
        Err(_) => Err(block),
    }
}

// Reads once, and writes what is to be written then. A read that brings nothing is the end of the input.
fn log_read<R: Read, W: Write>(
    rt: &HostRuntime,
    input: &mut R,
    output: &mut W,
    hub: Hub,
    kept: usize,
    buf: &mut [u8],
    out: &mut [u8],
) -> Result<Step, Block>
    requires { RunCounts (hub_state hub) × ((kept < length buf.old) × (room_for (length buf.old) + last_size ≤ length out.old)) }
    ensures { IfOk result (λ step. NextBlock (hub_state hub) (take kept buf.old) (block_step step.block) (take step.block.kept buf.new) out.new step.written) }
{
    match read_more(input, buf, kept) {
        Ok(filled) => log_block(rt, output, hub, buf, filled, filled == kept, out),
        Err(e) => {
            let _said = say::unread(rt, hub.last_line(kept), &e);
            Err(untaken(hub, kept))
        }
    }
}

// Reads and writes until reading stops. The loop has no count of reads: each one brings an octet of the items that still count, or ends it.
fn log_input<R: Read, W: Write>(
    rt: &HostRuntime,
    input: &mut R,
    output: &mut W,
    buf: &mut [u8],
    out: &mut [u8],
) -> Result<Run, Failed>
    requires { (66 ≤ length buf.old) × (room_for (length buf.old) + last_size ≤ length out.old) }
    ensures { IfOk result (λ run. Ended (hub_state run.hub) run.written) }
{
    let mut hub = Hub::new();
    let mut kept = 0;
    let mut written = 0;
    // By a loop: each read says how much is left for the next.
    loop {
        let step = match log_read(rt, input, output, hub, kept, buf, out) {
            Ok(step) => step,
            Err(block) => {
                let hub = block.hub;
                return Err(Failed { hub, written });
            }
        };
        let block = step.block;
        hub = block.hub;
        kept = block.kept;
        written += step.written;
        if block.is_stopped {
            return Ok(Run { hub, written });
        }
    }
}

// Room for 64 KiB of the input.
fn large_buffer() -> [u8; 65536]
    ensures { 65536 ≡ length result }
{
    [0; 65536]
}

// Room for what is to be written for all that `large_buffer` holds.
fn lines_buffer() -> [u8; 283974]
    ensures { 283974 ≡ length result }
{
    [0; 283974]
}

// Whether a buffer holds the longest item, and there is room for what is to be written for all that it holds.
fn has_room(size: usize, space: usize) -> bool
    ensures { result ≡ nat_le 66 size && nat_le (room_for size + last_size) space }
{
    LONGEST <= size && LAST <= space && size / SHORTEST <= (space - LAST) / LINE
}

// Reads the hub's input from a reader to its end, and writes its log to a writer, through buffers that are lent. Where they are too small, the run
// fails before it has read.
pub fn log_through<R: Read, W: Write>(
    rt: &HostRuntime,
    input: &mut R,
    output: &mut W,
    buf: &mut [u8],
    out: &mut [u8],
) -> Result<Run, Failed>
    ensures { IfOk result (λ run. Ended (hub_state run.hub) run.written) }
{
    if has_room(buf.len(), out.len()) {
        log_input(rt, input, output, buf, out)
    } else {
        let hub = Hub::new();
        Err(Failed { hub, written: 0 })
    }
}

// The same through buffers of its own, which hold 64 KiB of the input.
pub fn log_all<R: Read, W: Write>(
    rt: &HostRuntime,
    input: &mut R,
    output: &mut W,
) -> Result<Run, Failed>
    ensures { IfOk result (λ run. Ended (hub_state run.hub) run.written) }
{
    let mut buf = large_buffer();
    let mut out = lines_buffer();
    log_input(rt, input, output, &mut buf, &mut out)
}
