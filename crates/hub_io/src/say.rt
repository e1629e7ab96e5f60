// What a run says on standard error where a read or a write fails.
ghost use Rattle.std.specs.Prelude.{◌≤◌, length};

use crate::LAST;
use octets::bytes::part_of;
use std::fmt::InlineText;
use std::io;

// The columns of an item's number, which begins each line.
const NUMBER: usize = 6;

// A failure that was said.
#[derive(Clone, Copy)]
pub(crate) struct Said;

// Says what failed, with the number that begins the line of `lines` at `at`, and why in the system's words.
fn fail(rt: &HostRuntime, what: &str, lines: &[u8], at: usize, e: &io::Error) -> Said
    requires { at ≤ length lines.now }
{
    let start = match lines[..at].iter().rposition(|octet| *octet == b'\n') {
        Some(end) => end + 1,
        None => 0,
    };
    let column = std::str::from_utf8(part_of(lines, start, NUMBER)).unwrap_or("");
    let text = InlineText::<80>::new()
        .and_str(what, 80)
        .and_str(column.trim_start(), NUMBER);
    let _said = fail::fail(rt, text.as_str().as_bytes(), e);
    Said
}

// A line of the log was not written whole, that at `at`: a report's, or the last one, which is there where `has_last` says so.
pub(crate) fn unwritten(
    rt: &HostRuntime,
    lines: &[u8],
    at: usize,
    has_last: bool,
    e: &io::Error,
) -> Said
    requires { at ≤ length lines.now }
{
    let what = if has_last && lines.len() - at <= LAST {
        "hublog: writing the last line failed after item "
    } else {
        "hublog: writing failed at item "
    };
    fail(rt, what, lines, at, e)
}

// A read failed, when the last line would have been this one.
pub(crate) fn unread(rt: &HostRuntime, last: [u8; 15], e: &io::Error) -> Said {
    fail(rt, "hublog: reading failed after item ", &last, 0, e)
}
