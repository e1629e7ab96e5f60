// What a program says on standard error where a read or a write fails, and whether it was given an argument.
#![tactic(auto)]

use std::env::{Env, FillError};
use std::fmt::InlineText;
use std::io;

// Says what failed, and why in the system's words, on a line of standard error.
pub fn fail(rt: &HostRuntime, what: &[u8], e: &io::Error) -> io::Result<()> {
    let text = InlineText::<256>::of(e);
    let said = text.as_str();
    // The system's number of the error follows its words, as ` (os error 28)`.
    let (words, _) = said.split_once(" (os error ").unwrap_or((said, ""));
    rt.stderr().write_all(what)?;
    eprintln!(rt; ": {words}")
}

// Whether the program was given an argument, whatever it is.
pub fn has_argument(rt: &HostRuntime) -> bool {
    !matches!(rt.arg(1, &mut [0u8; 1]), Err(FillError::NotPresent))
}
