// A line of the input, read a character at a time: a letter, and octets in hexadecimal.
ghost use Rattle.std.specs.Prelude.{◌<◌, IfOk};

use arrayvec::ArrayVec;
use std::mem;
use thiserror::Error;

// The most octets that a line has, and that a request is lent.
pub(crate) const MOST: usize = 320;

type Octets = ArrayVec<u8, MOST>;

// Why a line is no request: what is met first.
#[derive(Clone, Copy, Debug, Error)]
pub(crate) enum Fault {
    #[error("no such request")]
    NoRequest,
    // Something else than a space stands there.
    #[error("no space behind its letter")]
    NoSpace,
    // Something else than a digit or a space stands there.
    #[error("an octet that is no number")]
    NoNumber,
    #[error("an octet of one digit")]
    OneDigit,
    #[error("a carriage return")]
    Return,
    #[error("too many octets")]
    TooMany,
    #[error("too few octets")]
    TooFew,
}

impl Fault {
    // What is at fault where `c` does not belong.
    pub(crate) fn at(c: u8, fault: Fault) -> Fault {
        if c == b'\r' { Fault::Return } else { fault }
    }
}

// The value of a digit, of either case.
fn digit(c: u8) -> Result<u8, Fault>
    ensures { IfOk result (λ d. d < 16) }
{
    match char::from(c).to_digit(16) {
        Some(digit) => Ok(digit as u8),
        None => Err(Fault::at(c, Fault::NoNumber)),
    }
}

// What a line goes on with.
#[derive(Clone, Copy)]
enum Next {
    Letter,
    Space,
    Octet,
    // The second digit of an octet, after this one.
    Digit(u8),
}

// A line as far as it is read: up to its first fault.
#[derive(Drop)]
pub(crate) struct Line {
    letter: Option<u8>,
    octets: Octets,
    next: Next,
    fault: Option<Fault>,
}

impl Line {
    pub(crate) fn new() -> Line {
        Line {
            letter: None,
            octets: Octets::new(),
            next: Next::Letter,
            fault: None,
        }
    }

    // As `new` makes it.
    pub(crate) fn clear(&mut self) {
        self.letter = None;
        self.octets.clear();
        self.next = Next::Letter;
        self.fault = None;
    }

    // Reads one character more. What follows a fault is passed over.
    pub(crate) fn push(&mut self, c: u8) {
        if self.fault.is_none() {
            if let Err(fault) = self.read(c) {
                self.fault = Some(fault);
            }
        }
    }

    fn read(&mut self, c: u8) -> Result<(), Fault> {
        self.next = match self.next {
            Next::Letter => {
                self.letter = Some(c);
                Next::Space
            }
            Next::Space if c == b' ' => Next::Octet,
            Next::Space => return Err(Fault::at(c, Fault::NoSpace)),
            Next::Octet if c == b' ' => Next::Octet,
            Next::Octet => Next::Digit(digit(c)?),
            Next::Digit(_) if c == b' ' => return Err(Fault::OneDigit),
            Next::Digit(high) => {
                let octet = (high << 4) | digit(c)?;
                self.octets.try_push(octet).map_err(|_| Fault::TooMany)?;
                Next::Octet
            }
        };
        Ok(())
    }

    pub(crate) fn has_begun(&self) -> bool {
        self.letter.is_some()
    }

    // The letter, and what follows it. An empty line has neither.
    pub(crate) fn parts(&self) -> Option<(u8, Fields<'_>)> {
        let fault = match self.next {
            Next::Digit(_) => self.fault.or(Some(Fault::OneDigit)),
            _ => self.fault,
        };
        let octets = &self.octets;
        Some((self.letter?, Fields { octets, fault }))
    }
}

// What a request is made of: the octets of a line that are still to be taken, and the fault after them, if there is one.
#[derive(Clone, Copy)]
pub(crate) struct Fields<'a> {
    octets: &'a [u8],
    fault: Option<Fault>,
}

impl<'a> Fields<'a> {
    pub(crate) fn array<const N: usize>(&mut self) -> Result<[u8; N], Fault> {
        let missing = self.fault.unwrap_or(Fault::TooFew);
        let (array, rest) = self.octets.split_first_chunk::<N>().ok_or(missing)?;
        self.octets = rest;
        Ok(*array)
    }

    pub(crate) fn octet(&mut self) -> Result<u8, Fault> {
        let [octet] = self.array::<1>()?;
        Ok(octet)
    }

    pub(crate) fn flag(&mut self) -> Result<bool, Fault> {
        Ok(self.octet()? == 1)
    }

    pub(crate) fn rest(&mut self) -> Result<&'a [u8], Fault> {
        match self.fault {
            Some(fault) => Err(fault),
            None => Ok(mem::replace(&mut self.octets, &[])),
        }
    }

    // That nothing is left.
    pub(crate) fn end(self) -> Result<(), Fault> {
        if !self.octets.is_empty() {
            return Err(Fault::TooMany);
        }
        self.fault.map_or(Ok(()), Err)
    }
}
