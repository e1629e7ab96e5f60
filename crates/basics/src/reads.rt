// Octets read at a position, which may lie past the end.
ghost use Rattle.std.specs.Prelude.{◌≡◌, length};
ghost use Rattle.octets.specs.Bytes.{left_from, is_spent, skip_to, u8_read, u16_read, u32_read, slice_read, filled, array_from};
ghost use Rattle.answers.specs.Got.{passed_got};
ghost use Rattle.basics.specs.Reads.{left_got, value_got, part_said, five_said, six_said};

use answers::got::{Got, found, passed, two_numbers};
use octets::bytes::ByteReader;

// For C: a part that was read, and the position after it.
#[repr(C)]
#[derive(Clone, Copy)]
pub struct Part {
    pub number: u8,
    pub start: usize,
    pub len: usize,
    pub next: usize,
}

// For C, which has no const parameters: octets that were read, zeros where the read was refused, and the position after them.
#[repr(C)]
#[derive(Clone, Copy)]
pub struct Five {
    pub number: u8,
    pub octets: [u8; 5],
    pub next: usize,
}

#[repr(C)]
#[derive(Clone, Copy)]
pub struct Six {
    pub number: u8,
    pub octets: [u8; 6],
    pub next: usize,
}

// The position n octets on.
pub fn board_skip(s: &[u8], at: usize, n: usize) -> Got
    ensures { result ≡ passed_got (skip_to n s.now at) }
{
    passed(ByteReader { at }.skip(s, n))
}

// How many octets are left, and whether there are none.
pub fn board_bytes_left(s: &[u8], at: usize) -> Got
    ensures { result ≡ left_got (left_from s.now at) (is_spent s.now at) }
{
    let reader = ByteReader { at };
    found(reader.bytes_left(s), usize::from(reader.is_empty(s)))
}

pub fn board_read_slice(s: &[u8], at: usize, n: usize) -> Part
    ensures { result ≡ part_said (slice_read n s.now at) }
{
    let reader = ByteReader { at };
    match reader.read_slice(s, n) {
        Ok((part, next)) => Part {
            number: 0,
            start: part.start,
            len: part.len,
            next: next.at,
        },
        Err(e) => Part {
            number: e.number(),
            start: 0,
            len: 0,
            next: 0,
        },
    }
}

// Fills `dst`; the position after what was read.
pub fn board_read_into(s: &[u8], at: usize, dst: &mut [u8]) -> Got
    ensures { (result ≡ passed_got (skip_to (length dst.old) s.now at)) × (dst.new ≡ filled s.now at dst.old) }
{
    passed(ByteReader { at }.read_into(s, dst))
}

pub fn board_read_array5(s: &[u8], at: usize) -> Five
    ensures { result ≡ five_said (array_from 5 s.now at) }
{
    let reader = ByteReader { at };
    match reader.read_array::<5>(s) {
        Ok(read) => {
            let octets = read.0;
            Five {
                number: 0,
                octets,
                next: read.1.at,
            }
        }
        Err(e) => Five {
            number: e.number(),
            octets: [0; 5],
            next: 0,
        },
    }
}

pub fn board_read_array6(s: &[u8], at: usize) -> Six
    ensures { result ≡ six_said (array_from 6 s.now at) }
{
    let reader = ByteReader { at };
    match reader.read_array::<6>(s) {
        Ok(read) => {
            let octets = read.0;
            Six {
                number: 0,
                octets,
                next: read.1.at,
            }
        }
        Err(e) => Six {
            number: e.number(),
            octets: [0; 6],
            next: 0,
        },
    }
}

// A number, and the position after it.
pub fn board_read_u8(s: &[u8], at: usize) -> Got
    ensures { result ≡ value_got (u8_read s.now at) }
{
    let read = ByteReader { at }.read_u8(s);
    two_numbers(read.map(|(value, next)| (value as usize, next.at)))
}

pub fn board_read_u16_le(s: &[u8], at: usize) -> Got
    ensures { result ≡ value_got (u16_read s.now at) }
{
    let read = ByteReader { at }.read_u16_le(s);
    two_numbers(read.map(|(value, next)| (value as usize, next.at)))
}

pub fn board_read_u32_le(s: &[u8], at: usize) -> Got
    ensures { result ≡ value_got (u32_read s.now at) }
{
    let read = ByteReader { at }.read_u32_le(s);
    two_numbers(read.map(|(value, next)| (value as usize, next.at)))
}
