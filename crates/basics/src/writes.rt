// Octets written at a position, which may lie past the end: the position after them.
ghost use Rattle.std.specs.Prelude.{◌≡◌, [], ◌∷◌, length};
ghost use Rattle.octets.specs.Bytes.{left_from, le_bytes, write_to, out_after, fitting, truncate_to};
ghost use Rattle.answers.specs.Got.{written_got};
ghost use Rattle.basics.specs.Writes.{truncated_got};

use answers::got::{Got, two_numbers, written};
use octets::bytes::ByteWriter;

// The position n octets on, which are kept.
pub fn board_write_skip(out: &[u8], at: usize, n: usize) -> Got
    ensures { result ≡ written_got (write_to n out.now at) }
{
    written(ByteWriter { at }.skip(out, n))
}

// How many octets can be written.
pub fn board_space_left(out: &[u8], at: usize) -> usize
    ensures { result ≡ left_from out.now at }
{
    ByteWriter { at }.space_left(out)
}

pub fn board_write_slice(out: &mut [u8], at: usize, other: &[u8]) -> Got
    ensures { (result ≡ written_got (write_to (length other.now) out.old at)) × (out.new ≡ out_after other.now out.old at) }
{
    written(ByteWriter { at }.write_slice(out, other))
}

// The number of octets that were written, and the position after them.
pub fn board_write_slice_truncate(out: &mut [u8], at: usize, other: &[u8]) -> Got
    ensures { (result ≡ truncated_got (truncate_to other.now out.old at)) × (out.new ≡ out_after (fitting other.now out.old at) out.old at) }
{
    let cut = ByteWriter { at }.write_slice_truncate(out, other);
    two_numbers(cut.map(|(n, next)| (n, next.at)))
}

pub fn board_write_u8(out: &mut [u8], at: usize, byte: u8) -> Got
    ensures { (result ≡ written_got (write_to 1 out.old at)) × (out.new ≡ out_after (byte ∷ []) out.old at) }
{
    written(ByteWriter { at }.write_u8(out, byte))
}

pub fn board_write_u16_le(out: &mut [u8], at: usize, value: u16) -> Got
    ensures { (result ≡ written_got (write_to 2 out.old at)) × (out.new ≡ out_after (le_bytes 2 value) out.old at) }
{
    written(ByteWriter { at }.write_u16_le(out, value))
}

pub fn board_write_u32_le(out: &mut [u8], at: usize, value: u32) -> Got
    ensures { (result ≡ written_got (write_to 4 out.old at)) × (out.new ≡ out_after (le_bytes 4 value) out.old at) }
{
    written(ByteWriter { at }.write_u32_le(out, value))
}
