// Octets written at a position, which may lie past the end: the position after them.
ghost use Rattle.std.specs.Prelude.{◌≡◌, [], ◌∷◌, length};
ghost use Rattle.octets.specs.Bytes.{left_from, le_bytes, write_to, out_after, fitting, truncate_to};
ghost use Rattle.answers.specs.Got.{written_got};
ghost use Rattle.basics.specs.Writes.{truncated_got};

use answers::got::Got;
use basics::writes;

// The position n octets on, which are kept.
#[unsafe(no_mangle)]
pub extern "C" fn board_write_skip(out: &[u8], at: usize, n: usize) -> Got
    ensures { result ≡ written_got (write_to n out.now at) }
{
    writes::board_write_skip(out, at, n)
}

// How many octets can be written.
#[unsafe(no_mangle)]
pub extern "C" fn board_space_left(out: &[u8], at: usize) -> usize
    ensures { result ≡ left_from out.now at }
{
    writes::board_space_left(out, at)
}

#[unsafe(no_mangle)]
pub extern "C" fn board_write_slice(out: &mut [u8], at: usize, other: &[u8]) -> Got
    ensures { (result ≡ written_got (write_to (length other.now) out.old at)) × (out.new ≡ out_after other.now out.old at) }
{
    writes::board_write_slice(out, at, other)
}

#[unsafe(no_mangle)]
pub extern "C" fn board_write_slice_truncate(out: &mut [u8], at: usize, other: &[u8]) -> Got
    ensures { (result ≡ truncated_got (truncate_to other.now out.old at)) × (out.new ≡ out_after (fitting other.now out.old at) out.old at) }
{
    writes::board_write_slice_truncate(out, at, other)
}

#[unsafe(no_mangle)]
pub extern "C" fn board_write_u8(out: &mut [u8], at: usize, byte: u8) -> Got
    ensures { (result ≡ written_got (write_to 1 out.old at)) × (out.new ≡ out_after (byte ∷ []) out.old at) }
{
    writes::board_write_u8(out, at, byte)
}

#[unsafe(no_mangle)]
pub extern "C" fn board_write_u16_le(out: &mut [u8], at: usize, value: u16) -> Got
    ensures { (result ≡ written_got (write_to 2 out.old at)) × (out.new ≡ out_after (le_bytes 2 value) out.old at) }
{
    writes::board_write_u16_le(out, at, value)
}

#[unsafe(no_mangle)]
pub extern "C" fn board_write_u32_le(out: &mut [u8], at: usize, value: u32) -> Got
    ensures { (result ≡ written_got (write_to 4 out.old at)) × (out.new ≡ out_after (le_bytes 4 value) out.old at) }
{
    writes::board_write_u32_le(out, at, value)
}
