// Octets read at a position, which may lie past the end.
ghost use Rattle.std.specs.Prelude.{◌≡◌, length};
ghost use Rattle.octets.specs.Bytes.{left_from, is_spent, skip_to, u8_read, u16_read, u32_read, slice_read, filled, array_from};
ghost use Rattle.answers.specs.Got.{passed_got};
ghost use Rattle.basics.specs.Reads.{left_got, value_got, part_said, five_said, six_said};

use answers::got::Got;
use basics::reads;
use basics::reads::{Five, Part, Six};

// The position n octets on.
#[unsafe(no_mangle)]
pub extern "C" fn board_skip(s: &[u8], at: usize, n: usize) -> Got
    ensures { result ≡ passed_got (skip_to n s.now at) }
{
    reads::board_skip(s, at, n)
}

// How many octets are left, and whether there are none.
#[unsafe(no_mangle)]
pub extern "C" fn board_bytes_left(s: &[u8], at: usize) -> Got
    ensures { result ≡ left_got (left_from s.now at) (is_spent s.now at) }
{
    reads::board_bytes_left(s, at)
}

#[unsafe(no_mangle)]
pub extern "C" fn board_read_slice(s: &[u8], at: usize, n: usize) -> Part
    ensures { result ≡ part_said (slice_read n s.now at) }
{
    reads::board_read_slice(s, at, n)
}

// Fills `dst`; the position after what was read.
#[unsafe(no_mangle)]
pub extern "C" fn board_read_into(s: &[u8], at: usize, dst: &mut [u8]) -> Got
    ensures { (result ≡ passed_got (skip_to (length dst.old) s.now at)) × (dst.new ≡ filled s.now at dst.old) }
{
    reads::board_read_into(s, at, dst)
}

#[unsafe(no_mangle)]
pub extern "C" fn board_read_array5(s: &[u8], at: usize) -> Five
    ensures { result ≡ five_said (array_from 5 s.now at) }
{
    reads::board_read_array5(s, at)
}

#[unsafe(no_mangle)]
pub extern "C" fn board_read_array6(s: &[u8], at: usize) -> Six
    ensures { result ≡ six_said (array_from 6 s.now at) }
{
    reads::board_read_array6(s, at)
}

// A number, and the position after it.
#[unsafe(no_mangle)]
pub extern "C" fn board_read_u8(s: &[u8], at: usize) -> Got
    ensures { result ≡ value_got (u8_read s.now at) }
{
    reads::board_read_u8(s, at)
}

#[unsafe(no_mangle)]
pub extern "C" fn board_read_u16_le(s: &[u8], at: usize) -> Got
    ensures { result ≡ value_got (u16_read s.now at) }
{
    reads::board_read_u16_le(s, at)
}

#[unsafe(no_mangle)]
pub extern "C" fn board_read_u32_le(s: &[u8], at: usize) -> Got
    ensures { result ≡ value_got (u32_read s.now at) }
{
    reads::board_read_u32_le(s, at)
}
