// UUIDs read and written at a position.
ghost use Rattle.std.specs.Prelude.{◌≡◌};
ghost use Rattle.octets.specs.Bytes.{u16_read, u32_read, array_from, le_bytes, write_to, out_after};
ghost use Rattle.octets.specs.Uuid.{uuid16_from, uuid32_from, uuid128_from};
ghost use Rattle.answers.specs.Got.{written_got};
ghost use Rattle.basics.specs.Uuids.{uuid16_got, uuid32_got, uuid_said};

use answers::got::Got;
use basics::uuids;
use basics::uuids::UuidRead;

// A UUID, and the position after it.
#[unsafe(no_mangle)]
pub extern "C" fn board_read_uuid16(s: &[u8], at: usize) -> Got
    ensures { result ≡ uuid16_got (uuid16_from (u16_read s.now at)) }
{
    uuids::board_read_uuid16(s, at)
}

#[unsafe(no_mangle)]
pub extern "C" fn board_read_uuid32(s: &[u8], at: usize) -> Got
    ensures { result ≡ uuid32_got (uuid32_from (u32_read s.now at)) }
{
    uuids::board_read_uuid32(s, at)
}

#[unsafe(no_mangle)]
pub extern "C" fn board_read_uuid128(s: &[u8], at: usize) -> UuidRead
    ensures { result ≡ uuid_said (uuid128_from (array_from 16 s.now at)) }
{
    uuids::board_read_uuid128(s, at)
}

// The position after a UUID that is written.
#[unsafe(no_mangle)]
pub extern "C" fn board_write_uuid16(out: &mut [u8], at: usize, value: u16) -> Got
    ensures { (result ≡ written_got (write_to 2 out.old at)) × (out.new ≡ out_after (le_bytes 2 value) out.old at) }
{
    uuids::board_write_uuid16(out, at, value)
}

#[unsafe(no_mangle)]
pub extern "C" fn board_write_uuid32(out: &mut [u8], at: usize, value: u32) -> Got
    ensures { (result ≡ written_got (write_to 4 out.old at)) × (out.new ≡ out_after (le_bytes 4 value) out.old at) }
{
    uuids::board_write_uuid32(out, at, value)
}

#[unsafe(no_mangle)]
pub extern "C" fn board_write_uuid128(out: &mut [u8], at: usize, octets: &[u8; 16]) -> Got
    ensures { (result ≡ written_got (write_to 16 out.old at)) × (out.new ≡ out_after octets.now out.old at) }
{
    uuids::board_write_uuid128(out, at, octets)
}
