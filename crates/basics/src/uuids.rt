// UUIDs read and written at a position.
ghost use Rattle.std.specs.Prelude.{◌≡◌};
ghost use Rattle.octets.specs.Bytes.{u16_read, u32_read, array_from, le_bytes, write_to, out_after};
ghost use Rattle.octets.specs.Uuid.{uuid16_from, uuid32_from, uuid128_from};
ghost use Rattle.answers.specs.Got.{written_got};
ghost use Rattle.basics.specs.Uuids.{uuid16_got, uuid32_got, uuid_said};

use answers::got::{Got, two_numbers, written};
use octets::bytes::{ByteReader, ByteWriter, FromBytes, ToBytes};
use octets::uuid::{Uuid16, Uuid32, Uuid128};

// For C: a UUID of 128 bits that was read, zeros where the read was refused, and the position after it.
#[repr(C)]
#[derive(Clone, Copy)]
pub struct UuidRead {
    pub number: u8,
    pub octets: [u8; 16],
    pub next: usize,
}

// A UUID, and the position after it.
pub fn board_read_uuid16(s: &[u8], at: usize) -> Got
    ensures { result ≡ uuid16_got (uuid16_from (u16_read s.now at)) }
{
    let read = Uuid16::from_bytes(ByteReader { at }, s);
    two_numbers(read.map(|(uuid, next)| (uuid.0 as usize, next.at)))
}

pub fn board_read_uuid32(s: &[u8], at: usize) -> Got
    ensures { result ≡ uuid32_got (uuid32_from (u32_read s.now at)) }
{
    let read = Uuid32::from_bytes(ByteReader { at }, s);
    two_numbers(read.map(|(uuid, next)| (uuid.0 as usize, next.at)))
}

pub fn board_read_uuid128(s: &[u8], at: usize) -> UuidRead
    ensures { result ≡ uuid_said (uuid128_from (array_from 16 s.now at)) }
{
    match Uuid128::from_bytes(ByteReader { at }, s) {
        Ok((uuid, next)) => {
            let octets = uuid.0;
            UuidRead {
                number: 0,
                octets,
                next: next.at,
            }
        }
        Err(e) => UuidRead {
            number: e.number(),
            octets: [0; 16],
            next: 0,
        },
    }
}

// The position after a UUID that is written.
pub fn board_write_uuid16(out: &mut [u8], at: usize, value: u16) -> Got
    ensures { (result ≡ written_got (write_to 2 out.old at)) × (out.new ≡ out_after (le_bytes 2 value) out.old at) }
{
    written(Uuid16(value).to_bytes(ByteWriter { at }, out))
}

pub fn board_write_uuid32(out: &mut [u8], at: usize, value: u32) -> Got
    ensures { (result ≡ written_got (write_to 4 out.old at)) × (out.new ≡ out_after (le_bytes 4 value) out.old at) }
{
    written(Uuid32(value).to_bytes(ByteWriter { at }, out))
}

pub fn board_write_uuid128(out: &mut [u8], at: usize, octets: &[u8; 16]) -> Got
    ensures { (result ≡ written_got (write_to 16 out.old at)) × (out.new ≡ out_after octets.now out.old at) }
{
    written(Uuid128::from_be_bytes(*octets).to_bytes(ByteWriter { at }, out))
}
