// Headers and PDUs at a position.
ghost use Rattle.std.specs.Prelude.{◌≡◌};
ghost use Rattle.octets.specs.Bytes.{u16_read};
ghost use Rattle.addresses.specs.Header.{parsed, header_read, header_at};
ghost use Rattle.advertising.specs.Pdu.{decoded_at};
ghost use Rattle.answers.specs.Packet.{packet_said};
ghost use Rattle.basics.specs.At.{header_got, header_written, header_after};

use addresses::header::Header;
use advertising::pdu::Pdu;
use answers::got::{Got, refused, two_numbers, written};
use answers::packet::{Packet, packet_said};
use octets::bytes::{ByteReader, ByteWriter, FromBytes, ToBytes};

// A header's 16 bits, and the position after it.
pub fn board_read_header(s: &[u8], at: usize) -> Got
    ensures { result ≡ header_got (header_at s.now at) }
{
    let read = Header::from_bytes(ByteReader { at }, s);
    two_numbers(read.map(|(header, next)| (header.to_u16() as usize, next.at)))
}

// The header of two octets is written; the position after it.
pub fn board_write_header(out: &mut [u8], at: usize, raw: &[u8]) -> Got
    ensures { (result ≡ header_written (parsed raw.now) out.old at) × (out.new ≡ header_after (parsed raw.now) out.old at) }
{
    match Header::parse(raw) {
        Ok(header) => written(header.to_bytes(ByteWriter { at }, out)),
        Err(e) => refused(e),
    }
}

// A PDU whose header begins at a position, and whose payload is all that follows it.
pub fn board_read_pdu(s: &[u8], at: usize) -> Packet
    ensures { result ≡ packet_said (decoded_at (header_read (u16_read s.now at)) s.now) }
{
    packet_said(Pdu::from_bytes(ByteReader { at }, s))
}
