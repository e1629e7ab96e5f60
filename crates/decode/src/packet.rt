// A PDU read, as numbers.
ghost use Rattle.std.specs.Prelude.{◌≡◌};
ghost use Rattle.addresses.specs.Header.{parsed};
ghost use Rattle.decode.specs.Packet.{decoded_from};

use addresses::header::Header;
use advertising::pdu::Pdu;
use answers::packet::{Packet, packet_said};

pub fn board_decode(header: &[u8], payload: &[u8]) -> Packet
    ensures { result ≡ decoded_from (parsed header.now) payload.now }
{
    let read = Header::parse(header);
    packet_said(read.and_then(|header| Pdu::from_header_and_payload(header, payload)))
}
