// One function to link, from C, Rust and compare/: that of decode, with its clauses. It stands apart from `exports_c`, so that the decoder has one caller in
// what is timed, as on a board.
#![tactic(auto)]

ghost use Rattle.std.specs.Prelude.{◌≡◌};
ghost use Rattle.addresses.specs.Header.{parsed};
ghost use Rattle.decode.specs.Packet.{decoded_from};

use answers::packet::Packet;
use decode::packet;

#[unsafe(no_mangle)]
pub extern "C" fn board_decode(header: &[u8], payload: &[u8]) -> Packet
    ensures { result ≡ decoded_from (parsed header.now) payload.now }
{
    packet::board_decode(header, payload)
}
