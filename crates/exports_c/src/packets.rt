// Headers read and set, PDUs built.
ghost use Rattle.std.specs.Prelude.{◌≡◌};
ghost use Rattle.addresses.specs.Address.{kind_of, address_of};
ghost use Rattle.addresses.specs.Header.{parsed, header_of, type_code, pdu_type};
ghost use Rattle.advertising.specs.PduBuf.{built_directed};
ghost use Rattle.exports.specs.Packets.{header_said, head_set, parsed_set, built_as, frame_of, built_frame};

use answers::got::Got;
use exports::packets;
use exports::packets::{Frame, Head};

#[unsafe(no_mangle)]
pub extern "C" fn board_header(raw: &[u8]) -> Head
    ensures { result ≡ header_said (parsed raw.now) }
{
    packets::board_header(raw)
}

// A header of a type, with TxAdd, RxAdd and length set.
#[unsafe(no_mangle)]
pub extern "C" fn board_new_header(ty: u8, tx_add: bool, rx_add: bool, length: u8) -> Got
    ensures { result ≡ head_set (header_of (type_code (pdu_type ty))) tx_add rx_add length }
{
    packets::board_new_header(ty, tx_add, rx_add, length)
}

// The same of a header that is given.
#[unsafe(no_mangle)]
pub extern "C" fn board_set_header(raw: &[u8], tx_add: bool, rx_add: bool, length: u8) -> Got
    ensures { result ≡ parsed_set (parsed raw.now) tx_add rx_add length }
{
    packets::board_set_header(raw, tx_add, rx_add, length)
}

#[unsafe(no_mangle)]
pub extern "C" fn board_build(which: u8, own: &[u8; 6], random: bool, records: &[u8]) -> Frame
    ensures { result ≡ built_frame (built_as which (address_of own.now (kind_of random)) records.now) }
{
    packets::board_build(which, own, random, records)
}

#[unsafe(no_mangle)]
pub extern "C" fn board_build_directed(
    own: &[u8; 6],
    random: bool,
    other: &[u8; 6],
    other_random: bool,
) -> Frame
    ensures { result ≡ frame_of 0 (built_directed (address_of own.now (kind_of random)) (address_of other.now (kind_of other_random))) }
{
    packets::board_build_directed(own, random, other, other_random)
}
