// Headers read and set, PDUs built.
ghost use Rattle.std.specs.Prelude.{◌≡◌};
ghost use Rattle.addresses.specs.Address.{kind_of, address_of};
ghost use Rattle.addresses.specs.Header.{parsed, header_of, type_code, pdu_type, set_tx_add, set_rx_add, length_set};
ghost use Rattle.advertising.specs.PduBuf.{built_directed};
ghost use Rattle.exports.specs.Packets.{header_said, set_got, head_set, parsed_set, built_as, frame_of, built_frame};

use addresses::device_address::DeviceAddress;
use addresses::header::{Header, PduType};
use advertising::pdu_buf::PduBuf;
use answers::given::address;
use answers::got::{Got, one_number};
use octets::error::Error;

// For C: what a header says.
#[repr(C)]
#[derive(Clone, Copy)]
pub struct Head {
    pub number: u8,
    pub raw: u16,
    pub ty: u8,
    pub tx_add: bool,
    pub rx_add: bool,
    pub length: u8,
    pub is_beacon: bool,
    pub allows_adv_data: bool,
}

pub fn board_header(raw: &[u8]) -> Head
    ensures { result ≡ header_said (parsed raw.now) }
{
    match Header::parse(raw) {
        Ok(header) => {
            let ty = header.type_();
            Head {
                number: 0,
                raw: header.to_u16(),
                ty: u8::from(ty),
                tx_add: header.tx_add(),
                rx_add: header.rx_add(),
                length: header.payload_length(),
                is_beacon: ty.is_beacon(),
                allows_adv_data: ty.allows_adv_data(),
            }
        }
        Err(e) => Head {
            number: e.number(),
            raw: 0,
            ty: 0,
            tx_add: false,
            rx_add: false,
            length: 0,
            is_beacon: false,
            allows_adv_data: false,
        },
    }
}

fn set_all(header: Header, tx_add: bool, rx_add: bool, length: u8) -> Result<Header, Error>
    ensures { result ≡ length_set length (set_rx_add rx_add (set_tx_add tx_add header)) }
{
    let flagged = header.set_tx_add(tx_add).set_rx_add(rx_add);
    flagged.set_payload_length(length)
}

fn set_got(made: Result<Header, Error>) -> Got
    ensures { result ≡ set_got made }
{
    one_number(made.map(|header| header.to_u16() as usize))
}

// A header of a type, with TxAdd, RxAdd and length set.
pub fn board_new_header(ty: u8, tx_add: bool, rx_add: bool, length: u8) -> Got
    ensures { result ≡ head_set (header_of (type_code (pdu_type ty))) tx_add rx_add length }
{
    let header = Header::new(PduType::from(ty));
    set_got(set_all(header, tx_add, rx_add, length))
}

// The same of a header that is given.
pub fn board_set_header(raw: &[u8], tx_add: bool, rx_add: bool, length: u8) -> Got
    ensures { result ≡ parsed_set (parsed raw.now) tx_add rx_add length }
{
    let read = Header::parse(raw);
    set_got(read.and_then(|header| set_all(header, tx_add, rx_add, length)))
}

// For C: a built PDU, its header, and its payload with zeros after it.
#[repr(C)]
#[derive(Clone, Copy)]
pub struct Frame {
    pub number: u8,
    pub header: u16,
    pub payload: [u8; 37],
}

fn frame_of(number: u8, pdu: PduBuf) -> Frame
    ensures { result ≡ frame_of number pdu }
{
    let header = pdu.header();
    let payload = pdu.payload();
    Frame {
        number,
        header: header.to_u16(),
        payload,
    }
}

// A builder with records: 0 ADV_IND, 1 discoverable, 2 ADV_NONCONN_IND, 3 beacon, 4 SCAN_RSP, otherwise ADV_SCAN_IND.
#[tactic(auto, unfolding(crate::specs::Packets::built_as))]
fn built(which: u8, own: DeviceAddress, records: &[u8]) -> Result<PduBuf, Error>
    ensures { result ≡ built_as which own records.now }
{
    match which {
        0 => PduBuf::connectable_undirected(own, records),
        1 => PduBuf::discoverable(own, records),
        2 => PduBuf::nonconnectable_undirected(own, records),
        3 => PduBuf::beacon(own, records),
        4 => PduBuf::scan_response(own, records),
        _ => PduBuf::scannable_undirected(own, records),
    }
}

pub fn board_build(which: u8, own: &[u8; 6], random: bool, records: &[u8]) -> Frame
    ensures { result ≡ built_frame (built_as which (address_of own.now (kind_of random)) records.now) }
{
    match built(which, address(*own, random), records) {
        Ok(pdu) => frame_of(0, pdu),
        Err(e) => frame_of(e.number(), PduBuf::empty()),
    }
}

pub fn board_build_directed(
    own: &[u8; 6],
    random: bool,
    other: &[u8; 6],
    other_random: bool,
) -> Frame
    ensures { result ≡ frame_of 0 (built_directed (address_of own.now (kind_of random)) (address_of other.now (kind_of other_random))) }
{
    let pdu = PduBuf::connectable_directed(address(*own, random), address(*other, other_random));
    frame_of(0, pdu)
}
