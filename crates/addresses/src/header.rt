// The header of an advertising channel PDU, and the types of PDUs.
ghost use Rattle.std.specs.Prelude.{◌≡◌, ◌<◌};
ghost use Rattle.addresses.specs.Header.{new_header, type_code, pdu_type, is_beacon, allows_adv_data, type_of, tx_add, rx_add, length_of, set_tx_add, set_rx_add, set_length, parsed, header_at, header_octets, length_set};

use octets::bytes::{ByteReader, ByteWriter, FromBytes, ToBytes, u16_from_le_bytes};
use octets::error::Error;

// The 16 bits that precede the payload (drawn in specs/Header.antt).
#[derive(Clone, Copy, Debug, PartialEq, Eq)]
pub struct Header(u16);

impl Header {
    // The header that holds the code of a type and nothing else: for a type with a name, bits 4 to 15 are 0.
    pub fn new(ty: PduType) -> Header
        ensures { result ≡ new_header ty }
    {
        Header(u16::from(u8::from(ty)))
    }

    // The header of the first two octets.
    pub fn parse(raw: &[u8]) -> Result<Header, Error>
        ensures { result ≡ parsed raw.now }
    {
        let [low, high, ..] = raw else {
            return Err(Error::ShortHeader);
        };
        Ok(Header(u16_from_le_bytes(*low, *high)))
    }

    // The 16 bits; bit 0 goes out first.
    pub fn to_u16(self) -> u16
        ensures { result ≡ self.0 }
    {
        self.0
    }

    pub fn type_(self) -> PduType
        ensures { result ≡ type_of self }
    {
        PduType::from((self.0 % 16) as u8)
    }

    pub fn tx_add(self) -> bool
        ensures { result ≡ tx_add self }
    {
        self.0 / 64 % 2 == 1
    }

    // A setter for each box, by rubble's names: each is one expression.
    pub fn set_tx_add(self, value: bool) -> Header
        ensures { result ≡ set_tx_add value self }
    {
        Header(self.0 - 64 * (self.0 / 64 % 2) + 64 * u16::from(value))
    }

    pub fn rx_add(self) -> bool
        ensures { result ≡ rx_add self }
    {
        self.0 / 128 % 2 == 1
    }

    pub fn set_rx_add(self, value: bool) -> Header
        ensures { result ≡ set_rx_add value self }
    {
        Header(self.0 - 128 * (self.0 / 128 % 2) + 128 * u16::from(value))
    }

    // How many octets of payload follow. The Core has 6 to 37 only, which is not tested here.
    pub fn payload_length(self) -> u8
        ensures { result ≡ length_of self }
    {
        (self.0 / 256 % 64) as u8
    }

    // Sets the length of the payload, which is refused outside 6 to 37.
    pub fn set_payload_length(self, length: u8) -> Result<Header, Error>
        ensures { result ≡ length_set length self }
    {
        if !(6..=37).contains(&length) {
            return Err(Error::PayloadLength);
        }
        Ok(self.with_length(length))
    }

    // The same with a length that is known to have six bits.
    fn with_length(self, length: u8) -> Header
        requires { length < 64 }
        ensures { result ≡ set_length length self }
    {
        Header(self.0 - 256 * (self.0 / 256 % 64) + 256 * u16::from(length))
    }
}

impl FromBytes for Header {
    ghost read = { header_at };

    fn from_bytes(reader: ByteReader, s: &[u8]) -> Result<(Header, ByteReader), Error> {
        let (raw, next) = reader.read_u16_le(s)?;
        Ok((Header(raw), next))
    }
}

impl ToBytes for Header {
    ghost octets = { header_octets };

    fn to_bytes(self, writer: ByteWriter, out: &mut [u8]) -> Result<ByteWriter, Error> {
        writer.write_u16_le(out, self.0)
    }
}

// What bits 0 to 3 of a header say, by the Core's names.
#[derive(Clone, Copy, Debug, PartialEq, Eq)]
pub enum PduType {
    // `ADV_IND`: to all devices, for connecting and scanning.
    AdvInd,
    // `ADV_DIRECT_IND`: to one device, for connecting.
    AdvDirectInd,
    // `ADV_NONCONN_IND`: to all devices, a beacon.
    AdvNonconnInd,
    // `ADV_SCAN_IND`: to all devices, for scanning.
    AdvScanInd,
    // `SCAN_REQ`: from a scanner to an advertiser.
    ScanReq,
    // `SCAN_RSP`: the advertiser's answer to that.
    ScanRsp,
    // `CONNECT_IND`, which rubble calls a connect request: from an initiator to an advertiser.
    ConnectReq,
    // Any other.
    Unknown(u8),
}

// The type of a code.
impl From<u8> for PduType {
    ghost from_gives = { λ code ty. ty ≡ pdu_type code };

    #[tactic(auto, unfolding(crate::specs::Header::pdu_type))]
    fn from(code: u8) -> PduType {
        match code {
            0b0000 => PduType::AdvInd,
            0b0001 => PduType::AdvDirectInd,
            0b0010 => PduType::AdvNonconnInd,
            0b0011 => PduType::ScanReq,
            0b0100 => PduType::ScanRsp,
            0b0101 => PduType::ConnectReq,
            0b0110 => PduType::AdvScanInd,
            _ => PduType::Unknown(code),
        }
    }
}

// The code of a type.
impl From<PduType> for u8 {
    ghost from_gives = { λ ty code. code ≡ type_code ty };

    fn from(ty: PduType) -> u8 {
        match ty {
            PduType::AdvInd => 0b0000,
            PduType::AdvDirectInd => 0b0001,
            PduType::AdvNonconnInd => 0b0010,
            PduType::ScanReq => 0b0011,
            PduType::ScanRsp => 0b0100,
            PduType::ConnectReq => 0b0101,
            PduType::AdvScanInd => 0b0110,
            PduType::Unknown(code) => code,
        }
    }
}

impl PduType {
    // Whether a beacon has this type.
    pub fn is_beacon(self) -> bool
        ensures { result ≡ is_beacon self }
    {
        matches!(self, PduType::AdvNonconnInd)
    }

    // Whether such a PDU has records after its address.
    pub fn allows_adv_data(self) -> bool
        ensures { result ≡ allows_adv_data self }
    {
        matches!(
            self,
            PduType::AdvInd | PduType::AdvNonconnInd | PduType::AdvScanInd | PduType::ScanRsp
        )
    }
}
