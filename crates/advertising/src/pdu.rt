// Advertising channel PDUs, read. Their payloads are drawn in specs/Pdu.antt.
ghost use Rattle.std.specs.Prelude.{◌≡◌, ◌+◌, ◌-◌, ◌*◌, ◌≤◌, length};
ghost use Rattle.octets.specs.Bytes.{part, u16_read};
ghost use Rattle.addresses.specs.Header.{header_read};
ghost use Rattle.records_spec.specs.Area.{read_area};
ghost use Rattle.addresses.specs.Address.{kind_of, address_of};
ghost use Rattle.advertising.specs.Pdu.{accuracy_of, ll_data_of, no_request, no_address, no_data, sender_of, window_end, has_receiver, data_in, data_place, pdu_as, undirected, directed, connect_request, decode_of, decoded_at, has_area, padded_of};

use addresses::device_address::{AddressKind, DeviceAddress};
use addresses::header::{Header, PduType};
use channels::channel_map::ChannelMap;
use octets::bytes::{ByteReader, FromBytes, part_of, u16_from_le_bytes, u32_from_le_bytes};
use octets::error::Error;
use records::area::{read_area, read_padded_area};

// A PDU that was read. rubble's is an enum, whose variants hold addresses; here the type says which fields have a meaning, and `RequestExample` what the others hold.
#[derive(Clone, Copy)]
pub struct Pdu {
    pub ty: PduType,
    // The device that sends this PDU.
    pub sender: DeviceAddress,
    // The device that it is sent to, for a directed advertisement, a scan request and a connect request.
    pub receiver: DeviceAddress,
    // The records that follow the address, where the type has them.
    pub adv_data: AdvData,
    // Connection parameters, for a connect request.
    pub lldata: ConnectRequestData,
}

// Where the record area of a PDU lies in its payload, and how many records it has.
// By start and length: the functions to link hand both to C.
#[derive(Clone, Copy)]
pub struct AdvData {
    pub start: usize,
    pub len: usize,
    pub count: usize,
}

impl AdvData {
    // The records as that part of the payload: no octets, at its start, where it has no such part.
    pub fn within(self, payload: &[u8]) -> &[u8]
        ensures { (result.ref_ptr ≡ data_place self payload.entry) × (result.now ≡ data_in self payload.now) }
    {
        part_of(payload, self.start, self.len)
    }
}

impl Pdu {
    // Reads a PDU. Order: the length, the type, then fields from the front.
    #[tactic(auto, unfolding(crate::specs::Pdu::decode_by, crate::specs::Pdu::by_type))]
    pub fn from_header_and_payload(header: Header, payload: &[u8]) -> Result<Pdu, Error>
        ensures { result ≡ decode_of header payload.now }
    {
        if usize::from(header.payload_length()) != payload.len() {
            return Err(Error::InvalidLength);
        }
        let ty = header.type_();
        match ty {
            PduType::AdvInd | PduType::AdvNonconnInd | PduType::AdvScanInd | PduType::ScanRsp => {
                read_undirected(ty, header, payload)
            }
            PduType::AdvDirectInd | PduType::ScanReq => read_directed(ty, header, payload),
            PduType::ConnectReq => read_connect_request(header, payload),
            PduType::Unknown(_) => Err(Error::InvalidValue),
        }
    }

    // Reads a PDU as the hub does: zeros may follow its records. With it, how many octets the records took.
    #[tactic(auto, using(crate::proofs::Payloads::hears_records, crate::proofs::Payloads::refuses_records, crate::proofs::Payloads::hears_bare, crate::proofs::Payloads::refuses_bare))]
    pub fn from_padded(header: Header, payload: &[u8]) -> Result<(Pdu, usize), Error>
        ensures { result ≡ padded_of header payload.now }
    {
        if has_area(header, payload) {
            let (count, taken) = read_padded_area(&payload[6..])?;
            return Ok((with_records(header.type_(), header, payload, count), taken));
        }
        // Without records both decoders answer alike.
        let pdu = Pdu::from_header_and_payload(header, payload)?;
        Ok((pdu, 0))
    }

    // The device that sends this PDU.
    pub fn sender(self) -> DeviceAddress
        ensures { result ≡ self.sender }
    {
        self.sender
    }

    // Whether the type has a second address.
    pub fn has_receiver(self) -> bool
        ensures { result ≡ has_receiver self.ty }
    {
        matches!(
            self.ty,
            PduType::AdvDirectInd | PduType::ScanReq | PduType::ConnectReq
        )
    }

    // The second address, zeros where there is none.
    pub fn receiver(self) -> DeviceAddress
        ensures { result ≡ self.receiver }
    {
        self.receiver
    }

    pub fn ty(self) -> PduType
        ensures { result ≡ self.ty }
    {
        self.ty
    }

    // The record area as that part of the payload: no octets, at its start, where it has no such part.
    pub fn advertising_data(self, payload: &[u8]) -> &[u8]
        ensures { (result.ref_ptr ≡ data_place self.adv_data payload.entry) × (result.now ≡ data_in self.adv_data payload.now) }
    {
        self.adv_data.within(payload)
    }

    // Reads header and payload from one slice. The payload is all that follows the header.
    pub fn from_bytes(reader: ByteReader, s: &[u8]) -> Result<Pdu, Error>
        ensures { result ≡ decoded_at (header_read (u16_read s.now reader.at)) s.now }
    {
        let (header, next) = Header::from_bytes(reader, s)?;
        Pdu::from_header_and_payload(header, &s[next.at..])
    }
}

// Types 0, 2, 4 and 6: an address, then records.
#[tactic(auto, unfolding(crate::specs::Pdu::undirected, crate::specs::Pdu::with_area))]
fn read_undirected(ty: PduType, header: Header, payload: &[u8]) -> Result<Pdu, Error>
    ensures { result ≡ undirected read_area ty header payload.now }
{
    if payload.len() < 6 {
        return Err(Error::Eof);
    }
    let count = read_area(&payload[6..])?;
    Ok(with_records(ty, header, payload, count))
}

// An address, then so many records.
// That the payload is long enough for it is asked for here and below, and no type's: the payload is lent, and each asks for another length.
fn with_records(ty: PduType, header: Header, payload: &[u8], count: usize) -> Pdu
    requires { 6 ≤ length payload.now }
    ensures { result ≡ pdu_as ty (sender_of header payload.now) no_address (record { start = 6; len = length payload.now - 6; count = count }) no_request }
{
    Pdu {
        ty,
        sender: address_at(header.tx_add(), payload, 0),
        receiver: no_address(),
        adv_data: AdvData {
            start: 6,
            len: payload.len() - 6,
            count,
        },
        lldata: no_request(),
    }
}

// Whether header and payload have records to read: the type has them, the length agrees, and there is an address.
fn has_area(header: Header, payload: &[u8]) -> bool
    ensures { result ≡ has_area header payload.now }
{
    header.type_().allows_adv_data()
        && usize::from(header.payload_length()) == payload.len()
        && 6 <= payload.len()
}

// Types 1 and 3: two addresses.
#[tactic(auto, unfolding(crate::specs::Pdu::directed))]
fn read_directed(ty: PduType, header: Header, payload: &[u8]) -> Result<Pdu, Error>
    ensures { result ≡ directed ty header payload.now }
{
    if payload.len() < 12 {
        return Err(Error::Eof);
    }
    Ok(Pdu {
        ty,
        sender: address_at(header.tx_add(), payload, 0),
        receiver: address_at(header.rx_add(), payload, 6),
        adv_data: no_data(),
        lldata: no_request(),
    })
}

// Type 5: two addresses, then connection parameters.
#[tactic(auto, unfolding(crate::specs::Pdu::connect_request))]
fn read_connect_request(header: Header, payload: &[u8]) -> Result<Pdu, Error>
    ensures { result ≡ connect_request header payload.now }
{
    if payload.len() < 34 {
        return Err(Error::Eof);
    }
    Ok(Pdu {
        ty: PduType::ConnectReq,
        sender: address_at(header.tx_add(), payload, 0),
        receiver: address_at(header.rx_add(), payload, 6),
        adv_data: no_data(),
        lldata: read_request(&payload[12..]),
    })
}

// The address of six octets, random or not.
fn address_at(random: bool, payload: &[u8], at: usize) -> DeviceAddress
    requires { at + 6 ≤ length payload.now }
    ensures { result ≡ address_of (part 6 payload.now at) (kind_of random) }
{
    let mut octets = [0u8; 6];
    let _ = ByteReader { at }.read_into(payload, &mut octets);
    DeviceAddress::new(octets, AddressKind::of(random))
}

// The address of a PDU that has none: zeros.
pub fn no_address() -> DeviceAddress
    ensures { result ≡ no_address }
{
    DeviceAddress::new([0, 0, 0, 0, 0, 0], AddressKind::Public)
}

// The place of the records of a PDU that has none.
pub fn no_data() -> AdvData
    ensures { result ≡ no_data }
{
    AdvData {
        start: 0,
        len: 0,
        count: 0,
    }
}

// What a connect request says of the connection (`LLData`).
#[derive(Clone, Copy)]
pub struct ConnectRequestData {
    access_address: u32,
    crc_init: u32,
    // WinSize in µs.
    win_size: u32,
    // WinOffset in µs.
    win_offset: u32,
    // Interval in µs.
    interval: u32,
    // How many events the board may sleep through.
    latency: u16,
    // Timeout in µs.
    timeout: u32,
    chm: ChannelMap,
    hop: u8,
    sca: SleepClockAccuracy,
}

impl ConnectRequestData {
    // The connection parameters of the 22 octets that follow a connect request's two addresses.
    pub fn from_octets(octets: [u8; 22]) -> ConnectRequestData
        ensures { result ≡ ll_data_of octets }
    {
        read_request(&octets)
    }

    // AA: the address of this connection's packets.
    pub fn access_address(self) -> u32
        ensures { result ≡ self.access_address }
    {
        self.access_address
    }

    // CRCInit: where the CRC of this connection begins.
    pub fn crc_init(self) -> u32
        ensures { result ≡ self.crc_init }
    {
        self.crc_init
    }

    // ChM: the channels that the connection may use.
    pub fn channel_map(self) -> ChannelMap
        ensures { result ≡ self.chm }
    {
        self.chm
    }

    // Hop: the step from one event's unmapped channel to the next.
    pub fn hop(self) -> u8
        ensures { result ≡ self.hop }
    {
        self.hop
    }

    // The end of the transmit window in µs from the end of the request, modulo 2^32 as instants are. A request that was read stays far below that.
    pub fn end_of_tx_window(self) -> u32
        ensures { result ≡ window_end self }
    {
        // 1,250 µs: the Core's transmitWindowDelay after a `CONNECT_IND`.
        let end = self.win_offset.wrapping_add(self.win_size);
        end.wrapping_add(1250)
    }

    // WinSize in µs.
    pub fn win_size(self) -> u32
        ensures { result ≡ self.win_size }
    {
        self.win_size
    }

    // WinOffset in µs.
    pub fn win_offset(self) -> u32
        ensures { result ≡ self.win_offset }
    {
        self.win_offset
    }

    // Interval: from one event to the next, in µs.
    pub fn interval(self) -> u32
        ensures { result ≡ self.interval }
    {
        self.interval
    }

    // Latency: how many events the board may sleep through.
    pub fn slave_latency(self) -> u16
        ensures { result ≡ self.latency }
    {
        self.latency
    }

    // Timeout: the silence after which the connection is lost, in µs.
    pub fn supervision_timeout(self) -> u32
        ensures { result ≡ self.timeout }
    {
        self.timeout
    }

    // SCA: how exact the clock of the device is that connects.
    pub fn sca(self) -> SleepClockAccuracy
        ensures { result ≡ self.sca }
    {
        self.sca
    }
}

// The connection parameters of a slice that begins with the 22 octets.
fn read_request(lldata: &[u8]) -> ConnectRequestData
    requires { 22 ≤ length lldata.now }
    ensures { result ≡ ll_data_of lldata.now }
{
    let hop_and_sca = lldata[21];
    ConnectRequestData {
        access_address: u32_from_le_bytes(lldata[0], lldata[1], lldata[2], lldata[3]),
        crc_init: u32_from_le_bytes(lldata[4], lldata[5], lldata[6], 0),
        win_size: micros(u16::from(lldata[7])),
        win_offset: micros(u16_from_le_bytes(lldata[8], lldata[9])),
        interval: micros(u16_from_le_bytes(lldata[10], lldata[11])),
        latency: u16_from_le_bytes(lldata[12], lldata[13]),
        timeout: u32::from(u16_from_le_bytes(lldata[14], lldata[15])) * 10_000,
        chm: ChannelMap::from_raw([lldata[16], lldata[17], lldata[18], lldata[19], lldata[20]]),
        hop: hop_and_sca % 32,
        sca: SleepClockAccuracy::from(hop_and_sca / 32),
    }
}

fn no_request() -> ConnectRequestData
    ensures { result ≡ no_request }
{
    ConnectRequestData {
        access_address: 0,
        crc_init: 0,
        win_size: 0,
        win_offset: 0,
        interval: 0,
        latency: 0,
        timeout: 0,
        chm: ChannelMap::from_raw([0, 0, 0, 0, 0]),
        hop: 0,
        sca: SleepClockAccuracy::Ppm251To500,
    }
}

// A count of 1.25 ms in µs.
fn micros(count: u16) -> u32
    ensures { result ≡ count * 1250 }
{
    u32::from(count) * 1250
}

// SCA, by the parts per million that the clock may be off.
#[derive(Clone, Copy, Debug, PartialEq, Eq)]
pub enum SleepClockAccuracy {
    Ppm251To500,
    Ppm151To250,
    Ppm101To150,
    Ppm76To100,
    Ppm51To75,
    Ppm31To50,
    Ppm21To30,
    Ppm0To20,
}

// The accuracy of a code of three bits.
impl From<u8> for SleepClockAccuracy {
    ghost from_gives = { λ code sca. sca ≡ accuracy_of code };

    fn from(code: u8) -> SleepClockAccuracy {
        match code {
            0 => SleepClockAccuracy::Ppm251To500,
            1 => SleepClockAccuracy::Ppm151To250,
            2 => SleepClockAccuracy::Ppm101To150,
            3 => SleepClockAccuracy::Ppm76To100,
            4 => SleepClockAccuracy::Ppm51To75,
            5 => SleepClockAccuracy::Ppm31To50,
            6 => SleepClockAccuracy::Ppm21To30,
            _ => SleepClockAccuracy::Ppm0To20,
        }
    }
}
