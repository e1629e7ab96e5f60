// Advertising channel PDUs, built.
ghost use Rattle.std.specs.Prelude.{◌≡◌, ◌≤◌, [], length};
ghost use Rattle.octets.specs.Bytes.{out_after};
ghost use Rattle.advertising.specs.PduBuf.{header_for, empty_buf, with_records, built_of, connectable_pdu, nonconnectable_pdu, scannable_pdu, beacon_pdu, discoverable_pdu, scan_response_pdu, built_directed, payload_to, payload_after};

use addresses::device_address::DeviceAddress;
use addresses::header::{Header, PduType};
use octets::bytes::ByteWriter;
use octets::error::Error;
use records::ad_structure::Flags;
use records::area::rewrite_area;

// The most octets of a payload on an advertising channel (the Core, Vol 6 Part B, 2.3).
pub const MAX_PAYLOAD_SIZE: usize = 37;

// A PDU that was built: its header, and its payload with zeros after it.
#[derive(Clone, Copy)]
pub struct PduBuf {
    // The length of the payload stands in the header, as on the air; the buffer is of one size, since there is no heap.
    header: Header,
    payload_buf: [u8; MAX_PAYLOAD_SIZE],
}

impl PduBuf {
    // A PDU that was not built: all zeros, without payload.
    pub fn empty() -> PduBuf
        ensures { result ≡ empty_buf }
    {
        PduBuf {
            header: Header::new(PduType::AdvInd),
            payload_buf: [0u8; MAX_PAYLOAD_SIZE],
        }
    }

    // A PDU of an address and records, which are lent encoded: all of them are read, then written again.
    fn adv(ty: PduType, adv: DeviceAddress, adv_data: &[u8]) -> Result<PduBuf, Error>
        ensures { result ≡ built_of ty adv [] adv_data.now }
    {
        fill(ty, adv.is_random(), &adv.raw(), adv_data)
    }

    // An `ADV_IND` with these records.
    // A builder for each type, by rubble's names, over `adv`.
    pub fn connectable_undirected(
        advertiser_addr: DeviceAddress,
        advertiser_data: &[u8],
    ) -> Result<PduBuf, Error>
        ensures { result ≡ connectable_pdu advertiser_addr advertiser_data.now }
    {
        PduBuf::adv(PduType::AdvInd, advertiser_addr, advertiser_data)
    }

    // An `ADV_DIRECT_IND`: two addresses and no records.
    pub fn connectable_directed(
        advertiser_addr: DeviceAddress,
        initiator_addr: DeviceAddress,
    ) -> PduBuf
        ensures { result ≡ built_directed advertiser_addr initiator_addr }
    {
        let front = placed([0u8; MAX_PAYLOAD_SIZE], 0, &advertiser_addr.raw());
        let payload_buf = placed(front, 6, &initiator_addr.raw());
        let header = header_for(
            PduType::AdvDirectInd,
            advertiser_addr.is_random(),
            initiator_addr.is_random(),
            12,
        );
        PduBuf {
            header,
            payload_buf,
        }
    }

    // An `ADV_NONCONN_IND` with these records.
    pub fn nonconnectable_undirected(
        advertiser_addr: DeviceAddress,
        advertiser_data: &[u8],
    ) -> Result<PduBuf, Error>
        ensures { result ≡ nonconnectable_pdu advertiser_addr advertiser_data.now }
    {
        PduBuf::adv(PduType::AdvNonconnInd, advertiser_addr, advertiser_data)
    }

    // An `ADV_SCAN_IND` with these records.
    pub fn scannable_undirected(
        advertiser_addr: DeviceAddress,
        advertiser_data: &[u8],
    ) -> Result<PduBuf, Error>
        ensures { result ≡ scannable_pdu advertiser_addr advertiser_data.now }
    {
        PduBuf::adv(PduType::AdvScanInd, advertiser_addr, advertiser_data)
    }

    // What a beacon sends: an `ADV_NONCONN_IND` with these records.
    pub fn beacon(advertiser_addr: DeviceAddress, advertiser_data: &[u8]) -> Result<PduBuf, Error>
        ensures { result ≡ beacon_pdu advertiser_addr advertiser_data.now }
    {
        PduBuf::nonconnectable_undirected(advertiser_addr, advertiser_data)
    }

    // What a start sends: an `ADV_IND` with the record of Flags and then these.
    pub fn discoverable(
        advertiser_addr: DeviceAddress,
        advertiser_data: &[u8],
    ) -> Result<PduBuf, Error>
        ensures { result ≡ discoverable_pdu advertiser_addr advertiser_data.now }
    {
        let [b0, b1, b2, b3, b4, b5] = advertiser_addr.raw();
        let front = [b0, b1, b2, b3, b4, b5, 2, 1, Flags::discoverable().to_u8()];
        fill(
            PduType::AdvInd,
            advertiser_addr.is_random(),
            &front,
            advertiser_data,
        )
    }

    // A `SCAN_RSP` with these records.
    pub fn scan_response(advertiser_addr: DeviceAddress, scan_data: &[u8]) -> Result<PduBuf, Error>
        ensures { result ≡ scan_response_pdu advertiser_addr scan_data.now }
    {
        PduBuf::adv(PduType::ScanRsp, advertiser_addr, scan_data)
    }

    pub fn header(self) -> Header
        ensures { result ≡ self.header }
    {
        self.header
    }

    // The payload, with the zeros after it: the header counts its octets.
    pub fn payload(self) -> [u8; MAX_PAYLOAD_SIZE]
        ensures { result ≡ self.payload_buf }
    {
        self.payload_buf
    }

    // Copies the payload to the front of `out`, or writes nothing where that is too short.
    pub fn write_payload(self, out: &mut [u8]) -> Result<ByteWriter, Error>
        ensures { (result ≡ payload_to self out.old) × (out.new ≡ payload_after self out.old) }
    {
        let n = usize::from(self.header.payload_length()).min(MAX_PAYLOAD_SIZE);
        ByteWriter::new().write_slice(out, &self.payload_buf[..n])
    }
}

// The octets of a payload with others in their place from `at` on, where they fit.
fn placed(payload: [u8; MAX_PAYLOAD_SIZE], at: usize, octets: &[u8]) -> [u8; MAX_PAYLOAD_SIZE]
    ensures { result ≡ out_after octets.now payload at }
{
    let mut out = payload;
    let _ = ByteWriter { at }.write_slice(&mut out, octets);
    out
}

// The header of a PDU that is built.
fn header_for(ty: PduType, tx_add: bool, rx_add: bool, length: u8) -> Header
    requires { (6 ≤ length) × (length ≤ 37) }
    ensures { result ≡ header_for ty tx_add rx_add length }
{
    let header = Header::new(ty);
    header
        .set_payload_length(length)
        .unwrap_or(header)
        .set_tx_add(tx_add)
        .set_rx_add(rx_add)
}

// The PDU whose payload begins with these octets and goes on with records. Their number is known where it is compiled, so that no `memset` is called for those after them.
fn fill<const N: usize>(
    ty: PduType,
    random: bool,
    front: &[u8; N],
    adv_data: &[u8],
) -> Result<PduBuf, Error>
    requires { (6 ≤ length front.now) × (length front.now ≤ 9) }
    ensures { result ≡ with_records ty random front.now adv_data.now }
{
    let mut payload_buf = [0u8; MAX_PAYLOAD_SIZE];
    let writer = ByteWriter::new().write_slice(&mut payload_buf, front)?;
    let next = rewrite_area(adv_data, &mut payload_buf[writer.at..])?;
    let length = (writer.at + next.at) as u8;
    Ok(PduBuf {
        header: header_for(ty, random, false, length),
        payload_buf,
    })
}
