// A beacon that is sent, and a scanner that hears beacons: no device and no mode.
ghost use Rattle.std.specs.Prelude.{◌≡◌};
ghost use Rattle.advertising.specs.Pdu.{data_in, data_place};
ghost use Rattle.advertising.specs.PduBuf.{payload_after};
ghost use Rattle.beacon_spec.specs.Sending.{beacon_of, broadcast_of};
ghost use Rattle.beacon_spec.specs.Scanner.{scanner_of, open_scanner, listening, configured, timer_updated, sighted, scanned, report_number, is_report};
ghost use Rattle.beacon.specs.State.{beacon_state, made_step, scanner_state, update_step, scan_step, data_of};

use addresses::device_address::DeviceAddress;
use addresses::filter::{AddressFilter, ScanFilter};
use addresses::header::Header;
use advertising::pdu::{Pdu, no_address, no_data};
use advertising::pdu_buf::PduBuf;
pub use beacon_spec::beacon::{Cmd, Report, Sighting};
use channels::phy::AdvertisingChannel;
use octets::error::Error;
use octets::time::Instant;

// What is sent of a beacon: one PDU, built once.
#[derive(Clone, Copy)]
pub struct Beacon {
    pdu: PduBuf,
}

// Why no beacon was made of an address and records, and the beacon of the address without records, which can be sent.
#[derive(Clone, Copy)]
pub struct Refusal {
    pub error: Error,
    pub bare: Beacon,
}

impl Beacon {
    // A beacon of an address and records, which are lent encoded: at most 31 octets.
    pub fn new(addr: DeviceAddress, data: &[u8]) -> Result<Beacon, Refusal>
        ensures { made_step result ≡ beacon_of addr «data».now }
    {
        match PduBuf::beacon(addr, data) {
            Ok(pdu) => Ok(Beacon { pdu }),
            Err(error) => {
                let pdu = PduBuf::beacon(addr, &[]).unwrap_or(PduBuf::empty());
                Err(Refusal {
                    error,
                    bare: Beacon { pdu },
                })
            }
        }
    }

    // Sends the beacon: the payload is written to the front of `tx`, or nothing where that is too short. The header is transmitted on 37, 38 and 39 in turn.
    pub fn broadcast(self, tx: &mut [u8]) -> Result<(Header, [AdvertisingChannel; 3]), Error>
        ensures { (result ≡ broadcast_of (beacon_state self) tx.old) × (tx.new ≡ payload_after (beacon_state self).pdu tx.old) }
    {
        self.pdu.write_payload(tx)?;
        Ok((self.pdu.header(), AdvertisingChannel::all()))
    }
}

// Listens for beacons, one advertising channel at a time, and sends nothing.
#[derive(Clone, Copy, Debug, PartialEq, Eq)]
pub struct BeaconScanner {
    filter: ScanFilter,
    // In µs.
    interval: u32,
    channel: AdvertisingChannel,
}

// A scanner that listens, and what the radio is to do for it.
#[derive(Clone, Copy)]
pub struct Updated {
    pub scanner: BeaconScanner,
    pub cmd: Cmd,
}

// What a packet gives: its report, and the channel to keep listening on.
#[derive(Clone, Copy)]
pub struct Scanned {
    pub report: Report,
    pub channel: AdvertisingChannel,
}

impl BeaconScanner {
    // A scanner without a filter: every sender passes.
    pub fn new() -> BeaconScanner
        ensures { scanner_state result ≡ open_scanner }
    {
        BeaconScanner::with_filter(AddressFilter::AllowAll)
    }

    // A scanner that reports those senders only that a filter passes.
    pub fn with_filter(scan_filter: AddressFilter) -> BeaconScanner
        ensures { scanner_state result ≡ scanner_of scan_filter }
    {
        BeaconScanner {
            filter: ScanFilter::new(scan_filter),
            interval: 0,
            channel: AdvertisingChannel::first(),
        }
    }

    // Begins to listen, on the first channel. The interval is in µs.
    pub fn configure(self, time: Instant, interval: u32) -> Updated
        ensures { update_step result ≡ configured (scanner_state self) time interval }
    {
        let scanner = BeaconScanner {
            interval,
            channel: AdvertisingChannel::first(),
            ..self
        };
        scanner.listen(time)
    }

    // What the timer brings about: the next channel in turn.
    pub fn timer_update(self, time: Instant) -> Updated
        ensures { update_step result ≡ timer_updated (scanner_state self) time }
    {
        let scanner = BeaconScanner {
            channel: self.channel.cycle(),
            ..self
        };
        scanner.listen(time)
    }

    // Listens on its channel for an interval from the given time on.
    fn listen(self, time: Instant) -> Updated
        ensures { update_step result ≡ listening (scanner_state self) time }
    {
        let cmd = Cmd {
            channel: self.channel,
            next_update: time.add(self.interval),
        };
        Updated { scanner: self, cmd }
    }

    // Takes a packet from the channel that it listens on. A bad filter list is refused, whatever the packet.
    #[tactic(auto, unfolding(beacon_spec::specs::Scanner::scanned))]
    // Header, payload and flag come apart, as rubble has them.
    pub fn process_adv_packet(
        self,
        header: Header,
        payload: &[u8],
        crc_ok: bool,
        list: &[u8],
    ) -> Scanned
        ensures { scan_step result ≡ scanned (scanner_state self) header payload.now crc_ok list.now }
    {
        Scanned {
            report: self.report(header, payload, crc_ok, list),
            channel: self.channel,
        }
    }

    // The report of that packet.
    fn report(self, header: Header, payload: &[u8], crc_ok: bool, list: &[u8]) -> Report
        ensures { result ≡ (scanned (scanner_state self) header payload.now crc_ok list.now).report }
    {
        match sighted(header, payload, crc_ok) {
            Some(sighting) => {
                let passes = self.filter.should_scan(list, sighting.sender)?;
                Ok(passes.then_some(sighting))
            }
            None => {
                // No sender to ask for: the filter only tests its list.
                self.filter.should_scan(list, no_address())?;
                Ok(None)
            }
        }
    }
}

impl Scanned {
    // The record area of a beacon as that part of its payload: no octets, at its start, where it has no such part, or no beacon is reported.
    // Beside the method of a PDU: a report holds no PDU.
    pub fn advertising_data(self, payload: &[u8]) -> &[u8]
        ensures { (result.ref_ptr ≡ data_place (data_of self.report) payload.entry) × (result.now ≡ data_in (data_of self.report) payload.now) }
    {
        let place = match self.report {
            Ok(Some(sighting)) => sighting.adv_data,
            Ok(None) | Err(_) => no_data(),
        };
        place.within(payload)
    }
}

// What a packet holds for a scanner without a filter. It is decoded, as the hub reads, only where its CRC is good and its type a beacon's.
#[tactic(auto, using(beacon_spec::proofs::Filtering::beacon_type), unfolding(beacon_spec::specs::Scanner::sighted))]
fn sighted(header: Header, payload: &[u8], crc_ok: bool) -> Option<Sighting>
    ensures { result ≡ sighted header payload.now crc_ok }
{
    if !crc_ok || !header.type_().is_beacon() {
        return None;
    }
    let (pdu, taken) = Pdu::from_padded(header, payload).ok()?;
    Some(Sighting {
        sender: pdu.sender,
        adv_data: pdu.adv_data,
        taken,
    })
}

// The refusal's number (document 01), 0 where there is none.
pub fn report_number(report: Report) -> u8
    ensures { result ≡ report_number report }
{
    match report {
        Ok(_) => 0,
        Err(e) => e.number(),
    }
}

// Whether a beacon is reported.
pub fn is_report(report: Report) -> bool
    ensures { result ≡ is_report report }
{
    matches!(report, Ok(Some(_)))
}
