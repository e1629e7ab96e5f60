// A beacon sent, and a scanner.
ghost use Rattle.std.specs.Prelude.{◌≡◌, false};
ghost use Rattle.addresses.specs.Address.{kind_of, address_of};
ghost use Rattle.addresses.specs.Header.{parsed};
ghost use Rattle.beacon.specs.State.{scanner_state, update_step, scan_step};
ghost use Rattle.beacon_spec.specs.Sending.{beacon_of};
ghost use Rattle.beacon_spec.specs.Scanner.{timer_updated};
ghost use Rattle.exports.specs.Air.{broadcast_sent, not_sent, beacon_sent, beacon_after, scanner_with, updated_got, sighting_of, heard_said, heard_from, headless_of, says_nothing};

use addresses::header::{Header, PduType};
use advertising::pdu::{no_address, no_data};
use answers::given::{address, filter};
use answers::got::{Got, found};
use beacon::beacon::{
    Beacon, BeaconScanner, Report, Scanned, Sighting, Updated, is_report, report_number,
};
use channels::phy::AdvertisingChannel;
use octets::error::Error;
use octets::time::Instant;

// For C: what is transmitted of a beacon.
#[repr(C)]
#[derive(Clone, Copy)]
pub struct Sent {
    pub number: u8,
    pub header: u16,
    pub first: u8,
    pub second: u8,
    pub third: u8,
}

fn broadcast_of(broadcast: Result<(Header, [AdvertisingChannel; 3]), Error>) -> Sent
    ensures { result ≡ broadcast_sent broadcast }
{
    match broadcast {
        Ok(told) => {
            let (header, channels) = told;
            let [first, second, third] = channels;
            Sent {
                number: 0,
                header: header.to_u16(),
                first: first.channel(),
                second: second.channel(),
                third: third.channel(),
            }
        }
        Err(e) => not_sent(e),
    }
}

fn not_sent(e: Error) -> Sent
    ensures { result ≡ not_sent e }
{
    Sent {
        number: e.number(),
        header: 0,
        first: 0,
        second: 0,
        third: 0,
    }
}

pub fn board_beacon(own: &[u8; 6], random: bool, records: &[u8], tx: &mut [u8]) -> Sent
    ensures { (result ≡ beacon_sent (beacon_of (address_of own.now (kind_of random)) records.now) tx.old) × (tx.new ≡ beacon_after (beacon_of (address_of own.now (kind_of random)) records.now) tx.old) }
{
    match Beacon::new(address(*own, random), records) {
        Ok(beacon) => broadcast_of(beacon.broadcast(tx)),
        Err(refusal) => not_sent(refusal.error),
    }
}

// A scanner after up to 3 timer updates, all at one time.
#[tactic(auto, unfolding(crate::specs::Air::scanner_with))]
fn scanner(filtered: bool, time: u32, interval: u32, updates: u8) -> Updated
    ensures { update_step result ≡ scanner_with filtered time interval updates }
{
    let at = Instant::from_raw_micros(time);
    let configured = BeaconScanner::with_filter(filter(filtered)).configure(at, interval);
    let start = configured.scanner;
    match updates {
        0 => configured,
        1 => start.timer_update(at),
        2 => again(start.timer_update(at), at),
        _ => again(again(start.timer_update(at), at), at),
    }
}

fn again(updated: Updated, at: Instant) -> Updated
    ensures { update_step result ≡ timer_updated (scanner_state updated.scanner) at }
{
    let scanner = updated.scanner;
    scanner.timer_update(at)
}

// The channel that it listens on, and until when.
pub fn board_scanner(time: u32, interval: u32, updates: u8) -> Got
    ensures { result ≡ updated_got (scanner_with false time interval updates) }
{
    let updated = scanner(false, time, interval, updates);
    let cmd = updated.cmd;
    let channel = cmd.channel;
    let next = cmd.next_update;
    found(channel.channel() as usize, next.raw_micros() as usize)
}

// For C: what a scanner says of a packet.
#[repr(C)]
#[derive(Clone, Copy)]
pub struct Heard {
    pub number: u8,
    pub reported: bool,
    pub random: bool,
    pub sender: [u8; 6],
    pub start: usize,
    pub len: usize,
    pub count: usize,
    pub taken: usize,
    pub channel: u8,
}

pub(crate) fn told(scanned: Scanned) -> Heard
    ensures { result ≡ heard_said (scan_step scanned) }
{
    let report = scanned.report;
    let sighting = sighting_of(report);
    let from = sighting.sender;
    let place = sighting.adv_data;
    let sender = from.raw();
    Heard {
        number: report_number(report),
        reported: is_report(report),
        random: from.is_random(),
        sender,
        start: place.start,
        len: place.len,
        count: place.count,
        taken: sighting.taken,
        channel: scanned.channel.channel(),
    }
}

// The beacon that was heard, blank where none is reported.
fn sighting_of(report: Report) -> Sighting
    ensures { result ≡ sighting_of report }
{
    match report {
        Ok(Some(sighting)) => sighting,
        Ok(None) | Err(_) => Sighting {
            sender: no_address(),
            adv_data: no_data(),
            taken: 0,
        },
    }
}

// No report: a number and a channel.
pub(crate) fn unreported(number: u8, channel: u8) -> Heard
    ensures { result ≡ says_nothing number channel }
{
    Heard {
        number,
        reported: false,
        random: false,
        sender: [0; 6],
        start: 0,
        len: 0,
        count: 0,
        taken: 0,
        channel,
    }
}

// A header that is too short: the scanner judges its list alone, and a bad one is refused before the header.
fn headless(listening: BeaconScanner, list: &[u8], e: Error) -> Heard
    ensures { result ≡ headless_of (scanner_state listening) list.now e }
{
    let header = Header::new(PduType::AdvInd);
    let scanned = listening.process_adv_packet(header, &[], false, list);
    match scanned.report {
        Ok(_) => unreported(e.number(), 0),
        Err(_) => told(scanned),
    }
}

pub fn board_scan(
    filtered: bool,
    list: &[u8],
    updates: u8,
    header: &[u8],
    payload: &[u8],
    crc_ok: bool,
) -> Heard
    ensures { result ≡ heard_from (scanner_with filtered 0 0 updates).scanner (parsed header.now) payload.now crc_ok list.now }
{
    let updated = scanner(filtered, 0, 0, updates);
    let listening = updated.scanner;
    match Header::parse(header) {
        Ok(h) => told(listening.process_adv_packet(h, payload, crc_ok, list)),
        Err(e) => headless(listening, list, e),
    }
}
