// Lists of entries on a scanner: it is configured, its timer runs out, packets come. A list is given as octets, 272 for each entry:
//
//     | 0 kind | 1 CRC good | 2 0 | 3 length n | 4 time 4 | 8 interval 4 | 12 header 2 | 14 payload, n of 258 |
//
// Kinds: 0 configure, with a time and an interval; 1 timer update, at a time; otherwise a packet.
ghost use Rattle.std.specs.Prelude.{◌≡◌};
ghost use Rattle.beacon.specs.State.{scanner_state, update_step, scan_step};
ghost use Rattle.beacon_spec.specs.Scanner.{scanner_of};
ghost use Rattle.answers.specs.Given.{filter_for};
ghost use Rattle.exports.specs.Scans.{with_next, listen_said, hear_said, entry_after, entries_after, entry_said};

use crate::air::{Heard, told, unreported};
use crate::lists::{header_of, interval_of, octet, time_of};
use answers::given::filter;
use beacon::beacon::{BeaconScanner, Scanned, Updated};
use octets::bytes::part_of;
use octets::time::Instant;

// For C: what a scanner answers: of a packet what it reports and the channel to keep listening on, otherwise the channel and the next instant.
#[repr(C)]
#[derive(Clone, Copy)]
pub struct Listened {
    pub number: u8,
    pub reported: bool,
    pub random: bool,
    pub sender: [u8; 6],
    pub start: usize,
    pub len: usize,
    pub count: usize,
    pub taken: usize,
    pub channel: u8,
    pub next: u32,
}

fn with_next(said: Heard, next: u32) -> Listened
    ensures { result ≡ with_next said next }
{
    let sender = said.sender;
    Listened {
        number: said.number,
        reported: said.reported,
        random: said.random,
        sender,
        start: said.start,
        len: said.len,
        count: said.count,
        taken: said.taken,
        channel: said.channel,
        next,
    }
}

fn listens(updated: Updated) -> Listened
    ensures { result ≡ listen_said (update_step updated) }
{
    let cmd = updated.cmd;
    let on = cmd.channel;
    let next = cmd.next_update;
    with_next(unreported(0, on.channel()), next.raw_micros())
}

fn hears(scanned: Scanned) -> Listened
    ensures { result ≡ hear_said (scan_step scanned) }
{
    with_next(told(scanned), 0)
}

// The scanner after an entry. A packet hands none back: it leaves the scanner as it is.
#[tactic(auto, unfolding(crate::specs::Scans::entry_after))]
fn moved(scanner: BeaconScanner, entry: &[u8]) -> BeaconScanner
    ensures { scanner_state result ≡ entry_after entry.now (scanner_state scanner) }
{
    let at = Instant::from_raw_micros(time_of(entry));
    match octet(entry, 0) {
        0 => scanner.configure(at, interval_of(entry)).scanner,
        1 => scanner.timer_update(at).scanner,
        _ => scanner,
    }
}

// The scanner after a list of entries.
fn moved_by(scanner: BeaconScanner, entries: &[u8]) -> BeaconScanner
    ensures { scanner_state result ≡ entries_after (scanner_state scanner) entries.now }
{
    let mut listening = scanner;
    for entry in entries.chunks_exact(272) {
        listening = moved(listening, entry);
    }
    listening
}

#[tactic(auto, unfolding(crate::specs::Scans::entry_said))]
fn answered(scanner: BeaconScanner, list: &[u8], entry: &[u8]) -> Listened
    ensures { result ≡ entry_said entry.now list.now (scanner_state scanner) }
{
    let at = Instant::from_raw_micros(time_of(entry));
    match octet(entry, 0) {
        0 => listens(scanner.configure(at, interval_of(entry))),
        1 => listens(scanner.timer_update(at)),
        _ => {
            let header = header_of(part_of(entry, 12, 2));
            let payload = part_of(entry, 14, octet(entry, 3) as usize);
            let crc_ok = octet(entry, 1) == 1;
            hears(scanner.process_adv_packet(header, payload, crc_ok, list))
        }
    }
}

// The answer of an entry after a list of entries on a fresh scanner, with a filter list in use or without.
pub fn board_scanner_call(filtered: bool, list: &[u8], entries: &[u8], entry: &[u8]) -> Listened
    ensures { result ≡ entry_said entry.now list.now (entries_after (scanner_of (filter_for filtered)) entries.now) }
{
    let fresh = BeaconScanner::with_filter(filter(filtered));
    answered(moved_by(fresh, entries), list, entry)
}
