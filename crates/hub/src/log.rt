// The log: what the hub has counted, and the octets that it takes in.
ghost use Rattle.std.specs.Prelude.{◌≡◌, cond, ◌||◌, [], ◌++◌, ◌+◌, ◌-◌, ◌≤◌, length, take, drop};
ghost use Rattle.octets.specs.Bytes.{written, at_front};
ghost use Rattle.columns.specs.Table.{octet_columns};
ghost use Rattle.beacon.specs.State.{scanner_state};
ghost use Rattle.hub_spec.specs.Line.{line, reports_in, last_size, room_for};
ghost use Rattle.hub_spec.specs.Log.{start, heard_in, scanner_after, left_over, last_line, fresh_hub, is_stuck, logged_of, block_lines, block_of, RunCounts, is_ready, taken_in, rest_in, lines_in, rest_after, lines_after};
ghost use Rattle.hub.specs.State.{hub_state, logged_step, block_step, taken_step};

use crate::line::log_scanned;
use addresses::header::Header;
use beacon::beacon::BeaconScanner;
use octets::time::Instant;

// The highest item number that six columns hold.
const MOST_ITEMS: usize = 999_999;

// The octets of a report's line, of the last line, and of the shortest item that is reported.
const LINE: usize = 39;

const LAST: usize = 15;

const SHORTEST: usize = 9;

// What the hub has counted, and the scanner that it listens with.
#[derive(Clone, Copy, Debug, PartialEq, Eq)]
pub struct Hub {
    items: usize,
    reports: usize,
    scanner: BeaconScanner,
}

// What logging the items of a block did.
#[derive(Clone, Copy)]
struct Logged {
    hub: Hub,
    // The octets of the whole items.
    taken: usize,
    // The octets of the lines.
    written: usize,
}

// What taking in the octets that a read brought did.
#[derive(Clone, Copy)]
pub struct Block {
    pub hub: Hub,
    // The octets that are to be written.
    pub written: usize,
    // The octets that are left over, at the front of the buffer.
    pub kept: usize,
    // Reading stops: the last line is among what is to be written.
    pub is_stopped: bool,
}

// Has the scanner hear an item, and writes its line, if it has one, to the front of `out`. A tick is no packet.
fn log_item(number: usize, scanner: BeaconScanner, item: &[u8], out: &mut [u8]) -> usize
    requires { room_for (length item.now) ≤ length out.old }
    ensures { (result ≡ reports_in (heard_in (scanner_state scanner) item.now)) × (out.new ≡ at_front (line number (heard_in (scanner_state scanner) item.now)) out.old) }
{
    if item.len() < 3 {
        return 0;
    }
    match Header::parse(&item[1..3]) {
        Ok(header) => {
            let scanned = scanner.process_adv_packet(
                header,
                &item[3..],
                item[0] == items::CRC_GOOD,
                &item[..0],
            );
            log_scanned(number, scanned, item, out)
        }
        Err(_) => 0,
    }
}

// The input has ticks and no times.
pub fn start() -> Instant
    ensures { result ≡ start }
{
    Instant::from_raw_micros(0)
}

// The scanner after an item: a tick moves it to the next channel. By two tests: a `match` on `first` takes 18 instructions more for each item.
pub fn listen(scanner: BeaconScanner, item: &[u8]) -> BeaconScanner
    ensures { scanner_state result ≡ scanner_after (scanner_state scanner) item.now }
{
    if item.len() == 0 {
        return scanner;
    }
    if item[0] == items::TICK {
        let updated = scanner.timer_update(start());
        return updated.scanner;
    }
    scanner
}

// Logs the whole items at the front of s.
fn log_items(hub: Hub, s: &[u8], out: &mut [u8]) -> Logged
    requires { RunCounts (hub_state hub) × (room_for (length s.now) ≤ length out.old) }
    ensures { (logged_step result ≡ logged_of (hub_state hub) s.now) × (out.new ≡ lines_in (hub_state hub) s.now out.old) }
{
    let mut items = hub.items;
    let mut reports = hub.reports;
    let mut scanner = hub.scanner;
    let mut at = 0;
    let mut written = 0;
    // By a loop: each item says where the next begins.
    while items < MOST_ITEMS {
        let Some(size) = items::whole_size(s, at) else {
            break;
        };
        let item = &s[at..at + size];
        items += 1;
        let heard = log_item(items, scanner, item, &mut out[written..]);
        reports += heard;
        scanner = listen(scanner, item);
        written += LINE * heard;
        at += size;
    }
    Logged {
        hub: Hub {
            items,
            reports,
            scanner,
        },
        taken: at,
        written,
    }
}

// No item can begin with these octets any more, whatever follows them.
#[tactic(auto, unfolding(hub_spec::specs::Log::is_stuck))]
fn is_stuck(items: usize, rest: &[u8]) -> bool
    ensures { result ≡ is_stuck items rest.now }
{
    rest.first()
        .is_some_and(|first| MOST_ITEMS <= items || items::CRC_BAD < *first)
}

// Reading stops: the input has ended, or nothing that may follow makes an item of what is left over.
fn is_last(is_end: bool, items: usize, rest: &[u8]) -> bool
    ensures { result ≡ is_end || is_stuck items rest.now }
{
    is_end || is_stuck(items, rest)
}

// `take_in` where all is ready.
fn take_block(hub: Hub, buf: &mut [u8], filled: usize, is_end: bool, out: &mut [u8]) -> Block
    requires { RunCounts (hub_state hub) × ((filled ≤ length buf.old) × (room_for filled + last_size ≤ length out.old)) }
    ensures { (block_step result ≡ block_of (hub_state hub) (take filled buf.old) is_end) × ((buf.new ≡ rest_in (hub_state hub) buf.old filled) × (out.new ≡ at_front (block_lines (hub_state hub) (take filled buf.old) is_end) out.old)) }
{
    let logged = log_items(hub, &buf[..filled], out);
    let after = logged.hub;
    let taken = logged.taken;
    let is_stopped = is_last(is_end, after.items, &buf[taken..filled]);
    buf.copy_within(taken..filled, 0);
    let kept = filled - taken;
    let written = put_end(is_stopped, after, kept, out, logged.written);
    Block {
        hub: after,
        written,
        kept,
        is_stopped,
    }
}

// Writes the last line from `at` on where reading stops, and answers up to where lines are written then.
fn put_end(is_stopped: bool, hub: Hub, kept: usize, out: &mut [u8], at: usize) -> usize
    requires { at + last_size ≤ length out.old }
    ensures { (result ≡ at + length (cond is_stopped (last_line (hub_state hub) kept) [])) × (out.new ≡ written (cond is_stopped (last_line (hub_state hub) kept) []) out.old at) }
{
    if is_stopped {
        let end = at + LAST;
        put_last_line(hub, kept, &mut out[at..end]);
        end
    } else {
        at
    }
}

// Writes the last line to all of `out`.
fn put_last_line(hub: Hub, kept: usize, out: &mut [u8])
    requires { length out.old ≡ last_size }
    ensures { out.new ≡ last_line (hub_state hub) kept }
{
    let reports = 6;
    columns::put_column(hub.items, &mut out[..reports]);
    let flag = reports + 6;
    columns::put_column(hub.reports, &mut out[reports..flag]);
    let end = flag + 2;
    columns::put_column(left_over(kept), &mut out[flag..end]);
    out[end] = b'\n';
}

// 1 where octets are left over.
pub fn left_over(kept: usize) -> usize
    ensures { result ≡ left_over kept }
{
    usize::from(kept != 0)
}

impl Hub {
    // A hub that has heard nothing, and listens on the first channel for every sender.
    pub fn new() -> Hub
        ensures { hub_state result ≡ fresh_hub }
    {
        let configured = BeaconScanner::new().configure(start(), 0);
        let scanner = configured.scanner;
        Hub {
            items: 0,
            reports: 0,
            scanner,
        }
    }

    // Whether the hub counts as a run does, `filled` octets are there and so is room for their lines and the last line.
    fn is_ready(self, filled: usize, size: usize, space: usize) -> bool
        ensures { result ≡ is_ready (hub_state self) filled size space }
    {
        self.items <= MOST_ITEMS
            && self.reports <= self.items
            && filled <= size
            && LAST <= space
            && filled / SHORTEST <= (space - LAST) / LINE
    }

    // Takes in the first `filled` octets of `buf`, with which the input ends or not: writes all that is to be written for them to the front of `out`, the
    // lines of the whole items among them and, where reading stops, the last line; and moves the octets after these items to the front of `buf`.
    // None where the buffer has fewer octets than it is said to hold, there is too little room for lines, or no run counts as this hub does.
    pub fn take_in(
        self,
        buf: &mut [u8],
        filled: usize,
        is_end: bool,
        out: &mut [u8],
    ) -> Option<Block>
        ensures { (taken_step result ≡ taken_in (hub_state self) buf.old filled is_end out.old) × ((buf.new ≡ rest_after (hub_state self) buf.old filled out.old) × (out.new ≡ lines_after (hub_state self) buf.old filled is_end out.old)) }
    {
        if self.is_ready(filled, buf.len(), out.len()) {
            Some(take_block(self, buf, filled, is_end, out))
        } else {
            None
        }
    }

    // The last line, where `kept` octets are left over.
    pub fn last_line(self, kept: usize) -> [u8; 15]
        ensures { result ≡ last_line (hub_state self) kept }
    {
        let mut out = [0u8; LAST];
        put_last_line(self, kept, &mut out);
        out
    }
}
