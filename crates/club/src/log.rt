// The club: its book, and the items that it takes.
ghost use Rattle.std.specs.Prelude.{◌≡◌, [], ◌∷◌, ◌+◌, ◌<◌, ◌≤◌, length, get_or, take, drop};
ghost use Rattle.octets.specs.Bytes.{at_front};
ghost use Rattle.addresses.specs.Address.{address_of};
ghost use Rattle.beacon.specs.State.{scanner_state, scan_step};
ghost use Rattle.hub_spec.specs.Log.{start, heard_in, scanner_after};
ghost use Rattle.book.specs.State.{book_state};
ghost use Rattle.book_spec.specs.History.{seat, close, read_open, read_closed, book_after};
ghost use Rattle.club_spec.specs.Item.{IsClubItem};
ghost use Rattle.club_spec.specs.Log.{packet_calls, seat_refusal, own_calls, calls_for, club_lines, fresh_club, end_line, item_line, item_taken, fitting_in, items_taken};
ghost use Rattle.club.specs.State.{club_state, taken_step, items_step, AnswersCall};

use crate::item::{CLOSE, READ_OPEN, SEAT_PUBLIC, SEAT_RANDOM, whole_item};
use crate::line::{put_call, put_last, put_move};
use addresses::device_address::{AddressKind, DeviceAddress};
use addresses::header::Header;
use beacon::beacon::{BeaconScanner, Scanned};
use book::Book;
use hub::{listen, start};
use octets::error::{Error, outcome_number};

// The octets of the longest line.
const LONGEST: usize = 90;

// The book, and the scanner that listens for reports.
#[derive(Clone, Copy)]
pub struct Club {
    book: Book,
    scanner: BeaconScanner,
}

// What taking an item did.
#[derive(Clone, Copy)]
pub struct TakenItem {
    pub club: Club,
    // The octets of the item.
    pub size: usize,
    // The octets of its line.
    pub written: usize,
}

// What taking items did.
#[derive(Clone, Copy)]
pub struct TakenItems {
    pub club: Club,
    // The octets of the items.
    pub taken: usize,
    // The octets of their lines.
    pub written: usize,
}

// What an item did to the book, and the octets of its line.
#[derive(Clone, Copy)]
struct Answered {
    book: Book,
    written: usize,
}

// The book after what the scanner answered to a packet of this payload.
fn reported(book: Book, scanned: Scanned, payload: &[u8]) -> Book
    ensures { book_state result ≡ book_after (book_state book) (packet_calls (scan_step scanned) payload.now) }
{
    match scanned.report.unwrap_or(None) {
        Some(sighting) => {
            let place = sighting.adv_data;
            let called = book.report(sighting.sender, place.within(payload));
            called.book
        }
        None => book,
    }
}

// The book after an item that the hub hears. A tick is no packet. Beside hub's `log_item`: a scanner's answer to what is no packet cannot be made outside its crate.
fn heard(book: Book, scanner: BeaconScanner, item: &[u8]) -> Book
    ensures { book_state result ≡ book_after (book_state book) (packet_calls (heard_in (scanner_state scanner) item.now) (drop 3 item.now)) }
{
    if item.len() < 3 {
        return book;
    }
    match Header::parse(&item[1..3]) {
        Ok(header) => {
            let scanned = scanner.process_adv_packet(
                header,
                &item[3..],
                item[0] == items::CRC_GOOD,
                &item[..0],
            );
            reported(book, scanned, &item[3..])
        }
        Err(_) => book,
    }
}

// The address of an item that seats one.
fn address_in(item: &[u8], kind: AddressKind) -> DeviceAddress
    requires { 7 ≤ length item.now }
    ensures { result ≡ address_of (take 6 (drop 1 item.now)) kind }
{
    let mut octets = [0u8; 6];
    octets.copy_from_slice(&item[1..7]);
    DeviceAddress::new(octets, kind)
}

// The number of what was refused, 0 where a seat was given.
fn seat_refusal(seat: Result<usize, Error>) -> u8
    ensures { result ≡ seat_refusal seat }
{
    match seat {
        Ok(_) => 0,
        Err(e) => e.number(),
    }
}

// What an item does that seats an address of this kind.
// That `out` has the longest line's room, 90 octets, is asked for here and below, and no type's: the buffer is lent.
fn seat_item(book: Book, item: &[u8], kind: AddressKind, out: &mut [u8]) -> Answered
    requires { (7 ≤ length item.now) × (90 ≤ length out.old) }
    ensures { AnswersCall (book_state book) (seat (address_of (take 6 (drop 1 item.now)) kind) ∷ []) item.now result out.new out.old }
{
    let called = book.seat(address_in(item, kind));
    let number = called.seat.unwrap_or(0);
    let written = put_call(item[0], seat_refusal(called.seat), number, 3, out);
    let book = called.book;
    Answered { book, written }
}

// What an item does that closes the open turn.
fn close_item(book: Book, item: &[u8], out: &mut [u8]) -> Answered
    requires { ((1 ≤ length item.now) × (get_or item.now 0 0 ≡ 5)) × (90 ≤ length out.old) }
    ensures { AnswersCall (book_state book) (close ∷ []) item.now result out.new out.old }
{
    let called = book.close();
    let book = called.book;
    let turn = book.open_turn() as usize;
    let written = put_call(item[0], outcome_number(called.outcome), turn, 6, out);
    Answered { book, written }
}

// What an item does that reads the open move of a seat, and the closed one.
fn open_item(book: Book, item: &[u8], out: &mut [u8]) -> Answered
    requires { (2 ≤ length item.now) × (90 ≤ length out.old) }
    ensures { AnswersCall (book_state book) (read_open (get_or item.now 1 0) ∷ []) item.now result out.new out.old }
{
    let n = item[1] as usize;
    let written = put_move(item[0], n, book.open_move(n), out);
    Answered { book, written }
}

// Apart from the open one: what differs is the call that each promises to make.
fn closed_item(book: Book, item: &[u8], out: &mut [u8]) -> Answered
    requires { (2 ≤ length item.now) × (90 ≤ length out.old) }
    ensures { AnswersCall (book_state book) (read_closed (get_or item.now 1 0) ∷ []) item.now result out.new out.old }
{
    let n = item[1] as usize;
    let written = put_move(item[0], n, book.closed_move(n), out);
    Answered { book, written }
}

// What one of the club's own items does.
fn own_item(book: Book, item: &[u8], out: &mut [u8]) -> Answered
    requires { (IsClubItem item.now × (2 < get_or item.now 0 0)) × (90 ≤ length out.old) }
    ensures { AnswersCall (book_state book) (own_calls (get_or item.now 0 0) (drop 1 item.now)) item.now result out.new out.old }
{
    match item[0] {
        SEAT_PUBLIC => seat_item(book, item, AddressKind::Public, out),
        SEAT_RANDOM => seat_item(book, item, AddressKind::Random, out),
        CLOSE => close_item(book, item, out),
        READ_OPEN => open_item(book, item, out),
        _ => closed_item(book, item, out),
    }
}

// What an item does.
fn answer(book: Book, scanner: BeaconScanner, item: &[u8], out: &mut [u8]) -> Answered
    requires { IsClubItem item.now × (90 ≤ length out.old) }
    ensures { AnswersCall (book_state book) (calls_for (scanner_state scanner) item.now) item.now result out.new out.old }
{
    if item[0] <= items::CRC_BAD {
        let book = heard(book, scanner, item);
        Answered { book, written: 0 }
    } else {
        own_item(book, item, out)
    }
}

// Takes the item at `from` of s, and writes its line to the front of `out`.
fn take_at(club: Club, s: &[u8], from: usize, out: &mut [u8]) -> Option<TakenItem>
    requires { 90 ≤ length out.old }
    ensures { (taken_step result ≡ item_taken (club_state club) (drop from s.now)) × (out.new ≡ at_front (item_line (club_state club) (drop from s.now)) out.old) }
{
    let size = whole_item(s, from)?;
    let item = &s[from..from + size];
    let before = club.scanner;
    let answered = answer(club.book, before, item, out);
    let book = answered.book;
    let scanner = listen(before, item);
    Some(TakenItem {
        club: Club { book, scanner },
        size,
        written: answered.written,
    })
}

impl Club {
    // A club whose book is fresh, and that listens on the first channel for every sender.
    pub fn new(company: u16) -> Club
        ensures { club_state result ≡ fresh_club company }
    {
        let book = Book::new(company);
        let configured = BeaconScanner::new().configure(start(), 0);
        let scanner = configured.scanner;
        Club { book, scanner }
    }

    // Takes the item at the front of s, and writes its line to the front of `out`. None where no whole item stands there.
    pub fn take_item(self, s: &[u8], out: &mut [u8; 90]) -> Option<TakenItem>
        ensures { (taken_step result ≡ item_taken (club_state self) s.now) × (out.new ≡ at_front (item_line (club_state self) s.now) out.old) }
    {
        take_at(self, s, 0, out)
    }

    // Takes the items at the front of s, one after the other, as long as there is room for the longest line, and writes their lines to the front of `out`.
    pub fn take_items(self, s: &[u8], out: &mut [u8]) -> TakenItems
        ensures { (items_step result ≡ items_taken (club_state self) s.now (length out.old)) × (out.new ≡ at_front (club_lines (club_state self) (fitting_in (club_state self) s.now (length out.old))) out.old) }
    {
        let mut club = self;
        let mut at = 0;
        let mut written = 0;
        // By a loop: each item says where the next begins, and each line where the next is written.
        while LONGEST <= out.len() - written {
            let Some(taken) = take_at(club, s, at, &mut out[written..]) else {
                break;
            };
            club = taken.club;
            at += taken.size;
            written += taken.written;
        }
        TakenItems {
            club,
            taken: at,
            written,
        }
    }

    // The last line, where `left` octets are left over.
    pub fn last_line(self, left: usize) -> [u8; 9]
        ensures { result ≡ end_line (club_state self) left }
    {
        let book = self.book;
        let mut out = [0u8; 9];
        put_last(book.open_turn() as usize, left, &mut out);
        out
    }
}
