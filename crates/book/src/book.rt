// The book and its calls. A book is handed from call to call; a refused call hands it on as it was.
ghost use Rattle.std.specs.Prelude.{◌≡◌, ◌+◌, ◌≤◌, ◌<◌, length, take, IfSome, Some};
ghost use Rattle.book_spec.specs.Moves.{heard_at};
ghost use Rattle.book_spec.specs.Book.{fresh_book, empty_address, seat_number, is_filled, open_at, closed_at, seat_call, taken, report_call, close_call, read_seat_call};
ghost use Rattle.book.specs.State.{number_in, book_state, seat_step, book_step};

use crate::moves::{find_move, move_of, no_move};
use addresses::device_address::{AddressKind, DeviceAddress};
use book_spec::Move;
use octets::bytes::{Part, u16_from_le_bytes};
use octets::error::Error;
use records::area::read_padded_area;

const SEATS: usize = 64;

const LAST_TURN: u16 = 65535;

#[derive(Clone, Copy)]
pub struct Book {
    company: u16,
    turn: u16,
    // How many seats are filled: seat n has place n - 1 of each array. By arrays: a close makes all kept moves the closed ones at once.
    filled: usize,
    addresses: [DeviceAddress; SEATS],
    kept: [Move; SEATS],
    closed: [Move; SEATS],
}

// What seating an address returns: the number of its seat, or the refusal. The book stands beside it, since a refusal hands it back too.
#[derive(Clone, Copy)]
pub struct SeatCalled {
    pub seat: Result<usize, Error>,
    pub book: Book,
}

// What a report and a close return.
#[derive(Clone, Copy)]
pub struct BookCalled {
    pub outcome: Result<(), Error>,
    pub book: Book,
}

fn no_address() -> DeviceAddress
    ensures { result ≡ empty_address }
{
    DeviceAddress::new([0; 6], AddressKind::Public)
}

// The place of an address among the first `filled`. Not a method, since a call that is handed the whole book copies it.
fn place_of(address: DeviceAddress, addresses: &[DeviceAddress], filled: usize) -> Option<usize>
    ensures number { number_in result ≡ seat_number address (take filled addresses.now) }
    ensures within { IfSome result (λ at. at < length addresses.now) }
{
    addresses
        .iter()
        .take(filled)
        .position(|seated| *seated == address)
}

impl Book {
    // A book with no seat filled and turn 0 open.
    pub fn new(company: u16) -> Book
        ensures { book_state result ≡ fresh_book company }
    {
        let nobody = no_address();
        let addresses = [nobody; SEATS];
        let nothing = no_move();
        let kept = [nothing; SEATS];
        let closed = [nothing; SEATS];
        Book {
            company,
            turn: 0,
            filled: 0,
            addresses,
            kept,
            closed,
        }
    }

    fn is_filled(self, n: usize) -> bool
        ensures { result ≡ is_filled (book_state self) n }
    {
        (1..=SEATS).contains(&n) && n <= self.filled
    }

    // Fills the next seat with an address, which has no moves then.
    pub fn seat(self, address: DeviceAddress) -> SeatCalled
        ensures { seat_step result ≡ seat_call address (book_state self) }
    {
        if place_of(address, &self.addresses, self.filled).is_some() {
            return SeatCalled {
                seat: Err(Error::AlreadySeated),
                book: self,
            };
        }
        let at = self.filled;
        if SEATS <= at {
            return SeatCalled {
                seat: Err(Error::NoFreeSeat),
                book: self,
            };
        }
        let nothing = no_move();
        let mut book = self;
        book.addresses[at] = address;
        book.kept[at] = nothing;
        book.closed[at] = nothing;
        book.filled = at + 1;
        SeatCalled {
            seat: Ok(at + 1),
            book,
        }
    }

    // Takes the move whose data were found in the area: it is kept where its turn is the open one and the sender has a seat that has no move yet.
    fn take(self, sender: DeviceAddress, area: &[u8], found: Part) -> Book
        requires { (5 ≤ found.len) × (found.len ≤ 24) × (found.start + found.len ≤ length area.now) }
        ensures { book_state result ≡ taken sender (heard_at area.now (Some found)) (book_state self) }
    {
        let turn = u16_from_le_bytes(area[found.start + 2], area[found.start + 3]);
        if turn != self.turn {
            return self;
        }
        let Some(at) = place_of(sender, &self.addresses, self.filled) else {
            return self;
        };
        if self.kept[at].len != 0 {
            return self;
        }
        let first = found.start + 4;
        let end = found.start + found.len;
        let played = move_of(&area[first..end]);
        let mut book = self;
        book.kept[at] = played;
        book
    }

    // Takes a report, what a scanner answers with: its sender and the record area, which is read as the hub reads. The first move record of the book's company
    // counts, and the first move that a seat has for the open turn is kept.
    pub fn report(self, sender: DeviceAddress, area: &[u8]) -> BookCalled
        ensures { book_step result ≡ report_call sender area.now (book_state self) }
    {
        match read_padded_area(area) {
            Err(e) => BookCalled {
                outcome: Err(e),
                book: self,
            },
            Ok((_, size)) => match find_move(&area[..size], self.company) {
                None => BookCalled {
                    outcome: Ok(()),
                    book: self,
                },
                Some(found) => BookCalled {
                    outcome: Ok(()),
                    book: self.take(sender, area, found),
                },
            },
        }
    }

    // Closes the open turn, whose moves are the closed ones then, and opens the next.
    pub fn close(self) -> BookCalled
        ensures { book_step result ≡ close_call (book_state self) }
    {
        let turn = self.turn;
        if turn == LAST_TURN {
            return BookCalled {
                outcome: Err(Error::LastTurn),
                book: self,
            };
        }
        let nothing = no_move();
        let moves = self.kept;
        let blank = [nothing; SEATS];
        let mut book = self;
        book.closed = moves;
        book.kept = blank;
        book.turn = turn + 1;
        BookCalled {
            outcome: Ok(()),
            book,
        }
    }

    // The address of seat n; none where it is not filled.
    pub fn read_seat(self, n: usize) -> Option<DeviceAddress>
        ensures { result ≡ read_seat_call n (book_state self) }
    {
        if self.is_filled(n) {
            let at = n - 1;
            Some(self.addresses[at])
        } else {
            None
        }
    }

    // The move of seat n in the open turn; none where the seat has none, or is not filled.
    // The open move and the closed one are read alike, of two arrays: a function over both would be no shorter.
    pub fn open_move(self, n: usize) -> Move
        ensures { result ≡ open_at (book_state self) n }
    {
        if self.is_filled(n) {
            let at = n - 1;
            self.kept[at]
        } else {
            no_move()
        }
    }

    // The move of seat n in the closed turn, likewise.
    pub fn closed_move(self, n: usize) -> Move
        ensures { result ≡ closed_at (book_state self) n }
    {
        if self.is_filled(n) {
            let at = n - 1;
            self.closed[at]
        } else {
            no_move()
        }
    }

    // The number of the open turn.
    pub fn open_turn(self) -> u16
        ensures { result ≡ (book_state self).turn }
    {
        self.turn
    }

    // The book's company number.
    pub fn company(self) -> u16
        ensures { result ≡ (book_state self).company }
    {
        self.company
    }
}
