// Moves in the records of a report.
ghost use Rattle.std.specs.Prelude.{◌≡◌, ◌≤◌, length};
ghost use Rattle.book_spec.specs.Moves.{no_move, move_of, is_move, move_in};

use book_spec::Move;
use octets::bytes::{Part, u16_from_le_bytes};
use records::ad_structure::Type;
use records::area::{RecordTest, find_record, first_record};

// The octets of the shortest and the longest move record: length, type, company, turn and 1 to 20 octets.
const SHORTEST: usize = 7;

const LONGEST: usize = 26;

pub(crate) fn no_move() -> Move
    ensures { result ≡ no_move }
{
    let octets = [0u8; 20];
    Move { len: 0, octets }
}

// The move of some octets.
pub(crate) fn move_of(part: &[u8]) -> Move
    requires { length part.now ≤ 20 }
    ensures { result ≡ move_of part.now }
{
    let mut octets = [0u8; 20];
    let len = part.len();
    octets[..len].copy_from_slice(part);
    Move { len, octets }
}

// Whether a record is a move of a company, of any turn.
fn is_move(octets: &[u8], company: u16) -> bool
    ensures { result ≡ is_move company octets.now }
{
    (SHORTEST..=LONGEST).contains(&octets.len())
        && octets[1] == Type::MANUFACTURER_SPECIFIC_DATA
        && u16_from_le_bytes(octets[2], octets[3]) == company
}

// The test of a move of a company.
#[derive(Clone, Copy)]
struct MoveTest {
    company: u16,
}

impl RecordTest for MoveTest {
    ghost passing = { λ test. is_move test.company };

    fn passes(&self, rest: &[u8]) -> bool {
        is_move(first_record(rest), self.company)
    }
}

// The first move of a company in an area without padding.
pub(crate) fn find_move(s: &[u8], company: u16) -> Option<Part>
    ensures { result ≡ move_in company s.now }
{
    find_record(s, &MoveTest { company })
}
