// How the input falls into items (drawn in specs/Item.antt of club_spec).
ghost use Rattle.std.specs.Prelude.{◌≡◌, ◌<◌, drop};
ghost use Rattle.club_spec.specs.Item.{own_size, whole_item};

// What the club's own items begin with: a seat for a public address or a random one, the turn closed, and a seat's open move or its closed one read.
pub(crate) const SEAT_PUBLIC: u8 = 0x03;

pub(crate) const SEAT_RANDOM: u8 = 0x04;

pub(crate) const CLOSE: u8 = 0x05;

pub(crate) const READ_OPEN: u8 = 0x06;

pub(crate) const READ_CLOSED: u8 = 0x07;

// The size of the item of the club's own that begins so.
#[tactic(auto, unfolding(club_spec::specs::Item::own_size))]
fn own_size(first: u8) -> Option<usize>
    requires { 2 < first }
    ensures { result ≡ own_size first }
{
    match first {
        SEAT_PUBLIC | SEAT_RANDOM => Some(7),
        CLOSE => Some(1),
        READ_OPEN | READ_CLOSED => Some(2),
        _ => None,
    }
}

// The size of the whole item at `at`.
pub(crate) fn whole_item(s: &[u8], at: usize) -> Option<usize>
    ensures { result ≡ whole_item (drop at s.now) }
{
    if s.len() <= at {
        return None;
    }
    if s[at] <= items::CRC_BAD {
        return items::whole_size(s, at);
    }
    let size = own_size(s[at])?;
    if size <= s.len() - at {
        Some(size)
    } else {
        None
    }
}
