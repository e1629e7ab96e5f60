// How the hub's input falls into items (drawn in specs/Item.antt).
#![tactic(auto)]

ghost use Rattle.std.specs.Prelude.{◌≡◌, drop};
ghost use Rattle.items.specs.Item.{size_of, whole_size};

// What an item begins with.
pub const TICK: u8 = 0x00;

pub const CRC_GOOD: u8 = 0x01;

pub const CRC_BAD: u8 = 0x02;

// The size of the item that begins so.
fn size_of(s: &[u8]) -> Option<usize>
    ensures { result ≡ size_of s.now }
{
    match *s.first()? {
        TICK => Some(1),
        CRC_GOOD | CRC_BAD => {
            let h1 = s.get(2).copied().unwrap_or(0);
            Some(3 + h1 as usize % 64)
        }
        _ => None,
    }
}

// The size of the whole item at `at`.
pub fn whole_size(s: &[u8], at: usize) -> Option<usize>
    ensures { result ≡ whole_size (drop at s.now) }
{
    let rest = s.get(at..)?;
    let size = size_of(rest)?;
    if size <= rest.len() { Some(size) } else { None }
}
