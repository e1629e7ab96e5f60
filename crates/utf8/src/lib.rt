// Well-formed UTF-8 (the Unicode Standard, Table 3-7), in the place of Rust's `str`.
#![tactic(auto)]

ghost use Rattle.std.specs.Prelude.{◌≡◌, Some};
ghost use Rattle.utf8.specs.Utf8.{table, row_in, row_from, is_utf8};

// What a lead octet begins: a sequence in which `count` octets follow, the first of them from `low` to `high`, the others from 80 to BF.
#[derive(Clone, Copy)]
struct Lead {
    count: usize,
    low: u8,
    high: u8,
}

fn begins(count: usize, low: u8, high: u8) -> Option<Lead>
    ensures { result ≡ Some (record { count = count; low = low; high = high }) }
{
    Some(Lead { count, low, high })
}

// What an octet begins, if it begins a sequence.
fn lead_of(b: u8) -> Option<Lead>
    ensures { row_from result ≡ row_in table b }
{
    match b {
        0x00..=0x7F => begins(0, 0x80, 0xBF),
        0xC2..=0xDF => begins(1, 0x80, 0xBF),
        0xE0 => begins(2, 0xA0, 0xBF),
        0xE1..=0xEC => begins(2, 0x80, 0xBF),
        0xED => begins(2, 0x80, 0x9F),
        0xEE..=0xEF => begins(2, 0x80, 0xBF),
        0xF0 => begins(3, 0x90, 0xBF),
        0xF1..=0xF3 => begins(3, 0x80, 0xBF),
        0xF4 => begins(3, 0x80, 0x8F),
        _ => None,
    }
}

// Whether the octets are well-formed UTF-8.
pub fn is_utf8(s: &[u8]) -> bool
    ensures { result ≡ is_utf8 s.now }
{
    // What is still to follow.
    let mut lead = Lead {
        count: 0,
        low: 0x80,
        high: 0xBF,
    };
    for &b in s {
        lead = if lead.count == 0 {
            let Some(next) = lead_of(b) else {
                return false;
            };
            next
        } else if lead.low <= b && b <= lead.high {
            Lead {
                count: lead.count - 1,
                low: 0x80,
                high: 0xBF,
            }
        } else {
            return false;
        };
    }
    lead.count == 0
}
