// The player's name in an advertisement and in the reply to it.
ghost use Rattle.std.specs.Prelude.{◌≡◌};
ghost use Rattle.names_spec.specs.Name.{name_of};
ghost use Rattle.basics.specs.Names.{name_said};

use names::{NamePlace, find_name};

// For C: which area holds the name, where it begins there, and how many octets it has; zeros beside a refusal's number.
#[repr(C)]
#[derive(Clone, Copy)]
pub struct NameSaid {
    pub number: u8,
    pub in_reply: bool,
    pub start: usize,
    pub len: usize,
}

pub fn board_name(advertisement: &[u8], reply: &[u8]) -> NameSaid
    ensures { result ≡ name_said (name_of advertisement.now reply.now) }
{
    match find_name(advertisement, reply) {
        Ok(NamePlace::InReply(part)) => NameSaid {
            number: 0,
            in_reply: true,
            start: part.start,
            len: part.len,
        },
        Ok(NamePlace::InAdvertisement(part)) => NameSaid {
            number: 0,
            in_reply: false,
            start: part.start,
            len: part.len,
        },
        Err(e) => NameSaid {
            number: e.number(),
            in_reply: false,
            start: 0,
            len: 0,
        },
    }
}
