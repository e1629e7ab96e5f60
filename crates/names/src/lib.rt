// The player's name beside a move: a record of an advertisement or of the scan reply to it, both read as the hub reads (document 02, Note 4).
#![tactic(auto)]

ghost use Rattle.std.specs.Prelude.{◌≡◌, ◌<◌};
ghost use Rattle.names_spec.specs.Name.{is_name, name_in, chosen, name_of, handed_from, handed_on, name_from, name_octets};

pub use names_spec::NamePlace;
use octets::bytes::{Part, part_of};
use octets::error::Error;
use records::ad_structure::Type;
use records::area::{RecordTest, find_record, first_record, read_padded_area};
use utf8::is_utf8;

// The name's own octets in the area that holds them; none, at the start of the advertisement, where there is no name.
pub fn octets<'a>(
    place: Result<NamePlace, Error>,
    advertisement: &'a [u8],
    reply: &'a [u8],
) -> &'a [u8]
    ensures { (result.ref_ptr ≡ handed_from place advertisement.entry reply.entry) × (result.now ≡ handed_on place advertisement.now reply.now) }
{
    match place {
        Ok(NamePlace::InReply(part)) => part_of(reply, part.start, part.len),
        Ok(NamePlace::InAdvertisement(part)) => part_of(advertisement, part.start, part.len),
        Err(_) => &advertisement[..0],
    }
}

// Whether a record is of type `ty` and its data are well-formed UTF-8.
fn is_name(octets: &[u8], ty: u8) -> bool
    requires { 0 < ty }
    ensures { result ≡ is_name ty octets.now }
{
    match octets {
        [_, t, data @ ..] => *t == ty && is_utf8(data),
        _ => false,
    }
}

// The test of a name of a type.
#[derive(Clone, Copy)]
struct NameTest {
    ty: u8,
    ghost some: { 0 < ty },
}

impl RecordTest for NameTest {
    ghost passing = { λ test. is_name test.ty };

    fn passes(&self, rest: &[u8]) -> bool {
        // By the type first, since most records have another.
        if rest.len() < 2 {
            return false;
        }
        if rest[1] != self.ty {
            return false;
        }
        is_name(first_record(rest), self.ty)
    }
}

// The first name of type `ty` in an area without padding.
fn name_in(s: &[u8], ty: u8) -> Option<Part>
    requires { 0 < ty }
    ensures { result ≡ name_in ty s.now }
{
    find_record(s, &NameTest { ty })
}

// The first of the four searches that finds a name, in areas without padding.
fn choose(advertisement: &[u8], reply: &[u8]) -> Result<NamePlace, Error>
    ensures { result ≡ chosen advertisement.now reply.now }
{
    name_in(reply, Type::COMPLETE_LOCAL_NAME)
        .map(NamePlace::InReply)
        .or_else(|| name_in(advertisement, Type::COMPLETE_LOCAL_NAME).map(
            NamePlace::InAdvertisement,
        ))
        .or_else(|| name_in(reply, Type::SHORTENED_LOCAL_NAME).map(NamePlace::InReply))
        .or_else(|| name_in(advertisement, Type::SHORTENED_LOCAL_NAME).map(
            NamePlace::InAdvertisement,
        ))
        .ok_or(Error::NoName)
}

// Where the name lies, or why there is none. Both areas are read whole before a name is chosen.
pub fn find_name(advertisement: &[u8], reply: &[u8]) -> Result<NamePlace, Error>
    ensures { result ≡ name_of advertisement.now reply.now }
{
    let (_, first) = read_padded_area(advertisement)?;
    let (_, second) = read_padded_area(reply)?;
    choose(&advertisement[..first], &reply[..second])
}

// The name's own octets, where they lie; none where `find_name` refuses. Either area may be lent on, so both are lent for one lifetime.
pub fn name<'a>(advertisement: &'a [u8], reply: &'a [u8]) -> &'a [u8]
    ensures { (result.ref_ptr ≡ name_from advertisement.entry reply.entry) × (result.now ≡ name_octets advertisement.now reply.now) }
{
    octets(find_name(advertisement, reply), advertisement, reply)
}
