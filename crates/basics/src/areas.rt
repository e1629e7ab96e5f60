// Records and areas, read and written.
ghost use Rattle.std.specs.Prelude.{◌≡◌};
ghost use Rattle.records_spec.specs.Area.{read_area, rewritten_to, rewritten_after};
ghost use Rattle.records_spec.specs.HubReading.{read_padded};
ghost use Rattle.records_spec.specs.Record.{record_at};
ghost use Rattle.records_spec.specs.Uuids.{uuid16_at};
ghost use Rattle.records_spec.specs.Write.{written_to, written_after};
ghost use Rattle.answers.specs.Given.{structure_in};
ghost use Rattle.answers.specs.Got.{written_got};
ghost use Rattle.basics.specs.Areas.{said, area_got, padded_got, uuid_got, structure_said, refused_said, parsed_said, read_said, known_said, flags_said};

use answers::given::structure;
use answers::got::{Got, found, one_number, refused, two_numbers, written};
use octets::bytes::ByteWriter;
use octets::error::Error;
use records::ad_structure::{
    AdStructure, Flags, next_uuid16, read_known, read_record, write_record,
};
use records::area::{read_area, read_padded_area, rewrite_area};

// For C: a record. `kind` is 0 at the end of an area, then 1 to 9 in the order of `AdStructure`; `value` the bits of Flags, a UUID, a company or a type.
#[repr(C)]
#[derive(Clone, Copy)]
pub struct Structure {
    pub number: u8,
    pub kind: u8,
    pub complete: bool,
    pub value: u16,
    pub start: usize,
    pub len: usize,
    pub next: usize,
}

// For C: the answers of Flags.
#[repr(C)]
#[derive(Clone, Copy)]
pub struct FlagsSaid {
    pub bits: u8,
    pub classic: bool,
    pub limited: bool,
    pub general: bool,
    pub controller: bool,
    pub host: bool,
}

// The number of records.
pub fn board_area(s: &[u8]) -> Got
    ensures { result ≡ area_got (read_area s.now) }
{
    one_number(read_area(s))
}

// The number of records as the hub reads an area, and how many octets they took.
pub fn board_padded_area(s: &[u8]) -> Got
    ensures { result ≡ padded_got (read_padded s.now) }
{
    two_numbers(read_padded_area(s))
}

// The position after what was written.
pub fn board_rewrite(s: &[u8], out: &mut [u8]) -> Got
    ensures { (result ≡ written_got (rewritten_to s.now out.old)) × (out.new ≡ rewritten_after s.now out.old) }
{
    written(rewrite_area(s, out))
}

// A UUID and the position after it; at the end 0 and the position.
pub fn board_uuid_at(data: &[u8], at: usize) -> Got
    ensures { result ≡ uuid_got at (uuid16_at «data».now at) }
{
    match next_uuid16(data, at) {
        Ok(Some((uuid, next))) => found(uuid.0 as usize, next),
        Ok(None) => found(0, at),
        Err(e) => refused(e),
    }
}

pub fn board_record(s: &[u8], at: usize) -> Structure
    ensures { result ≡ read_said (record_at s.now at) }
{
    match read_record(s, at) {
        Ok(Some((ad, next))) => say(ad, next),
        Ok(None) => said(0, false, 0, 0, 0, 0),
        Err(e) => say_refused(e),
    }
}

// The same, read on to the kind that its type names.
pub fn board_known(s: &[u8], at: usize) -> Structure
    ensures { result ≡ known_said s.now (record_at s.now at) }
{
    match read_record(s, at) {
        Ok(Some((ad, next))) => say_parsed(read_known(ad, s), next),
        Ok(None) => said(0, false, 0, 0, 0, 0),
        Err(e) => say_refused(e),
    }
}

// Writes a record, which is given as `Structure` has it; the position after it.
pub fn board_write(
    kind: u8,
    complete: bool,
    value: u16,
    start: usize,
    len: usize,
    s: &[u8],
    at: usize,
    out: &mut [u8],
) -> Got
    ensures { (result ≡ written_got (written_to (structure_in kind complete value start len) s.now out.old at)) × (out.new ≡ written_after (structure_in kind complete value start len) s.now out.old at) }
{
    let ad = structure(kind, complete, value, start, len);
    written(write_record(ad, s, ByteWriter { at }, out))
}

pub fn board_flags(octet: u8) -> FlagsSaid
    ensures { result ≡ flags_said octet }
{
    let flags = Flags::from_bits_truncate(octet);
    FlagsSaid {
        bits: flags.to_u8(),
        classic: flags.supports_classic_bluetooth(),
        limited: flags.le_limited_discoverable(),
        general: flags.le_general_discoverable(),
        controller: flags.simul_le_br_controller(),
        host: flags.simul_le_br_host(),
    }
}

fn said(kind: u8, complete: bool, value: u16, start: usize, len: usize, next: usize) -> Structure
    ensures { result ≡ said kind complete value start len next }
{
    Structure {
        number: 0,
        kind,
        complete,
        value,
        start,
        len,
        next,
    }
}

#[tactic(auto, unfolding(crate::specs::Areas::structure_said))]
fn say(ad: AdStructure, next: usize) -> Structure
    ensures { result ≡ structure_said ad next }
{
    match ad {
        AdStructure::Flags(flags) => said(1, false, flags.to_u8() as u16, 0, 0, next),
        AdStructure::ServiceUuids16 {
            complete,
            start,
            len,
        } => said(2, complete, 0, start, len, next),
        AdStructure::ServiceUuids32 {
            complete,
            start,
            len,
        } => said(3, complete, 0, start, len, next),
        AdStructure::ServiceUuids128 {
            complete,
            start,
            len,
        } => said(4, complete, 0, start, len, next),
        AdStructure::ServiceData16 { uuid, start, len } => said(5, false, uuid, start, len, next),
        AdStructure::CompleteLocalName { start, len } => said(6, false, 0, start, len, next),
        AdStructure::ShortenedLocalName { start, len } => said(7, false, 0, start, len, next),
        AdStructure::ManufacturerSpecificData {
            company_identifier,
            start,
            len,
        } => said(8, false, company_identifier.as_u16(), start, len, next),
        AdStructure::Unknown { ty, start, len } => said(9, false, ty as u16, start, len, next),
    }
}

fn say_parsed(parsed: Result<AdStructure, Error>, next: usize) -> Structure
    ensures { result ≡ parsed_said parsed next }
{
    match parsed {
        Ok(ad) => say(ad, next),
        Err(e) => say_refused(e),
    }
}

fn say_refused(e: Error) -> Structure
    ensures { result ≡ refused_said e }
{
    Structure {
        number: e.number(),
        kind: 0,
        complete: false,
        value: 0,
        start: 0,
        len: 0,
        next: 0,
    }
}
