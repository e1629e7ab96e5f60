// Areas of records, read and rewritten.
ghost use Rattle.std.specs.Prelude.{◌≡◌, ◌++◌, ◌≤◌, ℕ, Bool, List, length, drop, Ok};
ghost use Rattle.records_spec.specs.Area.{AcceptedFrom, front_of, read_area, rewritten, rewritten_to, rewritten_after};
ghost use Rattle.records_spec.specs.HubReading.{is_zeros, read_padded};
ghost use Rattle.records_spec.specs.Record.{first};
ghost use Rattle.records_spec.specs.Search.{searched};

use crate::ad_structure::{read_record, write_record};
use octets::bytes::{ByteWriter, Part};
use octets::error::Error;
pub use records_spec::area::BadRecord;

// Reads an area up to its first bad record: what both readings share.
pub fn read_front(s: &[u8]) -> Result<usize, BadRecord>
    ensures { result ≡ front_of s.now }
{
    let mut at = 0;
    let mut count = 0;
    // By a loop: the answer has what stopped it and where.
    loop {
        match read_record(s, at) {
            Ok(Some((_, next))) => {
                at = next;
                count += 1;
            }
            Ok(None) => {
                return Ok(count);
            }
            Err(error) => {
                return Err(BadRecord { count, at, error });
            }
        }
    }
}

// Reads a whole area.
pub fn read_area(s: &[u8]) -> Result<usize, Error>
    ensures { result ≡ read_area s.now }
{
    read_front(s).map_err(|bad| bad.error)
}

// Reads a whole area as the hub does.
pub fn read_padded_area(s: &[u8]) -> Result<(usize, usize), Error>
    ensures { result ≡ read_padded s.now }
{
    match read_front(s) {
        Ok(count) => Ok((count, s.len())),
        Err(bad) => {
            if is_zeros(&s[bad.at..]) {
                return Ok((bad.count, bad.at));
            }
            // A zero length before another octet is refused as the record that it is: 2.
            Err(bad.error)
        }
    }
}

fn is_zeros(octets: &[u8]) -> bool
    ensures { result ≡ is_zeros octets.now }
{
    octets.iter().all(|&octet| octet == 0)
}

// A test of records.
pub trait RecordTest {
    // Whether the octets of a record pass, its length and its type first.
    ghost passing: { Self → List ℕ → Bool };

    // Whether the record that `rest` begins with passes: what follows it is at hand too, so that its end is looked for only where it counts.
    fn passes(&self, rest: &[u8]) -> bool
        ensures { result ≡ passing self.now (first rest.now) };
}

// The octets of the record that `rest` begins with, or what there is of them.
pub fn first_record(rest: &[u8]) -> &[u8]
    ensures { result.now ≡ first rest.now }
{
    if rest.is_empty() {
        return rest;
    }
    let end = rest.len().min(1 + rest[0] as usize);
    &rest[..end]
}

// Where the first record of an area without padding that passes a test has its data.
pub fn find_record<T: RecordTest>(s: &[u8], test: &T) -> Option<Part>
    ensures { result ≡ searched (T.passing test.now) s.now }
{
    // By a loop with a place: each record's length says where the next begins.
    let mut at = 0;
    while at < s.len() {
        let next = at + 1 + s[at] as usize;
        if test.passes(&s[at..]) {
            let end = s.len().min(next);
            return Some(Part {
                start: at + 2,
                len: (end - at).saturating_sub(2),
            });
        }
        at = next;
    }
    None
}

// Reads the records of an accepted area, and writes each at the place where it stands, to `out`.
fn write_records(s: &[u8], out: &mut [u8]) -> Result<ByteWriter, Error>
    requires { AcceptedFrom s.now 0 × (length s.now ≤ length out.old) }
    ensures { (result ≡ Ok (record { at = length s.now })) × (out.new ≡ rewritten s.now ++ drop (length s.now) out.old) }
{
    let mut writer = ByteWriter::new();
    // By a loop: each record says where the next begins.
    while let Some((ad, _)) = read_record(s, writer.at)? {
        writer = write_record(ad, s, writer, out)?;
    }
    Ok(writer)
}

// Reads a whole area, and writes its records again at the front of `out`.
pub fn rewrite_area(s: &[u8], out: &mut [u8]) -> Result<ByteWriter, Error>
    ensures { (result ≡ rewritten_to s.now out.old) × (out.new ≡ rewritten_after s.now out.old) }
{
    let _count = read_area(s)?;
    if out.len() < s.len() {
        return Err(Error::Eof);
    }
    write_records(s, out)
}
