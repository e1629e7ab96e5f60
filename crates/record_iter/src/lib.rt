// The record iterator: a struct that holds the lent records and a position in them, and thin functions over it. Each takes the struct apart
// and calls a function on the slice and the position. `new` and `moved` alone make one: it stands at the front of its area or after a record.
#![tactic(auto)]

ghost use Rattle.std.specs.Prelude.{◌≡◌, drop};
ghost use Rattle.records_spec.specs.Record.{record_at};
ghost use Rattle.records_spec.specs.Area.{read_area};
ghost use Rattle.record_iter.specs.Iter.{position_after, rest_place, front, onward};

use octets::error::Error;
use records::ad_structure::{AdStructure, read_record};

// By value, as all state is here: std's `Iterator` would be held behind a `&mut`.
#[derive(Clone, Copy)]
pub struct Records<'a> {
    records: &'a [u8],
    at: usize,
}

// The position after the record at `at`, or `at` where no record is read.
fn position_after(s: &[u8], at: usize) -> usize
    ensures { result ≡ position_after s.now at }
{
    match read_record(s, at) {
        Ok(Some((_, next))) => next,
        Ok(None) => at,
        Err(_) => at,
    }
}

// The octets of s from position `at` on, none where `at` lies past the end.
fn rest_from(s: &[u8], at: usize) -> &[u8]
    ensures { (result.ref_ptr ≡ rest_place s.entry at) × (result.now ≡ drop at s.now) }
{
    if at < s.len() {
        &s[at..]
    } else {
        let end = s.len();
        &s[end..]
    }
}

impl<'a> Records<'a> {
    // At the front of an area.
    pub fn new(area: &'a [u8]) -> Records<'a>
        ensures { result ≡ front area.entry }
    {
        Records {
            records: area,
            at: 0,
        }
    }

    // The record at the iterator's position.
    pub fn next(self) -> Result<Option<(AdStructure, usize)>, Error>
        ensures { result ≡ record_at self.entry.records.now self.entry.at }
    {
        read_record(self.records, self.at)
    }

    // The iterator past that record. It stays where `next` finds the end or refuses.
    pub fn moved(self) -> Records<'a>
        ensures { result ≡ onward self.entry }
    {
        let at = position_after(self.records, self.at);
        Records {
            records: self.records,
            at,
        }
    }

    // The octets from the iterator's position on.
    pub fn into_rest(self) -> &'a [u8]
        ensures { (result.ref_ptr ≡ rest_place self.entry.records self.entry.at) × (result.now ≡ drop self.entry.at self.entry.records.now) }
    {
        rest_from(self.records, self.at)
    }
}

// Reads a whole area through the iterator, as `read_area` does: its callers hold no iterator.
pub fn read_through(area: &[u8]) -> Result<usize, Error>
    ensures { result ≡ read_area area.now }
{
    let mut records = Records::new(area);
    let mut count = 0;
    // By a loop: the iterator is a value, which `moved` hands on.
    while let Some(_) = records.next()? {
        records = records.moved();
        count += 1;
    }
    Ok(count)
}
