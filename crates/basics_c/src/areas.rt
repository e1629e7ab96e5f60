// Records and areas, read and written.
ghost use Rattle.std.specs.Prelude.{◌≡◌};
ghost use Rattle.records_spec.specs.Area.{read_area, rewritten_to, rewritten_after};
ghost use Rattle.records_spec.specs.HubReading.{read_padded};
ghost use Rattle.records_spec.specs.Record.{record_at};
ghost use Rattle.records_spec.specs.Uuids.{uuid16_at};
ghost use Rattle.records_spec.specs.Write.{written_to, written_after};
ghost use Rattle.answers.specs.Given.{structure_in};
ghost use Rattle.answers.specs.Got.{written_got};
ghost use Rattle.basics.specs.Areas.{area_got, padded_got, uuid_got, read_said, known_said, flags_said};

use answers::got::Got;
use basics::areas;
use basics::areas::{FlagsSaid, Structure};

// The number of records.
#[unsafe(no_mangle)]
pub extern "C" fn board_area(s: &[u8]) -> Got
    ensures { result ≡ area_got (read_area s.now) }
{
    areas::board_area(s)
}

// The number of records as the hub reads an area, and how many octets they took.
#[unsafe(no_mangle)]
pub extern "C" fn board_padded_area(s: &[u8]) -> Got
    ensures { result ≡ padded_got (read_padded s.now) }
{
    areas::board_padded_area(s)
}

// The position after what was written.
#[unsafe(no_mangle)]
pub extern "C" fn board_rewrite(s: &[u8], out: &mut [u8]) -> Got
    ensures { (result ≡ written_got (rewritten_to s.now out.old)) × (out.new ≡ rewritten_after s.now out.old) }
{
    areas::board_rewrite(s, out)
}

// A UUID and the position after it; at the end 0 and the position.
#[unsafe(no_mangle)]
pub extern "C" fn board_uuid_at(data: &[u8], at: usize) -> Got
    ensures { result ≡ uuid_got at (uuid16_at «data».now at) }
{
    areas::board_uuid_at(data, at)
}

#[unsafe(no_mangle)]
pub extern "C" fn board_record(s: &[u8], at: usize) -> Structure
    ensures { result ≡ read_said (record_at s.now at) }
{
    areas::board_record(s, at)
}

// The same, read on to the kind that its type names.
#[unsafe(no_mangle)]
pub extern "C" fn board_known(s: &[u8], at: usize) -> Structure
    ensures { result ≡ known_said s.now (record_at s.now at) }
{
    areas::board_known(s, at)
}

// Writes a record, which is given as `Structure` has it; the position after it.
#[unsafe(no_mangle)]
pub extern "C" fn board_write(
    kind: u8,
    complete: bool,
    value: u16,
    start: usize,
    len: usize,
    s: &[u8],
    at: usize,
    out: &mut [u8],
) -> Got
    ensures { (result ≡ written_got (written_to (structure_in kind complete value start len) s.now out.old at)) × (out.new ≡ written_after (structure_in kind complete value start len) s.now out.old at) }
{
    areas::board_write(kind, complete, value, start, len, s, at, out)
}

#[unsafe(no_mangle)]
pub extern "C" fn board_flags(octet: u8) -> FlagsSaid
    ensures { result ≡ flags_said octet }
{
    areas::board_flags(octet)
}
