// Lists of entries on a scanner, which are drawn in exports/src/scans.rt.
ghost use Rattle.std.specs.Prelude.{◌≡◌};
ghost use Rattle.beacon_spec.specs.Scanner.{scanner_of};
ghost use Rattle.answers.specs.Given.{filter_for};
ghost use Rattle.exports.specs.Scans.{entries_after, entry_said};

use exports::scans;
use exports::scans::Listened;

// The answer of an entry after a list of entries on a fresh scanner, with a filter list in use or without.
#[unsafe(no_mangle)]
pub extern "C" fn board_scanner_call(
    filtered: bool,
    list: &[u8],
    entries: &[u8],
    entry: &[u8],
) -> Listened
    ensures { result ≡ entry_said entry.now list.now (entries_after (scanner_of (filter_for filtered)) entries.now) }
{
    scans::board_scanner_call(filtered, list, entries, entry)
}
