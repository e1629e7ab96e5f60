// A beacon sent, and a scanner.
ghost use Rattle.std.specs.Prelude.{◌≡◌, false};
ghost use Rattle.addresses.specs.Address.{kind_of, address_of};
ghost use Rattle.addresses.specs.Header.{parsed};
ghost use Rattle.beacon_spec.specs.Sending.{beacon_of};
ghost use Rattle.exports.specs.Air.{beacon_sent, beacon_after, scanner_with, updated_got, heard_from};

use answers::got::Got;
use exports::air;
use exports::air::{Heard, Sent};

#[unsafe(no_mangle)]
pub extern "C" fn board_beacon(own: &[u8; 6], random: bool, records: &[u8], tx: &mut [u8]) -> Sent
    ensures { (result ≡ beacon_sent (beacon_of (address_of own.now (kind_of random)) records.now) tx.old) × (tx.new ≡ beacon_after (beacon_of (address_of own.now (kind_of random)) records.now) tx.old) }
{
    air::board_beacon(own, random, records, tx)
}

// The channel that it listens on, and until when.
#[unsafe(no_mangle)]
pub extern "C" fn board_scanner(time: u32, interval: u32, updates: u8) -> Got
    ensures { result ≡ updated_got (scanner_with false time interval updates) }
{
    air::board_scanner(time, interval, updates)
}

#[unsafe(no_mangle)]
pub extern "C" fn board_scan(
    filtered: bool,
    list: &[u8],
    updates: u8,
    header: &[u8],
    payload: &[u8],
    crc_ok: bool,
) -> Heard
    ensures { result ≡ heard_from (scanner_with filtered 0 0 updates).scanner (parsed header.now) payload.now crc_ok list.now }
{
    air::board_scan(filtered, list, updates, header, payload, crc_ok)
}
