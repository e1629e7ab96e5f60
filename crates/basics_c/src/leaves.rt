// UTF-8, UUIDs, instants, channels, maps and hops.
ghost use Rattle.std.specs.Prelude.{◌≡◌};
ghost use Rattle.octets.specs.Time.{later, since};
ghost use Rattle.utf8.specs.Utf8.{is_utf8};
ghost use Rattle.octets.specs.Uuid.{full_uuid};
ghost use Rattle.channels.specs.Hop.{hopped};
ghost use Rattle.channels.specs.Map.{from_raw, all_channels, is_used, by_index};
ghost use Rattle.channels.specs.Phy.{new_channel};
ghost use Rattle.answers.specs.Got.{flag_got};
ghost use Rattle.basics.specs.Leaves.{advertising_channel, channel_after, data_channel, found_got, hop_got};

use answers::got::Got;
use basics::leaves;
use basics::leaves::{Channel, Map, Uuid};

#[unsafe(no_mangle)]
pub extern "C" fn board_utf8(s: &[u8]) -> bool
    ensures { result ≡ is_utf8 s.now }
{
    leaves::board_utf8(s)
}

#[unsafe(no_mangle)]
pub extern "C" fn board_uuid16(value: u16) -> Uuid
    ensures { result.octets ≡ full_uuid value }
{
    leaves::board_uuid16(value)
}

#[unsafe(no_mangle)]
pub extern "C" fn board_uuid32(value: u32) -> Uuid
    ensures { result.octets ≡ full_uuid value }
{
    leaves::board_uuid32(value)
}

#[unsafe(no_mangle)]
pub extern "C" fn board_later(time: u32, micros: u32) -> u32
    ensures { result ≡ later time micros }
{
    leaves::board_later(time, micros)
}

#[unsafe(no_mangle)]
pub extern "C" fn board_since(time: u32, earlier: u32) -> u32
    ensures { result ≡ since time earlier }
{
    leaves::board_since(time, earlier)
}

// The advertising channel after up to 3 cycles from the first.
#[unsafe(no_mangle)]
pub extern "C" fn board_advertising_channel(times: u8) -> Channel
    ensures { result ≡ advertising_channel (channel_after times) }
{
    leaves::board_advertising_channel(times)
}

#[unsafe(no_mangle)]
pub extern "C" fn board_data_channel(index: u8) -> Channel
    ensures { result ≡ data_channel (new_channel index) }
{
    leaves::board_data_channel(index)
}

#[unsafe(no_mangle)]
pub extern "C" fn board_map(raw: &[u8; 5]) -> Map
    ensures { (result.raw ≡ (from_raw raw.now).raw) × (result.count ≡ (from_raw raw.now).num_used_channels) }
{
    leaves::board_map(raw)
}

// The map of all data channels.
#[unsafe(no_mangle)]
pub extern "C" fn board_all_channels() -> Map
    ensures { (result.raw ≡ all_channels.raw) × (result.count ≡ all_channels.num_used_channels) }
{
    leaves::board_all_channels()
}

#[unsafe(no_mangle)]
pub extern "C" fn board_is_used(raw: &[u8; 5], channel: u8) -> Got
    ensures { result ≡ flag_got (is_used (from_raw raw.now) channel) }
{
    leaves::board_is_used(raw, channel)
}

#[unsafe(no_mangle)]
pub extern "C" fn board_by_index(raw: &[u8; 5], n: u8) -> Got
    ensures { result ≡ found_got (by_index (from_raw raw.now) n) }
{
    leaves::board_by_index(raw, n)
}

// The next unmapped channel, and the channel to use.
#[unsafe(no_mangle)]
pub extern "C" fn board_hop(raw: &[u8; 5], unmapped: u8, hop: u8) -> Got
    ensures { result ≡ hop_got (hopped (from_raw raw.now) unmapped hop) }
{
    leaves::board_hop(raw, unmapped, hop)
}
