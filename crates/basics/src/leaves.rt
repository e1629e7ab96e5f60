// UTF-8, UUIDs, instants, channels, maps and hops.
ghost use Rattle.std.specs.Prelude.{◌≡◌};
ghost use Rattle.octets.specs.Time.{later, since};
ghost use Rattle.utf8.specs.Utf8.{is_utf8};
ghost use Rattle.octets.specs.Uuid.{full_uuid};
ghost use Rattle.channels.specs.Hop.{hopped};
ghost use Rattle.channels.specs.Map.{from_raw, all_channels, is_used, by_index};
ghost use Rattle.channels.specs.Phy.{new_channel};
ghost use Rattle.answers.specs.Got.{flag_got};
ghost use Rattle.basics.specs.Leaves.{advertising_channel, channel_after, data_channel, found_got, hop_got};

use answers::got::{Got, flag, one_number, two_numbers};
use channels::channel_map::ChannelMap;
use channels::connection::hop_channel;
use channels::phy::{AdvertisingChannel, DataChannel};
use octets::time::Instant;
use octets::uuid::{Uuid16, Uuid32, Uuid128};
use utf8::is_utf8;

// For C: a full UUID.
#[repr(C)]
#[derive(Clone, Copy)]
pub struct Uuid {
    pub octets: [u8; 16],
}

// For C: a channel's index, RF channel, centre frequency and start of whitening.
#[repr(C)]
#[derive(Clone, Copy)]
pub struct Channel {
    pub number: u8,
    pub index: u8,
    pub rf_channel: u8,
    pub whitening_iv: u8,
    pub freq: u16,
}

// For C: a map's octets and count.
#[repr(C)]
#[derive(Clone, Copy)]
pub struct Map {
    pub raw: [u8; 5],
    pub count: u8,
}

pub fn board_utf8(s: &[u8]) -> bool
    ensures { result ≡ is_utf8 s.now }
{
    is_utf8(s)
}

pub fn board_uuid16(value: u16) -> Uuid
    ensures { result.octets ≡ full_uuid value }
{
    let uuid = Uuid128::from(Uuid16(value));
    let octets = uuid.0;
    Uuid { octets }
}

pub fn board_uuid32(value: u32) -> Uuid
    ensures { result.octets ≡ full_uuid value }
{
    let uuid = Uuid128::from(Uuid32(value));
    let octets = uuid.0;
    Uuid { octets }
}

pub fn board_later(time: u32, micros: u32) -> u32
    ensures { result ≡ later time micros }
{
    Instant::from_raw_micros(time).add(micros).raw_micros()
}

pub fn board_since(time: u32, earlier: u32) -> u32
    ensures { result ≡ since time earlier }
{
    Instant::from_raw_micros(time).duration_since(Instant::from_raw_micros(earlier))
}

// The advertising channel after up to 3 cycles from the first.
pub fn board_advertising_channel(times: u8) -> Channel
    ensures { result ≡ advertising_channel (channel_after times) }
{
    let channel = cycled(times);
    Channel {
        number: 0,
        index: channel.channel(),
        rf_channel: channel.rf_channel(),
        whitening_iv: channel.whitening_iv(),
        freq: channel.freq(),
    }
}

fn cycled(times: u8) -> AdvertisingChannel
    ensures { result ≡ channel_after times }
{
    let first = AdvertisingChannel::first();
    match times {
        0 => first,
        1 => first.cycle(),
        2 => first.cycle().cycle(),
        _ => first.cycle().cycle().cycle(),
    }
}

pub fn board_data_channel(index: u8) -> Channel
    ensures { result ≡ data_channel (new_channel index) }
{
    match DataChannel::new(index) {
        Ok(channel) => Channel {
            number: 0,
            index: channel.index(),
            rf_channel: channel.rf_channel(),
            whitening_iv: channel.whitening_iv(),
            freq: channel.freq(),
        },
        Err(e) => Channel {
            number: e.number(),
            index: 0,
            rf_channel: 0,
            whitening_iv: 0,
            freq: 0,
        },
    }
}

pub fn board_map(raw: &[u8; 5]) -> Map
    ensures { (result.raw ≡ (from_raw raw.now).raw) × (result.count ≡ (from_raw raw.now).num_used_channels) }
{
    map_said(ChannelMap::from_raw(*raw))
}

// The map of all data channels.
pub fn board_all_channels() -> Map
    ensures { (result.raw ≡ all_channels.raw) × (result.count ≡ all_channels.num_used_channels) }
{
    map_said(ChannelMap::with_all_channels())
}

fn map_said(map: ChannelMap) -> Map
    ensures { (result.raw ≡ map.raw) × (result.count ≡ map.num_used_channels) }
{
    let raw = map.to_raw();
    Map {
        raw,
        count: map.num_used_channels(),
    }
}

pub fn board_is_used(raw: &[u8; 5], channel: u8) -> Got
    ensures { result ≡ flag_got (is_used (from_raw raw.now) channel) }
{
    flag(ChannelMap::from_raw(*raw).is_used(channel))
}

pub fn board_by_index(raw: &[u8; 5], n: u8) -> Got
    ensures { result ≡ found_got (by_index (from_raw raw.now) n) }
{
    let found = ChannelMap::from_raw(*raw).by_index(n);
    one_number(found.map(|channel| channel.index() as usize))
}

// The next unmapped channel, and the channel to use.
pub fn board_hop(raw: &[u8; 5], unmapped: u8, hop: u8) -> Got
    ensures { result ≡ hop_got (hopped (from_raw raw.now) unmapped hop) }
{
    let hopped = hop_channel(ChannelMap::from_raw(*raw), unmapped, hop);
    two_numbers(hopped.map(|hop| (hop.unmapped as usize, hop.channel.index() as usize)))
}
