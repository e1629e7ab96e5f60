// The settings of a connection, taken from a connect request where they are within the Core's ranges (document 02, Note 6).
#![tactic(auto)]

ghost use Rattle.std.specs.Prelude.{◌≡◌, ◌≤◌};
ghost use Rattle.settings.specs.Ranges.{Ranges, times_in_range, window_in_range, in_ranges};

use advertising::pdu::ConnectRequestData;
use channels::channel_map::ChannelMap;
use octets::error::Error;

// Settings as the counts that a request has.
#[derive(Clone, Copy)]
pub struct ConnectionSettings {
    hop: u8,
    chm: ChannelMap,
    // Of 1,250 µs.
    interval: u16,
    // Of events.
    latency: u16,
    // Of 10 ms.
    timeout: u16,
    // Both of 1,250 µs.
    win_size: u8,
    win_offset: u16,
    // They are within the Core's ranges.
    pub ghost within: { Ranges hop chm.num_used_channels interval latency timeout win_size win_offset },
}

impl ConnectionSettings {
    ghost use Rattle.settings.specs.Settings.{settings_of, least_settings, answer_of, taken_of, alone_of};

    // The least of each range, over all channels: what a caller may go on with that was refused.
    pub fn least() -> ConnectionSettings
        ensures { settings_of result ≡ least_settings }
    {
        ConnectionSettings {
            hop: 5,
            chm: ChannelMap::with_all_channels(),
            interval: 6,
            latency: 0,
            timeout: 10,
            win_size: 1,
            win_offset: 0,
        }
    }

    // The settings of a decoded request. Order: a map that marks no channel, then a setting outside its range.
    // Not `TryFrom`: the name at the call stands beside `from_octets`, and is what docs/ cites.
    pub fn of(lldata: ConnectRequestData) -> Result<ConnectionSettings, Error>
        ensures { answer_of result ≡ taken_of lldata }
    {
        let chm = lldata.channel_map();
        let channels = chm.num_used_channels();
        if channels == 0 {
            return Err(Error::EmptyMap);
        }
        let hop = lldata.hop();
        let interval = lldata.interval() / 1250;
        let latency = lldata.slave_latency();
        let timeout = lldata.supervision_timeout() / 10_000;
        let win_size = lldata.win_size() / 1250;
        let win_offset = lldata.win_offset() / 1250;
        if !in_ranges(
            hop, channels, interval, latency, timeout, win_size, win_offset,
        ) {
            return Err(Error::OutOfRange);
        }
        Ok(ConnectionSettings {
            hop,
            chm,
            interval: interval as u16,
            latency,
            timeout: timeout as u16,
            win_size: win_size as u8,
            win_offset: win_offset as u16,
        })
    }

    // The same of the 22 octets that follow a connect request's two addresses.
    pub fn from_octets(octets: [u8; 22]) -> Result<ConnectionSettings, Error>
        ensures { answer_of result ≡ alone_of octets }
    {
        ConnectionSettings::of(ConnectRequestData::from_octets(octets))
    }

    pub fn hop(self) -> u8
        ensures { result ≡ self.hop }
    {
        self.hop
    }

    pub fn channel_map(self) -> ChannelMap
        ensures { result ≡ self.chm }
    {
        self.chm
    }

    pub fn interval(self) -> u16
        ensures { result ≡ self.interval }
    {
        self.interval
    }

    pub fn slave_latency(self) -> u16
        ensures { result ≡ self.latency }
    {
        self.latency
    }

    pub fn supervision_timeout(self) -> u16
        ensures { result ≡ self.timeout }
    {
        self.timeout
    }

    pub fn win_size(self) -> u8
        ensures { result ≡ self.win_size }
    {
        self.win_size
    }

    pub fn win_offset(self) -> u16
        ensures { result ≡ self.win_offset }
    {
        self.win_offset
    }
}

// Whether counts are within the ranges.
// Seven counts: there are no settings before they are known to be within the ranges.
#[tactic(auto, unfolding(crate::specs::Ranges::in_ranges))]
fn in_ranges(
    hop: u8,
    channels: u8,
    interval: u32,
    latency: u16,
    timeout: u32,
    win_size: u32,
    win_offset: u32,
) -> bool
    ensures { result ≡ in_ranges hop channels interval latency timeout win_size win_offset }
{
    (5..=16).contains(&hop)
        && 2 <= channels
        && times_in_range(interval, latency, timeout)
        && window_in_range(interval, win_size, win_offset)
}

fn times_in_range(interval: u32, latency: u16, timeout: u32) -> bool
    ensures { result ≡ times_in_range interval latency timeout }
{
    (6..=3200).contains(&interval)
        && latency <= 499
        && (10..=3200).contains(&timeout)
        // At most 500 × 3,200.
        && (1 + u32::from(latency)) * interval < timeout * 4
}

fn window_in_range(interval: u32, win_size: u32, win_offset: u32) -> bool
    requires { 1 ≤ interval }
    ensures { result ≡ window_in_range interval win_size win_offset }
{
    (1..=(interval - 1).min(8)).contains(&win_size) && win_offset <= interval
}
