// The settings of a connect request.
ghost use Rattle.std.specs.Prelude.{◌≡◌};
ghost use Rattle.settings.specs.Settings.{settings_of, alone_of};
ghost use Rattle.basics.specs.Settings.{said_of, settings_said};

use settings::ConnectionSettings;

// For C: counts of 1,250 µs, of 10 ms for the timeout, of events for the latency; zeros beside a refusal's number.
#[repr(C)]
#[derive(Clone, Copy)]
pub struct SettingsSaid {
    pub number: u8,
    pub hop: u8,
    pub map: [u8; 5],
    pub channels: u8,
    pub interval: u16,
    pub latency: u16,
    pub timeout: u16,
    pub win_size: u8,
    pub win_offset: u16,
}

pub fn board_settings(octets: &[u8; 22]) -> SettingsSaid
    ensures { result ≡ settings_said (alone_of octets.now) }
{
    match ConnectionSettings::from_octets(*octets) {
        Ok(settings) => said(settings),
        Err(e) => SettingsSaid {
            number: e.number(),
            hop: 0,
            map: [0; 5],
            channels: 0,
            interval: 0,
            latency: 0,
            timeout: 0,
            win_size: 0,
            win_offset: 0,
        },
    }
}

fn said(settings: ConnectionSettings) -> SettingsSaid
    ensures { result ≡ said_of (settings_of settings) }
{
    let chm = settings.channel_map();
    let map = chm.to_raw();
    SettingsSaid {
        number: 0,
        hop: settings.hop(),
        map,
        channels: chm.num_used_channels(),
        interval: settings.interval(),
        latency: settings.slave_latency(),
        timeout: settings.supervision_timeout(),
        win_size: settings.win_size(),
        win_offset: settings.win_offset(),
    }
}
