// The settings of a connect request.
ghost use Rattle.std.specs.Prelude.{◌≡◌};
ghost use Rattle.settings.specs.Settings.{alone_of};
ghost use Rattle.basics.specs.Settings.{settings_said};

use basics::setting;
use basics::setting::SettingsSaid;

#[unsafe(no_mangle)]
pub extern "C" fn board_settings(octets: &[u8; 22]) -> SettingsSaid
    ensures { result ≡ settings_said (alone_of octets.now) }
{
    setting::board_settings(octets)
}
