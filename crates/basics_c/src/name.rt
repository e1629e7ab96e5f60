// The player's name in an advertisement and in the reply to it.
ghost use Rattle.std.specs.Prelude.{◌≡◌};
ghost use Rattle.names_spec.specs.Name.{name_of};
ghost use Rattle.basics.specs.Names.{name_said};

use basics::name;
use basics::name::NameSaid;

#[unsafe(no_mangle)]
pub extern "C" fn board_name(advertisement: &[u8], reply: &[u8]) -> NameSaid
    ensures { result ≡ name_said (name_of advertisement.now reply.now) }
{
    name::board_name(advertisement, reply)
}
