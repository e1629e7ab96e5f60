// Lists of calls on a device, which are drawn in exports/src/lists.rt.
ghost use Rattle.std.specs.Prelude.{◌≡◌};
ghost use Rattle.addresses.specs.Address.{kind_of, address_of};
ghost use Rattle.exports.specs.Lists.{called_by, step_of, ran_all, called_said};

use exports::lists;
use exports::lists::Said;

// The answer of a call after a list of calls on a fresh device.
#[unsafe(no_mangle)]
pub extern "C" fn board_call(
    own: &[u8; 6],
    random: bool,
    calls: &[u8],
    call: &[u8],
    first: &mut [u8],
    second: &mut [u8],
) -> Said
    ensures { (result ≡ called_said (called_by call.now (ran_all (address_of own.now (kind_of random)) calls.now first.old second.old))) × (first.new ≡ (step_of call.now (ran_all (address_of own.now (kind_of random)) calls.now first.old second.old)).first) × (second.new ≡ (step_of call.now (ran_all (address_of own.now (kind_of random)) calls.now first.old second.old)).second) }
{
    lists::board_call(own, random, calls, call, first, second)
}
