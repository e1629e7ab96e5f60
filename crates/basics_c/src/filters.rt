// Filters, and the Flags that have a name.
ghost use Rattle.std.specs.Prelude.{◌≡◌};
ghost use Rattle.flags.specs.Flags.{discoverable_flags, broadcast_flags};
ghost use Rattle.addresses.specs.Address.{kind_of, address_of};
ghost use Rattle.addresses.specs.Filter.{matches_of, adv_filter_of, may_scan, may_connect, should_scan};
ghost use Rattle.addresses.specs.declared.filter.AddressFilter.TheVariants.{Whitelist};
ghost use Rattle.answers.specs.Given.{filter_for};
ghost use Rattle.answers.specs.Got.{flag_got};
ghost use Rattle.basics.specs.Filters.{scan_filter_of};

use answers::got::Got;
use basics::filters;

// Whether a list holds an address.
#[unsafe(no_mangle)]
pub extern "C" fn board_whitelist(list: &[u8], octets: &[u8; 6], random: bool) -> Got
    ensures { result ≡ flag_got (matches_of Whitelist list.now (address_of octets.now (kind_of random))) }
{
    filters::board_whitelist(list, octets, random)
}

// Whether an address may scan, and whether it may connect, where the list is in use for scan requests, for connect requests, or not.
#[unsafe(no_mangle)]
pub extern "C" fn board_may_scan(
    scan: bool,
    connect: bool,
    list: &[u8],
    octets: &[u8; 6],
    random: bool,
) -> Got
    ensures { result ≡ flag_got (may_scan (adv_filter_of (filter_for scan) (filter_for connect)) list.now (address_of octets.now (kind_of random))) }
{
    filters::board_may_scan(scan, connect, list, octets, random)
}

#[unsafe(no_mangle)]
pub extern "C" fn board_may_connect(
    scan: bool,
    connect: bool,
    list: &[u8],
    octets: &[u8; 6],
    random: bool,
) -> Got
    ensures { result ≡ flag_got (may_connect (adv_filter_of (filter_for scan) (filter_for connect)) list.now (address_of octets.now (kind_of random))) }
{
    filters::board_may_connect(scan, connect, list, octets, random)
}

// Whether a scanner hears an address, where the list is in use or not.
#[unsafe(no_mangle)]
pub extern "C" fn board_should_scan(scan: bool, list: &[u8], octets: &[u8; 6], random: bool) -> Got
    ensures { result ≡ flag_got (should_scan (scan_filter_of (filter_for scan)) list.now (address_of octets.now (kind_of random))) }
{
    filters::board_should_scan(scan, list, octets, random)
}

// The Flags of a start, and those of a beacon.
#[unsafe(no_mangle)]
pub extern "C" fn board_discoverable_flags() -> u8
    ensures { result ≡ discoverable_flags }
{
    filters::board_discoverable_flags()
}

#[unsafe(no_mangle)]
pub extern "C" fn board_broadcast_flags() -> u8
    ensures { result ≡ broadcast_flags }
{
    filters::board_broadcast_flags()
}
