// Filters: which devices a scanner hears, and which may scan or connect.
ghost use Rattle.std.specs.Prelude.{◌≡◌, ◌/◌, length};
ghost use Rattle.addresses.specs.Filter.{any, bad_kind, entry_at, entry_is, whitelisted, matches_of, adv_filter_of, may_scan, may_connect, should_scan};

use crate::device_address::{AddressKind, DeviceAddress};
use octets::error::Error;

// Which devices pass. The whitelist is lent beside it, as 7 octets for each address: its kind (0 public, 1 random), then its six octets.
#[derive(Clone, Copy, Debug, PartialEq, Eq)]
pub enum AddressFilter {
    // Every device.
    AllowAll,
    // Those in the list.
    Whitelist,
}

impl AddressFilter {
    // Whether an address passes. With `AllowAll` the list is not looked at.
    pub fn matches(self, list: &[u8], address: DeviceAddress) -> Result<bool, Error>
        ensures { result ≡ matches_of self list.now address }
    {
        match self {
            AddressFilter::AllowAll => Ok(true),
            AddressFilter::Whitelist => whitelist(list, address),
        }
    }
}

// The whole list is tested first.
#[tactic(auto, unfolding(crate::specs::Filter::whitelisted))]
fn whitelist(list: &[u8], address: DeviceAddress) -> Result<bool, Error>
    ensures { result ≡ whitelisted list.now address }
{
    if list.len() % 7 != 0 || has_bad_kind(list) {
        return Err(Error::InvalidValue);
    }
    Ok(holds(list, address))
}

fn has_bad_kind(list: &[u8]) -> bool
    ensures { result ≡ any (bad_kind list.now) (length list.now / 7) }
{
    list.chunks_exact(7).any(|entry| 1 < entry[0])
}

fn holds(list: &[u8], address: DeviceAddress) -> bool
    ensures { result ≡ any (entry_is list.now address) (length list.now / 7) }
{
    list.chunks_exact(7)
        .any(|entry| address_in(entry) == address)
}

// The address of an entry.
fn address_in(entry: &[u8]) -> DeviceAddress
    requires { length entry.now ≡ 7 }
    ensures { result ≡ entry_at entry.now 0 }
{
    let octets = [entry[1], entry[2], entry[3], entry[4], entry[5], entry[6]];
    DeviceAddress::new(octets, AddressKind::of(entry[0] == 1))
}

// Whose scan requests and whose connect requests an advertising device takes (the Core: advertising filter policy).
#[derive(Clone, Copy)]
pub struct AdvFilter {
    scan: AddressFilter,
    connect: AddressFilter,
}

impl AdvFilter {
    pub fn new(scan: AddressFilter, connect: AddressFilter) -> AdvFilter
        ensures { result ≡ adv_filter_of scan connect }
    {
        AdvFilter { scan, connect }
    }

    // Two names for one test, as in rubble: document 01 names both.
    pub fn may_scan(self, list: &[u8], device: DeviceAddress) -> Result<bool, Error>
        ensures { result ≡ may_scan self list.now device }
    {
        self.scan.matches(list, device)
    }

    pub fn may_connect(self, list: &[u8], device: DeviceAddress) -> Result<bool, Error>
        ensures { result ≡ may_connect self list.now device }
    {
        self.connect.matches(list, device)
    }
}

// Whose advertisements a scanner takes (the Core: scanner filter policy).
#[derive(Clone, Copy, Debug, PartialEq, Eq)]
pub struct ScanFilter {
    scan: AddressFilter,
}

impl ScanFilter {
    pub fn new(scan: AddressFilter) -> ScanFilter
        ensures { result.scan ≡ scan }
    {
        ScanFilter { scan }
    }

    pub fn should_scan(self, list: &[u8], device: DeviceAddress) -> Result<bool, Error>
        ensures { result ≡ should_scan self list.now device }
    {
        let filter = self.scan;
        filter.matches(list, device)
    }
}
