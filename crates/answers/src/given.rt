// Addresses, filters and records, given as octets, bits and numbers.
ghost use Rattle.std.specs.Prelude.{◌≡◌};
ghost use Rattle.addresses.specs.Address.{kind_of, address_of};
ghost use Rattle.answers.specs.Given.{filter_for, structure_in};

use addresses::device_address::{AddressKind, DeviceAddress};
use addresses::filter::AddressFilter;
use octets::comp_id::CompanyId;
use records::ad_structure::{AdStructure, Flags};

pub fn address(octets: [u8; 6], random: bool) -> DeviceAddress
    ensures { result ≡ address_of octets (kind_of random) }
{
    DeviceAddress::new(octets, AddressKind::of(random))
}

pub fn filter(filtered: bool) -> AddressFilter
    ensures { result ≡ filter_for filtered }
{
    if filtered {
        AddressFilter::Whitelist
    } else {
        AddressFilter::AllowAll
    }
}

// A record. Its kinds are 1 to 9 in the order of `AdStructure`, any other is 9; `value` is the bits of Flags, a UUID, a company or a type.
#[tactic(auto, unfolding(crate::specs::Given::structure_in))]
pub fn structure(kind: u8, complete: bool, value: u16, start: usize, len: usize) -> AdStructure
    ensures { result ≡ structure_in kind complete value start len }
{
    match kind {
        1 => AdStructure::Flags(Flags::from_bits_truncate((value % 256) as u8)),
        2 => AdStructure::ServiceUuids16 {
            complete,
            start,
            len,
        },
        3 => AdStructure::ServiceUuids32 {
            complete,
            start,
            len,
        },
        4 => AdStructure::ServiceUuids128 {
            complete,
            start,
            len,
        },
        5 => AdStructure::ServiceData16 {
            uuid: value,
            start,
            len,
        },
        6 => AdStructure::CompleteLocalName { start, len },
        7 => AdStructure::ShortenedLocalName { start, len },
        8 => AdStructure::ManufacturerSpecificData {
            company_identifier: CompanyId::from_raw(value),
            start,
            len,
        },
        _ => AdStructure::Unknown {
            ty: (value % 256) as u8,
            start,
            len,
        },
    }
}
