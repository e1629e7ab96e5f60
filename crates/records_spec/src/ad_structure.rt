// AD structures, here called records: a length octet, a type octet and data (the Core, Vol 3 Part C, 11; the Supplement, Part A, 1).
use flags::Flags;
use octets::comp_id::CompanyId;
use octets::error::Error;
use octets::uuid::Uuid16;

// A record. rubble's holds its data; here `start` and `len` say where they lie in octets that are lent beside it.
#[derive(Clone, Copy)]
pub enum AdStructure {
    // Five bits: how the device may be found, and what else it speaks.
    Flags(Flags),
    ServiceUuids16 {
        complete: bool,
        start: usize,
        len: usize,
    },
    ServiceUuids32 {
        complete: bool,
        start: usize,
        len: usize,
    },
    ServiceUuids128 {
        complete: bool,
        start: usize,
        len: usize,
    },
    // What a service says, after its UUID of 16 bits; that may be nothing.
    ServiceData16 {
        uuid: u16,
        start: usize,
        len: usize,
    },
    // The device's whole name, in UTF-8.
    CompleteLocalName {
        start: usize,
        len: usize,
    },
    // The beginning of that name.
    ShortenedLocalName {
        start: usize,
        len: usize,
    },
    ManufacturerSpecificData {
        company_identifier: CompanyId,
        start: usize,
        len: usize,
    },
    // A record of another type, or one that is not read further.
    Unknown {
        ty: u8,
        start: usize,
        len: usize,
    },
}
