// AD structures, here called records, read and written.
ghost use Rattle.std.specs.Prelude.{◌≡◌, ◌++◌, ◌+◌, ◌≤◌, ◌<◌, ◌^◌, length, get_or, drop};
ghost use Rattle.octets.specs.Bytes.{written};
ghost use Rattle.records_spec.specs.Record.{record_of, uuid_list, flags_read, uuids_read, local_name, name_read, number_read, data_read, kind_read, first, record_read, known_read, record_at};
ghost use Rattle.records_spec.specs.Uuids.{uuid16_at};
ghost use Rattle.records_spec.specs.Write.{IsOutline, list_type, list_check, lent_outline, space_in, lent_to, lent_after, written_to, written_after};
ghost use Rattle.records.specs.State.{content_check, outline_state};

pub use flags::Flags;
use octets::bytes::{
    ByteReader, ByteWriter, FromBytes, Part, has_octets, u16_from_le_bytes, u16_to_le_bytes,
};
use octets::comp_id::CompanyId;
use octets::error::Error;
use octets::uuid::{Uuid16, UuidKind};
pub use records_spec::ad_structure::AdStructure;
use utf8::is_utf8;

// What the data of a record must be.
#[derive(Clone, Copy)]
enum Content {
    Octets,
    // A list of whole UUIDs.
    Uuids(UuidKind),
    // UTF-8.
    Text,
}

impl Content {
    // Refuses data that are not so.
    fn check(self, data: &[u8]) -> Result<(), Error>
        ensures { result ≡ content_check self «data».now }
    {
        match self {
            Content::Octets => Ok(()),
            Content::Uuids(kind) => {
                if data.len() % kind.size() == 0 {
                    Ok(())
                } else {
                    Err(Error::Eof)
                }
            }
            Content::Text => {
                if is_utf8(data) {
                    Ok(())
                } else {
                    Err(Error::InvalidValue)
                }
            }
        }
    }
}

// What is written of a record.
#[derive(Clone, Copy)]
struct Outline {
    ty: u8,
    // What the record holds itself, least significant octet first, and how many octets of that are written.
    own: u16,
    held: usize,
    // Where its lent data lie, and what they must be.
    start: usize,
    len: usize,
    content: Content,
}

fn outline_of(ad: AdStructure) -> Outline
    ensures { IsOutline ad (outline_state result) }
{
    match ad {
        AdStructure::Flags(flags) => Outline {
            ty: Type::FLAGS,
            own: flags.to_u8() as u16,
            held: 1,
            start: 0,
            len: 0,
            content: Content::Octets,
        },
        AdStructure::ServiceUuids16 {
            complete,
            start,
            len,
        } => list(UuidKind::Uuid16, complete, start, len),
        AdStructure::ServiceUuids32 {
            complete,
            start,
            len,
        } => list(UuidKind::Uuid32, complete, start, len),
        AdStructure::ServiceUuids128 {
            complete,
            start,
            len,
        } => list(UuidKind::Uuid128, complete, start, len),
        AdStructure::ServiceData16 { uuid, start, len } => Outline {
            ty: Type::SERVICE_DATA_16BIT_UUID,
            own: uuid,
            held: 2,
            start,
            len,
            content: Content::Octets,
        },
        AdStructure::CompleteLocalName { start, len } => {
            lent(Type::COMPLETE_LOCAL_NAME, start, len, Content::Text)
        }
        AdStructure::ShortenedLocalName { start, len } => {
            lent(Type::SHORTENED_LOCAL_NAME, start, len, Content::Text)
        }
        AdStructure::ManufacturerSpecificData {
            company_identifier,
            start,
            len,
        } => Outline {
            ty: Type::MANUFACTURER_SPECIFIC_DATA,
            own: company_identifier.as_u16(),
            held: 2,
            start,
            len,
            content: Content::Octets,
        },
        AdStructure::Unknown { ty, start, len } => lent(ty, start, len, Content::Octets),
    }
}

// The outline of a record that holds nothing itself.
fn lent(ty: u8, start: usize, len: usize, content: Content) -> Outline
    ensures { outline_state result ≡ lent_outline ty start len (content_check content) }
{
    Outline {
        ty,
        own: 0,
        held: 0,
        start,
        len,
        content,
    }
}

// The outline of a list of UUIDs.
fn list(kind: UuidKind, complete: bool, start: usize, len: usize) -> Outline
    ensures { outline_state result ≡ lent_outline (list_type kind complete) start len (list_check kind) }
{
    lent(list_type(kind, complete), start, len, Content::Uuids(kind))
}

// The type octet of a list of UUIDs.
fn list_type(kind: UuidKind, complete: bool) -> u8
    ensures { result ≡ list_type kind complete }
{
    match (kind, complete) {
        (UuidKind::Uuid16, false) => Type::INCOMPLETE_LIST_OF_16BIT_SERVICE_UUIDS,
        (UuidKind::Uuid16, true) => Type::COMPLETE_LIST_OF_16BIT_SERVICE_UUIDS,
        (UuidKind::Uuid32, false) => Type::INCOMPLETE_LIST_OF_32BIT_SERVICE_UUIDS,
        (UuidKind::Uuid32, true) => Type::COMPLETE_LIST_OF_32BIT_SERVICE_UUIDS,
        (UuidKind::Uuid128, false) => Type::INCOMPLETE_LIST_OF_128BIT_SERVICE_UUIDS,
        (UuidKind::Uuid128, true) => Type::COMPLETE_LIST_OF_128BIT_SERVICE_UUIDS,
    }
}

// Whether `len` octets of data may be written at position `at` of `size` octets, with a length and a type before them.
fn space_for(len: usize, at: usize, size: usize) -> Result<(), Error>
    requires { len + 2 < 2 ^ 64 }
    ensures { result ≡ space_in len size at }
{
    if size < at || size - at < len + 2 {
        return Err(Error::Eof);
    }
    if 255 < len + 1 {
        return Err(Error::RecordLength);
    }
    Ok(())
}

// Puts octets at position `at`. By a loop: `copy_from_slice` calls `memmove`, and the archives promise to call `memcpy` alone.
fn put_octets(octets: &[u8], at: usize, out: &mut [u8])
    requires { at + length octets.now ≤ length out.old }
    ensures { out.new ≡ written octets.now out.old at }
{
    for i in 0..octets.len() {
        out[at + i] = octets[i];
    }
}

// Puts length, type, a record's own octets and its data at position `at`.
fn put_record(len: u8, ty: u8, own: &[u8], data: &[u8], at: usize, out: &mut [u8])
    requires { (at + 2 + length own.now + length «data».now ≤ length out.old) × (len ≡ 1 + length own.now + length «data».now) }
    ensures { out.new ≡ written (record_of ty (own.now ++ «data».now)) out.old at }
{
    out[at] = len;
    out[at + 1] = ty;
    put_octets(own, at + 2, out);
    put_octets(data, at + 2 + own.len(), out);
}

// Writes a record whose lent data are given, where these may be written.
fn write_lent(
    outline: Outline,
    data: &[u8],
    writer: ByteWriter,
    out: &mut [u8],
) -> Result<ByteWriter, Error>
    requires { outline.held ≤ 2 }
    ensures { (result ≡ lent_to (outline_state outline) «data».now out.old writer.at) × (out.new ≡ lent_after (outline_state outline) «data».now out.old writer.at) }
{
    let len = outline.held + data.len();
    outline.content.check(data)?;
    space_for(len, writer.at, out.len())?;
    let own = u16_to_le_bytes(outline.own);
    put_record(
        (len + 1) as u8,
        outline.ty,
        &own[..outline.held],
        data,
        writer.at,
        out,
    );
    Ok(ByteWriter {
        at: writer.at + 2 + len,
    })
}

// Writes a record whose data lie in s.
pub fn write_record(
    ad: AdStructure,
    s: &[u8],
    writer: ByteWriter,
    out: &mut [u8],
) -> Result<ByteWriter, Error>
    ensures { (result ≡ written_to ad s.now out.old writer.at) × (out.new ≡ written_after ad s.now out.old writer.at) }
{
    let outline = outline_of(ad);
    let start = outline.start;
    let len = outline.len;
    if has_octets(s, start, len) {
        let end = start + len;
        return write_lent(outline, &s[start..end], writer, out);
    }
    Err(Error::Eof)
}

// The data of a record, and where they start in the octets that the record stands in.
#[derive(Clone, Copy)]
struct Data<'a> {
    octets: &'a [u8],
    start: usize,
}

impl<'a> Data<'a> {
    // Reads Flags.
    fn read_flags(self) -> Result<AdStructure, Error>
        ensures { result ≡ flags_read self.entry.octets.now }
    {
        if self.octets.len() != 1 {
            return Err(Error::InvalidLength);
        }
        Ok(AdStructure::Flags(Flags::from_bits_truncate(self.octets[0])))
    }

    // Reads a list of UUIDs.
    fn read_uuids(self, kind: UuidKind, complete: bool) -> Result<AdStructure, Error>
        ensures { result ≡ uuids_read kind complete self.entry.octets.now self.entry.start }
    {
        Content::Uuids(kind).check(self.octets)?;
        Ok(uuid_list(kind, complete, self.start, self.octets.len()))
    }

    // Reads a name.
    fn read_name(self, complete: bool) -> Result<AdStructure, Error>
        ensures { result ≡ name_read complete self.entry.octets.now self.entry.start }
    {
        Content::Text.check(self.octets)?;
        Ok(local_name(complete, self.start, self.octets.len()))
    }

    // Reads a number of two octets, and where the rest lies.
    fn read_number(self) -> Result<(u16, Part), Error>
        requires { self.start + length self.octets.now < 2 ^ 64 }
        ensures { result ≡ number_read self.entry.octets.now self.entry.start }
    {
        if self.octets.len() < 2 {
            return Err(Error::Eof);
        }
        let rest = Part {
            start: self.start + 2,
            len: self.octets.len() - 2,
        };
        Ok((u16_from_le_bytes(self.octets[0], self.octets[1]), rest))
    }

    // Reads data of type `ty`: of Flags and of lists of 16-bit UUIDs, as rubble does.
    fn read(self, ty: u8) -> Result<AdStructure, Error>
        ensures { result ≡ data_read ty self.entry.octets.now self.entry.start }
    {
        match ty {
            Type::FLAGS => self.read_flags(),
            Type::INCOMPLETE_LIST_OF_16BIT_SERVICE_UUIDS => {
                self.read_uuids(UuidKind::Uuid16, false)
            }
            Type::COMPLETE_LIST_OF_16BIT_SERVICE_UUIDS => self.read_uuids(UuidKind::Uuid16, true),
            _ => Ok(AdStructure::Unknown {
                ty,
                start: self.start,
                len: self.octets.len(),
            }),
        }
    }

    // Reads data of type `ty`, for every type that has a kind of its own.
    fn read_kind(self, ty: u8) -> Result<AdStructure, Error>
        requires { self.start + length self.octets.now < 2 ^ 64 }
        ensures { result ≡ kind_read ty self.entry.octets.now self.entry.start }
    {
        match ty {
            Type::INCOMPLETE_LIST_OF_32BIT_SERVICE_UUIDS => {
                self.read_uuids(UuidKind::Uuid32, false)
            }
            Type::COMPLETE_LIST_OF_32BIT_SERVICE_UUIDS => self.read_uuids(UuidKind::Uuid32, true),
            Type::INCOMPLETE_LIST_OF_128BIT_SERVICE_UUIDS => {
                self.read_uuids(UuidKind::Uuid128, false)
            }
            Type::COMPLETE_LIST_OF_128BIT_SERVICE_UUIDS => self.read_uuids(UuidKind::Uuid128, true),
            Type::SHORTENED_LOCAL_NAME => self.read_name(false),
            Type::COMPLETE_LOCAL_NAME => self.read_name(true),
            Type::SERVICE_DATA_16BIT_UUID => {
                let (uuid, rest) = self.read_number()?;
                Ok(AdStructure::ServiceData16 {
                    uuid,
                    start: rest.start,
                    len: rest.len,
                })
            }
            Type::MANUFACTURER_SPECIFIC_DATA => {
                let (number, rest) = self.read_number()?;
                Ok(AdStructure::ManufacturerSpecificData {
                    company_identifier: CompanyId::from_raw(number),
                    start: rest.start,
                    len: rest.len,
                })
            }
            _ => self.read(ty),
        }
    }
}

// Reads the record at position `at`, whose length octet is `len`.
fn read_sized(s: &[u8], at: usize, len: usize) -> Result<Option<(AdStructure, usize)>, Error>
    requires { (at < length s.now) × (len ≡ get_or s.now at 0) }
    ensures { result ≡ record_read (first (drop at s.now)) at }
{
    if len == 0 {
        return Err(Error::InvalidLength);
    }
    if s.len() - at - 1 < len {
        return Err(Error::Eof);
    }
    let start = at + 2;
    let next = at + 1 + len;
    let data = Data {
        octets: &s[start..next],
        start,
    };
    let ad = data.read(s[at + 1])?;
    Ok(Some((ad, next)))
}

// Reads the record at position `at`. A position past the end is refused.
pub fn read_record(s: &[u8], at: usize) -> Result<Option<(AdStructure, usize)>, Error>
    ensures { result ≡ record_at s.now at }
{
    if at < s.len() {
        return read_sized(s, at, s[at] as usize);
    }
    if at == s.len() {
        return Ok(None);
    }
    Err(Error::Eof)
}

// Reads on from a record of s that was left as type and data: a list, a name, service data or manufacturer specific data.
pub fn read_known(ad: AdStructure, s: &[u8]) -> Result<AdStructure, Error>
    ensures { result ≡ known_read ad s.now }
{
    match ad {
        AdStructure::Unknown { ty, start, len } => {
            if has_octets(s, start, len) {
                let end = start + len;
                let data = Data {
                    octets: &s[start..end],
                    start,
                };
                return data.read_kind(ty);
            }
            Err(Error::Eof)
        }
        _ => Ok(ad),
    }
}

// A list of UUIDs of a kind.
fn uuid_list(kind: UuidKind, complete: bool, start: usize, len: usize) -> AdStructure
    ensures { result ≡ uuid_list kind complete start len }
{
    match kind {
        UuidKind::Uuid16 => AdStructure::ServiceUuids16 {
            complete,
            start,
            len,
        },
        UuidKind::Uuid32 => AdStructure::ServiceUuids32 {
            complete,
            start,
            len,
        },
        UuidKind::Uuid128 => AdStructure::ServiceUuids128 {
            complete,
            start,
            len,
        },
    }
}

// A name.
fn local_name(complete: bool, start: usize, len: usize) -> AdStructure
    ensures { result ≡ local_name complete start len }
{
    if complete {
        AdStructure::CompleteLocalName { start, len }
    } else {
        AdStructure::ShortenedLocalName { start, len }
    }
}

// The UUID at position `at` of a list's data, in the place of rubble's iterator.
pub fn next_uuid16(data: &[u8], at: usize) -> Result<Option<(Uuid16, usize)>, Error>
    ensures { result ≡ uuid16_at «data».now at }
{
    if data.len() == at {
        return Ok(None);
    }
    let (uuid, next) = Uuid16::from_bytes(ByteReader { at }, data)?;
    Ok(Some((uuid, next.at)))
}

// The type octets that are read or written here (Assigned Numbers, 2.3).
#[derive(Clone, Copy)]
pub enum Type {}

impl Type {
    const FLAGS: u8 = 0x01;

    const INCOMPLETE_LIST_OF_16BIT_SERVICE_UUIDS: u8 = 0x02;

    const COMPLETE_LIST_OF_16BIT_SERVICE_UUIDS: u8 = 0x03;

    const INCOMPLETE_LIST_OF_32BIT_SERVICE_UUIDS: u8 = 0x04;

    const COMPLETE_LIST_OF_32BIT_SERVICE_UUIDS: u8 = 0x05;

    const INCOMPLETE_LIST_OF_128BIT_SERVICE_UUIDS: u8 = 0x06;

    const COMPLETE_LIST_OF_128BIT_SERVICE_UUIDS: u8 = 0x07;

    pub const SHORTENED_LOCAL_NAME: u8 = 0x08;

    pub const COMPLETE_LOCAL_NAME: u8 = 0x09;

    const SERVICE_DATA_16BIT_UUID: u8 = 0x16;

    pub const MANUFACTURER_SPECIFIC_DATA: u8 = 0xFF;
}
