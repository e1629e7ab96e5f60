// The requests, and what they are read from.
ghost use Rattle.std.specs.Prelude.{◌≤◌, IfOk};

use crate::lines::{Fault, Fields, MOST};
use addresses::device_address::{AddressKind, DeviceAddress};
use addresses::header::Header;
use channels::channel_map::ChannelMap;
use octets::time::Instant;

// In the order of the list in main.rt.
#[derive(Clone, Copy)]
pub(crate) enum Request<'a> {
    Area(&'a [u8]),
    Rewrite {
        room: usize,
        area: &'a [u8],
    },
    RewritePadded {
        room: usize,
        area: &'a [u8],
    },
    Name {
        size: usize,
        areas: &'a [u8],
    },
    Write {
        kind: u8,
        value: u16,
        room: usize,
        octets: &'a [u8],
    },
    Decode(&'a [u8]),
    Build {
        ty: u8,
        address: DeviceAddress,
        records: &'a [u8],
    },
    SetHeader {
        tx_add: bool,
        rx_add: bool,
        length: u8,
        header: Header,
    },
    DataChannel(u8),
    Map(ChannelMap),
    Hop {
        map: ChannelMap,
        unmapped: u8,
        hop: u8,
    },
    Settings([u8; 22]),
    NewDevice(DeviceAddress),
    Start {
        time: Instant,
        interval: u32,
        room: usize,
        records: &'a [u8],
    },
    Tick(usize),
    Packet {
        end: Instant,
        crc_ok: bool,
        room: usize,
        header: Header,
        payload: &'a [u8],
    },
    Event,
    Stop,
    ScanData(&'a [u8]),
    Beacon {
        address: DeviceAddress,
        room: usize,
        records: &'a [u8],
    },
    Scan {
        crc_ok: bool,
        header: Header,
        payload: &'a [u8],
    },
    Remark,
}

impl<'a> Request<'a> {
    // The request of a letter and of what follows it.
    pub(crate) fn parse(letter: u8, mut fields: Fields<'a>) -> Result<Request<'a>, Fault> {
        let request = match letter {
            b'a' => Request::Area(fields.rest()?),
            b'r' => Request::Rewrite {
                room: fields.room()?,
                area: fields.rest()?,
            },
            b'z' => Request::RewritePadded {
                room: fields.room()?,
                area: fields.rest()?,
            },
            b'l' => Request::Name {
                size: usize::from(fields.octet()?),
                areas: fields.rest()?,
            },
            b'w' => Request::Write {
                kind: fields.octet()?,
                value: u16::from_le_bytes(fields.array()?),
                room: fields.room()?,
                octets: fields.rest()?,
            },
            b'd' => Request::Decode(fields.rest()?),
            b'b' => Request::Build {
                ty: fields.octet()?,
                address: fields.address()?,
                records: fields.rest()?,
            },
            b'g' => Request::SetHeader {
                tx_add: fields.flag()?,
                rx_add: fields.flag()?,
                length: fields.octet()?,
                header: fields.header()?,
            },
            b'i' => Request::DataChannel(fields.octet()?),
            b'm' => Request::Map(fields.map()?),
            b'h' => Request::Hop {
                map: fields.map()?,
                unmapped: fields.octet()?,
                hop: fields.octet()?,
            },
            b'q' => Request::Settings(fields.array()?),
            b'n' => Request::NewDevice(fields.address()?),
            b's' => Request::Start {
                time: fields.instant()?,
                interval: fields.word()?,
                room: fields.room()?,
                records: fields.rest()?,
            },
            b't' => Request::Tick(fields.room()?),
            b'p' => Request::Packet {
                end: fields.instant()?,
                crc_ok: fields.flag()?,
                room: fields.room()?,
                header: fields.header()?,
                payload: fields.rest()?,
            },
            b'e' => Request::Event,
            b'x' => Request::Stop,
            b'y' => Request::ScanData(fields.rest()?),
            b'k' => Request::Beacon {
                address: fields.address()?,
                room: fields.room()?,
                records: fields.rest()?,
            },
            b'c' => Request::Scan {
                crc_ok: fields.flag()?,
                header: fields.header()?,
                payload: fields.rest()?,
            },
            b'#' => return Ok(Request::Remark),
            _ => return Err(Fault::at(letter, Fault::NoRequest)),
        };
        fields.end()?;
        Ok(request)
    }
}

impl Fields<'_> {
    fn word(&mut self) -> Result<u32, Fault> {
        Ok(u32::from_le_bytes(self.array()?))
    }

    fn instant(&mut self) -> Result<Instant, Fault> {
        Ok(Instant::from_raw_micros(self.word()?))
    }

    fn address(&mut self) -> Result<DeviceAddress, Fault> {
        let kind = AddressKind::of(self.flag()?);
        Ok(DeviceAddress::new(self.array()?, kind))
    }

    fn map(&mut self) -> Result<ChannelMap, Fault> {
        Ok(ChannelMap::from_raw(self.array()?))
    }

    fn header(&mut self) -> Result<Header, Fault> {
        let octets: [u8; 2] = self.array()?;
        let Ok(header) = Header::parse(&octets) else {
            unreachable!()
        };
        Ok(header)
    }

    // How many octets are lent: as many as the next octet says, or 320.
    fn room(&mut self) -> Result<usize, Fault>
        ensures { IfOk result (λ n. n ≤ 320) }
    {
        match self.octet()? {
            u8::MAX => Ok(MOST),
            room => Ok(usize::from(room)),
        }
    }
}
