// How the values are printed that the crates below answer.
use addresses::device_address::DeviceAddress;
use addresses::header::{Header, PduType};
use advertising::pdu::{ConnectRequestData, Pdu};
use advertising::pdu_buf::PduBuf;
use beacon::beacon::Sighting;
use channels::channel_map::ChannelMap;
use channels::connection::Hop;
use channels::phy::{AdvertisingChannel, DataChannel};
use names::NamePlace;
use octets::bytes::ByteWriter;
use octets::error::Error;
use octets::time::Instant;
use radio::link::Answer;
use settings::ConnectionSettings;
use std::io;
use std::io::Write;

// What `Display` is, for types of other crates.
pub(crate) trait Show {
    fn show<W: Write>(&self, out: &mut W) -> io::Result<()>;
}

impl<T: Show> Show for Result<T, Error> {
    fn show<W: Write>(&self, out: &mut W) -> io::Result<()> {
        match self {
            Ok(value) => value.show(out),
            Err(e) => write!(out, " refused {}", e.number()),
        }
    }
}

impl<T: Show> Show for Option<T> {
    fn show<W: Write>(&self, out: &mut W) -> io::Result<()> {
        match self {
            Some(value) => value.show(out),
            None => write!(out, " nothing"),
        }
    }
}

// One after the other.
impl<A: Show, B: Show> Show for (A, B) {
    fn show<W: Write>(&self, out: &mut W) -> io::Result<()> {
        self.0.show(out)?;
        self.1.show(out)
    }
}

impl<T: Show, const N: usize> Show for [T; N] {
    fn show<W: Write>(&self, out: &mut W) -> io::Result<()> {
        for value in self {
            value.show(out)?;
        }
        Ok(())
    }
}

// What was accepted.
impl Show for () {
    fn show<W: Write>(&self, out: &mut W) -> io::Result<()> {
        write!(out, " accepted")
    }
}

// A space and a number, as one piece.
impl Show for usize {
    fn show<W: Write>(&self, out: &mut W) -> io::Result<()> {
        let mut text = [b' '; 21];
        let mut start = 20;
        let mut rest = *self;
        for i in 0..20 {
            text[20 - i] = (rest % 10) as u8 + b'0';
            start = 19 - i;
            rest /= 10;
            if rest == 0 {
                break;
            }
        }
        out.write_all(&text[start.min(20)..])
    }
}

// Octets as pairs of hexadecimal digits. Each program that prints them has this loop: a crate for it would be no shorter.
impl Show for &[u8] {
    fn show<W: Write>(&self, out: &mut W) -> io::Result<()> {
        for part in self.chunks(16) {
            let count = part.len().min(16);
            let mut text = [b' '; 48];
            for i in 0..count {
                text[3 * i + 1] = digit(part[i] / 16);
                text[3 * i + 2] = digit(part[i] % 16);
            }
            out.write_all(&text[..3 * count])?;
        }
        Ok(())
    }
}

// The digit of a number below 16.
fn digit(n: u8) -> u8 {
    if n < 10 { n + b'0' } else { n % 16 + 87 }
}

impl Show for ByteWriter {
    fn show<W: Write>(&self, out: &mut W) -> io::Result<()> {
        write!(out, " to {}", self.at)
    }
}

impl Show for DeviceAddress {
    fn show<W: Write>(&self, out: &mut W) -> io::Result<()> {
        let kind = if self.is_random() {
            b" random"
        } else {
            b" public"
        };
        out.write_all(kind)?;
        self.raw().as_slice().show(out)
    }
}

impl Show for Header {
    fn show<W: Write>(&self, out: &mut W) -> io::Result<()> {
        write!(out, " {:04x}", self.to_u16())
    }
}

impl Show for AdvertisingChannel {
    fn show<W: Write>(&self, out: &mut W) -> io::Result<()> {
        write!(out, " on {}", self.channel())
    }
}

impl Show for Instant {
    fn show<W: Write>(&self, out: &mut W) -> io::Result<()> {
        write!(out, " at {}", self.raw_micros())
    }
}

impl Show for ChannelMap {
    fn show<W: Write>(&self, out: &mut W) -> io::Result<()> {
        self.to_raw().as_slice().show(out)
    }
}

impl Show for DataChannel {
    fn show<W: Write>(&self, out: &mut W) -> io::Result<()> {
        write!(
            out,
            " {} {} {} {}",
            self.index(),
            self.rf_channel(),
            self.freq(),
            self.whitening_iv()
        )
    }
}

impl Show for Hop {
    fn show<W: Write>(&self, out: &mut W) -> io::Result<()> {
        usize::from(self.unmapped).show(out)?;
        usize::from(self.channel.index()).show(out)
    }
}

// After the sender the receiver, or else the records; and the fields of a connect request.
impl Show for Pdu {
    fn show<W: Write>(&self, out: &mut W) -> io::Result<()> {
        write!(out, " type {}", u8::from(self.ty()))?;
        self.sender().show(out)?;
        if self.has_receiver() {
            out.write_all(b" to")?;
            self.receiver().show(out)?;
        } else {
            write!(out, " records {}", self.adv_data.count)?;
        }
        if let PduType::ConnectReq = self.ty() {
            self.lldata.show(out)?;
        }
        Ok(())
    }
}

impl Show for ConnectRequestData {
    fn show<W: Write>(&self, out: &mut W) -> io::Result<()> {
        write!(
            out,
            " {:08x} {:06x}",
            self.access_address(),
            self.crc_init()
        )?;
        write!(out, " {} {}", self.win_size(), self.win_offset())?;
        write!(
            out,
            " {} {} {}",
            self.interval(),
            self.slave_latency(),
            self.supervision_timeout()
        )?;
        self.channel_map().show(out)?;
        write!(out, " {}", self.hop())
    }
}

// In the order of a request's fields.
impl Show for ConnectionSettings {
    fn show<W: Write>(&self, out: &mut W) -> io::Result<()> {
        write!(out, " {} {}", self.win_size(), self.win_offset())?;
        write!(
            out,
            " {} {} {}",
            self.interval(),
            self.slave_latency(),
            self.supervision_timeout()
        )?;
        self.channel_map().show(out)?;
        write!(out, " {}", self.hop())
    }
}

// The zeros after the payload too.
impl Show for PduBuf {
    fn show<W: Write>(&self, out: &mut W) -> io::Result<()> {
        self.header().show(out)?;
        self.payload().as_slice().show(out)
    }
}

impl Show for Answer {
    fn show<W: Write>(&self, out: &mut W) -> io::Result<()> {
        match *self {
            Answer::Sent {
                header,
                channel,
                next_adv,
            } => {
                header.show(out)?;
                channel.show(out)?;
                next_adv.show(out)
            }
            Answer::Listen(channel) => {
                out.write_all(b" listens")?;
                channel.show(out)
            }
            Answer::Respond { header, channel } => {
                header.show(out)?;
                channel.show(out)
            }
            Answer::FirstEvent {
                channel,
                at,
                access_address,
                crc_init,
            } => {
                write!(out, " {}", channel.index())?;
                at.show(out)?;
                write!(out, " {access_address:08x} {crc_init:06x}")
            }
            Answer::NextEvent(channel) => write!(out, " {}", channel.index()),
            Answer::Stopped => write!(out, " stopped"),
            Answer::ScanDataSet => write!(out, " set"),
        }
    }
}

impl Show for NamePlace {
    fn show<W: Write>(&self, out: &mut W) -> io::Result<()> {
        let (area, part) = match self {
            NamePlace::InReply(part) => ("reply", part),
            NamePlace::InAdvertisement(part) => ("advertisement", part),
        };
        let end = part.start.wrapping_add(part.len);
        write!(out, " {area} at {} to {end}", part.start)
    }
}

impl Show for Sighting {
    fn show<W: Write>(&self, out: &mut W) -> io::Result<()> {
        let data = self.adv_data;
        self.sender.show(out)?;
        write!(out, " records {} taken {}", data.count, self.taken)
    }
}
