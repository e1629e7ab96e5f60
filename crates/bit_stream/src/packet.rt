// A packet's bit stream, as numbers.
ghost use Rattle.std.specs.Prelude.{◌≡◌};
ghost use Rattle.octets.specs.Error.{outcome_number};
ghost use Rattle.whitening.specs.Crc.{crc_of, crc_octets};
ghost use Rattle.whitening.specs.Packet.{whiten_of, whiten_after, flag_of};
ghost use Rattle.bit_stream.specs.Said.{flag_said};

use octets::error::outcome_number;
use whitening::crc::{crc, crc_octets};
use whitening::packet::{crc_flag, whiten};

// For C: whether the CRC is right; `number` is that of a refusal, or 0.
#[repr(C)]
#[derive(Clone, Copy)]
pub struct FlagSaid {
    pub number: u8,
    pub good: bool,
}

// For C: three octets to append.
#[repr(C)]
#[derive(Clone, Copy)]
pub struct CrcOctets {
    pub octets: [u8; 3],
}

// The number of a refusal, or 0.
pub fn board_whiten(channel: u8, packet: &mut [u8]) -> u8
    ensures { (result ≡ outcome_number (whiten_of channel packet.old)) × (packet.new ≡ whiten_after channel packet.old) }
{
    outcome_number(whiten(channel, packet))
}

pub fn board_crc(start: u32, octets: &[u8]) -> u32
    ensures { result ≡ crc_of start octets.now }
{
    crc(start, octets)
}

pub fn board_crc_octets(start: u32, octets: &[u8]) -> CrcOctets
    ensures { result.octets ≡ crc_octets start octets.now }
{
    CrcOctets {
        octets: crc_octets(start, octets),
    }
}

pub fn board_crc_flag(channel: u8, start: u32, packet: &[u8]) -> FlagSaid
    ensures { result ≡ flag_said (flag_of channel start packet.now) }
{
    match crc_flag(channel, start, packet) {
        Ok(good) => FlagSaid { number: 0, good },
        Err(e) => FlagSaid {
            number: e.number(),
            good: false,
        },
    }
}
