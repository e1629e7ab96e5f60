// Functions to link, from C, Rust and compare/: those of bit_stream, each with its clauses.
#![tactic(auto)]

ghost use Rattle.std.specs.Prelude.{◌≡◌};
ghost use Rattle.octets.specs.Error.{outcome_number};
ghost use Rattle.whitening.specs.Crc.{crc_of, crc_octets};
ghost use Rattle.whitening.specs.Packet.{whiten_of, whiten_after, flag_of};
ghost use Rattle.bit_stream.specs.Said.{flag_said};

use bit_stream::packet;
use bit_stream::packet::{CrcOctets, FlagSaid};

// The number of a refusal, or 0.
#[unsafe(no_mangle)]
pub extern "C" fn board_whiten(channel: u8, packet: &mut [u8]) -> u8
    ensures { (result ≡ outcome_number (whiten_of channel packet.old)) × (packet.new ≡ whiten_after channel packet.old) }
{
    packet::board_whiten(channel, packet)
}

#[unsafe(no_mangle)]
pub extern "C" fn board_crc(start: u32, octets: &[u8]) -> u32
    ensures { result ≡ crc_of start octets.now }
{
    packet::board_crc(start, octets)
}

#[unsafe(no_mangle)]
pub extern "C" fn board_crc_octets(start: u32, octets: &[u8]) -> CrcOctets
    ensures { result.octets ≡ crc_octets start octets.now }
{
    packet::board_crc_octets(start, octets)
}

#[unsafe(no_mangle)]
pub extern "C" fn board_crc_flag(channel: u8, start: u32, packet: &[u8]) -> FlagSaid
    ensures { result ≡ flag_said (flag_of channel start packet.now) }
{
    packet::board_crc_flag(channel, start, packet)
}
