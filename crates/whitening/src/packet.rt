// A packet as it is heard: its whitening and its check. A packet is a header of 2 octets, up to 37 of payload and 3 of CRC.
ghost use Rattle.std.specs.Prelude.{◌≡◌, ◌≤◌, length};
ghost use Rattle.whitening.specs.Crc.{crc_start, crc_good};
ghost use Rattle.whitening.specs.Number.{Register};
ghost use Rattle.whitening.specs.Packet.{allowed, whiten_of, whiten_after, start_on, flag_of};
ghost use Rattle.whitening.specs.Whitening.{plus, whitening, whitened};

use crate::crc::{CRC_PRESET, after_octets, register_at};
use crate::table::{cycle, places};
use octets::error::Error;

// The access address before every packet on the advertising channels.
pub const ACCESS_ADDRESS: u32 = 0x8E89BED6;

// Whether there is such a channel and such a packet, tested in this order.
fn allows(channel: u8, octets: usize) -> Result<(), Error>
    ensures { result ≡ allowed channel octets }
{
    if 39 < channel {
        return Err(Error::NoSuchIndex);
    }
    if 42 < octets {
        return Err(Error::InvalidLength);
    }
    if octets < 5 {
        return Err(Error::Eof);
    }
    Ok(())
}

// Adds octets to as many others, modulo 2. By a place: what a loop over a `zip` of `iter_mut` wrote is not known after it.
fn add(packet: &mut [u8], octets: &[u8])
    requires { length packet.old ≡ length octets.now }
    ensures { packet.new ≡ plus packet.old octets.now }
{
    for (i, octet) in packet.iter_mut().enumerate() {
        *octet ^= octets[i];
    }
}

// That a channel is at most 39 is asked for by three private functions, below the one test.
// The whitening octets of a channel.
fn whitening_octets(channel: u8) -> [u8; 42]
    requires { channel ≤ 39 }
    ensures { result ≡ whitening channel }
{
    let begin = places();
    let from = begin[channel as usize] as usize;
    let to = from + 42;
    let round = cycle();
    let mut octets = [0u8; 42];
    add(&mut octets, &round[from..to]);
    octets
}

// Whitens a packet that is allowed.
fn add_whitening(channel: u8, packet: &mut [u8])
    requires { (channel ≤ 39) × (length packet.old ≤ 42) }
    ensures { packet.new ≡ whitened channel packet.old }
{
    let octets = whitening_octets(channel);
    let n = packet.len();
    add(packet, &octets[..n]);
}

// Whitens a packet, or takes the whitening off, in place. What is refused stays as it is.
pub fn whiten(channel: u8, packet: &mut [u8]) -> Result<(), Error>
    ensures { (result ≡ whiten_of channel packet.old) × (packet.new ≡ whiten_after channel packet.old) }
{
    allows(channel, packet.len())?;
    add_whitening(channel, packet);
    Ok(())
}

// The register at the start of a packet: the connect request's value does not count on the advertising channels.
fn register_on(channel: u8, start: u32) -> u32
    ensures { Register result (crc_start (start_on channel start)) }
{
    let begin = if 36 < channel { CRC_PRESET } else { start };
    register_at(begin)
}

// Whether a packet that is allowed is right, its whitening taken off: after its own CRC the register holds zeros.
fn is_good(channel: u8, start: u32, packet: &[u8]) -> bool
    requires { (channel ≤ 39) × ((5 ≤ length packet.now) × (length packet.now ≤ 42)) }
    ensures { result ≡ crc_good (start_on channel start) (whitened channel packet.now) }
{
    let n = packet.len();
    let mut octets = whitening_octets(channel);
    add(&mut octets[..n], packet);
    after_octets(register_on(channel, start), &octets[..n]) == 0
}

// The CRC flag of a packet that was heard on a channel and is still whitened. `start` is the connect request's value, of which the low
// 24 bits count; it is not used on the channels 37 to 39.
pub fn crc_flag(channel: u8, start: u32, packet: &[u8]) -> Result<bool, Error>
    ensures { result ≡ flag_of channel start packet.now }
{
    allows(channel, packet.len())?;
    Ok(is_good(channel, start, packet))
}
