// The 24-bit CRC of a packet (the Core, Vol 6 Part B, 3.1.1).
//
// The register is kept as a number whose bit k is position 23 - k: what leaves at a shift is its lowest bit, and its octets, lowest first, are
// those sent.
ghost use Rattle.std.specs.Prelude.{◌≡◌, ◌<◌, ◌^◌};
ghost use Rattle.whitening.specs.Bits.{bits, bits_of};
ghost use Rattle.whitening.specs.Crc.{crc_start, crc_after, crc_of, crc_octets};
ghost use Rattle.whitening.specs.Number.{Register};

use octets::bytes::u32_from_le_bytes;

// The polynomial: x^24 + x^10 + x^9 + x^6 + x^4 + x^3 + x + 1.
pub const CRC_POLY: u32 = 0b1_00000000_00000110_01011011;

// Where the CRC starts on the advertising channels.
pub const CRC_PRESET: u32 = 0x555555;

// The register that a start value stands for: its low 24 bits in the other order.
pub(crate) fn register_at(start: u32) -> u32
    ensures { Register result (crc_start start) }
{
    let mut register = 0;
    let mut rest = start;
    for k in 0..24u32 {
        register = 2 * register + rest % 2;
        rest = rest / 2;
    }
    register
}

// That a register has 24 bits is asked for by three functions of this crate: a struct around the number would be unwrapped at every shift.
// The register after the eight bits of an octet. The polynomial has no term between x^24 and x^10, so that no bit fed back comes round again
// within eight shifts: the eight bits fed back are known at once, and each term adds them, moved to its place.
fn after_octet(register: u32, octet: u8) -> u32
    requires { register < 2 ^ 24 }
    ensures { Register result (crc_after (bits 24 register) (bits 8 octet)) }
{
    let sum = register ^ (octet as u32);
    let back = sum % 256;
    let pair = back ^ (2 * back);
    (sum / 256) ^ (1024 * back) ^ ((64 * pair) ^ ((4096 * pair) ^ (32768 * pair)))
}

// The register after the 24 bits of three octets, here as a number. A bit fed back comes round again within 24 shifts, once: after 14, 15, 18, 20, 21 and
// 23 of them.
fn after_three(register: u32, three: u32) -> u32
    requires { (register < 2 ^ 24) × (three < 2 ^ 24) }
    ensures { Register result (crc_after (bits 24 register) (bits 24 three)) }
{
    let sum = register ^ three;
    let again = ((sum << 14) ^ (sum << 15))
        ^ (((sum << 18) ^ (sum << 20)) ^ ((sum << 21) ^ (sum << 23)));
    let back = (sum ^ again) % 0x1000000;
    (back ^ (back >> 1))
        ^ (((back >> 3) ^ (back >> 4)) ^ ((back >> 6) ^ ((back >> 9) ^ (back >> 10))))
}

// The register after octets, three at a time while there are three.
pub(crate) fn after_octets(register: u32, octets: &[u8]) -> u32
    requires { register < 2 ^ 24 }
    ensures { Register result (crc_after (bits 24 register) (bits_of octets.now)) }
{
    let mut reached = register;
    let parts = octets.chunks_exact(3);
    let rest = parts.remainder();
    for part in parts {
        reached = after_three(reached, u32_from_le_bytes(part[0], part[1], part[2], 0));
    }
    for octet in rest {
        reached = after_octet(reached, *octet);
    }
    reached
}

// The CRC of octets as a number of 24 bits; the low 24 bits of the start value count.
pub fn crc(start: u32, octets: &[u8]) -> u32
    ensures { result ≡ crc_of start octets.now }
{
    after_octets(register_at(start), octets)
}

// The three octets to append when sending: the CRC, its lowest octet first.
pub fn crc_octets(start: u32, octets: &[u8]) -> [u8; 3]
    ensures { result ≡ crc_octets start octets.now }
{
    let register = after_octets(register_at(start), octets);
    [
        (register % 256) as u8,
        (register / 256 % 256) as u8,
        (register / 65536 % 256) as u8,
    ]
}
