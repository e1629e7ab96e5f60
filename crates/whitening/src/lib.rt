// The bit stream of a packet between radio and link layer (the Core, Vol 6 Part B, 3): the CRC after it, and the whitening over both.
#![tactic(auto)]

pub mod crc;
pub mod packet;
mod table;
