// For a radio module that passes bits as heard: whitening, the CRC and its flag, as numbers. `bit_stream_c` has these functions to link, from C, Rust and compare/.
#![tactic(auto)]

pub mod packet;
