// The hub's log: octets in, lines out, whatever pieces the octets come in.
#![tactic(auto)]

mod line;
mod log;

pub use log::{Block, Hub, left_over, listen, start};
