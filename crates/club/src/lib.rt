// A club's evening: the items of its input in, the lines of its book out (docs/TURNBOOK.md).
#![tactic(auto)]

mod item;
mod line;
mod log;

pub use log::{Club, TakenItem, TakenItems};
