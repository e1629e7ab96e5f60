// A header and a payload are read, and the answer is a struct of numbers. `decode_c` has this function to link, from C, Rust and compare/. It stands apart from
// `exports`, so that the decoder has one caller in what is timed, as on a board.
#![tactic(auto)]

pub mod packet;
