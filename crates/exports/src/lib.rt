// Functions on numbers and octets, under plain names, handing on to the crates below; `exports_c` has them to link, for programs in C and Rust and for compare/.
// An answer is a struct of numbers, whose `number` is the refusal's (document 01), or 0; what has no meaning there is 0. Here: headers and built PDUs, a beacon,
// a scanner and a device; the smaller parts are in `basics`.
// Kinds and builders come as numbers, and each number is matched to its call: C, which links these, hands over no enums and no closures of ours.
#![tactic(auto)]

pub mod air;
pub mod lists;
pub mod packets;
pub mod scans;
