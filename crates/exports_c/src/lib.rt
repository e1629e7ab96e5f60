// Functions to link, from C, Rust and compare/: those of exports, each with its clauses. Here: headers and built PDUs, a beacon, a scanner and a device; the smaller
// parts are in `basics_c`.
#![tactic(auto)]

mod air;
mod lists;
mod packets;
mod scans;
