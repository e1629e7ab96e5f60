// Functions to link, from C, Rust and compare/: those of basics, each with its clauses. The smaller parts: octets, UUIDs, headers and PDUs at a position, instants,
// channels, maps and hops, records, names, settings and filters.
#![tactic(auto)]

mod areas;
mod at;
mod filters;
mod leaves;
mod name;
mod reads;
mod setting;
mod uuids;
mod writes;
