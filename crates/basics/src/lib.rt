// Functions in the form of `exports`, the smaller parts: octets, UUIDs, headers and PDUs at a position, instants, channels, maps and hops, records, names, settings
// and filters; `basics_c` has them to link.
// Each function stands by its own name, of every width and size: C, which links them, has no generics.
#![tactic(auto)]

pub mod areas;
pub mod at;
pub mod filters;
pub mod leaves;
pub mod name;
pub mod reads;
pub mod setting;
pub mod uuids;
pub mod writes;
