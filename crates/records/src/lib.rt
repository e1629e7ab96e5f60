// Advertising data: AD structures (records), one by one and as the area that they tile; read, written and rewritten.
#![tactic(auto)]

pub mod ad_structure;
pub mod area;
