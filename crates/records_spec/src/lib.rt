// Records and areas of them: their types, what reading and writing them answers, and the laws of that. The functions are in `records`.
#![tactic(auto)]

pub mod ad_structure;
pub mod area;
