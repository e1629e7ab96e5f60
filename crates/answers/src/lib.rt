// Answers as numbers, and what is given as numbers: shared by the crates whose functions are linked, and without such a function itself.
#![tactic(auto)]

pub mod given;
pub mod got;
pub mod packet;
