// Beacons sent, and heard by a scanner.
#![tactic(auto)]

pub mod beacon;
