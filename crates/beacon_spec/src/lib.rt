// Beacons and their scanner: what each call answers, and the laws of that. The functions are in `beacon`.
#![tactic(auto)]

pub mod beacon;
