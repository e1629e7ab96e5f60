// The device: its state, what each call answers, and the laws of lists of calls (demand 3). The functions are in `radio`.
#![tactic(auto)]

pub mod link;
