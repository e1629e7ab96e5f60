// The board's radio on the advertising channel and while connected: rubble's `LinkLayer`, with a call for each connection event and a stop call.
#![tactic(auto)]

pub mod link;
