// Packets on the advertising channels: PDUs read and built.
#![tactic(auto)]

pub mod pdu;
pub mod pdu_buf;
