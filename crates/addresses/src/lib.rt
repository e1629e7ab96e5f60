// Device addresses and filters, and the headers that say the type of a packet and the kinds of its addresses.
#![tactic(auto)]

pub mod device_address;
pub mod filter;
pub mod header;
