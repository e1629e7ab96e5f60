// What the radio is to do for a scanner, and what a scanner tells of a beacon. Beacon and scanner themselves are in `beacon`, read as the records of
// specs/State.antt.
use addresses::device_address::DeviceAddress;
use advertising::pdu::AdvData;
use channels::phy::AdvertisingChannel;
use octets::error::Error;
use octets::time::Instant;

// What the radio is to do: listen on a channel, until `timer_update` is called at the next instant.
#[derive(Clone, Copy)]
pub struct Cmd {
    pub channel: AdvertisingChannel,
    pub next_update: Instant,
}

// A beacon that was heard: its sender, where its record area lies in the payload, and how many octets of it the records took.
#[derive(Clone, Copy)]
pub struct Sighting {
    pub sender: DeviceAddress,
    pub adv_data: AdvData,
    pub taken: usize,
}

// A beacon that was heard, or none; or the refusal of a malformed filter list.
pub type Report = Result<Option<Sighting>, Error>;
