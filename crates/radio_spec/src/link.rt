// What a device is in, and what a call answers. The device itself is in `radio`, its state in specs/State.antt.
use addresses::header::Header;
use channels::phy::{AdvertisingChannel, DataChannel};
use octets::time::Instant;

// Which of the advertisement and the connection of a device has a meaning, if any.
#[derive(Clone, Copy, Debug, PartialEq, Eq)]
pub enum Mode {
    // The radio is off.
    Standby,
    // Advertising, and ready for a connection.
    Advertising,
    // In a connection, whose events are asked for one by one.
    Connected,
}

// What an accepted call answers.
#[derive(Clone, Copy)]
pub enum Answer {
    // Transmit this header and the transmit buffer on the channel, listen there, and tick again at `next_adv`.
    Sent {
        header: Header,
        channel: AdvertisingChannel,
        next_adv: Instant,
    },
    // Keep listening on the channel.
    Listen(AdvertisingChannel),
    // Transmit this header and the transmit buffer on the channel, then keep listening there.
    Respond {
        header: Header,
        channel: AdvertisingChannel,
    },
    // A connection began: listen on the data channel, until `at` if nothing is heard.
    FirstEvent {
        channel: DataChannel,
        at: Instant,
        access_address: u32,
        crc_init: u32,
    },
    // Listen on the data channel for the next event.
    NextEvent(DataChannel),
    // Standby: nothing is sent, and nothing listened for.
    Stopped,
    // The scan response has these data from now on.
    ScanDataSet,
}
