// The link layer: a device in standby, advertising or connected. It goes into each call by value and comes back beside the answer.
ghost use Rattle.std.specs.Prelude.{◌≡◌, ◌&&◌};
ghost use Rattle.advertising.specs.PduBuf.{payload_to, payload_after};
ghost use Rattle.settings.specs.Settings.{settings_of};
ghost use Rattle.radio_spec.specs.Calls.{asks, fresh, is_advertising, is_connected, is_scan_request, refusal, listens, responds, replies_with, replied_if, connects_to, addressed, advertised, sent, is_for, pdu_heard, hops, start_of, start_after, tick_of, tick_after, packet_of, packet_after, scan_data_of, event_of, stop_of, begun};
ghost use Rattle.radio.specs.State.{advertisement, state, step};

use addresses::device_address::DeviceAddress;
use addresses::header::{Header, PduType};
use advertising::pdu::{ConnectRequestData, Pdu};
use advertising::pdu_buf::PduBuf;
use channels::channel_map::ChannelMap;
use channels::connection::{Hop, hop_channel};
use channels::phy::AdvertisingChannel;
use octets::error::Error;
use octets::time::Instant;
pub use radio_spec::link::{Answer, Mode};
use settings::ConnectionSettings;

// What a start sets up.
#[derive(Clone, Copy)]
pub struct Advertisement {
    // When the next tick is due.
    next_adv: Instant,
    // Microseconds from one tick to the next.
    interval: u32,
    // What every tick sends.
    pdu: PduBuf,
    // The channel of the last tick.
    channel: AdvertisingChannel,
}

// What the events of a connection need.
#[derive(Clone, Copy)]
pub struct Connection {
    channel_map: ChannelMap,
    // The hop: what is added to the unmapped channel from event to event.
    hop: u8,
    // The unmapped channel of the last event that was given.
    unmapped_channel: u8,
}

// rubble's `LinkLayer`. `adv` and `conn` have a meaning in their own mode only; they are no fields of `Mode`, since radio_spec's `stop_of` and `connected_at` hand them on.
#[derive(Clone, Copy)]
pub struct Device {
    mode: Mode,
    dev_addr: DeviceAddress,
    // The reply to a scan request, the own address and the scan data: it has a meaning in every mode.
    scan_response: PduBuf,
    adv: Advertisement,
    conn: Connection,
}

// What a call answers, and the device after it: a refusal hands it back too.
#[derive(Clone, Copy)]
pub struct Called {
    pub answer: Result<Answer, Error>,
    pub device: Device,
}

impl Device {
    // A device in standby, without scan data.
    pub fn new(dev_addr: DeviceAddress) -> Device
        ensures { state result ≡ fresh dev_addr }
    {
        let scan_response = PduBuf::scan_response(dev_addr, &[]).unwrap_or(PduBuf::empty());
        Device {
            mode: Mode::Standby,
            dev_addr,
            scan_response,
            adv: Advertisement {
                next_adv: Instant::from_raw_micros(0),
                interval: 0,
                pdu: PduBuf::empty(),
                channel: AdvertisingChannel::first(),
            },
            conn: Connection {
                channel_map: ChannelMap::from_raw([0, 0, 0, 0, 0]),
                hop: 0,
                unmapped_channel: 0,
            },
        }
    }

    pub fn is_advertising(self) -> bool
        ensures { result ≡ is_advertising (state self).mode }
    {
        matches!(self.mode, Mode::Advertising)
    }

    pub fn is_connected(self) -> bool
        ensures { result ≡ is_connected (state self).mode }
    {
        matches!(self.mode, Mode::Connected)
    }

    // Starts advertising with records, which are lent encoded, and makes the first tick. An accepted start ends a connection; a refused one ends nothing.
    #[tactic(auto, unfolding(radio_spec::specs::Calls::start_of, radio_spec::specs::Calls::start_after))]
    pub fn start_advertise(self, time: Instant, interval: u32, data: &[u8], tx: &mut [u8]) -> Called
        ensures { (step result ≡ start_of (state self) time interval «data».now tx.old) × (tx.new ≡ start_after (state self) «data».now tx.old) }
    {
        match PduBuf::discoverable(self.dev_addr, data) {
            Ok(pdu) => {
                let adv = Advertisement {
                    next_adv: time,
                    interval,
                    pdu,
                    channel: AdvertisingChannel::first(),
                };
                self.transmit(adv, tx)
            }
            Err(e) => self.refused(e),
        }
    }

    // Sets the records of the scan response, which are lent encoded, in any mode; none make it bare. They outlive start and stop.
    pub fn set_scan_data(self, data: &[u8]) -> Called
        ensures { step result ≡ scan_data_of (state self) «data».now }
    {
        match PduBuf::scan_response(self.dev_addr, data) {
            Ok(scan_response) => self.reply_with(scan_response),
            Err(e) => self.refused(e),
        }
    }

    // Takes a packet from the channel that it listens on. Only the reply to a scan request is written to the transmit buffer.
    #[tactic(auto, unfolding(radio_spec::specs::Calls::packet_of, radio_spec::specs::Calls::packet_after))]
    pub fn process_adv_packet(
        self,
        rx_end: Instant,
        header: Header,
        payload: &[u8],
        crc_ok: bool,
        tx: &mut [u8],
    ) -> Called
        ensures { (step result ≡ packet_of (state self) rx_end header payload.now crc_ok tx.old) × (tx.new ≡ packet_after (state self) header payload.now crc_ok tx.old) }
    {
        if !self.is_advertising() {
            return self.refused(Error::WrongMode);
        }
        if !crc_ok {
            return self.listen();
        }
        match Pdu::from_header_and_payload(header, payload) {
            Ok(pdu) => self.hear(rx_end, pdu, tx),
            Err(_) => self.listen(),
        }
    }

    // A tick: transmits on the next channel.
    #[tactic(auto, unfolding(radio_spec::specs::Calls::tick_of, radio_spec::specs::Calls::tick_after))]
    pub fn update_timer(self, tx: &mut [u8]) -> Called
        ensures { (step result ≡ tick_of (state self) tx.old) × (tx.new ≡ tick_after (state self) tx.old) }
    {
        if self.is_advertising() {
            self.transmit(self.adv, tx)
        } else {
            self.refused(Error::WrongMode)
        }
    }

    // The channel of the next connection event.
    #[tactic(auto, unfolding(radio_spec::specs::Calls::event_of))]
    pub fn event(self) -> Called
        ensures { step result ≡ event_of (state self) }
    {
        if self.is_connected() {
            self.hop()
        } else {
            self.refused(Error::WrongMode)
        }
    }

    pub fn stop(self) -> Called
        ensures { step result ≡ stop_of (state self) }
    {
        Called {
            answer: Ok(Answer::Stopped),
            device: Device {
                mode: Mode::Standby,
                ..self
            },
        }
    }

    // A refusal changes nothing.
    fn refused(self, e: Error) -> Called
        ensures { step result ≡ refusal (state self) e }
    {
        Called {
            answer: Err(e),
            device: self,
        }
    }

    fn listen(self) -> Called
        ensures { step result ≡ listens (state self) }
    {
        Called {
            answer: Ok(Answer::Listen(self.adv.channel)),
            device: self,
        }
    }

    // The device with another scan response.
    fn reply_with(self, scan_response: PduBuf) -> Called
        ensures { step result ≡ replies_with (state self) scan_response }
    {
        Called {
            answer: Ok(Answer::ScanDataSet),
            device: Device {
                scan_response,
                ..self
            },
        }
    }

    // Makes a tick of an advertisement where the transmit buffer has room for its payload.
    fn transmit(self, adv: Advertisement, tx: &mut [u8]) -> Called
        ensures { (step result ≡ sent (state self) (advertisement adv) (payload_to adv.pdu tx.old)) × (tx.new ≡ payload_after adv.pdu tx.old) }
    {
        match adv.pdu.write_payload(tx) {
            Ok(_) => self.advertise(adv),
            Err(e) => self.refused(e),
        }
    }

    // The device after a tick of an advertisement.
    fn advertise(self, adv: Advertisement) -> Called
        ensures { step result ≡ advertised (state self) (advertisement adv) }
    {
        let channel = adv.channel.cycle();
        let next_adv = adv.next_adv.add(adv.interval);
        Called {
            answer: Ok(Answer::Sent {
                header: adv.pdu.header(),
                channel,
                next_adv,
            }),
            device: Device {
                mode: Mode::Advertising,
                adv: Advertisement {
                    next_adv,
                    channel,
                    ..adv
                },
                ..self
            },
        }
    }

    // A CRC-good packet that decodes.
    fn hear(self, rx_end: Instant, pdu: Pdu, tx: &mut [u8]) -> Called
        ensures { (step result ≡ pdu_heard (state self) rx_end tx.old (Ok pdu)) × (tx.new ≡ replied_if (asks is_scan_request self.dev_addr (Ok pdu)) (state self) tx.old) }
    {
        if is_for(self.dev_addr, pdu) {
            self.take(rx_end, pdu, tx)
        } else {
            self.listen()
        }
    }

    // Of the packets to this device only the two requests are answered.
    #[tactic(auto, unfolding(radio_spec::specs::Calls::addressed))]
    fn take(self, rx_end: Instant, pdu: Pdu, tx: &mut [u8]) -> Called
        ensures { (step result ≡ addressed (state self) rx_end pdu.lldata tx.old pdu.ty) × (tx.new ≡ replied_if (is_scan_request pdu.ty) (state self) tx.old) }
    {
        match pdu.ty() {
            PduType::ScanReq => self.respond(tx),
            PduType::ConnectReq => self.connect(rx_end, pdu.lldata),
            _ => self.listen(),
        }
    }

    // Answers a scan request where the transmit buffer has room for the scan response's payload.
    fn respond(self, tx: &mut [u8]) -> Called
        ensures { (step result ≡ responds (state self) (payload_to self.scan_response tx.old)) × (tx.new ≡ payload_after self.scan_response tx.old) }
    {
        match self.scan_response.write_payload(tx) {
            Ok(_) => Called {
                answer: Ok(Answer::Respond {
                    header: self.scan_response.header(),
                    channel: self.adv.channel,
                }),
                device: self,
            },
            Err(e) => self.refused(e),
        }
    }

    // Takes the settings of a connect request, and with them begins the connection that it asks for.
    #[tactic(auto, unfolding(radio_spec::specs::Calls::connects_to))]
    fn connect(self, rx_end: Instant, lldata: ConnectRequestData) -> Called
        ensures { step result ≡ connects_to (state self) rx_end lldata }
    {
        match ConnectionSettings::of(lldata) {
            Ok(settings) => self.begin(rx_end, lldata, settings),
            Err(e) => self.refused(e),
        }
    }

    // Begins a connection at its first event; rubble's `Connection::create`.
    fn begin(
        self,
        rx_end: Instant,
        lldata: ConnectRequestData,
        settings: ConnectionSettings,
    ) -> Called
        ensures { step result ≡ begun (state self) rx_end lldata (settings_of settings) }
    {
        let channel_map = settings.channel_map();
        let hop = settings.hop();
        match hop_channel(channel_map, 0, hop) {
            Ok(Hop { unmapped, channel }) => {
                // rubble's margin of 500 µs: with the 1,250 that the window's end includes, document 01's 1,750.
                let at = rx_end.add(lldata.end_of_tx_window()).add(500);
                Called {
                    answer: Ok(Answer::FirstEvent {
                        channel,
                        at,
                        access_address: lldata.access_address(),
                        crc_init: lldata.crc_init(),
                    }),
                    device: Device {
                        mode: Mode::Connected,
                        conn: Connection {
                            channel_map,
                            hop,
                            unmapped_channel: unmapped,
                        },
                        ..self
                    },
                }
            }
            // Not reached: settings mark at least two channels.
            Err(e) => self.refused(e),
        }
    }

    // Hops to the next event of the connection.
    #[tactic(auto, unfolding(radio_spec::specs::Calls::hops))]
    fn hop(self) -> Called
        ensures { step result ≡ hops (state self) }
    {
        let conn = self.conn;
        match hop_channel(conn.channel_map, conn.unmapped_channel, conn.hop) {
            Ok(Hop { unmapped, channel }) => Called {
                answer: Ok(Answer::NextEvent(channel)),
                device: Device {
                    conn: Connection {
                        unmapped_channel: unmapped,
                        ..conn
                    },
                    ..self
                },
            },
            Err(e) => self.refused(e),
        }
    }
}

// Whether the PDU has a second address, and that is `own`.
#[tactic(auto, unfolding(radio_spec::specs::Calls::is_for))]
fn is_for(own: DeviceAddress, pdu: Pdu) -> bool
    ensures { result ≡ is_for own pdu }
{
    pdu.has_receiver() && pdu.receiver() == own
}
