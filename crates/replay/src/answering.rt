// What each request is answered.
use crate::lines::{Fault, MOST};
use crate::requests::Request;
use crate::show::Show;
use addresses::device_address::{AddressKind, DeviceAddress};
use addresses::header::Header;
use advertising::pdu::Pdu;
use advertising::pdu_buf::PduBuf;
use answers::given::structure;
use beacon::beacon::{Beacon, BeaconScanner};
use channels::connection::hop_channel;
use channels::phy::DataChannel;
use names::{find_name, name};
use octets::bytes::ByteWriter;
use radio::link::{Called, Device};
use records::ad_structure::write_record;
use records::area::{read_area, read_padded_area, rewrite_area};
use settings::ConnectionSettings;
use std::io;
use std::io::Write;

// The device of `n`, and where answers are printed.
#[derive(Drop)]
pub(crate) struct Answers<W: Write> {
    device: Device,
    out: W,
}

impl<W: Write> Answers<W> {
    pub(crate) fn new(out: W) -> Answers<W> {
        let address = DeviceAddress::new([0; 6], AddressKind::Public);
        Answers {
            device: Device::new(address),
            out,
        }
    }

    pub(crate) fn end_line(&mut self) -> io::Result<()> {
        self.out.write_all(b"\n")
    }

    pub(crate) fn flush(&mut self) -> io::Result<()> {
        self.out.flush()
    }

    // Line n is no request.
    pub(crate) fn refuse(&mut self, n: u64, fault: Fault) -> io::Result<()> {
        write!(self.out, "request {n}: {fault}")
    }

    fn print<T: Show + Drop>(&mut self, value: T) -> io::Result<()> {
        value.show(&mut self.out)
    }

    // A call on the device hands on another one.
    fn print_call(&mut self, called: Called, lent: &[u8]) -> io::Result<()> {
        self.device = called.device;
        self.print((called.answer, lent))
    }

    pub(crate) fn answer(&mut self, letter: u8, request: Request<'_>) -> io::Result<()> {
        // All that a request may be lent.
        let mut all = [0xFF; MOST];
        self.out.write_all(&[letter])?;
        match request {
            Request::Area(area) => self.print(read_area(area)),
            Request::Rewrite { room, area } => {
                let lent = &mut all[..room.min(MOST)];
                self.print((rewrite_area(area, lent), &lent[..]))
            }
            Request::RewritePadded { room, area } => self.rewrite_padded(
                area,
                &mut all[..room.min(MOST)],
            ),
            Request::Name { size, areas } => {
                let (advertisement, reply) = areas.split_at(size.min(areas.len()));
                let found = find_name(advertisement, reply);
                self.print(found)?;
                match found {
                    // The octets by `name`, so that it runs too.
                    Ok(_) => self.print(name(advertisement, reply)),
                    Err(_) => Ok(()),
                }
            }
            Request::Write {
                kind,
                value,
                room,
                octets,
            } => {
                let lent = &mut all[..room.min(MOST)];
                let ad = structure(kind % 16, 16 <= kind, value, 0, octets.len());
                let written = write_record(ad, octets, ByteWriter::new(), lent);
                self.print((written, &lent[..]))
            }
            Request::Decode(octets) => {
                let decoded = Header::parse(octets).and_then(|header| Pdu::from_header_and_payload(
                    header,
                    &octets[2.min(octets.len())..],
                ));
                self.print(decoded)
            }
            Request::Build {
                ty,
                address,
                records,
            } => {
                let pdu = match ty {
                    0 => PduBuf::connectable_undirected(address, records),
                    2 => PduBuf::nonconnectable_undirected(address, records),
                    4 => PduBuf::scan_response(address, records),
                    6 => PduBuf::scannable_undirected(address, records),
                    _ => PduBuf::discoverable(address, records),
                };
                self.print((pdu.map(|_| ()), pdu.unwrap_or(PduBuf::empty())))
            }
            Request::SetHeader {
                tx_add,
                rx_add,
                length,
                header,
            } => {
                let header = header.set_tx_add(tx_add).set_rx_add(rx_add);
                self.print(header.set_payload_length(length))
            }
            Request::DataChannel(index) => self.print(DataChannel::new(index)),
            Request::Map(map) => self.print((usize::from(map.num_used_channels()), map)),
            Request::Hop { map, unmapped, hop } => self.print(hop_channel(map, unmapped, hop)),
            Request::Settings(octets) => self.print(ConnectionSettings::from_octets(octets)),
            Request::NewDevice(address) => {
                self.device = Device::new(address);
                Ok(())
            }
            Request::Start {
                time,
                interval,
                room,
                records,
            } => {
                let lent = &mut all[..room.min(MOST)];
                let called = self.device.start_advertise(time, interval, records, lent);
                self.print_call(called, lent)
            }
            Request::Tick(room) => {
                let lent = &mut all[..room.min(MOST)];
                let called = self.device.update_timer(lent);
                self.print_call(called, lent)
            }
            Request::Packet {
                end,
                crc_ok,
                room,
                header,
                payload,
            } => {
                let lent = &mut all[..room.min(MOST)];
                let called = self
                    .device
                    .process_adv_packet(end, header, payload, crc_ok, lent);
                self.print_call(called, lent)
            }
            Request::Event => self.print_call(self.device.event(), &[]),
            Request::Stop => self.print_call(self.device.stop(), &[]),
            Request::ScanData(records) => {
                self.print_call(self.device.set_scan_data(records), &[])
            }
            Request::Beacon {
                address,
                room,
                records,
            } => {
                let lent = &mut all[..room.min(MOST)];
                // Where the records are refused, the beacon without any is sent.
                let (made, beacon) = match Beacon::new(address, records) {
                    Ok(beacon) => (Ok(()), beacon),
                    Err(refusal) => (Err(refusal.error), refusal.bare),
                };
                let sent = beacon.broadcast(lent);
                self.print((made, (sent, &lent[..])))
            }
            Request::Scan {
                crc_ok,
                header,
                payload,
            } => {
                let scanner = BeaconScanner::new();
                let scanned = scanner.process_adv_packet(header, payload, crc_ok, &[]);
                self.print(scanned.report)?;
                match scanned.report {
                    Ok(Some(_)) => self.print(scanned.advertising_data(payload)),
                    _ => Ok(()),
                }
            }
            Request::Remark => Ok(()),
        }
    }

    // An area read as the hub does, and the octets that its records took, rewritten.
    fn rewrite_padded(&mut self, area: &[u8], lent: &mut [u8]) -> io::Result<()> {
        let written = match read_padded_area(area) {
            Ok((records, taken)) => {
                write!(self.out, " records {records} taken {taken}")?;
                rewrite_area(&area[..taken.min(area.len())], lent)
            }
            Err(e) => Err(e),
        };
        self.print((written, &lent[..]))
    }
}
