// Lists of calls on a device. A list is given as octets, 272 for each call:
//
//     | 0 kind | 1 CRC good | 2 buffer | 3 length n | 4 time 4 | 8 interval 4 | 12 header 2 | 14 records or payload, n of 258 |
//
// Kinds: 0 start, 1 tick, 2 packet, 3 event, 5 scan data to set, otherwise stop. The time is a start's, or the end of a packet. A start, a tick and a
// packet are lent the first transmit buffer, or the second one where octet 2 is 1. Every length that octet 3 can say has its place.
ghost use Rattle.std.specs.Prelude.{◌≡◌, ◌≤◌, get_or};
ghost use Rattle.addresses.specs.Address.{kind_of, address_of};
ghost use Rattle.addresses.specs.Header.{parsed};
ghost use Rattle.radio_spec.specs.Call.{call_of};
ghost use Rattle.radio.specs.State.{state, step};
ghost use Rattle.exports.specs.Lists.{header_or, number_in, time_in, interval_in, call_in, buffer_after, board_of, called_by, step_of, ran_all, answer_said, called_said};

use addresses::device_address::DeviceAddress;
use addresses::header::{Header, PduType};
use answers::given::address;
use octets::bytes::{part_of, u32_from_le_bytes};
use octets::error::Error;
use octets::time::Instant;
use radio::link::{Answer, Called, Device};

pub(crate) fn octet(s: &[u8], at: usize) -> u8
    ensures { result ≡ get_or s.now at 0 }
{
    s.get(at).copied().unwrap_or(0)
}

pub(crate) fn header_of(raw: &[u8]) -> Header
    ensures { result ≡ header_or (parsed raw.now) }
{
    Header::parse(raw).unwrap_or(Header::new(PduType::AdvInd))
}

// The number of the four octets from a place on.
fn number_at(call: &[u8], at: usize) -> u32
    requires { at ≤ 268 }
    ensures { result ≡ number_in at call.now }
{
    u32_from_le_bytes(
        octet(call, at),
        octet(call, at + 1),
        octet(call, at + 2),
        octet(call, at + 3),
    )
}

// By a name each, as specs/Lists has the two fields.
pub(crate) fn time_of(call: &[u8]) -> u32
    ensures { result ≡ time_in call.now }
{
    number_at(call, 4)
}

pub(crate) fn interval_of(call: &[u8]) -> u32
    ensures { result ≡ interval_in call.now }
{
    number_at(call, 8)
}

#[tactic(auto, unfolding(crate::specs::Lists::call_in))]
fn step(device: Device, call: &[u8], tx: &mut [u8]) -> Called
    ensures { (step result ≡ call_of (state device) (call_in call.now tx.old)) × (tx.new ≡ buffer_after (state device) (call_in call.now tx.old) tx.old) }
{
    let time = Instant::from_raw_micros(time_of(call));
    let octets = part_of(call, 14, octet(call, 3) as usize);
    match octet(call, 0) {
        0 => device.start_advertise(time, interval_of(call), octets, tx),
        1 => device.update_timer(tx),
        2 => {
            let header = header_of(part_of(call, 12, 2));
            device.process_adv_packet(time, header, octets, octet(call, 1) == 1, tx)
        }
        3 => device.event(),
        5 => device.set_scan_data(octets),
        _ => device.stop(),
    }
}

// A call with the buffer that it names.
#[tactic(auto, unfolding(crate::specs::Lists::called_by, crate::specs::Lists::step_of))]
fn step_with(device: Device, call: &[u8], first: &mut [u8], second: &mut [u8]) -> Called
    ensures { (step result ≡ called_by call.now (board_of (state device) first.old second.old)) × (first.new ≡ (step_of call.now (board_of (state device) first.old second.old)).first) × (second.new ≡ (step_of call.now (board_of (state device) first.old second.old)).second) }
{
    if octet(call, 2) == 1 {
        step(device, call, second)
    } else {
        step(device, call, first)
    }
}

// The device after a list of calls.
fn after(own: DeviceAddress, calls: &[u8], first: &mut [u8], second: &mut [u8]) -> Device
    ensures { (state result ≡ (ran_all own calls.now first.old second.old).device) × (first.new ≡ (ran_all own calls.now first.old second.old).first) × (second.new ≡ (ran_all own calls.now first.old second.old).second) }
{
    let mut device = Device::new(own);
    for call in calls.chunks_exact(272) {
        let called = step_with(device, call, first, second);
        device = called.device;
    }
    device
}

// For C: what a call answered, and the mode after it. `kind` is 0 for a refusal, and 1 to 7 in the order of `Answer`.
#[repr(C)]
#[derive(Clone, Copy)]
pub struct Said {
    pub number: u8,
    pub kind: u8,
    pub advertising: bool,
    pub connected: bool,
    pub channel: u8,
    pub header: u16,
    pub at: u32,
    pub access_address: u32,
    pub crc_init: u32,
}

fn say(answer: Result<Answer, Error>, advertising: bool, connected: bool) -> Said
    ensures { result ≡ answer_said answer advertising connected }
{
    let nothing = Said {
        number: 0,
        kind: 0,
        advertising,
        connected,
        channel: 0,
        header: 0,
        at: 0,
        access_address: 0,
        crc_init: 0,
    };
    match answer {
        Ok(
            Answer::Sent {
                header,
                channel,
                next_adv,
            },
        ) => Said {
            kind: 1,
            channel: channel.channel(),
            header: header.to_u16(),
            at: next_adv.raw_micros(),
            ..nothing
        },
        Ok(Answer::Listen(channel)) => Said {
            kind: 2,
            channel: channel.channel(),
            ..nothing
        },
        Ok(Answer::Respond { header, channel }) => Said {
            kind: 3,
            channel: channel.channel(),
            header: header.to_u16(),
            ..nothing
        },
        Ok(
            Answer::FirstEvent {
                channel,
                at,
                access_address,
                crc_init,
            },
        ) => Said {
            kind: 4,
            channel: channel.index(),
            at: at.raw_micros(),
            access_address,
            crc_init,
            ..nothing
        },
        Ok(Answer::NextEvent(channel)) => Said {
            kind: 5,
            channel: channel.index(),
            ..nothing
        },
        Ok(Answer::Stopped) => Said { kind: 6, ..nothing },
        Ok(Answer::ScanDataSet) => Said { kind: 7, ..nothing },
        Err(e) => Said {
            number: e.number(),
            ..nothing
        },
    }
}

// The answer of a call after a list of calls on a fresh device.
pub fn board_call(
    own: &[u8; 6],
    random: bool,
    calls: &[u8],
    call: &[u8],
    first: &mut [u8],
    second: &mut [u8],
) -> Said
    ensures { (result ≡ called_said (called_by call.now (ran_all (address_of own.now (kind_of random)) calls.now first.old second.old))) × (first.new ≡ (step_of call.now (ran_all (address_of own.now (kind_of random)) calls.now first.old second.old)).first) × (second.new ≡ (step_of call.now (ran_all (address_of own.now (kind_of random)) calls.now first.old second.old)).second) }
{
    let device = after(address(*own, random), calls, first, second);
    let called = step_with(device, call, first, second);
    let next = called.device;
    say(called.answer, next.is_advertising(), next.is_connected())
}
