// A PDU read, as numbers.
ghost use Rattle.std.specs.Prelude.{◌≡◌};
ghost use Rattle.answers.specs.Packet.{accuracy_number, pdu_said, not_said, packet_said};

use advertising::pdu::{Pdu, SleepClockAccuracy};
use octets::error::Error;

// For C: a PDU with all its fields.
#[repr(C)]
#[derive(Clone, Copy)]
pub struct Packet {
    pub number: u8,
    pub ty: u8,
    pub sender_random: bool,
    pub sender: [u8; 6],
    pub has_receiver: bool,
    pub receiver_random: bool,
    pub receiver: [u8; 6],
    pub start: usize,
    pub len: usize,
    pub count: usize,
    pub access_address: u32,
    pub crc_init: u32,
    pub win_size: u32,
    pub win_offset: u32,
    pub window_end: u32,
    pub interval: u32,
    pub latency: u16,
    pub timeout: u32,
    pub map: [u8; 5],
    pub map_count: u8,
    pub hop: u8,
    pub sca: u8,
}

// Not `From`: C alone is handed it, and nothing here sends it.
fn accuracy_number(sca: SleepClockAccuracy) -> u8
    ensures { result ≡ accuracy_number sca }
{
    match sca {
        SleepClockAccuracy::Ppm251To500 => 0,
        SleepClockAccuracy::Ppm151To250 => 1,
        SleepClockAccuracy::Ppm101To150 => 2,
        SleepClockAccuracy::Ppm76To100 => 3,
        SleepClockAccuracy::Ppm51To75 => 4,
        SleepClockAccuracy::Ppm31To50 => 5,
        SleepClockAccuracy::Ppm21To30 => 6,
        SleepClockAccuracy::Ppm0To20 => 7,
    }
}

pub fn packet_said(decoded: Result<Pdu, Error>) -> Packet
    ensures { result ≡ packet_said decoded }
{
    match decoded {
        Ok(pdu) => said(pdu),
        Err(e) => not_said(e),
    }
}

#[tactic(auto, unfolding(crate::specs::Packet::pdu_said))]
fn said(pdu: Pdu) -> Packet
    ensures { result ≡ pdu_said pdu }
{
    let from = pdu.sender;
    let to = pdu.receiver;
    let place = pdu.adv_data;
    let request = pdu.lldata;
    let channels = request.channel_map();
    let sender = from.raw();
    let receiver = to.raw();
    let map = channels.to_raw();
    Packet {
        number: 0,
        ty: u8::from(pdu.ty),
        sender_random: from.is_random(),
        sender,
        has_receiver: pdu.has_receiver(),
        receiver_random: to.is_random(),
        receiver,
        start: place.start,
        len: place.len,
        count: place.count,
        access_address: request.access_address(),
        crc_init: request.crc_init(),
        win_size: request.win_size(),
        win_offset: request.win_offset(),
        window_end: request.end_of_tx_window(),
        interval: request.interval(),
        latency: request.slave_latency(),
        timeout: request.supervision_timeout(),
        map,
        map_count: channels.num_used_channels(),
        hop: request.hop(),
        sca: accuracy_number(request.sca()),
    }
}

// A refusal: type 15, and no field has a meaning.
fn not_said(e: Error) -> Packet
    ensures { result ≡ not_said e }
{
    Packet {
        number: e.number(),
        ty: 15,
        sender_random: false,
        sender: [0; 6],
        has_receiver: false,
        receiver_random: false,
        receiver: [0; 6],
        start: 0,
        len: 0,
        count: 0,
        access_address: 0,
        crc_init: 0,
        win_size: 0,
        win_offset: 0,
        window_end: 1250,
        interval: 0,
        latency: 0,
        timeout: 0,
        map: [0; 5],
        map_count: 0,
        hop: 0,
        sca: 0,
    }
}
