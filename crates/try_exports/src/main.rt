// Calls every function of the libraries to link and prints what it answers, in the form of compare/link/every.c, from whose known answers, compare/link/every.out, each
// line of the stored output is taken: they are document 01's and 02's, and those on which rubble and other implementations agree. What an answer's numbers are for other
// values is a law of the library (specs/Laws).
#![tactic(auto)]

use advertising::pdu_buf::MAX_PAYLOAD_SIZE;
use answers::got::Got;
use answers::packet::Packet;
use basics::areas::{
    Structure, board_area, board_flags, board_known, board_padded_area, board_record,
    board_rewrite, board_uuid_at, board_write,
};
use basics::at::{board_read_header, board_read_pdu, board_write_header};
use basics::filters::{
    board_broadcast_flags, board_discoverable_flags, board_may_connect, board_may_scan,
    board_should_scan, board_whitelist,
};
use basics::leaves::{
    Channel, Map, board_advertising_channel, board_all_channels, board_by_index,
    board_data_channel, board_hop, board_is_used, board_later, board_map, board_since, board_utf8,
    board_uuid16, board_uuid32,
};
use basics::name::board_name;
use basics::reads::{
    board_bytes_left, board_read_array5, board_read_array6, board_read_into, board_read_slice,
    board_read_u8, board_read_u16_le, board_read_u32_le, board_skip,
};
use basics::setting::board_settings;
use basics::uuids::{
    board_read_uuid16, board_read_uuid32, board_read_uuid128, board_write_uuid16,
    board_write_uuid32, board_write_uuid128,
};
use basics::writes::{
    board_space_left, board_write_skip, board_write_slice, board_write_slice_truncate,
    board_write_u8, board_write_u16_le, board_write_u32_le,
};
use bit_stream::packet::{board_crc, board_crc_flag, board_crc_octets, board_whiten};
use channels::phy::AdvertisingChannel;
use decode::packet::board_decode;
use exports::air::{Heard, board_beacon, board_scan, board_scanner};
use exports::lists::board_call;
use exports::packets::{
    Frame, board_build, board_build_directed, board_header, board_new_header, board_set_header,
};
use exports::scans::{Listened, board_scanner_call};
use flags::Flags;
use items::{CRC_BAD, CRC_GOOD, TICK};
use records::ad_structure::Type;
use std::{fmt, io};
use whitening::crc::{CRC_POLY, CRC_PRESET};
use whitening::packet::ACCESS_ADDRESS;

const OWN: [u8; 6] = [1, 2, 3, 4, 5, 0xC6];

const OTHER: [u8; 6] = [1, 2, 3, 4, 5, 6];

// A list of the one address `OWN`, random.
const LIST: &[u8] = b"\x01\x01\x02\x03\x04\x05\xC6";

const BITS: &[u8] = b"\x00\x01\x02\x03\x04\x05\x06\x07";

const AREA: &[u8] = b"\x02\x01\x06\x05\x03\x0F\x18\x0A\x18";

// Octets as pairs of hexadecimal digits. Each program that prints them has this loop: a crate for it would be no shorter.
#[derive(Clone, Copy)]
struct Hex<'a>(&'a [u8]);

impl fmt::Display for Hex<'_> {
    fn fmt<W: fmt::Write>(&self, f: &mut fmt::Formatter<W>) -> fmt::Result {
        for octet in self.0 {
            write!(f, " {octet:02x}")?;
        }
        Ok(())
    }
}

// Whether something is, as 1 or 0.
#[derive(Clone, Copy)]
struct Is(bool);

impl fmt::Display for Is {
    fn fmt<W: fmt::Write>(&self, f: &mut fmt::Formatter<W>) -> fmt::Result {
        write!(f, "{}", u8::from(self.0))
    }
}

fn got(rt: &HostRuntime, name: &str, g: Got) -> io::Result<()> {
    println!(rt; "{name} {} {} {}", g.number, g.first, g.second)
}

// What a call answers that writes to 16 octets of FF, and these.
fn wrote<F: FnOnce(&mut [u8]) -> Got>(rt: &HostRuntime, name: &str, write: F) -> io::Result<()>
    requires { F.IsAlwaysCallable write }
{
    let mut out = [0xFFu8; 16];
    let g = write(&mut out);
    println!(rt; "{name} {} {} {}{}", g.number, g.first, g.second, Hex(&out))
}

fn channel(rt: &HostRuntime, name: &str, c: Channel) -> io::Result<()> {
    println!(rt;
        "{name} {} {} {} {} {}",
        c.number, c.index, c.rf_channel, c.whitening_iv, c.freq
    )
}

fn map(rt: &HostRuntime, name: &str, m: Map) -> io::Result<()> {
    println!(rt; "{name}{} {}", Hex(&m.raw), m.count)
}

fn leaves(rt: &HostRuntime) -> io::Result<()> {
    println!(rt; "board_utf8 {}", Is(board_utf8(BITS)))?;
    println!(rt; "board_uuid16{}", Hex(&board_uuid16(0x180F).octets))?;
    println!(rt; "board_uuid32{}", Hex(&board_uuid32(0x12345678).octets))?;
    println!(rt; "board_later {}", board_later(0xFFFFFFFF, 101))?;
    println!(rt; "board_since {}", board_since(100, 0xFFFFFFFF))?;
    channel(
        rt,
        "board_advertising_channel",
        board_advertising_channel(1),
    )?;
    channel(rt, "board_data_channel", board_data_channel(11))
}

fn maps(rt: &HostRuntime) -> io::Result<()> {
    map(rt, "board_map", board_map(&[0xFF; 5]))?;
    map(rt, "board_all_channels", board_all_channels())?;
    let two = [0x0Au8, 0, 0, 0, 0];
    got(rt, "board_is_used", board_is_used(&two, 3))?;
    got(rt, "board_by_index", board_by_index(&two, 1))?;
    got(rt, "board_hop", board_hop(&two, 0, 5))?;
    println!(rt; "board_discoverable_flags {}", board_discoverable_flags())?;
    println!(rt; "board_broadcast_flags {}", board_broadcast_flags())
}

fn packet(rt: &HostRuntime, name: &str, p: Packet) -> io::Result<()> {
    print!(rt; "{name} {} {}", p.number, p.ty)?;
    print!(rt; " {}{}", Is(p.sender_random), Hex(&p.sender))?;
    print!(rt;
        " {} {}{}",
        Is(p.has_receiver),
        Is(p.receiver_random),
        Hex(&p.receiver)
    )?;
    print!(rt; " {} {} {}", p.start, p.len, p.count)?;
    print!(rt; " {:x} {:x}", p.access_address, p.crc_init)?;
    print!(rt; " {} {} {}", p.win_size, p.win_offset, p.window_end)?;
    print!(rt; " {} {} {}", p.interval, p.latency, p.timeout)?;
    println!(rt; "{} {} {} {}", Hex(&p.map), p.map_count, p.hop, p.sca)
}

fn frame(rt: &HostRuntime, name: &str, f: Frame) -> io::Result<()> {
    println!(rt; "{name} {} {:04x}{}", f.number, f.header, Hex(&f.payload))
}

fn packets(rt: &HostRuntime) -> io::Result<()> {
    packet(
        rt,
        "board_decode",
        board_decode(b"\x42\x09", b"\x01\x02\x03\x04\x05\xC6\x02\x01\x06"),
    )?;
    packet(
        rt,
        "board_read_pdu",
        board_read_pdu(
            b"\x85\x22\x11\x12\x13\x14\x15\x16\x01\x02\x03\x04\x05\x06\xD6\xBE\x89\x8E\x56\x34\x12\x02\x03\x00\x18\x00\x07\x00\x64\x00\x0A\x00\x00\x00\x00\xA5",
            0,
        ),
    )
}

fn headers(rt: &HostRuntime) -> io::Result<()> {
    let h = board_header(b"\x42\x09");
    print!(rt; "board_header {} {:04x} {}", h.number, h.raw, h.ty)?;
    print!(rt; " {} {} {}", Is(h.tx_add), Is(h.rx_add), h.length)?;
    println!(rt; " {} {}", Is(h.is_beacon), Is(h.allows_adv_data))?;
    got(rt, "board_new_header", board_new_header(2, true, false, 9))?;
    got(
        rt,
        "board_set_header",
        board_set_header(b"\x42\x09", false, true, 38),
    )?;
    got(rt, "board_read_header", board_read_header(BITS, 1))?;
    wrote(
        rt,
        "board_write_header",
        |out| board_write_header(out, 1, b"\x42\x09"),
    )
}

fn builders(rt: &HostRuntime) -> io::Result<()> {
    frame(
        rt,
        "board_build",
        board_build(1, &OWN, true, b"\x02\x01\x06"),
    )?;
    frame(
        rt,
        "board_build_directed",
        board_build_directed(&OWN, true, &OTHER, false),
    )
}

fn filters(rt: &HostRuntime) -> io::Result<()> {
    got(rt, "board_whitelist", board_whitelist(LIST, &OWN, true))?;
    got(
        rt,
        "board_may_scan",
        board_may_scan(true, false, LIST, &OTHER, true),
    )?;
    got(
        rt,
        "board_may_connect",
        board_may_connect(true, false, LIST, &OTHER, true),
    )?;
    got(
        rt,
        "board_should_scan",
        board_should_scan(true, LIST, &OWN, true),
    )
}

fn structure(rt: &HostRuntime, name: &str, r: Structure) -> io::Result<()> {
    print!(rt; "{name} {} {} {}", r.number, r.kind, Is(r.complete))?;
    println!(rt; " {:x} {} {} {}", r.value, r.start, r.len, r.next)
}

fn areas(rt: &HostRuntime) -> io::Result<()> {
    got(rt, "board_area", board_area(AREA))?;
    got(
        rt,
        "board_padded_area",
        board_padded_area(b"\x02\x01\x86\x03\x09\x47\x6F\x00\x00\x00"),
    )?;
    structure(rt, "board_record", board_record(AREA, 0))?;
    structure(rt, "board_known", board_known(AREA, 3))
}

fn rewrites(rt: &HostRuntime) -> io::Result<()> {
    wrote(
        rt,
        "board_write",
        |out| board_write(5, false, 0x180F, 0, 1, BITS, 1, out),
    )?;
    wrote(rt, "board_rewrite", |out| board_rewrite(AREA, out))?;
    got(rt, "board_uuid_at", board_uuid_at(b"\x0F\x18\x0A\x18", 2))
}

fn flags(rt: &HostRuntime, bits: u8) -> io::Result<()> {
    let f = board_flags(bits);
    print!(rt;
        "board_flags {} {} {}",
        f.bits,
        Is(f.classic),
        Is(f.limited)
    )?;
    println!(rt; " {} {} {}", Is(f.general), Is(f.controller), Is(f.host))
}

fn reads(rt: &HostRuntime) -> io::Result<()> {
    got(rt, "board_skip", board_skip(BITS, 3, 5))?;
    got(rt, "board_bytes_left", board_bytes_left(BITS, 8))?;
    let p = board_read_slice(BITS, 3, 2);
    println!(rt;
        "board_read_slice {} {} {} {}",
        p.number, p.start, p.len, p.next
    )?;
    got(rt, "board_read_u8", board_read_u8(BITS, 7))?;
    got(rt, "board_read_u16_le", board_read_u16_le(BITS, 1))?;
    got(rt, "board_read_u32_le", board_read_u32_le(BITS, 5))
}

fn arrays(rt: &HostRuntime) -> io::Result<()> {
    let mut out = [0xFFu8; 3];
    let g = board_read_into(BITS, 1, &mut out);
    println!(rt;
        "board_read_into {} {} {}{}",
        g.number,
        g.first,
        g.second,
        Hex(&out)
    )?;
    let five = board_read_array5(BITS, 1);
    println!(rt;
        "board_read_array5 {} {}{}",
        five.number,
        five.next,
        Hex(&five.octets)
    )?;
    let six = board_read_array6(BITS, 1);
    println!(rt;
        "board_read_array6 {} {}{}",
        six.number,
        six.next,
        Hex(&six.octets)
    )
}

fn uuids(rt: &HostRuntime) -> io::Result<()> {
    got(rt, "board_read_uuid16", board_read_uuid16(BITS, 1))?;
    got(rt, "board_read_uuid32", board_read_uuid32(BITS, 1))?;
    let uuid = board_read_uuid128(
        b"\x00\x01\x02\x03\x04\x05\x06\x07\x08\x09\x0A\x0B\x0C\x0D\x0E\x0F",
        0,
    );
    println!(rt;
        "board_read_uuid128 {} {}{}",
        uuid.number,
        uuid.next,
        Hex(&uuid.octets)
    )
}

fn writes(rt: &HostRuntime) -> io::Result<()> {
    got(rt, "board_write_skip", board_write_skip(BITS, 9, 0))?;
    println!(rt; "board_space_left {}", board_space_left(BITS, 3))?;
    wrote(
        rt,
        "board_write_slice",
        |out| board_write_slice(out, 14, b"\x42\x09"),
    )?;
    wrote(
        rt,
        "board_write_slice_truncate",
        |out| board_write_slice_truncate(out, 15, b"\x42\x09"),
    )?;
    wrote(rt, "board_write_u8", |out| board_write_u8(out, 1, 0x12))?;
    wrote(
        rt,
        "board_write_u16_le",
        |out| board_write_u16_le(out, 1, 0x1234),
    )?;
    wrote(
        rt,
        "board_write_u32_le",
        |out| board_write_u32_le(out, 1, 0x12345678),
    )?;
    wrote(
        rt,
        "board_write_uuid16",
        |out| board_write_uuid16(out, 1, 0x180F),
    )?;
    wrote(
        rt,
        "board_write_uuid32",
        |out| board_write_uuid32(out, 1, 0x12345678),
    )?;
    let full = [0u8, 1, 2, 3, 4, 5, 6, 7, 8, 9, 10, 11, 12, 13, 14, 15];
    wrote(
        rt,
        "board_write_uuid128",
        |out| board_write_uuid128(out, 0, &full),
    )
}

fn beacon(rt: &HostRuntime) -> io::Result<()> {
    let mut out = [0xFFu8; 16];
    let s = board_beacon(&OWN, true, b"\x02\x01\x06", &mut out);
    print!(rt; "board_beacon {} {:04x}", s.number, s.header)?;
    println!(rt; " {} {} {}{}", s.first, s.second, s.third, Hex(&out))?;
    got(rt, "board_scanner", board_scanner(100, 20, 2))
}

fn heard(rt: &HostRuntime, h: Heard) -> io::Result<()> {
    print!(rt; "board_scan {} {}", h.number, Is(h.reported))?;
    print!(rt; " {}{}", Is(h.random), Hex(&h.sender))?;
    println!(rt;
        " {} {} {} {} {}",
        h.start, h.len, h.count, h.taken, h.channel
    )
}

fn scan(rt: &HostRuntime) -> io::Result<()> {
    let payload = b"\x01\x02\x03\x04\x05\xC6\x02\x01\x06";
    heard(rt, board_scan(true, LIST, 1, b"\x42\x09", payload, true))
}

fn listened(rt: &HostRuntime, l: Listened) -> io::Result<()> {
    print!(rt; "board_scanner_call {} {}", l.number, Is(l.reported))?;
    print!(rt; " {}{}", Is(l.random), Hex(&l.sender))?;
    print!(rt; " {} {} {} {}", l.start, l.len, l.count, l.taken)?;
    println!(rt; " {} {}", l.channel, l.next)
}

// A start at 5 with interval 30, then a tick at 200: of a scanner, a configure and a timer update.
fn two_calls() -> [u8; 544] {
    let mut calls = [0u8; 544];
    calls[4] = 5;
    calls[8] = 30;
    calls[272] = 1;
    calls[276] = 200;
    calls
}

// What is asked next is given without the zeros that follow it.
fn scanner(rt: &HostRuntime) -> io::Result<()> {
    let calls = two_calls();
    listened(
        rt,
        board_scanner_call(
            true,
            LIST,
            &calls,
            b"\x02\x01\x00\x09\x00\x00\x00\x00\x00\x00\x00\x00\x42\x09\x01\x02\x03\x04\x05\xC6\x02\x01\x06",
        ),
    )?;
    let (start, _) = calls.split_at(272);
    listened(
        rt,
        board_scanner_call(true, LIST, start, b"\x01\x00\x00\x00\xC8"),
    )
}

fn device(rt: &HostRuntime) -> io::Result<()> {
    let mut first = [0u8; 9];
    let mut second = [0u8; 37];
    let said = board_call(
        &OTHER,
        true,
        &two_calls(),
        b"\x02\x01\x00\x22\xE8\x00\x00\x00\x03\x00\x00\x00\x85\x22\x11\x12\x13\x14\x15\x16\x01\x02\x03\x04\x05\x06\xD6\xBE\x89\x8E\x56\x34\x12\x02\x03\x00\x18\x00\x07\x00\x64\x00\x0A\x00\x00\x00\x00\xA5",
        &mut first,
        &mut second,
    );
    print!(rt; "board_call {} {}", said.number, said.kind)?;
    print!(rt; " {} {}", Is(said.advertising), Is(said.connected))?;
    print!(rt; " {} {:04x} {}", said.channel, said.header, said.at)?;
    println!(rt;
        " {:x} {:x}{}",
        said.access_address,
        said.crc_init,
        Hex(&first)
    )
}

fn name(rt: &HostRuntime) -> io::Result<()> {
    let n = board_name(
        b"\x02\x01\x06\x04\x08\x41\x64\x61\x03\x09\x42\x6F\x00",
        b"\x03\x08\x43\x79\x04\x09\x44\x61\x6E\x00\x00",
    );
    print!(rt;
        "complete, reply board_name {} {}",
        n.number,
        Is(n.in_reply)
    )?;
    println!(rt; " {} {}", n.start, n.len)
}

fn settings(rt: &HostRuntime) -> io::Result<()> {
    let request = [
        0xD6u8, 0xBE, 0x89, 0x8E, 0x56, 0x34, 0x12, 2, 3, 0, 0x18, 0, 7, 0, 100, 0, 0x0A, 0, 0, 0,
        0, 0xA5,
    ];
    let c = board_settings(&request);
    print!(rt; "request board_settings {} {}", c.number, c.hop)?;
    print!(rt; "{} {}", Hex(&c.map), c.channels)?;
    print!(rt; " {} {} {}", c.interval, c.latency, c.timeout)?;
    println!(rt; " {} {}", c.win_size, c.win_offset)
}

fn crc(rt: &HostRuntime, name: &str, start: u32, octets: &[u8]) -> io::Result<()> {
    let crc = board_crc(start, octets);
    let end = board_crc_octets(start, octets);
    println!(rt; "{name} board_crc {crc:06x}{}", Hex(&end.octets))
}

// A packet whitened on a channel, and its flag as heard on 39.
fn whiten(rt: &HostRuntime, channel: u8) -> io::Result<()> {
    let mut packet = [0x42u8, 0x09, 1, 2, 3, 4, 5, 0xC6, 2, 1, 6, 0x9F, 0xD7, 0xC2];
    let refusal = board_whiten(channel, &mut packet);
    println!(rt; "{channel} board_whiten {refusal}{}", Hex(&packet))?;
    let flag = board_crc_flag(39, 0x123456, &packet);
    println!(rt; "39 board_crc_flag {} {}", flag.number, Is(flag.good))
}

// The beacon's packet on channel 39, with its CRC.
fn bits(rt: &HostRuntime) -> io::Result<()> {
    crc(
        rt,
        "beacon",
        0x555555,
        b"\x42\x09\x01\x02\x03\x04\x05\xC6\x02\x01\x06",
    )?;
    whiten(rt, 39)
}

// The constants that callers may name: rubble's, and those of the hub's items (document 01).
fn constants(rt: &HostRuntime) -> io::Result<()> {
    print!(rt;
        "constants {MAX_PAYLOAD_SIZE} {} {} {}",
        AdvertisingChannel::FIRST,
        AdvertisingChannel::SECOND,
        AdvertisingChannel::THIRD
    )?;
    let octets = [
        Flags::LE_LIMITED_DISCOVERABLE,
        Flags::LE_GENERAL_DISCOVERABLE,
        Flags::BR_EDR_NOT_SUPPORTED,
        Flags::SIMUL_LE_BR_CONTROLLER,
        Flags::SIMUL_LE_BR_HOST,
        Type::SHORTENED_LOCAL_NAME,
        Type::COMPLETE_LOCAL_NAME,
        TICK,
        CRC_GOOD,
        CRC_BAD,
    ];
    println!(rt;
        "{} {CRC_POLY:08x} {CRC_PRESET:06x} {ACCESS_ADDRESS:08x}",
        Hex(&octets)
    )
}

// Once more with the arguments changed: what was true is false, what was accepted is refused.
fn leaves_again(rt: &HostRuntime) -> io::Result<()> {
    println!(rt; "board_utf8 {}", Is(board_utf8(b"\xC3\x28")))?;
    channel(rt, "board_data_channel", board_data_channel(48))?;
    let two = [0x0Au8, 0, 0, 0, 0xE0];
    map(rt, "board_map", board_map(&two))?;
    got(rt, "board_is_used", board_is_used(&two, 2))?;
    got(rt, "board_by_index", board_by_index(&two, 2))?;
    got(rt, "board_hop", board_hop(&two, 36, 5))?;
    packet(rt, "board_read_pdu", board_read_pdu(b"\x42", 0))?;
    got(rt, "board_new_header", board_new_header(5, false, true, 34))?;
    got(
        rt,
        "board_set_header",
        board_set_header(b"\x42\x09", false, true, 9),
    )
}

fn builders_again(rt: &HostRuntime) -> io::Result<()> {
    frame(rt, "board_build", board_build(0, &OTHER, false, b""))?;
    frame(
        rt,
        "board_build_directed",
        board_build_directed(&OTHER, false, &OWN, true),
    )?;
    got(rt, "board_whitelist", board_whitelist(LIST, &OWN, false))?;
    got(
        rt,
        "board_may_scan",
        board_may_scan(false, true, LIST, &OTHER, true),
    )?;
    got(
        rt,
        "board_may_connect",
        board_may_connect(false, true, LIST, &OTHER, true),
    )?;
    got(
        rt,
        "board_should_scan",
        board_should_scan(true, LIST, &OTHER, true),
    )
}

fn reads_again(rt: &HostRuntime) -> io::Result<()> {
    got(rt, "board_bytes_left", board_bytes_left(BITS, 3))?;
    got(rt, "board_read_u32_le", board_read_u32_le(BITS, 1))?;
    got(rt, "board_write_skip", board_write_skip(BITS, 3, 2))?;
    wrote(
        rt,
        "board_write",
        |out| board_write(2, true, 0, 0, 2, BITS, 1, out),
    )?;
    flags(rt, 0x19)
}

fn scans_again(rt: &HostRuntime) -> io::Result<()> {
    let payload = b"\x01\x02\x03\x04\x05\xC6\x02\x01\x06";
    heard(rt, board_scan(false, b"", 0, b"\x42\x09", payload, false))?;
    heard(
        rt,
        board_scan(false, b"\x05", 2, b"\x42\x09", payload, true),
    )
}

fn bits_again(rt: &HostRuntime) -> io::Result<()> {
    crc(rt, "none", 1, b"")?;
    whiten(rt, 103)
}

fn main(rt: HostRuntime) -> io::Result<()> {
    constants(&rt)?;
    leaves(&rt)?;
    maps(&rt)?;
    packets(&rt)?;
    headers(&rt)?;
    builders(&rt)?;
    filters(&rt)?;
    areas(&rt)?;
    rewrites(&rt)?;
    flags(&rt, 0x86)?;
    reads(&rt)?;
    arrays(&rt)?;
    uuids(&rt)?;
    writes(&rt)?;
    beacon(&rt)?;
    scan(&rt)?;
    scanner(&rt)?;
    device(&rt)?;
    name(&rt)?;
    settings(&rt)?;
    bits(&rt)?;
    leaves_again(&rt)?;
    builders_again(&rt)?;
    reads_again(&rt)?;
    scans_again(&rt)?;
    bits_again(&rt)
}
