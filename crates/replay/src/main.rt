// Reads requests from standard input, one a line, and prints what each is answered. A request is a letter and octets in hexadecimal, of either case, after a
// space; further spaces are for the eye, though not within an octet. Of a number's octets the least one comes first.
//
//     a area                             an area: how many records, or why not
//     r room, area                       an area rewritten into `room` octets of FF
//     z room, area                       an area read as the hub does: records and octets that they took, and these octets rewritten into `room` octets of FF
//     l size, areas                      the name in an advertisement of `size` octets and in a reply, the rest: the area that holds it, where it begins and ends, its octets
//     w kind, value 2, room, data        a record written at 0 of `room` octets of FF; kinds 1 to 9 in the order of `AdStructure`, 16 more for a complete list
//     d header 2, payload                a PDU read; its header may be short
//     b type, address 7, records         a PDU built: of type 0, 2, 4 or 6, any other is a discoverable one. An address is its kind and six octets
//     g TxAdd, RxAdd, length, header 2   a header set so
//     i index                            a data channel: index, RF channel, frequency, start of whitening
//     m octets 5                         a channel map
//     h octets 5, unmapped, hop          a hop
//     q octets 22                        the settings of a connect request, of the octets after its addresses: window size and offset, interval, latency, timeout, map, hop
//     n address 7                        a new device, for the calls that follow
//     s time 4, interval 4, room, records    a start with a transmit buffer of `room` octets of FF
//     t room                             a tick
//     p end 4, CRC, room, header 2, payload  a packet, with a transmit buffer of `room` octets of FF
//     e                                  an event
//     x                                  a stop
//     y records                          scan data to set
//     k address 7, room, records         a beacon, made and sent
//     c CRC, header 2, payload           a scanner that reports all senders: the sender, records and octets that they took, the whole area
//     #                                  a remark: anything may stand after it. Its answer is the letter alone, as of `n`
//
// Each line of the input is answered by one line, also the last where its line end is missing. The answer of a request begins with its letter; that of an
// empty line is empty. Any other line changes nothing, and is answered `request 17: ` and what is met first in it, 17 being its number among all lines, from 1:
//
//     no such request               it begins with none of these letters
//     no space behind its letter
//     an octet that is no number    something else than a digit or a space
//     an octet of one digit
//     a carriage return             before the line end too
//     too many octets               more than the request has, or than 320
//     too few octets                fewer than it has
//
// A line may be of any length. A room of FF is 320 octets. Of an octet that says one of two things, as CRC does, 01 is the one and all others are the other; of
// `w` any other kind is 9.
//
// Answers are written as soon as all that was read is answered. A read or a write that fails ends the run, with a line on standard error. An argument is
// answered there by the usage, and nothing is read.
#![tactic(auto)]

mod answering;
mod lines;
mod page;
mod requests;
mod show;

use answering::Answers;
use lines::Line;
use page::Page;
use requests::Request;
use std::io;
use std::io::{Read, Write};

// Why a run ends before its input does.
#[derive(Drop)]
enum Failure {
    Input(io::Error),
    Output(io::Error),
}

// A run: the line that is read, the number of those before it, and what answers them.
#[derive(Drop)]
struct Run<W: Write> {
    line: Line,
    lines: u64,
    answers: Answers<W>,
}

impl<W: Write> Run<W> {
    fn new(out: W) -> Run<W> {
        Run {
            line: Line::new(),
            lines: 0,
            answers: Answers::new(out),
        }
    }

    // Answers the lines of the input. What is read is answered, and that is written, before more is read.
    fn read<R: Read>(&mut self, input: &mut R) -> Result<(), Failure> {
        let mut page = page::blank();
        // A count: each loop is proved to end, and how often the system is asked is not known.
        for _ in 0..u64::MAX {
            let count = input.read(&mut page).map_err(Failure::Input)?;
            if count == 0 {
                break;
            }
            self.take_in(&page[..count]).map_err(Failure::Output)?;
        }
        self.end().map_err(Failure::Output)
    }

    fn take_in(&mut self, page: &[u8]) -> io::Result<()> {
        for c in page {
            match *c {
                b'\n' => self.end_line()?,
                c => self.line.push(c),
            }
        }
        self.answers.flush()
    }

    // A line that has begun ends with the input.
    fn end(&mut self) -> io::Result<()> {
        if self.line.has_begun() {
            self.end_line()?;
        }
        self.answers.flush()
    }

    fn end_line(&mut self) -> io::Result<()> {
        self.lines = self.lines.wrapping_add(1);
        if let Some((letter, fields)) = self.line.parts() {
            match Request::parse(letter, fields) {
                Ok(request) => self.answers.answer(letter, request)?,
                Err(fault) => self.answers.refuse(self.lines, fault)?,
            }
        }
        self.line.clear();
        self.answers.end_line()
    }
}

fn main(rt: HostRuntime) -> io::Result<()> {
    if fail::has_argument(&rt) {
        let _said = eprintln!(rt; "usage: replay < requests");
        return Ok(());
    }
    let mut out = Page::new(io::writer(&rt));
    let _said = match Run::new(&mut out).read(&mut rt.stdin()) {
        Ok(()) => Ok(()),
        Err(Failure::Input(e)) => fail::fail(&rt, b"replay: standard input", &e),
        Err(Failure::Output(e)) => fail::fail(&rt, b"replay: standard output", &e),
    };
    Ok(())
}
