// The line of a report.
ghost use Rattle.std.specs.Prelude.{◌≡◌, ◌*◌, ◌≤◌, length};
ghost use Rattle.octets.specs.Bytes.{at_front};
ghost use Rattle.addresses.specs.Address.{kind_number};
ghost use Rattle.beacon.specs.State.{scan_step};
ghost use Rattle.hub_spec.specs.Line.{report_line, line, reports_in, line_size, SentIn};

use addresses::device_address::DeviceAddress;
use beacon::beacon::Scanned;
use channels::phy::AdvertisingChannel;

// The kind of an address as it is printed: 0 public, 1 random.
fn kind_number(address: DeviceAddress) -> u8
    ensures { result ≡ kind_number address.kind }
{
    u8::from(address.is_random())
}

// Writes a report's line to the front of `out`. The octets are the sender's, where they stand in its packet.
fn put_line(
    number: usize,
    channel: AdvertisingChannel,
    sender: DeviceAddress,
    octets: &[u8],
    records: usize,
    out: &mut [u8],
)
    requires { (octets.now ≡ sender.bytes) × ((length octets.now ≡ 6) × (line_size ≤ length out.old)) }
    ensures { out.new ≡ at_front (report_line number channel sender records) out.old }
{
    let heard = 6;
    columns::put_column(number, &mut out[..heard]);
    let kind = heard + 3;
    columns::put_octet(channel.channel(), &mut out[heard..kind]);
    let sent = kind + 2;
    columns::put_octet(kind_number(sender), &mut out[kind..sent]);
    let count = sent + 24;
    columns::put_octets(octets, &mut out[sent..count]);
    let end = count + 3;
    columns::put_column(records, &mut out[count..end]);
    out[end] = b'\n';
}

// Writes the line of what the scanner answered to an item, if it has one, to the front of `out`, and answers how many reports that is.
pub(crate) fn log_scanned(number: usize, scanned: Scanned, item: &[u8], out: &mut [u8]) -> usize
    requires { SentIn (scan_step scanned) item.now × (line_size * reports_in (scan_step scanned) ≤ length out.old) }
    ensures { (result ≡ reports_in (scan_step scanned)) × (out.new ≡ at_front (line number (scan_step scanned)) out.old) }
{
    match scanned.report.unwrap_or(None) {
        Some(sighting) => {
            let place = sighting.adv_data;
            put_line(
                number,
                scanned.channel,
                sighting.sender,
                &item[3..9],
                place.count,
                out,
            );
            1
        }
        None => 0,
    }
}
