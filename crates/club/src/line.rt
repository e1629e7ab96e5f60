// The lines of the club's items.
ghost use Rattle.std.specs.Prelude.{◌≡◌, [], ◌∷◌, ◌++◌, ◌+◌, ◌≤◌, length};
ghost use Rattle.octets.specs.Bytes.{at_front};
ghost use Rattle.columns.specs.Column.{column};
ghost use Rattle.columns.specs.Row.{row_of};
ghost use Rattle.hub_spec.specs.Log.{left_over};
ghost use Rattle.club_spec.specs.Log.{move_widths, end_widths};

use book::Move;
use hub::left_over;

// Writes what an item begins with and two numbers in columns of these widths to the front of `out`, and answers where they end.
fn put_front(first: u8, a: usize, wide: usize, b: usize, width: usize, out: &mut [u8]) -> usize
    requires { 2 + wide + width ≤ length out.old }
    ensures { (result ≡ 2 + wide + width) × (out.new ≡ at_front (column 2 first ++ (column wide a ++ column width b)) out.old) }
{
    columns::put_octet(first, &mut out[..2]);
    let third = 2 + wide;
    columns::put_column(a, &mut out[2..third]);
    let end = third + width;
    columns::put_column(b, &mut out[third..end]);
    end
}

// Writes the line of a call to the front of `out`, and answers how many octets it has: what its item begins with, its refusal, and in the columns of the given
// width a number.
pub(crate) fn put_call(first: u8, refusal: u8, number: usize, width: usize, out: &mut [u8]) -> usize
    requires { width + 6 ≤ length out.old }
    ensures { (result ≡ length (row_of (2 ∷ 3 ∷ width ∷ []) (first ∷ refusal ∷ number ∷ []))) × (out.new ≡ at_front (row_of (2 ∷ 3 ∷ width ∷ []) (first ∷ refusal ∷ number ∷ [])) out.old) }
{
    let end = put_front(first, refusal as usize, 3, number, width, out);
    out[end] = b'\n';
    width + 6
}

// Writes the line of a move that was read likewise: what its item begins with, the seat, how many octets the move has, and all that a move may have.
pub(crate) fn put_move(first: u8, n: usize, played: Move, out: &mut [u8]) -> usize
    requires { 90 ≤ length out.old }
    ensures { (result ≡ length (row_of move_widths (first ∷ n ∷ played.len ∷ played.octets))) × (out.new ≡ at_front (row_of move_widths (first ∷ n ∷ played.len ∷ played.octets)) out.old) }
{
    let front = put_front(first, n, 4, played.len, 3, out);
    let octets = played.octets;
    let end = front + 4 * octets.len();
    columns::put_octets(&octets, &mut out[front..end]);
    out[end] = b'\n';
    90
}

// Writes the last line to all of `out`.
pub(crate) fn put_last(turn: usize, left: usize, out: &mut [u8])
    requires { length out.old ≡ 9 }
    ensures { out.new ≡ row_of end_widths (turn ∷ left_over left ∷ []) }
{
    columns::put_column(turn, &mut out[..6]);
    columns::put_column(left_over(left), &mut out[6..8]);
    out[8] = b'\n';
}
