// The turn book of a club: what a move is, what each call answers, and the laws of that. The functions are in `book`.
#![tactic(auto)]

// A move of 1 to 20 octets, with zeros after them; where there is none, no octets and zeros alone.
// By a length and an array: memory is fixed, and the lines of a log show no move as length 0.
#[derive(Clone, Copy)]
pub struct Move {
    pub len: usize,
    pub octets: [u8; 20],
}
