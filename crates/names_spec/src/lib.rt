// The player's name beside a move: where it lies, which name counts, and the laws of that. The functions are in `names`.
#![tactic(auto)]

use octets::bytes::Part;

// Which of the two lent areas holds the name, and which part of that area it is.
#[derive(Clone, Copy)]
pub enum NamePlace {
    InReply(Part),
    InAdvertisement(Part),
}
