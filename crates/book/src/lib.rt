// The turn book of a club: up to 64 seats, the moves of the open turn and those of the closed turn (document 02, Note 8).
#![tactic(auto)]

mod book;
mod moves;

pub use book::{Book, BookCalled, SeatCalled};
pub use book_spec::Move;
