//! The book in a file: each command is judged on what the file holds, and one commit makes it an entry.
//!
//! - `book`: `Book`, a book in a file, and applying a command to it.
//! - `creation`: making a book; `adoption`: taking up the one that is there.
//! - `commit`: rows written in one commit.
//! - `run`: commands applied one after another, with a reply to each.
//! - `trial`: what is tried in the place of a command that was handed in.
//! - `turn`: which command is judged in its place.
//! - `extent`: how far a book goes.
//! - `walk`: walks over the rows of a book, and why one gives none.
//! - `fault`: why a call fails.
#![tactic(auto)]

mod adoption;
mod book;
mod commit;
mod creation;
mod extent;
mod fault;
mod run;
mod trial;
mod turn;
mod walk;

pub use adoption::adopt;
pub use book::Book;
pub use creation::{create, edition_row, is_empty, make_tables};
pub use extent::Extent;
pub use fault::{AdoptFault, CreateFault, HandedBack, StoreFault};
pub use lot_walk::{PairPrice, laws};
pub use run::{Ending, RunEnd};
pub use turn::{Turn, turn_with};
pub use walk::{Gains, Holdings, Journal, Legs, Prices, Walk, WalkFault};
