//! What the postings of a transaction book, one after another, on what is known of a book.
//!
//! - `posting`: how one posting is booked.
//! - `draft`: what is booked so far of a transaction.
//! - `tally`: its legs, and what they leave.
//! - `kept`: the lots of one pair as they leave them.
//! - `balance`: the residuals of its weights.
#![tactic(auto)]

mod balance;
mod draft;
mod kept;
mod posting;
mod tally;

pub use balance::Residuals;
pub use draft::Draft;
pub use kept::KeptLots;
pub use posting::{Site, book_posting};
pub use tally::Tally;
