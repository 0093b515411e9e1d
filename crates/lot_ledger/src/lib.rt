//! Whether a command may be done, and what it changes: decisions on what is known of a book.
//!
//! - `decision`: the outcome of a command.
//! - `checks`: the refusals of a transaction that look at its postings and accounts.
//! - `fill`: the legs of the elided posting.
//! - `heads`: the latest days of postings with braces.
#![tactic(auto)]

mod checks;
mod decision;
mod fill;
mod heads;

pub use decision::{Outcome, book_amounts, decide};
pub use lot_book::{
    Change, Edition, Gain, Holding, Leg, LotKey, Pair, Position, Refusal, Sale, Standing, Stop,
    Verdict,
};
pub use lot_view::{Touched, View, touches};
