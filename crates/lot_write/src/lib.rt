//! The rows that an accepted command writes, and writing them.
//!
//! - `write`: one row that is written or deleted, and doing so in a transaction.
//! - `good`: each row that is written is one that a book can have.
//! - `accepted`: all that an accepted command writes; `booked`: what its transaction does.
//! - `number`: numbers as their columns have them.
//! - `laws`: after it the tables stand for the book with its entry.
#![tactic(auto)]

mod accepted;
mod booked;
mod good;
pub mod laws;
mod number;
mod write;

pub use accepted::writes;
pub use write::{Write, write_all};
