//! The lines that are printed (docs/FORMATS.md, Printed texts).
//!
//! - `reply`: the reply to a command.
//! - `holdings`: what a book holds, and what its lots cost and are worth, fed row by row or given at once.
//! - `gains`: what the sales of a book gained, fed one by one.
//! - `journal`: the entries of a book, fed one by one.
//! - `fault`: why a report ends before its end.
//! - `totals`: sums of amounts in each of their currencies.
//! - `lot`: the line of units in a lot, and their value.
//! - `line`: how a line reaches the writer.
//! - `laws`: laws of the sums of reports.
#![tactic(auto)]

mod fault;
mod gains;
mod holdings;
mod journal;
pub mod laws;
mod line;
mod lot;
mod reply;
mod totals;

pub use fault::{ReportFault, RowFault};
pub use gains::Gains;
pub use holdings::{Holdings, ValuedHolding, print_holdings};
pub use journal::{Entry, Journal, JournalFault};
pub use line::{PrintFault, print_line, print_texts};
pub use lot::Valuation;
pub use reply::{print_refusal, print_reply};
