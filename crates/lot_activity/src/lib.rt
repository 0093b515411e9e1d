//! Tables of what went into accounts and out of them, by year, quarter or month (docs/FORMATS.md,
//! Activity).
//!
//! - `scope`: which legs a report is over, by their account and their day.
//! - `table`: the table, fed leg by leg, and written at its end.
//! - `rows`: the rows that are kept, one for each period, account and commodity.
//! - `flow`: what a row adds up: what came in, and what went out.
//! - `text`: the line of a row, as text and as CSV.
//! - `laws`: what came in, less what went out, is what the legs leave, whatever the periods.
#![tactic(auto)]

mod flow;
pub mod laws;
mod rows;
mod scope;
mod table;
mod text;

pub use scope::Scope;
pub use table::ActivityTable;
