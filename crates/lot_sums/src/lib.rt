//! Reports of a book that add rows up: what adds them up takes the rows of a walk, and something is written once it has taken
//! them all.
//!
//! - `tally`: what takes rows, and the tables that are written of them.
//! - `gathering`: all rows of a walk are taken.
//! - `show`: they are, and the table is written.
//! - `gains`: what sales gained in all, by keys.
//! - `activity`: what went into accounts and out of them, by period.
//! - `held`: what was held at the end of a past day.
//! - `laws`: what is written of a day that no entry is behind.
//! - `reconciliation`: what a statement says that accounts hold, beside what a book says.
#![tactic(auto)]

mod activity;
mod gains;
mod gathering;
mod held;
pub mod laws;
mod reconciliation;
mod show;
mod tally;

pub use activity::show_activity;
pub use gains::show_gains_by;
pub use gathering::gather;
pub use held::{held_on, show_holdings_on};
pub use reconciliation::show_reconciliation;
pub use show::show_table;
pub use tally::{Table, Tally};
