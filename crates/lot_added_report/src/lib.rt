//! The report of what the sales of the last entries of a book gained: of those behind a number of them.
//!
//! - `show`: the sales are written one after another, each as it is read, and then the totals.
#![tactic(auto)]

mod show;

pub use show::show_added_gains;
