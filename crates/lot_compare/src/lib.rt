//! How two books differ in what they gained and hold.
//!
//! - `comparison`: the lines of all differences.
//! - `book`: what one book gained and holds, added to the sums of both.
//! - `amounts`: the gain of a sale and the units of a holding, as amounts of such sums.
//! - `sums`: the sums of two books, side by side; `subject`: what a sum is of.
//! - `lines`: the lines of the sums in which they differ.
//! - `fault`: why a comparison ends before its end.
//! - `laws`: what holds of the definitions that the contracts cite.
#![tactic(auto)]

mod amounts;
mod book;
mod comparison;
mod fault;
pub mod laws;
mod lines;
mod subject;
mod sums;

pub use comparison::compare;
pub use fault::CompareFault;
