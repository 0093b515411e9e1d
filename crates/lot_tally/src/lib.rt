//! Tables of what sales gained, by year, commodity, account or term (docs/FORMATS.md, Gains by
//! keys).
//!
//! - `table`: the table, fed sale by sale, and written at its end.
//! - `key`: the keys by which lots are told apart, and what a lot has for them.
//! - `counted`: the rows that are kept, each with the sums over its lots.
//! - `sums`: the sums of a row.
//! - `totals`: what all sales gained in each currency.
//! - `text`: the lines of a row, as text and as CSV.
//! - `laws`: the rows add up to the totals, whatever the keys.
#![tactic(auto)]

mod counted;
mod key;
pub mod laws;
mod sums;
mod table;
mod text;
mod totals;

pub use counted::RowKey;
pub use key::{GainKey, TableForm};
pub use sums::RowSums;
pub use table::GainsTable;
