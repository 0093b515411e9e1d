//! What a statement says that an account holds, beside what a book says: which commodities differ (docs/FORMATS.md, Reconciling).
//!
//! - `table`: the table, begun from a statement, fed leg by leg, and written at its end.
//! - `rows`: the rows that are kept, one for each commodity.
//! - `balance`: what a row adds up: what is said, what is held, and by how much the two differ.
//! - `text`: the line of a row, as text and as CSV.
//! - `laws`: nothing differs exactly where each commodity is held as it is said.
#![tactic(auto)]

mod balance;
pub mod laws;
mod rows;
mod table;
mod text;

pub use table::Reconciliation;
