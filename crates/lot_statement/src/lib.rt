//! What a statement says that an account holds: how many units of each commodity (docs/FORMATS.md, Reconciling).
//!
//! - `statement`: the units of each commodity that the rows of a file say (`read_statement`).
//! - `record`: what a record of the file says.
//! - `fault`: why a file is no statement.
#![tactic(auto)]

mod fault;
mod record;
mod statement;

pub use fault::{LineCause, StatementFault};
pub use statement::{Statement, read_statement};
