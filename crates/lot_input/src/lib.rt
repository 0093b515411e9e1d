//! The commands of an input, each under its key, or what it says as a statement; or why it gives none. No book is looked at
//! (docs/RULES.md, The program).
//!
//! - `text`: the commands of ledger text (`keyed_text`), and its one command for a row of a broker file (`keyed_row`).
//! - `rows`: the commands of the rows of a broker file (`keyed_rows`).
//! - `exported`: the commands of the rows of a broker's export, by a profile (`keyed_export`).
//! - `statement`: what a statement says (`given_statement`).
//! - `keyed`: the keys of the commands of a batch.
//! - `fault`: why an input gives no commands, and the line that reports it (`print_input_fault`).
//! - `export_fault`: that line for an export.
#![tactic(auto)]

mod export_fault;
mod exported;
mod fault;
mod keyed;
mod rows;
mod statement;
mod text;

pub use exported::keyed_export;
pub use fault::{InputFault, print_input_fault};
pub use rows::keyed_rows;
pub use statement::given_statement;
pub use text::{keyed_row, keyed_text};
