//! Broker files: the rows of a file in CSV, and the command that a row stands for (docs/FORMATS.md, Broker files).
//!
//! - `row`: `Row`, one deal, and `Action`.
//! - `accounts`: `Accounts`, those that a row is posted to.
//! - `deal`: the command of a row (`command`).
//! - `file`: the rows of a file (`read_rows`).
//! - `header`: whether a file may have a header, as far as its bytes show it before it is read.
//! - `written`: the row that a record of the file says, by its columns (`column`) in that version of the file (`version`).
//! - `faulty`: all causes for which a record is faulty (`causes_of`).
//! - `keyed`: the commands of the rows, each under its key and with the number of its row (`keyed_commands`).
//! - `fault`: why there are no rows, or no commands.
//! - `laws`: laws of the definitions that the contracts of `read_rows` and `command` cite.
#![tactic(auto)]

mod accounts;
mod column;
mod deal;
mod fault;
mod faulty;
mod file;
mod header;
mod keyed;
pub mod laws;
mod row;
mod version;
mod written;

pub use accounts::Accounts;
pub use column::field;
pub use deal::command;
pub use fault::{Cause, CommandFault, KeyedFault, RowsFault};
pub use faulty::causes_of;
pub use file::read_rows;
pub use keyed::{Numbered, keyed_commands};
pub use row::{Action, Row};
pub use version::Version;
