//! Commands: what a ledger text asks for, apart from how it is written and whether it may be done.
//!
//! - `command`: `Command` and its five kinds.
//! - `currencies`: the currencies of an opening.
//! - `transaction`: transactions, postings and amounts.
//! - `price`: the price in a posting.
//! - `canonical`: the canonical text of a command.
//! - `key`: what identifies a command.
//! - `sayable`: each command is within the rules of ledger text.
//! - `items`: `Items`, a list that contracts see as a list.
#![tactic(auto)]

pub mod canonical;
mod command;
mod currencies;
mod items;
mod key;
mod price;
mod sayable;
mod transaction;

pub use command::{Closing, Command, Declaring, Opening, Quoting};
pub use currencies::Currencies;
pub use items::Items;
pub use key::Key;
pub use lot_cost::{Cost, CostSpec, Method, WholeCost};
pub use price::{Price, UnitPrice, WholePrice};
pub use sayable::is_sayable;
pub use transaction::{Amount, Flag, Narration, Posting, Transaction};
