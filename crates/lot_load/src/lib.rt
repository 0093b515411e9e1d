//! What a command looks at of a book in a file, as a view to judge it on.
//!
//! - `look`: all that a command looks at, on what is known already.
//! - `kept`: what is known between commands.
//! - `learn`: what the book has of what a command looks at.
//! - `entry`: the number of entries, and the text under a key.
//! - `account`: the state of accounts.
//! - `commodity`: which commodities are declared.
//! - `pair`: what the book has of an account and a commodity.
//! - `plain`: all plain units of an account.
//! - `held`: rows of lots with their opening numbers, and of plain units.
//! - `whole`: sets of what is known whole.
#![tactic(auto)]

mod account;
mod commodity;
mod entry;
mod held;
mod kept;
mod learn;
mod look;
mod pair;
mod plain;
mod whole;

pub use kept::Kept;
pub use look::look_on;
