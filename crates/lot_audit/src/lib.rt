//! The tables of a book judged again from its entries.
//!
//! - `judge`: `judge_book`, which judges all tables over a connection, and tells what it looks at.
//! - `pass`: all entries are judged again, one after another, each with the rows of its own.
//! - `compare`: whether the tables agree with what is known of all entries.
//! - `replay`: a command is judged again, on all that the entries before it say.
//! - `entry`: what the row of an entry says.
//! - `legs`, `sales`: whether the rows of an entry are those of its legs, and of its sales.
//! - `rows`: statements: the row of the migration, the legs of an entry, a price, a lot.
//! - `has`: whether the rows are there of an entry's command, and of what is held.
//! - `rates`: the last rates that entries quoted.
//! - `agree`: `ToldRow`: whether a row says what is known, table by table.
//! - `watch`: who is told what is looked at.
#![tactic(auto)]

mod agree;
mod compare;
mod entry;
mod has;
mod judge;
mod legs;
mod pass;
mod rates;
mod replay;
mod rows;
mod sales;
mod watch;

pub use judge::judge_book;
pub use watch::{Spot, Table, Unwatched, Watch};
