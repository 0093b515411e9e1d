//! The tables of a book of edition 2: a row type for each, and one call for each statement.
//!
//! - `tables`: `make` makes all of them, and `add_later` adds those that edition 1 lacks.
//! - `book`, `account`, `allowed`, `commodity`, `price`, `entry`, `leg`, `sale`, `lot`, `plain`, `head`, `opening`,
//!   `migration`: one table each, with its row type, `put`, and what a book needs of `delete`, `find`, `greatest`, `list_of`
//!   and `list`.
#![tactic(auto)]

pub mod account;
pub mod allowed;
pub mod book;
mod columns;
pub mod commodity;
mod cost;
pub mod entry;
pub mod head;
pub mod leg;
pub mod lot;
mod lot_key;
pub mod migration;
pub mod opening;
pub mod plain;
pub mod price;
pub mod sale;
mod sale_price;
pub mod tables;
