//! Restoring: a book is made again from the commands of its dump.
//!
//! - `restoring`: a dump is read and judged in one transaction, and one commit makes the book.
//! - `tables`: the tables of the book, before its first entry.
//! - `restorer`: what is known while commands are restored; `judge`: one after another is judged in an open transaction.
//! - `restoration`: commands of the dump so far; `left_out`: which of them are left out.
//! - `place`: the place of migration, as entries of edition 1 come.
//! - `said`: the lines that are written; `fault`: why a dump wasn't restored.
//! - `laws`: that restoring the dump of a book gives that book and no other, and that what is restored is a book.
#![tactic(auto)]

mod fault;
mod judge;
pub mod laws;
mod left_out;
mod place;
mod restoration;
mod restorer;
mod restoring;
mod said;
mod tables;

pub use fault::RestoreFault;
pub use restoring::{Restored, Restoring, restore};
