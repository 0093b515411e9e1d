//! Ledger text: which commands it says.
//!
//! - `reader`: the commands of a text, or its first faulty line.
//! - `line`: what one line says.
//! - `statement`: what a line may say, and why nothing is added for it.
//! - `header_line`: the command that begins on a line, with its `currencies`.
//! - `posting_line`: the posting on a line, with what it gives of a lot (`given`), its `cost` and its `price`.
//! - `value`, `name`, `note`: one part; `known`: names that were kept before.
//! - `fault`: what is wrong with a text, with a line, and with its parts.
//! - `laws`: laws of the definitions that the contracts cite.
#![tactic(auto)]

mod cost;
mod currencies;
mod fault;
mod given;
mod header_line;
mod known;
pub mod laws;
mod line;
mod name;
mod note;
mod posting_line;
mod price;
mod reader;
mod statement;
mod value;

pub use fault::{LineFault, TextFault};
pub use reader::read;
