//! What is printed reads back: the canonical text of a command, read as ledger text, says that command.
//!
//! - `printed`: `print`, the canonical text of a command.
//! - `tested`: the command whose canonical text a text is, if it is one.
//! - `laws`: canonical texts, one after another, read as their commands and as no others; their lines are short.
#![tactic(auto)]

pub mod laws;
mod printed;
mod tested;

pub use printed::print;
pub use tested::{command_of, is_canonical};
