//! The parts of a dump, one after another (docs/FORMATS.md, Dump).
//!
//! - `reader`: a reader of the parts of a dump (`DumpReader`).
//! - `feed`: the lines of a dump, and the ledger text between two others.
//! - `fault`: why a dump wasn't read.
//! - `step`: what comes next in a dump.
//! - `commands`: the commands of a dump, one after another; `dumped`: a command of a dump.
//! - `compare`: what was found of a dump, compared with what it says.
//! - `laws`: there is one way to read a dump.
#![tactic(auto)]

mod commands;
mod compare;
mod dumped;
mod fault;
mod feed;
pub mod laws;
mod reader;
mod step;

pub use commands::{CommandFault, DumpCommands, Next};
pub use compare::SumFault;
pub use dumped::Dumped;
pub use fault::DumpFault;
pub use reader::DumpReader;
pub use step::{Step, Sum};
