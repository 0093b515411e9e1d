//! Readers and writers whose calls are counted.
//!
//! - `reader`: what calls of `read` came to: how many were made, how many failed, how many met the end, and what they gave.
//! - `writer`: what calls of `write` and `flush` came to: how many were made, whether one failed, and whether all is flushed.
#![tactic(auto)]

mod reader;
mod writer;

pub use reader::{CountedRead, CountedReader};
pub use writer::{CountedWrite, CountedWriter};
