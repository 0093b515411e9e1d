//! The streams of the program and the faults that it reports: what is read to its end, how a run ends, and the line that says
//! why.
//!
//! - `input`: all bytes of a reader (`slurp`).
//! - `fault`: why a run ends before its end, and the line that reports it (`print_fault`).
//! - `status`: how a run ended, the numbers with which the program ends, and the end of its output (`finish`).
#![tactic(auto)]

mod fault;
mod input;
mod status;

pub use fault::{Fault, print_fault};
pub use input::{SlurpFault, slurp};
pub use status::{BAD_INPUT, DONE, REFUSED, STOPPED, Status, UNUSABLE, finish};
