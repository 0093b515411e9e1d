//! How a dump is restored: which of its entries are left out, and what is borne with (docs/RULES.md, The program).
//!
//! - `without`: a key, a batch or a range of numbers, and the entries that it meets.
//! - `value`: what the value of an option says of that.
//! - `terms`: whether it has to be unchanged, and whether commands may be refused.
//! - `laws`: what is given is printed, and what is printed can be given.
#![tactic(auto)]

pub mod laws;
mod terms;
mod value;
mod without;

pub use terms::{Strictness, Tolerance};
pub use value::By;
pub use without::Without;
