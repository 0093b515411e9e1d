//! The register of accounts of a book: each leg of theirs in the order of days, with what is left.
//!
//! - `days`: whether the days of the entries never fall.
//! - `keys`: the keys of the legs, which are read first where they do, 16 bytes each.
//! - `place`: where a walk over the legs begins, by the one or the other.
//! - `write`: the rows of legs, as they are read.
//! - `show`: the register of a book.
#![tactic(auto)]

mod days;
mod keys;
mod place;
mod show;
mod write;

pub use show::show_register;
