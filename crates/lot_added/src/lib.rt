//! The sales of the last entries of a book in a file: of those behind a number of them, one after another.
//!
//! - `place`: the place of a walk over them.
#![tactic(auto)]

mod place;

pub use place::AddedPlace;
