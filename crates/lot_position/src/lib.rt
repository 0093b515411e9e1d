//! What was held at the end of a day: the sums of the legs up to it, lot by lot.
//!
//! - `positions`: a table that takes legs, and gives what they leave.
//! - `laws`: what the entries of a book say of its rows.
#![tactic(auto)]

pub mod laws;
mod positions;

pub use positions::Positions;
