//! Legs of a book, each with the narration of its entry: those at keys, which are looked up, or all
//! of them, one after another.
//!
//! - `legs`: the legs that were looked up last.
//! - `notes`: the rows of the entries from the one on that was looked up last.
//! - `said`: the narration of the text that was read last.
//! - `place`: the place of a walk over the legs at keys.
//! - `noted`: the place of a walk over all legs; `ordered`: over those that are asked for, where the
//!   days of the entries never fall; `days`: over these days.
//! - `scope`: which legs are asked for, with texts of its own.
//! - `register`: the place of a walk over the legs of a register, by the one or the other.
#![tactic(auto)]

mod days;
mod legs;
mod noted;
mod notes;
mod ordered;
mod place;
mod register;
mod said;
mod scope;

pub use days::DaysPlace;
pub use ordered::OrderedPlace;
pub use place::RecallPlace;
pub use register::RegisterPlace;
