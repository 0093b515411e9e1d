//! The legs of a book in a file, one after another, each with the day of its entry.
//!
//! - `leg`: a leg with a day.
//! - `front`: the day with which the canonical text of a command begins.
//! - `days`: the days and the texts of entries, which are looked up in the order of their numbers.
//! - `place`: the place of a walk over the legs.
//! - `laws`: what the legs of a book with their days are.
#![tactic(auto)]

mod days;
mod front;
pub mod laws;
mod leg;
mod place;

pub use front::day_at_front;
pub use leg::DatedLeg;
pub use place::LegsPlace;
