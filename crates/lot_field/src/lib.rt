//! What a field of a broker's file says, in the form that a profile names (docs/FORMATS.md, Profiles).
//!
//! - `text`: `Text`, a text that a profile or a file has.
//! - `field`: a field without the blanks at its ends.
//! - `numbers`: how numbers are written, `NumberForm`, and what a field says by it, `Number`.
//! - `days`: how days are written, `DayForm`, and what a field says by it: `Moment`, a day and perhaps a `Time`.
//! - `day_form`: the form of days that a text of a profile writes.
//! - `tests`: what is asked of a field, `Test`.
//! - `laws`: a field says at most one number, and a text is of at most one form of days.
#![tactic(auto)]

mod day_form;
mod days;
mod field;
pub mod laws;
mod numbers;
mod tests;
mod text;

pub use day_form::DayFormFault;
pub use days::{DayForm, DayPart, Moment, Time};
pub use field::cut;
pub use numbers::{DecimalMark, Exactness, Number, NumberForm};
pub use tests::{Test, means_nothing};
pub use text::Text;
