//! Periods: how long a lot was held, and the years, quarters and months in which days lie.
//!
//! - `term`: whether a lot was held up to a year, or over a year.
//! - `period`: the text of the period in which a day lies.
//! - `date`: the year, month and day of a day.
//! - `laws`: what holds of the definitions that the contracts cite.
#![tactic(auto)]

mod date;
pub mod laws;
mod period;
mod term;

pub use period::{PeriodLength, period_text};
pub use term::{Term, term_of};
