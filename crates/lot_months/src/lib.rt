//! What the lots of a book come to at the end of each month, in each currency: what they cost, and
//! what they are worth at the prices of its end (docs/FORMATS.md, Page).
//!
//! - `range`: the months that are looked at, and in which of them a day counts.
//! - `flows`: what went into lots and out of them, month by month.
//! - `prices`: the last price of each month.
//! - `series`: what both come to.
//! - `laws`: what holds of the definitions that the contracts cite.
#![tactic(auto)]

mod flows;
pub mod laws;
mod prices;
mod range;
mod series;

pub use flows::{LotPair, MonthFlows};
pub use prices::MonthPrices;
pub use range::{MOST_MONTHS, MonthRange, month_of};
pub use series::{CurrencyMonths, currency_months};
