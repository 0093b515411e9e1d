//! The prices of a book in a file, one after another: the last accepted of each pair and day.
//!
//! - `place`: the place of a walk over them.
#![tactic(auto)]

mod place;

pub use lot_rows::price::PriceRow;
pub use place::QuotesPlace;
