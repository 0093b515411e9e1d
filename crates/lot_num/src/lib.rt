//! Amounts: what a number text says, and exact sums and weights of what it says.
//!
//! An amount is a whole number, its mantissa, at a fixed scale. `Units` (also totals of units) and `Rate` (a cost or a
//! price) have eight decimals. `Wide` (a weight, units times a rate) has sixteen. Nothing is ever rounded: a result
//! that is out of range is refused.
//!
//! - `units`, `rate`, `wide`: the three kinds, and the weight of units at a rate.
//! - `number_text`: what a number text says, and `NumberFault`, why a text is refused.
//! - `printed`: the shortest text of an amount.
//! - `laws`: the constants are those of the definitions; number text is its grammar; what is printed reads back, and is
//!   the shortest.
#![tactic(auto)]

pub mod laws;
mod number_text;
mod printed;
mod rate;
mod units;
mod wide;

pub use number_text::NumberFault;
pub use rate::Rate;
pub use units::Units;
pub use wide::{Wide, weight};
