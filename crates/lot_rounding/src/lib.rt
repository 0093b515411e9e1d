//! Rounding and splits: amounts with few decimals, the account that takes what they leave, the ratio of a
//! split, and commands as they are handed in.
//!
//! - `nearest`: the nearest amount with so many decimals, and the nearest rate for a total.
//! - `rounding`: where crumbs go, how large each may be, and how many decimals there are.
//! - `ratio`: how a broker gives a split, and its ratio in lowest terms.
//! - `asked`: a command before its turn comes, with the exact cash of its row, or the split that it asks for.
//! - `laws`: there is at most one nearest amount.
#![tactic(auto)]

mod asked;
pub mod laws;
mod nearest;
mod ratio;
mod rounding;

pub use asked::{Asked, RowCash};
pub use nearest::{Decimals, nearest_rate, rounded};
pub use ratio::{Change, Ratio, lowest_ratio};
pub use rounding::{Bound, Rounding};
