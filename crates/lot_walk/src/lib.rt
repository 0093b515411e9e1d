//! Places of walks over the rows of a book in a file. Each reads one row after another over a connection that is lent to it.
//!
//! - `place`: what a place gives, and which rows it is behind.
//! - `journal`: the entries; `holdings`: what accounts hold; `gains`: the sales of a range of days; `prices`: the prices at a
//!   day.
//! - `price`: the price of a pair at a day.
//! - `laws`: what a book holds, its sales, its prices at a day; and that tables stand for at most one book.
#![tactic(auto)]

mod gains;
mod holdings;
mod journal;
pub mod laws;
mod place;
mod price;
mod prices;

pub use gains::{GainsPlace, NumberedSale};
pub use holdings::HoldingsPlace;
pub use journal::JournalPlace;
pub use place::Place;
pub use price::PairPrice;
pub use prices::PricesPlace;
