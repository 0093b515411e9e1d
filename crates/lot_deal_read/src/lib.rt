//! What a row of a broker's file says (docs/FORMATS.md, Profiles).
//!
//! - `row`: what a row says by the rules of its table and its kind (`read_row`), and how many of its numbers were rounded
//!   (`rounded_numbers`).
//! - `says`: `RowSays`, what that is.
//! - `trades`, `movements`, `incomes`, `exchanges`, `incomings`, `splits`, `quotes`: that by its kind.
//! - `trade_row`: what a row of a purchase or of a sale says.
//! - `comparison`: whether that agrees.
//! - `figures`: the numbers of a trade, and whether they agree, so that a digit that was misread shows.
//! - `fees`: how a fee is posted.
//! - `pricing`: what units are worth at a price.
//! - `money`: an amount of a currency that a row says.
//! - `needed`: what a kind needs of a row.
//! - `rounded`: the roles whose numbers are rounded as they are read.
//! - `words`: the word of each kind.
//! - `laws`: laws of the definitions that the contract of `read_row` cites.
#![tactic(auto)]

mod comparison;
mod exchanges;
mod fees;
mod figures;
mod incomes;
mod incomings;
pub mod laws;
mod money;
mod movements;
mod needed;
mod pricing;
mod quotes;
mod rounded;
mod row;
mod says;
mod splits;
mod trade_row;
mod trades;
mod words;

pub use row::{read_row, rounded_numbers};
pub use says::{Compared, Dated, RowSays, Saying};
