//! What a book holds, and what its sales gained, as tables for a spreadsheet (docs/FORMATS.md,
//! Tables for a spreadsheet).
//!
//! - `gains`: a record for each lot of each sale.
//! - `lots`: what each lot of a sale gains.
//! - `shares`: which part of the price of a sale goes to each of its lots.
//! - `holdings`: a record for each position that holds something.
//! - `record`: how fields become a line, and how the line reaches the writer.
//! - `laws`: the records of a sale add up to its gain; what is written reads back.
#![tactic(auto)]

mod gains;
mod holdings;
pub mod laws;
mod lots;
mod record;
mod shares;

pub use gains::{Seller, gains_header, write_sale};
pub use holdings::{Columns, holdings_header, write_holding};
pub use lots::lot_gains;
pub use record::{push_field, push_others};
pub use shares::lot_cost;
