//! The rows of the tables on a page, as HTML, over the rows of the reports (docs/FORMATS.md, Page).
//!
//! - `cell`: cells with a number, a gain, a name or a plain text.
//! - `gains`: what the sales of a year or of a commodity gained.
//! - `holdings`: what an account holds, and what all lots in a currency come to.
//! - `sales`: the lots of a sale.
//! - `months`: what lots come to at the end of a month.
//! - `entries`: the text of an entry.
//! - `laws`: rows are balanced.
#![tactic(auto)]

mod cell;
mod entries;
mod gains;
mod holdings;
pub mod laws;
mod months;
mod sales;

pub use cell::{push_gain, push_name_cell, push_number, push_plain};
pub use entries::push_entry;
pub use gains::{push_commodity, push_gain_total, push_year};
pub use holdings::{LotTotals, Valued, push_account, push_holding, push_lot_total};
pub use months::push_month_row;
pub use sales::push_sale;
