//! The rows of a broker's file (docs/FORMATS.md, Profiles).
//!
//! - `sheet`: the rows of the bytes of a file (`read_sheet`).
//! - `row`: `Row`, a line of a table.
//! - `column`: the field that a column means in a row (`field`, `field_if_any`), and whether a row meets conditions (`meets`).
//! - `lines`: the lines of a file.
//! - `header`: which lines are headers, and how the tables stand at a line.
//! - `names`: what is wrong with the columns of a header (`is_number_among`: whether a column is named by its number).
//! - `part`: what a line is.
//! - `fault`: why there are no rows.
//! - `laws`: laws of the definitions that the contract of `read_sheet` cites.
#![tactic(auto)]

mod column;
mod fault;
mod header;
mod lines;
mod names;
mod part;
mod row;
mod sheet;

pub use column::{field, field_if_any, meets};
pub use fault::{NameCause, RowCause, SheetFault};
pub use names::is_number_among;
pub use row::Row;
pub use sheet::read_sheet;
