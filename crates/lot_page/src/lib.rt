//! Cursors over tables of a book: the rows of one table, one after another in the order of their key, read a page at a time.
//!
//! - `paged`: `PagedRow`, a row of a table that is read a page at a time, and how many rows a page has at most.
//! - `cursor`: `Cursor`, a place in the table. It borrows nothing: the connection is passed beside it.
//! - `entry`, `leg`, `sale`, `lot`, `price`: one table each, with its cursor. `legs_behind` asks for legs in a transaction, too.
#![tactic(auto)]

mod cursor;
mod entry;
mod leg;
mod lot;
mod paged;
mod price;
mod sale;

pub use cursor::Cursor;
pub use entry::EntryCursor;
pub use leg::{LegCursor, legs_behind};
pub use lot::LotCursor;
pub use paged::PagedRow;
pub use price::PriceCursor;
pub use sale::SaleCursor;
