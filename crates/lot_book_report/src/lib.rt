//! The reports of a book in a file: the rows of a walk are written one after another, each as it comes.
//!
//! - `journal`: the entries of the book.
//! - `holdings`: what the book holds, and what its lots are worth at a day, or what rows list that are given at once; `prices`:
//!   the prices at that day.
//! - `gains`: what its sales gained on the days of a range.
//! - `dump`: the whole book, as a text from which it can be made again; `digest`: what its last line says.
//! - `heard`: what hears the text of each entry that is written; `unwritten`: a writer that writes nothing.
//! - `csv`: the holdings and the gains as CSV.
//! - `fault`: why a report ends before its end.
#![tactic(auto)]

mod csv;
mod digest;
mod dump;
mod fault;
mod gains;
mod heard;
mod holdings;
mod journal;
mod prices;
mod unwritten;

pub use csv::{show_gains_csv, show_holdings_csv, write_listed_csv};
pub use digest::BookDigest;
pub use dump::{digest_book, show_dump};
pub use fault::ShowFault;
pub use gains::show_gains;
pub use holdings::{show_holdings, write_listed};
pub use journal::show_journal;
pub use prices::DayPrices;
