//! Names and days: what a book calls its accounts, commodities and lots, what it says about a transaction, and when.
//!
//! - `name`: `Account`, `Commodity`, `Label` and `Note`, one type `Name` over four grammars, which stand in `grammars`.
//! - `fault`: `NameFault`, why a text is no name.
//! - `day`: `Day`, a day of the calendar of the years 1 to 9999, and `DayFault`.
//! - `laws`: what holds of the definitions that the contracts cite.
#![tactic(auto)]

mod day;
mod fault;
mod grammars;
pub mod laws;
mod name;

pub use day::{Day, DayFault};
pub use fault::NameFault;
pub use grammars::{AccountGrammar, CommodityGrammar, Grammar, LabelGrammar, NoteGrammar};
pub use name::{Account, Commodity, Label, Name, Note};
