//! The commands of a broker's export, by a profile (docs/FORMATS.md, Profiles).
//!
//! - `export`: the commands of the rows of a file, and what else is to be said of its rows (`read_export`).
//! - `entry`: the rows of a file, each with what it says.
//! - `line`: the rows that have a day, and the order in which they are judged.
//! - `named`: rows with the names of their keys, and which of them are posted.
//! - `names`: the rows that have a day, with the names of their keys (`named_rows`).
//! - `cancel`: which purchase a cancellation takes back.
//! - `deal`: what a row asks for.
//! - `handed_in`: the rows as they are handed in, each under its key.
//! - `crumbs`: where the crumbs of an import go (`rounding_of`).
//! - `show`: what an export comes to, as ledger text (`shown_text`).
//! - `fault`: why there are none.
#![tactic(auto)]

mod cancel;
mod crumbs;
mod deal;
mod entry;
mod export;
mod fault;
mod handed_in;
mod line;
mod named;
mod names;
mod show;

pub use crumbs::rounding_of;
pub use export::{Aside, Export, read_export};
pub use fault::ExportFault;
pub use handed_in::Given;
pub use named::Named;
pub use names::named_rows;
pub use show::shown_text;
