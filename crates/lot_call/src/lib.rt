//! A call of the program: what its arguments ask for, the status with which it ends, and what it says on standard error beside
//! its answer.
//!
//! - `arguments`: what they ask for, and what is said of those that can't be used.
//! - `call`: what the program is called for; `status`: how a call ends.
//! - `told`: why commands were refused, and what the codes mean; `facts`: what the book says of it, and `remembered`: what it
//!   said of commands that aren't kept.
//! - `notes`: what else is said of a call; `fate`: what became of one that keeps all or none; `remains`: what remains of one whose
//!   output can't be written; `file_kind`: what stands in the place of its book.
//! - `crumbs`: what became of the crumbs of commands; `taken`: what an account took of them, with the
//!   `sums`. `watched`: all that is watched of commands.
//! - `unpriced`: lots of a report that have no price; `misnamed`: an account of a report that the book doesn't have; `large`: that
//!   a page will be large.
//! - `profile`: the profile of an import, as it is read from its file. `export`: what is said of a broker's export; `exported`: its
//!   rows, for what is said of those that are refused or left out. `row_fault`: why a row says nothing that can be posted, with its
//!   `figures` and `signs`. `statement`: what is said of a faulty statement.
#![tactic(auto)]

mod arguments;
mod call;
mod crumbs;
mod export;
mod exported;
mod facts;
mod fate;
mod figures;
mod file_kind;
mod large;
mod misnamed;
mod notes;
mod profile;
mod remains;
mod remembered;
mod row_fault;
mod signs;
mod statement;
mod status;
mod sums;
mod taken;
mod told;
mod unpriced;
mod watched;

pub use arguments::{read_words, say_words_fault, warn, words_of};
pub use call::{Call, rounding_of};
pub use crumbs::Crumbs;
pub use export::{say_aside, say_export_fault};
pub use fate::Fate;
pub use file_kind::FileKind;
pub use large::Forewarner;
pub use notes::{say_fate, say_why, sum_up};
pub use profile::{LoadFault, Loaded, load, loaded_from};
pub use remains::{say_cut_short, say_unwritten};
pub use remembered::Remembered;
pub use statement::say_statement_fault;
pub use status::{PlainFault, out_of_memory, status_behind, write_fault};
pub use taken::say_taken;
pub use told::{explain, tell};
pub use unpriced::Appraiser;
pub use watched::Watched;
