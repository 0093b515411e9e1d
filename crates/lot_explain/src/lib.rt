//! Why a command was refused, for people, on standard error: what each code means, and the place
//! and the facts of each refusal and fault of a call.
//!
//! - `codes`: the codes, as data, and `causes`: those of faulty rows; `explained`: the text on one (`explain`), or on all codes
//!   (`list`); `nearest`: which of some names is meant.
//! - `transcript`: what there is to say of a call (`Explanation`), from what it read and said (`said`); a
//!   `notebook` has as many lines as are wanted, each with its `place`.
//! - `faulty`: lines and rows that are faulty, with the part that is at fault (`culprit`), and the
//!   name that may have been meant (`commodity`).
//! - `refused`: commands and rows that are refused, with what is known of them (`fact`): from their
//!   text (`residual`), and from the book once the run is over (`book`). `wanted`: which facts of the book are looked up for that,
//!   and `known`: those that were found. The book itself isn't lent to this crate.
//! - `crumbs`: what was found of their crumbs as they were judged (`finding`); `bound`: how large these
//!   are. `form`: whether an entry is a completion of a command.
//! - `left_out`: rows that are left out. `warning`: what may have been meant otherwise. `commas`: which columns of a broker file, or of
//!   a statement, have numbers with a comma.
//! - `reading`: the commands of an input. `site`: on which line a command stands; `records`: the
//!   records of a broker file; `export`: the rows of a broker's export, and its lines.
//! - `split`: why lots aren't split.
//! - `shown`: how texts of the input are written on a line; `quoted`: how a text is written for a shell.
//! - `laws`: what holds of the definitions that the contracts cite.
#![tactic(auto)]

mod book;
mod bound;
mod causes;
mod codes;
mod commas;
mod commodity;
mod crumbs;
mod culprit;
mod explained;
mod export;
mod fact;
mod faulty;
mod finding;
mod form;
mod known;
pub mod laws;
mod left_out;
mod nearest;
mod notebook;
mod place;
mod quoted;
mod reading;
mod records;
mod refused;
mod residual;
mod said;
mod shown;
mod site;
mod split;
mod transcript;
mod wanted;
mod warning;

pub use causes::Cause;
pub use explained::{cause_of, explain, list, nearest_code};
pub use export::{ExportRow, ExportRows, line_at};
pub use finding::{Finding, Findings};
pub use known::{Entry, Known, Latest, Lot, Wanted, pair_at};
pub use quoted::{LongOption, Quoted, is_shown};
pub use shown::Shown;
pub use transcript::{Explanation, Source, Transcript};
