//! The text of a profile, in TOML, and what it says (docs/FORMATS.md, Profiles).
//!
//! - `text`: `read_profile`, the profile that a text says, and `fault`: `ProfileFault`, why it says none.
//! - `keys`: `SECTIONS`, all keys that aren't words, and `entry`: what may stand under each.
//! - `word`: `Word`, values that stand under words.
//! - `profile`, `table`, `kind`, `file`, `basis`, `symbol`: what the sections say.
//! - `account`, `column`, `condition`, `day`, `role`: what the values in them say.
//! - `needs`: what each kind needs, and `complete`: what is missing in a profile whose parts are all right.
//! - `said`: what is said of a fault, and `explain`: all that a profile may say.
//! - `laws`: what holds of the definitions that the contracts cite.
//! - `section`: tables in which only the keys of their entries stand.
//! - `part`, `list`: what is read of a value, of each item of an array, and of each member of a table.
//! - `place`: the keys that lead to a value, as a fault names them.
#![tactic(auto)]

mod account;
mod basis;
mod column;
mod complete;
mod condition;
mod day;
mod entry;
mod explain;
mod fault;
mod file;
mod keys;
mod kind;
pub mod laws;
mod list;
mod needs;
mod part;
mod place;
mod profile;
mod role;
mod said;
mod section;
mod symbol;
mod table;
mod text;
mod word;

pub use entry::{Entry, Form, Need};
pub use explain::explain_profile;
pub use fault::ProfileFault;
pub use keys::{NOTES, SECTIONS, Section};
pub use said::fault_text;
pub use text::read_profile;
pub use word::{Word, named};
