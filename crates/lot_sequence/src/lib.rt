//! In which order the rows of a broker's file are judged, and under which keys (docs/FORMATS.md, Profiles).
//!
//! - `row`: `Row`, what is asked of a row.
//! - `order`: the rows in the order of judging, and which row stands against the order of its table.
//! - `key`: the keys of rows.
//! - `cancel`: which purchase a cancellation takes back.
//! - `laws`: what holds of the definitions that the contracts cite.
#![tactic(auto)]

mod cancel;
mod key;
pub mod laws;
mod order;
mod row;

pub use cancel::{Side, Trade, taken_back};
pub use key::keys;
pub use order::{first_against, sort_rows};
pub use row::Row;
