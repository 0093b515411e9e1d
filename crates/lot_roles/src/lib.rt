//! What a row of a broker's file says for each role (docs/FORMATS.md, Profiles).
//!
//! - `fault`: `RowFault`, why a row says nothing that can be posted.
//! - `rules`: `Rules`, by which a row is read, and where roles are found by them.
//! - `kinds`: of which kind a row is.
//! - `parts`: the parts of a role, and its text.
//! - `numbers`: amounts, units and rates.
//! - `names`: commodities and the symbol.
//! - `days`: days, and the day and time of a row.
//! - `accounts`: the accounts that a row is posted to.
//! - `keys`: the text of its key.
//! - `narrations`: its narration.
#![tactic(auto)]

mod accounts;
mod days;
mod fault;
mod keys;
mod kinds;
mod names;
mod narrations;
mod numbers;
mod parts;
mod rules;

pub use accounts::account;
pub use days::{day, moment};
pub use fault::RowFault;
pub use keys::key_text;
pub use kinds::kind_of;
pub use names::{commodity, symbol, symbol_text};
pub use narrations::narration;
pub use numbers::{amount, exact_units, rate, rounded_in};
pub use parts::text;
pub use rules::{Rules, has_sources};
