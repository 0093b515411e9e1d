//! The register of accounts: each leg of theirs in the order of days, with what is left behind it
//! (docs/FORMATS.md, Register).
//!
//! - `register`: the register, fed leg by leg, which writes a row for each.
//! - `leg`: a leg with what its entry says.
//! - `left`: what legs leave of each commodity in each account.
//! - `text`: the line of a row, as text and as CSV; `line` and `record` are the one and the other.
//! - `laws`: what is left behind the last leg; the rows are those of the legs.
#![tactic(auto)]

pub mod laws;
mod left;
mod leg;
mod line;
mod record;
mod register;
mod text;

pub use leg::NotedLeg;
pub use register::Register;
