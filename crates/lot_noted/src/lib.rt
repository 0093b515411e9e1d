//! The legs of a book as a register lists them: in the order of days, each with the narration of
//! its entry (docs/FORMATS.md, Register).
//!
//! - `scope`: which legs are asked for.
//! - `key`, `keys`: the keys of legs, which are taken leg by leg, and put into the order of days.
//! - `narration`: the narration that the canonical text of a command has.
//! - `laws`: which legs these are, in which order, and what they leave.
#![tactic(auto)]

mod key;
mod keys;
pub mod laws;
mod narration;
mod scope;

pub use key::LegKey;
pub use keys::LegKeys;
pub use narration::narration_in;
pub use scope::RegisterScope;
