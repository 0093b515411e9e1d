//! The call without arguments: the commands of a ledger text are judged on an empty book, and the replies and the holdings are
//! written.
//!
//! - `batch`: reading, judging and writing, joined (`check`).
//! - `laws`: what holds of the definitions that the contracts cite.
#![tactic(auto)]

mod batch;
pub mod laws;

pub use batch::check;
