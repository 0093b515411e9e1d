//! Commands that are applied all or none: judged in their order in one transaction, and kept in one
//! commit, or not at all.
//!
//! - `look`: who looks at the book that they would have made, where they aren't kept.
//! - `all_or_none`: judging and keeping them.
//! - `replies`: what is written of them behind the commit.
//! - `laws`: they are judged in their order; with numbers that follow one another they are replied
//!   to as in a run that keeps each.
#![tactic(auto)]

mod all_or_none;
pub mod laws;
mod look;
mod replies;

pub use all_or_none::{AllOrNone, Ended, apply_all};
pub use look::Look;
pub use replies::{run_all, write_replies};
