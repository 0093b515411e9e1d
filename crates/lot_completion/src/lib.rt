//! Completions: which transaction stands for one whose amounts have few decimals, where an account takes
//! the crumbs.
//!
//! - `rates`: whole costs that no rate comes to, each replaced by the nearest rate.
//! - `crumbs`: the postings of an account that make up for crumbs.
//! - `completion`: the transaction that completes another on what is known of a book.
//! - `balancing`: what would balance a command, where no account takes crumbs.
//! - `behind`: crumbs, read back from the postings that make up for them.
//! - `form`: whether a text is a completion of a transaction, as far as that can be seen.
//! - `turn`: which command is tried in the place of one that was handed in.
//! - `split`: which transaction is tried in the place of a command that asks for a split.
//! - `watch`: who is told what becomes of crumbs.
//! - `laws`: there is at most one completion of a transaction, and it balances.
#![tactic(auto)]

mod balancing;
mod behind;
mod completion;
mod crumbs;
mod form;
pub mod laws;
mod rates;
mod split;
mod turn;
mod watch;

pub use balancing::untaken;
pub use completion::{Completion, complete};
pub use split::{SplitProposal, propose_split};
pub use turn::{Proposal, propose};
pub use watch::{Note, Watch};
