//! A book of edition 1 becomes one of edition 2, in one commit.
//!
//! - `migration`: `migrate`, which takes a connection and gives it back.
//! - `fill`: what is read and put in its transaction; `fold`: the legs of the table, folded to
//!   opening numbers.
//! - `opening_numbers`: the lots in which legs leave units, and the posting that opened each.
//! - `progress`: the receiver of how far it is.
//! - `fault`: `MigrateFault`, why a book isn't migrated.
//! - `laws`: that the sales stay those of edition 1.
#![tactic(auto)]

mod fault;
mod fill;
mod fold;
pub mod laws;
mod migration;
mod opening_numbers;
mod progress;

pub use fault::MigrateFault;
pub use migration::migrate;
pub use opening_numbers::{LegFault, LotOpening, OpenLots, openings};
pub use progress::Progress;
