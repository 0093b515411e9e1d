//! Splits: the transaction that splits what an account holds of a commodity.
//!
//! - `asked`: the split that a command asks for.
//! - `held`: the lots that an account holds, and the split of them on what is known of a book.
//! - `lot`: `HeldLot`, a lot with its units.
//! - `divide`: the lots once they are split.
//! - `costs`: what lots cost in each currency, and what a split leaves of it.
//! - `crumbs`: the postings of an account that make up for a crumb.
//! - `transaction`: the transaction that takes the lots and opens them again.
//! - `fault`: why there is none.
//! - `form`: splits by form, which are seen in their text.
//! - `laws`: a split balances, a ratio and units that are added come to the same one, and one that was accepted is found again.
#![tactic(auto)]

mod asked;
mod costs;
mod crumbs;
mod divide;
mod fault;
mod form;
mod held;
pub mod laws;
mod lot;
mod transaction;

pub use asked::asked_split;
pub use fault::SplitFault;
pub use form::is_split_by_form;
pub use held::split_on;
pub use lot::HeldLot;
pub use transaction::{Split, split_lots};
