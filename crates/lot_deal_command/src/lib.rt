//! The command that a deal stands for (docs/FORMATS.md, Profiles).
//!
//! - `deal`: the command of a deal (`command`).
//! - `trades`: the postings of what is bought, sold or taken back.
//! - `settlement`: how the cash of a trade is posted.
//! - `cash`: the postings of movements of cash, of income and of exchanges.
//! - `incoming`: the postings of units that come in for no cash.
//! - `posting`: postings of one kind, and sums.
//! - `fault`: why a deal has no command.
//! - `laws`: laws of the definitions that the contract of `command` cites.
#![tactic(auto)]

mod cash;
mod deal;
mod fault;
mod incoming;
pub mod laws;
mod posting;
mod settlement;
mod trades;

pub use deal::command;
pub use fault::CommandFault;
