//! What a row of a broker's file says (docs/FORMATS.md, Profiles).
//!
//! - `deal`: `Deal`, what a row says, and `Terms`, that by its kind.
//! - `trade`: `Trade`, units that are bought, sold or taken back.
//! - `cash`: `Movement`, cash that comes in or goes out, and `Income` and `Exchange`, which stand on it.
//! - `incoming`: `Incoming`, units that come in for no cash.
#![tactic(auto)]

mod cash;
mod deal;
mod incoming;
mod trade;

pub use cash::{Booked, Exchange, Fee, Income, Movement, Tax, TaxApart};
pub use deal::{Deal, Quote, Terms};
pub use incoming::Incoming;
pub use trade::{Cancellation, Sale, Trade, TradePrice, Worth};
