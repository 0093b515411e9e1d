//! Inventories: what an account holds, lot by lot.
//!
//! Lot keys and cost specifications are those of `lot_cost`.
//!
//! - `inventory`: `Inventory`, the units of each position of an account.
//! - `foremost`: `Foremost`, which lots are lent before the others.
//! - `lot`: `Lot`, a lot that is held, and `LentLot`, one whose key is lent.
//! - `lots`: `Lots`, the lots of one commodity, under their keys, and `Available`, those that units may take.
//! - `index`: the same lots in the order in which they are lent.
//! - `fault`: `InventoryFault`, why units aren't added.
//! - `laws`: what holds of the definitions that the contracts cite.
#![tactic(auto)]

mod fault;
mod foremost;
mod index;
mod inventory;
pub mod laws;
mod lot;
mod lots;

pub use fault::InventoryFault;
pub use foremost::Foremost;
pub use inventory::{Inventory, is_other_sign};
pub use lot::{LentLot, Lot};
pub use lot_cost::{CostSpec, LotKey};
pub use lots::Available;
