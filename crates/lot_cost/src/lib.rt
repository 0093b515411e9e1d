//! What a cost basis is: the key of a lot, what a posting says of a lot's cost, and the methods by which lots are chosen.
//!
//! - `lot_key`: `LotKey`, by which the lots of one commodity differ.
//! - `cost_spec`: `CostSpec`, which lots a posting means.
//! - `cost`: `Cost`, what a posting says in its braces.
//! - `method`: `Method`, how the lots of a reduction are chosen.
#![tactic(auto)]

mod cost;
mod cost_spec;
mod lot_key;
mod method;

pub use cost::{Cost, WholeCost};
pub use cost_spec::CostSpec;
pub use lot_key::LotKey;
pub use method::Method;
