//! What the entries of a book say, what a step on a book is, and what a command changes of it.
//!
//! - `leg`: legs and positions.
//! - `standing`: the state of an account: its opening, and whether it is closed.
//! - `holding`: what one position holds.
//! - `refusal`, `verdict`: why a command is refused, and how it was judged.
//! - `change`: what an accepted command changes.
//! - `sale`, `gain`: postings that took lots away, and what they gained.
#![tactic(auto)]

mod change;
mod gain;
mod holding;
mod leg;
mod refusal;
mod sale;
mod standing;
mod verdict;

pub use change::{Change, Pair};
pub use gain::Gain;
pub use holding::Holding;
pub use leg::{Leg, MOST_POSTINGS, Position};
pub use lot_booking::Edition;
pub use lot_cost::LotKey;
pub use refusal::{Refusal, Stop};
pub use sale::Sale;
pub use standing::Standing;
pub use verdict::Verdict;
