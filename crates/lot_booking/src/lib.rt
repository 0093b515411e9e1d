//! Booking: which lots a posting with braces takes, or which one it opens.
//!
//! Methods and costs are those of `lot_cost`.
//!
//! - `selection`: `Selection`, how lots are selected: by which method, in which edition.
//! - `order`: `LotOrder`, in which order lots are taken, and its six orders: three of each edition.
//! - `choice`: `take`, the lots that units take in an order.
//! - `front`: the lots that come first in an order.
//! - `cost`: what a cost gives of a lot.
//! - `booking`: `book`, the legs of a posting with braces, and `fitting`, the lots that it may take.
//! - `fault`: `BookingFault` and `TakeFault`, why there are none.
//! - `laws`: what holds of the definitions that the contracts cite.
#![tactic(auto)]

mod booking;
mod choice;
mod cost;
mod edition;
mod fault;
mod front;
pub mod laws;
mod order;
mod selection;

pub use booking::{Booked, book, fitting};
pub use choice::take;
pub use edition::Edition;
pub use fault::{BookingFault, TakeFault};
pub use lot_cost::{Cost, Method, WholeCost};
pub use lot_inv::Lot;
pub use order::{Highest, HighestOpened, LotOrder, Newest, NewestOpened, Oldest, OldestOpened};
pub use selection::Selection;
