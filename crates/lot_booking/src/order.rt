ghost use Rattle.std.specs.Prelude.{◌≡◌, Bool, ℕ};
ghost use Rattle.std.specs.Cmp.{IsStrictWeakOrder};
ghost use Rattle.lot_cost.specs.declared.lot_key.LotKey.{LotKey};
ghost use Rattle.lot_booking.specs.OpeningOrder.{OpenedLot, by_numbers, opened_cmp};
ghost use Rattle.lot_booking.specs.Order.{IsOrder};

use lot_inv::LentLot;
use std::cmp::Ordering;

mod highest;
mod highest_opened;
mod newest;
mod newest_opened;
mod oldest;
mod oldest_opened;

pub use highest::Highest;
pub use highest_opened::HighestOpened;
pub use newest::Newest;
pub use newest_opened::NewestOpened;
pub use oldest::Oldest;
pub use oldest_opened::OldestOpened;

/// In which order lots are taken.
///
/// Whatever opening numbers the keys have, an order never puts a lot before itself, is transitive, and puts one of two lots
/// with distinct keys before the other. Lots can be sorted by it.
pub trait LotOrder {
    // Whether the first of two lots is before the second.
    ghost before: { OpenedLot → OpenedLot → Bool };

    /// Returns whether the first lot is taken before the second.
    fn before(a: &LentLot<'_>, b: &LentLot<'_>) -> bool
        ensures { result ≡ before (a.now.key, a.now.opening) (b.now.key, b.now.opening) };

    ghost is_order: { (opening : LotKey → ℕ) → IsOrder (by_numbers before opening) };

    // What a sort asks, also of lots with one key.
    ghost is_weak_order: { IsStrictWeakOrder before };
}

/// Returns how two lots compare by their openings: the lot that was opened first is less, and of lots with one opening number
/// the first by key.
fn opened_cmp(a: &LentLot<'_>, b: &LentLot<'_>) -> Ordering
    ensures { result ≡ opened_cmp (a.now.key, a.now.opening) (b.now.key, b.now.opening) }
{
    a.opening.cmp(&b.opening).then_with(|| a.key.cmp(b.key))
}
