ghost use Rattle.lot_booking.specs.OpeningOrder.{highest_opened_first};
ghost use Rattle.lot_booking.specs.OpeningOrderLaws.{highest_opened_is_order, highest_opened_is_weak_order};

use crate::order::{LotOrder, opened_cmp};
use lot_inv::LentLot;
use std::cmp::Ordering;

/// The lot of the highest cost first: by number descending, of one number the lot that was opened first, and of one opening
/// number the first by key.
///
/// This project's own: that of edition 2.
pub struct HighestOpened;

impl LotOrder for HighestOpened {
    ghost before = { highest_opened_first };

    ghost is_order = { highest_opened_is_order };

    ghost is_weak_order = { highest_opened_is_weak_order };

    fn before(a: &LentLot<'_>, b: &LentLot<'_>) -> bool {
        b.key.number.cmp(&a.key.number).then(opened_cmp(a, b)) == Ordering::Less
    }
}
