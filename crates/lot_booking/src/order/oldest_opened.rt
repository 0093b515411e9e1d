ghost use Rattle.lot_booking.specs.OpeningOrder.{oldest_opened_first};
ghost use Rattle.lot_booking.specs.OpeningOrderLaws.{oldest_opened_is_order, oldest_opened_is_weak_order};

use crate::order::{LotOrder, opened_cmp};
use lot_inv::LentLot;
use std::cmp::Ordering;

/// The oldest lot first: by day, of one day the lot that was opened first, and of one opening number the first by key.
///
/// Beancount's FIFO: that of edition 2.
pub struct OldestOpened;

impl LotOrder for OldestOpened {
    ghost before = { oldest_opened_first };

    ghost is_order = { oldest_opened_is_order };

    ghost is_weak_order = { oldest_opened_is_weak_order };

    fn before(a: &LentLot<'_>, b: &LentLot<'_>) -> bool {
        a.key.day.cmp(&b.key.day).then(opened_cmp(a, b)) == Ordering::Less
    }
}
