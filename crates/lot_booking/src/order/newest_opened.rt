ghost use Rattle.lot_booking.specs.OpeningOrder.{newest_opened_first};
ghost use Rattle.lot_booking.specs.OpeningOrderLaws.{newest_opened_is_order, newest_opened_is_weak_order};

use crate::order::{LotOrder, opened_cmp};
use lot_inv::LentLot;
use std::cmp::Ordering;

/// The newest lot first: by day descending, of one day the lot that was opened first, and of one opening number the first by
/// key.
///
/// Beancount's LIFO: that of edition 2.
pub struct NewestOpened;

impl LotOrder for NewestOpened {
    ghost before = { newest_opened_first };

    ghost is_order = { newest_opened_is_order };

    ghost is_weak_order = { newest_opened_is_weak_order };

    fn before(a: &LentLot<'_>, b: &LentLot<'_>) -> bool {
        b.key.day.cmp(&a.key.day).then(opened_cmp(a, b)) == Ordering::Less
    }
}
