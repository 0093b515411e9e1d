ghost use Rattle.lot_booking.specs.OpeningOrder.{by_key};
ghost use Rattle.lot_booking.specs.Order.{highest_first};
ghost use Rattle.lot_booking.specs.OrderLaws.{highest_is_order, highest_is_weak_order};

use crate::order::LotOrder;
use lot_inv::LentLot;
use std::cmp::Ordering;

/// The lot of the highest cost first: by number descending, then by day, currency and label, each ascending, no label
/// before every label.
///
/// This project's own: that of edition 1.
pub struct Highest;

impl LotOrder for Highest {
    ghost before = { by_key highest_first };

    ghost is_order = { λ _. highest_is_order };

    ghost is_weak_order = { highest_is_weak_order };

    fn before(a: &LentLot<'_>, b: &LentLot<'_>) -> bool {
        let (a, b) = (a.key, b.key);
        b.number
            .cmp(&a.number)
            .then_with(|| a.day.cmp(&b.day))
            .then_with(|| a.currency.cmp(&b.currency))
            .then_with(|| a.label.cmp(&b.label))
            == Ordering::Less
    }
}
