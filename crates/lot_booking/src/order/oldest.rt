ghost use Rattle.lot_booking.specs.OpeningOrder.{by_key};
ghost use Rattle.lot_booking.specs.Order.{oldest_first};
ghost use Rattle.lot_booking.specs.OrderLaws.{oldest_is_order, oldest_is_weak_order};

use crate::order::LotOrder;
use lot_inv::LentLot;
use std::cmp::Ordering;

/// The oldest lot first: by day, then by currency, number and label, each ascending, no label before every label.
///
/// Beancount's FIFO, with this project's ties: that of edition 1.
pub struct Oldest;

impl LotOrder for Oldest {
    ghost before = { by_key oldest_first };

    ghost is_order = { λ _. oldest_is_order };

    ghost is_weak_order = { oldest_is_weak_order };

    fn before(a: &LentLot<'_>, b: &LentLot<'_>) -> bool {
        let (a, b) = (a.key, b.key);
        a.day
            .cmp(&b.day)
            .then_with(|| a.currency.cmp(&b.currency))
            .then_with(|| a.number.cmp(&b.number))
            .then_with(|| a.label.cmp(&b.label))
            == Ordering::Less
    }
}
