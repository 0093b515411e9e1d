ghost use Rattle.lot_booking.specs.OpeningOrder.{by_key};
ghost use Rattle.lot_booking.specs.Order.{newest_first};
ghost use Rattle.lot_booking.specs.OrderLaws.{newest_is_order, newest_is_weak_order};

use crate::order::LotOrder;
use lot_inv::LentLot;
use std::cmp::Ordering;

/// The newest lot first: by day descending, then by currency, number and label, each ascending, no label before every
/// label.
///
/// Beancount's LIFO, with this project's ties: that of edition 1.
pub struct Newest;

impl LotOrder for Newest {
    ghost before = { by_key newest_first };

    ghost is_order = { λ _. newest_is_order };

    ghost is_weak_order = { newest_is_weak_order };

    fn before(a: &LentLot<'_>, b: &LentLot<'_>) -> bool {
        let (a, b) = (a.key, b.key);
        b.day
            .cmp(&a.day)
            .then_with(|| a.currency.cmp(&b.currency))
            .then_with(|| a.number.cmp(&b.number))
            .then_with(|| a.label.cmp(&b.label))
            == Ordering::Less
    }
}
