//! What units are worth at a price.
ghost use Rattle.std.specs.Prelude.{◌≡◌, ◌≤◌, ◌^◌, ◌*ℤ◌, ◌+ℤ◌, pos, unsigned_abs};
ghost use Rattle.lot_num.specs.Amount.{one};
ghost use Rattle.lot_deal_read.specs.Worth.{worth_of};

use lot_num::{Rate, Units, Wide, weight};
use lot_rounding::{Decimals, rounded};

/// Returns what units are worth at a price, with a fee in its currency, to eight decimals, half to even. It is `None` where that
/// isn't units.
pub fn worth(units: Units, price: Rate, fee: Units) -> Option<Units>
    ensures { result ≡ worth_of units price fee }
{
    rounded(with_fee(units, price, fee), Decimals::of_units()).to_units()
}

/// Returns what units are worth at a price, with a fee in its currency.
pub(crate) fn with_fee(units: Units, price: Rate, fee: Units) -> Wide
    ensures value { result ≡ units *ℤ pos price +ℤ fee *ℤ pos one }
    ensures bound { unsigned_abs result ≤ 10 ^ 36 }
{
    match weight(units, price).checked_add(fee.wide()) {
        Some(sum) => sum,
        None => unreachable!(),
    }
}
