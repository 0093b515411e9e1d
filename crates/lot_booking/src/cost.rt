ghost use Rattle.std.specs.Prelude.{◌≡◌, ◌⊎◌, ℤ, None, true, false, IsOk, IfOk, IfErr};
ghost use Rattle.lot_booking.specs.Booking.{given_of, is_inexact, number_of};
ghost use Rattle.lot_booking.specs.declared.fault.BookingFault.TheVariants.{InexactCost};

use crate::fault::BookingFault;
use lot_cost::{Cost, CostSpec};
use lot_num::{Rate, Units};

/// Returns what a cost gives of the lot, the total of a whole cost aside.
pub(crate) fn given(cost: &Cost) -> &CostSpec
    ensures value { result.now ≡ given_of cost.now }
    ensures number { (units : ℤ)
        → (result.now.number ≡ None) ⊎ (result.now.number ≡ number_of units cost.now) }
{
    match cost {
        Cost::Each(spec) => spec,
        Cost::Whole(whole) => whole.spec(),
    }
}

/// Returns the number for each of so many units, where one is given, or `InexactCost` where the total of a whole cost by the
/// units isn't exactly a rate.
pub(crate) fn number(cost: &Cost, units: Units) -> Result<Option<Rate>, BookingFault>
    ensures number { IfOk result (λ number. number ≡ number_of units cost.now) }
    ensures exact { IsOk result → is_inexact units cost.now ≡ false }
    ensures inexact { IfErr result
        (λ fault. (fault ≡ InexactCost) × (is_inexact units cost.now ≡ true)) }
{
    match cost {
        Cost::Each(spec) => Ok(spec.number),
        Cost::Whole(whole) => match units.per_unit(whole.total()) {
            Some(number) => Ok(Some(number)),
            None => Err(BookingFault::InexactCost),
        },
    }
}
