//! Laws of tables of activity. Each is the contract of a function that does nothing, or only calls
//! the laws on which it stands.
ghost use Rattle.std.specs.Prelude.{◌≡◌, ◌*ℤ◌, ℤ, pos, List, map};
ghost use Rattle.lot_book.specs.Facts.{Entry};
ghost use Rattle.lot_book.specs.Leg.{sum_at};
ghost use Rattle.lot_book.specs.declared.change.Pair.{Pair};
ghost use Rattle.lot_legs.specs.Legs.{dated_legs, entries_by, leg_in};
ghost use Rattle.lot_legs.specs.declared.leg.DatedLeg.{DatedLeg};
ghost use Rattle.lot_num.specs.Amount.{one};
ghost use Rattle.lot_num.specs.AmountText.{amount_text};
ghost use Rattle.lot_period.specs.declared.period.PeriodLength.{PeriodLength};
ghost use Rattle.lot_stored.specs.StandFor.{sum_in};
ghost use Rattle.lot_activity.specs.Rows.{AreRows, RowKey, counted_legs};
ghost use Rattle.lot_activity.specs.Scope.{Asked, all_up_to};
ghost use Rattle.lot_activity.specs.Table.{net_in_rows, plain_at};
ghost use Rattle.lot_activity.specs.declared.flow.Flow.{Flow};

use lot_legs::laws::legs_up_to_a_day_are_those_of_the_entries_up_to_it;

/// Of an account and a commodity, what came in over all periods, less what went out, is what the
/// counted legs leave there.
pub fn rows_add_up_to_the_legs()
    ensures { (length : PeriodLength) (asked : Asked) (legs : List DatedLeg)
        (rows : List (RowKey × Flow)) (pair : Pair)
        → AreRows length (counted_legs asked legs) rows
        → net_in_rows pair rows
        ≡ sum_at (map leg_in (counted_legs asked legs)) (plain_at pair) *ℤ pos one }
{}

/// So it comes to the same by periods of any two lengths.
pub fn any_periods_leave_the_same()
    ensures { (length other : PeriodLength) (asked : Asked) (legs : List DatedLeg)
        (rows other_rows : List (RowKey × Flow)) (pair : Pair)
        → AreRows length (counted_legs asked legs) rows
        → AreRows other (counted_legs asked legs) other_rows
        → net_in_rows pair rows ≡ net_in_rows pair other_rows }
{
    rows_add_up_to_the_legs();
}

/// Of the whole book up to a day it is what the account holds in plain units at the end of that
/// day.
pub fn activity_up_to_a_day_is_what_is_held()
    ensures { (length : PeriodLength) (last : ℤ) (entries : List Entry)
        (rows : List (RowKey × Flow)) (pair : Pair)
        → AreRows length (counted_legs (all_up_to last) (dated_legs entries)) rows
        → net_in_rows pair rows ≡ sum_in (entries_by last entries) (plain_at pair) *ℤ pos one }
{
    rows_add_up_to_the_legs();
    legs_up_to_a_day_are_those_of_the_entries_up_to_it();
}

/// The text of units as a weight is that of the units, as the holdings print it.
pub fn a_weight_is_written_as_its_units()
    ensures { (units : ℤ) → amount_text 2 16 (units *ℤ pos one) ≡ amount_text 2 8 units }
{}
