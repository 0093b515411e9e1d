//! Laws of the legs of a book with their days. Each is the contract of a function that does nothing.
ghost use Rattle.std.specs.Prelude.{◌≡◌, ℤ, Bool, List, filter, map};
ghost use Rattle.std.specs.List.{AllByRecursion};
ghost use Rattle.std.specs.declared.cmp.Ordering.TheVariants.{Less};
ghost use Rattle.lot_book.specs.Book.{IsBook};
ghost use Rattle.lot_book.specs.Facts.{Entry};
ghost use Rattle.lot_book.specs.Leg.{sum_at};
ghost use Rattle.lot_book.specs.declared.leg.Position.{Position};
ghost use Rattle.lot_legs.specs.Legs.{IsOfEntry, booked_legs, dated_legs, entries_by, leg_cmp, leg_in, legs_by, row_in};
ghost use Rattle.lot_legs.specs.declared.leg.DatedLeg.{DatedLeg};
ghost use Rattle.lot_num.specs.Sum.{sum_of};
ghost use Rattle.lot_rows.specs.Tables.{Tables};
ghost use Rattle.lot_stored.specs.StandFor.{StandFor, sum_in};
ghost use Rattle.sqlite.specs.Tree.{IsAscending};

/// The legs of a book with their days are in the order of entries, postings and places, no two at one place.
pub fn dated_legs_are_in_their_order()
    ensures { (entries : List Entry) → IsBook entries
        → IsAscending (λ a b. leg_cmp (leg_in a) (leg_in b) ≡ Less) (dated_legs entries) }
{}

/// Each leg of a book with its day is one of the entry whose number it bears, on the day of its command.
pub fn a_dated_leg_is_of_its_entry()
    ensures { (entries : List Entry) → IsBook entries
        → AllByRecursion (IsOfEntry entries) (dated_legs entries) }
{}

/// The rows of the table `leg`, in tables that stand for a book, are those of its legs with their days.
pub fn dated_legs_have_the_rows_of_the_table()
    ensures { (tables : Tables) (entries : List Entry) → StandFor tables entries
        → tables.leg ≡ map row_in (dated_legs entries) }
{}

/// What is summed over some of the legs with their days is the same in the order in which they were booked.
pub fn sums_are_the_same_in_the_order_of_booking()
    ensures { (entries : List Entry) (passes : DatedLeg → Bool) (value : DatedLeg → ℤ)
        → sum_of (map value (filter passes (dated_legs entries)))
        ≡ sum_of (map value (filter passes (booked_legs entries))) }
{}

/// The legs up to a day leave in a position what all legs of the entries up to that day leave there.
pub fn legs_up_to_a_day_are_those_of_the_entries_up_to_it()
    ensures { (entries : List Entry) (day : ℤ) (position : Position)
        → sum_at (map leg_in (legs_by day (dated_legs entries))) position
        ≡ sum_in (entries_by day entries) position }
{}
