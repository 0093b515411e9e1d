//! Laws of what was held at the end of a day. Each is the contract of a function that does nothing.
ghost use Rattle.std.specs.Prelude.{◌≡◌, ◌↔◌, ℤ, [], List};
ghost use Rattle.lot_book.specs.Book.{IsBook};
ghost use Rattle.lot_book.specs.Facts.{Entry};
ghost use Rattle.lot_book.specs.declared.holding.Holding.{Holding};
ghost use Rattle.lot_legs.specs.Legs.{dated_legs, entries_by};
ghost use Rattle.lot_legs.specs.declared.leg.DatedLeg.{DatedLeg};
ghost use Rattle.lot_position.specs.Held.{AreInRange, IsBeforeAll, IsPastAll, ListsHeld};
ghost use Rattle.lot_walk.specs.Holdings.{IsHoldings};

/// What was held at the end of a day is what the entries up to it hold.
pub fn a_day_has_what_the_entries_up_to_it_hold()
    ensures { (entries : List Entry) (day : ℤ) (rows : List Holding)
        → ListsHeld day (dated_legs entries) rows ↔ IsHoldings (entries_by day entries) rows }
{}

/// On a day that no entry is behind, what was held is what the book holds: the rows of the report `holdings`, in its order.
pub fn a_day_past_all_entries_has_what_the_book_holds()
    ensures holds { (entries : List Entry) (day : ℤ) (rows : List Holding)
        → IsPastAll day entries
        → ListsHeld day (dated_legs entries) rows ↔ IsHoldings entries rows }
    ensures same { (entries : List Entry) (day : ℤ) (rows held : List Holding)
        → IsPastAll day entries → ListsHeld day (dated_legs entries) rows
        → IsHoldings entries held → rows ≡ held }
{}

/// On such a day the sums of a book are in range.
pub fn a_day_past_all_entries_has_its_sums_in_range()
    ensures { (entries : List Entry) (day : ℤ) → IsBook entries → IsPastAll day entries
        → AreInRange day (dated_legs entries) }
{}

/// On a day before all legs nothing was held.
pub fn a_day_before_all_legs_has_nothing()
    ensures { (day : ℤ) (legs : List DatedLeg) (rows : List Holding)
        → IsBeforeAll day legs → ListsHeld day legs rows → rows ≡ [] }
{}

/// At most one list of rows is what legs leave at the end of a day.
pub fn a_day_has_one_list_of_rows()
    ensures { (day : ℤ) (legs : List DatedLeg) (a b : List Holding) → ListsHeld day legs a
        → ListsHeld day legs b → a ≡ b }
{}
