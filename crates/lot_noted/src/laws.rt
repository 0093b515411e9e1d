//! Laws of the legs of a register. Each is the contract of a function that does nothing, or only
//! calls the laws on which it stands.
ghost use Rattle.std.specs.Prelude.{◌≡◌, ◌↔◌, IsTrue, List, None, filter, map};
ghost use Rattle.std.specs.declared.cmp.Ordering.TheVariants.{Less};
ghost use Rattle.sqlite.specs.Tree.{IsAscending};
ghost use Rattle.sqlite_rules.specs.Lists.{Has};
ghost use Rattle.lot_book.specs.Book.{IsBook};
ghost use Rattle.lot_book.specs.Facts.{Entry};
ghost use Rattle.lot_book.specs.declared.change.Pair.{Pair};
ghost use Rattle.lot_legs.specs.Legs.{dated_legs};
ghost use Rattle.lot_noted.specs.Book.{Asked, NeverFall, days_of, is_asked, is_commodity, is_of};
ghost use Rattle.lot_noted.specs.Book.{noted_legs, register_legs, units_booked};
ghost use Rattle.lot_noted.specs.declared.key.LegKey.{LegKey};
ghost use Rattle.lot_noted.specs.Keys.{AreInOrder, key_cmp, key_of};
ghost use Rattle.lot_register.specs.Left.{left_in};
ghost use Rattle.lot_register.specs.declared.leg.NotedLeg.{NotedLeg};

use lot_legs::laws::{dated_legs_are_in_their_order, sums_are_the_same_in_the_order_of_booking};

/// The legs of a register are those of the book that are asked for, and no other.
pub fn the_legs_are_those_that_are_asked_for()
    ensures { (asked : Asked) (entries : List Entry) (leg : NotedLeg)
        → Has (register_legs asked entries) leg
        ↔ (Has (noted_legs entries) leg × IsTrue (is_asked asked leg)) }
{}

/// They are in the order of days; of one day in that of entries, of an entry in that of postings.
/// No two are at one place.
pub fn the_legs_are_in_the_order_of_days()
    ensures { (asked : Asked) (entries : List Entry) → IsBook entries
        → IsAscending (λ a b. key_cmp (key_of a) (key_of b) ≡ Less) (register_legs asked entries) }
{
    dated_legs_are_in_their_order();
}

/// Their keys are those of the legs of the book that are asked for, put into their own order.
pub fn keys_in_their_order_are_those_of_the_legs()
    ensures { (asked : Asked) (entries : List Entry) (keys : List LegKey) → IsBook entries
        → AreInOrder asked (dated_legs entries) keys
        → keys ≡ map key_of (register_legs asked entries) }
{
    dated_legs_are_in_their_order();
}

/// Where the days of the entries never fall, they are in the order in which the book has them.
pub fn legs_stay_where_days_never_fall()
    ensures { (asked : Asked) (entries : List Entry) → NeverFall (days_of entries)
        → register_legs asked entries ≡ filter (is_asked asked) (noted_legs entries) }
{}

/// With no last day they leave of a commodity in an account, both asked for, the sum of all legs
/// that the book has there.
pub fn the_legs_leave_what_the_book_holds()
    ensures { (asked : Asked) (entries : List Entry) (pair : Pair)
        → IsTrue (is_of asked.account pair.account)
        → IsTrue (is_commodity asked.commodity pair.commodity) → asked.last ≡ None
        → left_in (register_legs asked entries) pair ≡ units_booked entries pair }
{
    sums_are_the_same_in_the_order_of_booking();
}
