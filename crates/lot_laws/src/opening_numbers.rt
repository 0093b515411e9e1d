//! Laws of opening numbers, by which edition 2 decides ties, and of the orders by them: on any legs, or in a book of either
//! edition.
ghost use Rattle.std.specs.Prelude.{◌≡◌, ◌≢◌, ◌↔◌, ℕ, ◌+◌, ◌<◌, ◌≤◌, ◌*◌, Some, None, List, [], ◌∷◌, ◌++◌, length, All, ℤ, pos};
ghost use Rattle.std.specs.List.{Contains};
ghost use Rattle.std.specs.Ordering.{nat_cmp, int_cmp, ordering_then};
ghost use Rattle.lot_cost.specs.declared.lot_key.LotKey.{LotKey};
ghost use Rattle.lot_inv.specs.Inventory.{units_at};
ghost use Rattle.lot_booking.specs.OpeningOrder.{OpenedLot, by_opening};
ghost use Rattle.lot_booking.specs.OpeningOrder.{highest_opened_cmp, newest_opened_cmp, oldest_opened_cmp};
ghost use Rattle.lot_booking.specs.Order.{IsOrder};
ghost use Rattle.lot_book.specs.declared.leg.Leg.{Leg};
ghost use Rattle.lot_book.specs.declared.leg.Position.{Position};
ghost use Rattle.lot_book.specs.Book.{IsBookIn};
ghost use Rattle.lot_book.specs.Edition.{Migration};
ghost use Rattle.lot_book.specs.Facts.{Entry, legs_of};
ghost use Rattle.lot_book.specs.Leg.{inventory_of, sum_at};
ghost use Rattle.lot_book.specs.Refusals.{most_postings};
ghost use Rattle.lot_laws.specs.Laws.{lot_at};
ghost use Rattle.lot_book.specs.OpeningNumber.{HasOpeningNumber, IsLastToOpen, IsNumbered, StayInRange};
ghost use Rattle.lot_book.specs.OpeningNumber.{opening_number, posting_number};

/// A lot has an opening number exactly where some units are held in it. It has only one, and the definition that computes it
/// gives that one.
pub fn a_lot_has_one_opening_number()
    ensures held { (legs : List Leg) (account commodity : List ℕ) (lot : LotKey)
        → (units_at (inventory_of legs account) (commodity, Some lot) ≢ pos 0)
        ↔ ((number : ℕ) × HasOpeningNumber legs (lot_at account commodity lot) number) }
    ensures one { (legs : List Leg) (lot : Position) (a b : ℕ)
        → HasOpeningNumber legs lot a → HasOpeningNumber legs lot b → a ≡ b }
    ensures computed { (legs : List Leg) (lot : Position) (number : ℕ)
        → (opening_number legs lot ≡ Some number) ↔ HasOpeningNumber legs lot number }
{}

/// A leg changes the opening number of its lot alone, and only where the lot held nothing before it or holds nothing after it.
/// A lot that it opens has the number of its posting. A lot that it empties has none. Any other lot keeps its own.
pub fn a_leg_changes_the_opening_number_of_its_lot_alone()
    ensures elsewhere { (legs : List Leg) (leg : Leg) (lot : Position) → leg.position ≢ lot
        → opening_number (legs ++ leg ∷ []) lot ≡ opening_number legs lot }
    ensures kept { (legs : List Leg) (leg : Leg) → sum_at legs leg.position ≢ pos 0
        → sum_at (legs ++ leg ∷ []) leg.position ≢ pos 0
        → opening_number (legs ++ leg ∷ []) leg.position ≡ opening_number legs leg.position }
    ensures opened { (legs : List Leg) (leg : Leg) → sum_at legs leg.position ≡ pos 0
        → sum_at (legs ++ leg ∷ []) leg.position ≢ pos 0
        → opening_number (legs ++ leg ∷ []) leg.position ≡ Some (posting_number leg) }
    ensures emptied { (legs : List Leg) (leg : Leg) → sum_at (legs ++ leg ∷ []) leg.position ≡ pos 0
        → opening_number (legs ++ leg ∷ []) leg.position ≡ None }
{}

/// A leg's posting has a number in a book of either edition. It is the place of the posting, from 1, plus the most postings of
/// a transaction for each entry before its own.
pub fn a_posting_is_numbered_by_its_place_in_the_book()
    ensures number { (migration : Migration) (before more : List Entry) (entry : Entry) (leg : Leg)
        → IsBookIn migration (before ++ entry ∷ more) → Contains entry.legs leg
        → posting_number leg ≡ most_postings * length before + leg.posting }
    ensures least { (migration : Migration) (before more : List Entry) (entry : Entry) (leg : Leg)
        → IsBookIn migration (before ++ entry ∷ more) → Contains entry.legs leg
        → 1 ≤ leg.posting }
    ensures most { (migration : Migration) (before more : List Entry) (entry : Entry) (leg : Leg)
        → IsBookIn migration (before ++ entry ∷ more) → Contains entry.legs leg
        → leg.posting ≤ most_postings }
{}

/// The legs of a book of either edition are numbered within the limits of entries and of postings. However many of them are
/// booked so far, what they leave at a position is in the range of units. Computing opening numbers from legs requires both.
pub fn the_legs_of_a_book_are_numbered()
    ensures numbered { (migration : Migration) (entries : List Entry)
        → IsBookIn migration entries → All IsNumbered (legs_of entries) }
    ensures in_range { (migration : Migration) (entries : List Entry)
        → IsBookIn migration entries → StayInRange (legs_of entries) }
{}

/// No two lots of a book of either edition have one opening number, whatever their accounts and commodities.
pub fn no_two_lots_of_a_book_share_an_opening_number()
    ensures distinct { (migration : Migration) (entries : List Entry)
        (account commodity other name : List ℕ) (lot key : LotKey) (number : ℕ)
        → IsBookIn migration entries
        → HasOpeningNumber (legs_of entries) (lot_at account commodity lot) number
        → HasOpeningNumber (legs_of entries) (lot_at other name key) number
        → lot_at account commodity lot ≡ lot_at other name key }
{}

/// Of two lots of a book of either edition, the one that was opened first has the smaller opening number. The leg that opened
/// it stands before the leg that opened the other.
pub fn the_lot_opened_first_has_the_smaller_number()
    ensures ascending { (migration : Migration) (entries : List Entry)
        (account commodity other name : List ℕ) (lot key : LotKey) (a b : Leg)
        → IsBookIn migration entries
        → (first : IsLastToOpen (legs_of entries) (lot_at account commodity lot) a)
        → (second : IsLastToOpen (legs_of entries) (lot_at other name key) b)
        → length first.before < length second.before → posting_number a < posting_number b }
{}

/// In a book of either edition an opening number is at least 1, and at most the number of the last posting that a book can
/// have.
pub fn opening_numbers_count_from_one()
    ensures least { (migration : Migration) (entries : List Entry)
        (account commodity : List ℕ) (lot : LotKey) (number : ℕ) → IsBookIn migration entries
        → HasOpeningNumber (legs_of entries) (lot_at account commodity lot) number → 1 ≤ number }
    ensures most { (migration : Migration) (entries : List Entry)
        (account commodity : List ℕ) (lot : LotKey) (number : ℕ) → IsBookIn migration entries
        → HasOpeningNumber (legs_of entries) (lot_at account commodity lot) number
        → number ≤ most_postings * length entries }
{}

/// Whatever opening number each key has, each of the three orders by opening is an order of keys.
pub fn the_orders_by_opening_are_orders()
    ensures oldest { (opening : LotKey → ℕ) → IsOrder (by_opening oldest_opened_cmp opening) }
    ensures newest { (opening : LotKey → ℕ) → IsOrder (by_opening newest_opened_cmp opening) }
    ensures highest { (opening : LotKey → ℕ) → IsOrder (by_opening highest_opened_cmp opening) }
{}

/// Where two lots have distinct opening numbers, as in a book, the order of keys never decides between them. They are ordered
/// by day, or by number, and then by opening.
pub fn distinct_openings_decide_ties()
    ensures oldest { (a b : OpenedLot) → a.1 ≢ b.1
        → oldest_opened_cmp a b ≡ ordering_then (int_cmp a.0.day b.0.day) (nat_cmp a.1 b.1) }
    ensures newest { (a b : OpenedLot) → a.1 ≢ b.1
        → newest_opened_cmp a b ≡ ordering_then (int_cmp b.0.day a.0.day) (nat_cmp a.1 b.1) }
    ensures highest { (a b : OpenedLot) → a.1 ≢ b.1
        → highest_opened_cmp a b ≡ ordering_then (nat_cmp b.0.number a.0.number) (nat_cmp a.1 b.1) }
{}
