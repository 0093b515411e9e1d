//! Laws of the editions: which of them judges on a book, and how each decides ties. The program judges by edition 2. Entries up
//! to a place of migration were judged by edition 1.
ghost use Rattle.std.specs.Prelude.{◌≡◌, ◌≢◌, ◌↔◌, true, ℕ, ◌≤◌, List, [], ◌∷◌, ◌++◌, length, ℤ};
ghost use Rattle.std.specs.List.{Contains};
ghost use Rattle.lot_cost.specs.declared.cost.Cost.{Cost};
ghost use Rattle.lot_cost.specs.declared.lot_key.LotKey.{LotKey};
ghost use Rattle.lot_cost.specs.declared.method.Method.{Method};
ghost use Rattle.lot_cost.specs.declared.method.Method.TheVariants.{Strict};
ghost use Rattle.lot_booking.specs.Booking.{candidates};
ghost use Rattle.lot_booking.specs.Method.{ByKey, ByOpening, Ties, highest_by, newest_by, oldest_by, order_by};
ghost use Rattle.lot_booking.specs.Order.{IsOrder, oldest_first};
ghost use Rattle.lot_command.specs.declared.command.Command.{Command};
ghost use Rattle.lot_command.specs.declared.key.Key.{Key};
ghost use Rattle.lot_command.specs.declared.transaction.Amount.{Amount};
ghost use Rattle.lot_command.specs.declared.transaction.Posting.{Posting};
ghost use Rattle.lot_book.specs.declared.leg.Leg.{Leg};
ghost use Rattle.lot_book.specs.declared.verdict.Verdict.{Verdict};
ghost use Rattle.lot_book.specs.Book.{IsBook, IsBookIn, entry_of};
ghost use Rattle.lot_book.specs.Booking.{All, Booked, BooksAllUnder, braced, legs_in, line_under};
ghost use Rattle.lot_book.specs.Edition.{After, Migration, NotYet, Second, edition_on, ties_in};
ghost use Rattle.lot_book.specs.Facts.{Entry, facts_of, legs_of};
ghost use Rattle.lot_book.specs.Judged.{JudgesAll, JudgesAllIn};
ghost use Rattle.lot_book.specs.OpeningNumber.{opening_in};
ghost use Rattle.lot_book.specs.Step.{Accept, Step, StepIn};
ghost use Rattle.lot_laws.specs.Worked.{added_to, bought_each, broker, hool, lot_a, lot_b};
ghost use Rattle.lot_laws.specs.Worked.{reopened, reopened_within};

/// A list of entries that isn't longer than the place of migration is a book exactly where it is a book of edition 1. The first
/// entries of a book are a book with the same place.
pub fn a_book_up_to_its_place_of_migration_is_of_edition_1()
    ensures place { (place : ℕ) (entries : List Entry) → length entries ≤ place
        → IsBookIn (After place) entries ↔ IsBookIn NotYet entries }
    ensures first { (migration : Migration) (entries more : List Entry)
        → IsBookIn migration (entries ++ more) → IsBookIn migration entries }
{}

/// Behind its place of migration a book goes on by edition 2. With one more entry it is a book exactly where the step of
/// edition 2 accepts the entry's command with its legs. The first such entry stands right behind as many as the place says.
/// There all commands are judged by edition 2.
pub fn a_book_behind_its_place_of_migration_is_of_edition_2()
    ensures next { (place : ℕ) (before : List Entry) (entry : Entry) → place ≤ length before
        → IsBookIn (After place) before
        → IsBookIn (After place) (before ++ entry ∷ [])
        ↔ StepIn Second before entry.key entry.command (Accept entry.legs) }
    ensures judged { (place : ℕ) (before : List Entry) (commands : List (Key × Command))
        (verdicts : List Verdict) (after : List Entry) → place ≤ length before
        → JudgesAllIn (After place) before commands verdicts after
        ↔ JudgesAll before commands verdicts after }
{}

/// Edition 2 judges on a book of edition 2. The empty list of entries is such a book, and so is a migrated book of edition 1.
/// With the entry of a command that edition 2 accepts, such a book remains one.
pub fn a_book_of_edition_2_goes_on_by_edition_2()
    ensures second { (entries : List Entry) (book : IsBook entries)
        → edition_on (After book.place) entries ≡ Second }
    ensures none { IsBook [] }
    ensures migrated { (entries : List Entry) → IsBookIn NotYet entries → IsBook entries }
    ensures grows { (before : List Entry) (key : Key) (command : Command) (legs : List Leg)
        → IsBook before → Step before key command (Accept legs)
        → IsBook (before ++ entry_of key command legs ∷ []) }
{}

/// However ties are decided, the order of each method is an order of lot keys. STRICT lists its legs in the order of their
/// keys.
pub fn each_method_has_an_order_however_ties_are_decided()
    ensures order { (ties : Ties) (method : Method) → IsOrder (order_by ties method) }
    ensures strict { (ties : Ties) → order_by ties Strict ≡ oldest_first }
{}

/// No two of the lots among which a posting chooses have one opening number, over the legs of a book of either edition and of
/// the postings before it. So in edition 2 the order of keys never decides.
pub fn lots_to_choose_among_have_distinct_opening_numbers()
    ensures chosen_among { (migration : Migration) (book : List Entry) (key : Key) (day : ℤ)
        (postings : List Posting) (booked : List Booked) → IsBookIn migration book
        → BooksAllUnder (ties_in Second book) (facts_of book key) day [] 1 postings (All booked)
        → (place : ℕ) (account : List ℕ) (amount : Amount) (cost : Cost) (a b : LotKey × ℤ)
        → Contains (candidates (braced (line_under (ties_in Second book) (facts_of book key) day
        (legs_in booked) place account amount) cost)) a
        → Contains (candidates (braced (line_under (ties_in Second book) (facts_of book key) day
        (legs_in booked) place account amount) cost)) b → a.0 ≢ b.0
        → opening_in (legs_of book ++ legs_in booked) account amount.commodity a.0
        ≢ opening_in (legs_of book ++ legs_in booked) account amount.commodity b.0 }
{}

/// Two lots have one day and one cost, and the second by its label was bought first. In edition 1 the label decides between
/// them. In edition 2 the opening does, under each method.
///
/// A lot that is added to keeps its number. A lot that is emptied and opened again, also by another posting of one transaction,
/// has the number of its last opening.
pub fn lots_of_one_day_are_taken_as_they_were_opened()
    ensures by_key { oldest_by ByKey lot_a lot_b ≡ true }
    ensures numbers { (opening_in bought_each broker hool lot_b ≡ 257)
        × (opening_in bought_each broker hool lot_a ≡ 321) }
    ensures fifo { oldest_by (ByOpening (opening_in bought_each broker hool)) lot_b lot_a ≡ true }
    ensures lifo { newest_by (ByOpening (opening_in bought_each broker hool)) lot_b lot_a ≡ true }
    ensures hifo { highest_by (ByOpening (opening_in bought_each broker hool)) lot_b lot_a ≡ true }
    ensures kept { opening_in added_to broker hool lot_b ≡ 257 }
    ensures again { (opening_in reopened broker hool lot_b ≡ 449)
        × (opening_in reopened broker hool lot_a ≡ 321) }
    ensures taken { oldest_by (ByOpening (opening_in reopened broker hool)) lot_a lot_b ≡ true }
    ensures within { opening_in reopened_within broker hool lot_b ≡ 386 }
{}
