//! Laws of opening numbers as facts, on which the step of edition 2 rests.
ghost use Rattle.std.specs.Prelude.{◌≡◌, ◌↔◌, ℕ, List, [], ◌∷◌, ◌++◌};
ghost use Rattle.lot_cost.specs.declared.lot_key.LotKey.{LotKey};
ghost use Rattle.lot_command.specs.declared.command.Command.{Command};
ghost use Rattle.lot_command.specs.declared.key.Key.{Key};
ghost use Rattle.lot_book.specs.declared.change.Change.{Change};
ghost use Rattle.lot_book.specs.declared.leg.Leg.{Leg};
ghost use Rattle.lot_book.specs.Book.{IsBookIn, entry_of};
ghost use Rattle.lot_book.specs.Booking.{TieRule};
ghost use Rattle.lot_book.specs.Change.{IsChange, ListsOpened};
ghost use Rattle.lot_book.specs.Edition.{Migration, Second};
ghost use Rattle.lot_book.specs.Facts.{Entry, facts_of, legs_of};
ghost use Rattle.lot_book.specs.Leg.{inventory_of};
ghost use Rattle.lot_book.specs.OpeningNumber.{opening_in};
ghost use Rattle.lot_book.specs.Openings.{AreOpeningsOf, DecidesByOpening};
ghost use Rattle.lot_book.specs.Openings.{FactsWithOpenings, HaveSameOpenings, facts_with_openings};
ghost use Rattle.lot_book.specs.Openings.{opening_after, recorded_with_openings, with_listed};
ghost use Rattle.lot_book.specs.Recorded.{facts_in};
ghost use Rattle.lot_book.specs.Step.{Accept, DecidesUnder, Outcome, StepIn};

/// Further legs turn the opening numbers of a book into those over the legs of the book and the further legs, for each lot that
/// then holds something.
pub fn further_legs_make_the_opening_numbers_over_all_legs()
    ensures numbers { (known : FactsWithOpenings) (book : List Entry) (key : Key) (legs : List Leg)
        (account commodity : List ℕ)
        → known.facts ≡ facts_of book key → AreOpeningsOf book known.opening
        → HaveSameOpenings commodity (inventory_of (legs_of book ++ legs) account)
        (opening_after known legs account commodity)
        (opening_in (legs_of book ++ legs) account commodity) }
{}

/// The step of edition 2 on a book is the outcome of the command on the book's facts and opening numbers. Other numbers do as
/// well, if they are the same for each lot that is held.
pub fn a_step_of_edition_2_is_one_on_facts_with_openings()
    ensures book { (book : List Entry) (key : Key) (command : Command) (outcome : Outcome)
        → StepIn Second book key command outcome
        ↔ DecidesByOpening (facts_with_openings book key) command outcome }
    ensures known { (known : FactsWithOpenings) (book : List Entry) (key : Key) (command : Command)
        (outcome : Outcome) → known.facts ≡ facts_of book key
        → AreOpeningsOf book known.opening
        → StepIn Second book key command outcome ↔ DecidesByOpening known command outcome }
{}

/// Once an accepted command is recorded, the facts of a book of either edition are those of the book with its entry, however
/// ties were decided.
///
/// Put in the opening numbers that the change lists: then the opening numbers are those of the book with its entry, too, of
/// each lot that is held. Put into any numbers, they give what the change's legs make of those numbers.
pub fn what_is_recorded_is_what_the_book_says()
    ensures facts { (ties : TieRule) (migration : Migration) (known : FactsWithOpenings)
        (book : List Entry) (key : Key) (command : Command) (legs : List Leg) (change : Change)
        → IsBookIn migration book → known.facts ≡ facts_of book key
        → DecidesUnder ties known.facts command (Accept legs)
        → IsChange known.facts command legs change
        → (recorded_with_openings known command change).facts
        ≡ facts_in (book ++ entry_of key command legs ∷ []) }
    ensures listed { (known : FactsWithOpenings) (change : Change)
        (account commodity : List ℕ) (lot : LotKey)
        → ListsOpened known.facts change.legs change.openings
        → with_listed change.openings known.opening account commodity lot
        ≡ opening_after known change.legs account commodity lot }
    ensures numbers { (known : FactsWithOpenings) (book : List Entry) (key : Key)
        (command : Command) (legs : List Leg) (change : Change)
        → known.facts ≡ facts_of book key → AreOpeningsOf book known.opening
        → IsChange known.facts command legs change
        → AreOpeningsOf (book ++ entry_of key command legs ∷ [])
        (with_listed change.openings known.opening) }
{}
