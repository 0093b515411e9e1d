//! Laws of where two books differ. Each is the contract of a function that does nothing.
ghost use Rattle.std.specs.Prelude.{◌≡◌, [], List};
ghost use Rattle.lot_book.specs.Facts.{Entry};
ghost use Rattle.lot_compare.specs.Amounts.{AreAllDifferences, AreHeld, held_of};
ghost use Rattle.lot_compare.specs.Lines.{Difference};
ghost use Rattle.lot_compare.specs.Sums.{Amount, AreDifferences, sum_at};
ghost use Rattle.lot_compare.specs.declared.subject.Subject.{Subject as SubjectOf};
ghost use Rattle.lot_compare.specs.declared.sums.Sides.{Sides as SidesOf};

/// Two books with the same amounts don't differ.
pub fn equal_amounts_dont_differ()
    ensures { (amounts : List Amount) (found : List (SubjectOf × SidesOf))
        → AreDifferences (record { new = amounts; old = amounts }) found → found ≡ [] }
{}

/// Two books with the same entries have no line.
pub fn equal_books_dont_differ()
    ensures { (entries : List Entry) (found : List Difference)
        → AreAllDifferences entries entries found → found ≡ [] }
{}

/// What a book holds of a commodity in an account is the sum of the units of all legs there.
pub fn what_is_held_is_the_sum_of_legs()
    ensures { (entries : List Entry) (amounts : List Amount) (subject : SubjectOf)
        → AreHeld entries amounts → sum_at amounts subject ≡ held_of entries subject }
{}
