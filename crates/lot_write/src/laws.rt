//! Laws of what is written. Tables that stand for a book stand, after the writes of an accepted command, for the book with its
//! entry. Each is the contract of a function that does nothing.
ghost use Rattle.std.specs.Prelude.{◌≡◌, suc, All, None, [], ◌∷◌, ◌++◌, List, length};
ghost use Rattle.lot_book.specs.Agree.{Agrees};
ghost use Rattle.lot_book.specs.Book.{IsBook, entry_of};
ghost use Rattle.lot_book.specs.Booking.{all_by_key};
ghost use Rattle.lot_book.specs.Change.{IsAcceptedUnder};
ghost use Rattle.lot_book.specs.Facts.{Entry, Facts, facts_of};
ghost use Rattle.lot_book.specs.Openings.{AgreesWithOpenings, FactsWithOpenings, IsAcceptedWith, facts_with_openings};
ghost use Rattle.lot_book.specs.declared.change.Change.{Change};
ghost use Rattle.lot_command.specs.declared.command.Command.{Command};
ghost use Rattle.lot_command.specs.declared.key.Key.{Key};
ghost use Rattle.lot_stored.specs.StandFor.{StandFor};
ghost use Rattle.lot_command.specs.Sayable.{IsSayable};
ghost use Rattle.lot_write.specs.Write.{AreFit, IsGood, placed_at, written_all};
ghost use Rattle.lot_write.specs.Writes.{ListsInOrder, writes_of};
ghost use Rattle.lot_rows.specs.Tables.{Tables};

/// After the writes of a command that edition 2 accepts, tables that stood for a book stand for the book with its entry.
///
/// The writes come from facts that agree with the book's on what the command looks at, under a key that is new.
pub fn what_is_written_stands_for_the_book()
    ensures { (tables : Tables) (entries : List Entry) (known : FactsWithOpenings) (key : Key)
        (command : Command)
        (change : Change) → IsBook entries → StandFor tables entries
        → AgreesWithOpenings known (facts_with_openings entries key) command
        → known.facts.text ≡ None
        → IsAcceptedWith known command change → ListsInOrder command change → IsSayable command
        → All IsGood (writes_of known.facts key command change)
        → AreFit (writes_of known.facts key command change) tables
        × StandFor (written_all (writes_of known.facts key command change) tables)
        (entries ++ entry_of key command change.legs ∷ []) }
{}

/// After the writes of a command that edition 1 accepts, tables that stood for a book of edition 1 stand for the book with its
/// entry.
///
/// All entries of such a book are up to its place of migration: the place is their number, and behind the new entry it is one
/// more. The writes leave the place. So the law speaks of the tables with the place that the book has, whichever place the
/// tables have meanwhile. Edition 1 looks at no opening number, so the facts agree with the book's beside those.
pub fn what_edition_1_accepts_stands_for_the_book()
    ensures { (tables : Tables) (entries : List Entry) (known : Facts) (key : Key)
        (command : Command)
        (change : Change) → StandFor (placed_at (length entries) tables) entries
        → Agrees known (facts_of entries key) command
        → IsAcceptedUnder all_by_key known command change → ListsInOrder command change
        → IsSayable command → All IsGood (writes_of known key command change)
        → AreFit (writes_of known key command change) tables
        × StandFor (placed_at (suc (length entries))
        (written_all (writes_of known key command change) tables))
        (entries ++ entry_of key command change.legs ∷ []) }
{}
