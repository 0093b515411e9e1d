//! Laws of restoring. Each is the contract of a function that does nothing.
ghost use Rattle.std.specs.Prelude.{◌≡◌, ◌≤◌, ℕ, [], IsTrue, List, Option, Some, length};
ghost use Rattle.sqlite.specs.Held.{Held, state};
ghost use Rattle.sqlite.specs.State.{HasCleanDisk};
ghost use Rattle.lot_book.specs.Book.{IsBookIn};
ghost use Rattle.lot_book.specs.Edition.{After};
ghost use Rattle.lot_book.specs.Facts.{Entry};
ghost use Rattle.lot_book.specs.declared.verdict.Verdict.{Verdict};
ghost use Rattle.lot_dump.specs.Form.{IsEnd, IsHead};
ghost use Rattle.lot_dump.specs.declared.end.End.{End};
ghost use Rattle.lot_parts.specs.Dump.{IsUnchanged, dump_text};
ghost use Rattle.lot_io.specs.Writes.{WriteCalls};
ghost use Rattle.lot_rows.specs.Tables.{Tables};
ghost use Rattle.lot_stored.specs.StandFor.{StandFor};
ghost use Rattle.lot_restore.specs.DumpOfBook.{CanBeDumped, GivesBack, HaveNoBlanks, IsGivenBack, MayEndSo, dump_of_book};
ghost use Rattle.lot_restore.specs.Restoring.{Fails, IsBookOf, JudgedDump, RestoresDump, Terms};
ghost use Rattle.lot_restore.specs.declared.fault.RestoreFault.{RestoreFault};
ghost use Rattle.lot_restore.specs.declared.restoring.Restored.{Restored};
ghost use Rattle.lot_restore.specs.Restored.{NeverFall, Restores, all_accepted, dumped_from, place_after};
ghost use Rattle.lot_parts.specs.declared.dumped.Dumped.{Dumped};

use sqlite::Alter;

/// Restoring the dump of a book accepts each of its commands, and gives its entries and its place of migration.
pub fn restoring_a_dump_gives_its_book()
    ensures entries { (place : ℕ) (entries : List Entry) → IsBookIn (After place) entries
        → Restores place [] (dumped_from 1 entries) (all_accepted entries) entries }
    ensures place { (place : ℕ) (entries : List Entry) → place ≤ length entries
        → place_after place (dumped_from 1 entries) (all_accepted entries) 0 ≡ place }
    ensures rising { (entries : List Entry) → NeverFall 0 (dumped_from 1 entries) }
{}

/// Where the dump of a book is restored, and nothing is left out, the book that is made is that book, with its place of migration, and
/// nothing is said but that it is made.
pub fn restoring_the_dump_of_a_book_gives_it()
    ensures { (asked : Terms) (place : ℕ) (entries : List Entry) (end : End)
        → asked.without ≡ [] → CanBeDumped 1 entries → IsHead (dump_of_book place entries end).head
        → IsEnd end → IsBookIn (After place) entries → place ≤ length entries
        → (it : JudgedDump asked (Some (dump_text (dump_of_book place entries end))))
        (book : List Entry) → IsBookOf asked it book → GivesBack asked it place entries book }
{}

/// The dump of a book is taken. Where the tables of a book are dumped, no key of which has a blank in its source, as none has that is
/// posted or imported, the text can be read and judged, and gives the book back where the connection stays open. It may end with a
/// fault that isn't of the text, or where a line or an entry is too long.
pub fn the_dump_of_a_book_is_taken<S: Alter>()
    ensures can { (tables : Tables) (entries : List Entry) (stand : StandFor tables entries)
        → HaveNoBlanks entries
        → CanBeDumped 1 entries
        × ((end : End) → IsHead (dump_of_book stand.place entries end).head) }
    ensures judged { (asked : Terms) (place : ℕ) (entries : List Entry) (end : End)
        → asked.without ≡ [] → CanBeDumped 1 entries → IsHead (dump_of_book place entries end).head
        → IsEnd end → IsUnchanged (dump_of_book place entries end) → IsBookIn (After place) entries
        → (it : JudgedDump asked (Some (dump_text (dump_of_book place entries end))))
        × IsBookOf asked it entries }
    ensures given { (asked : Terms) (place : ℕ) (entries : List Entry) (end : End)
        → asked.without ≡ [] → CanBeDumped 1 entries → IsHead (dump_of_book place entries end).head
        → IsEnd end → IsBookIn (After place) entries → place ≤ length entries
        → (before written : Option (List ℕ)) (old new : Held S) (how : Restored)
        → RestoresDump asked (Some (dump_text (dump_of_book place entries end))) before written
        (state S.Store old) (state S.Store new) how
        → HasCleanDisk (state S.Store new) → IsTrue (state S.Store new).is_open
        → IsGivenBack place entries before written (state S.Store new) how }
    ensures fails { (asked : Terms) (place : ℕ) (entries : List Entry) (end : End)
        → CanBeDumped 1 entries → IsHead (dump_of_book place entries end).head
        → IsEnd end → IsUnchanged (dump_of_book place entries end)
        → (old new : Held S) (calls : Option WriteCalls) (fault : RestoreFault)
        → Fails asked (Some (dump_text (dump_of_book place entries end)))
        (state S.Store old) (state S.Store new) calls fault
        → MayEndSo fault }
{}

/// Commands of a dump come to one list of verdicts, and to one book.
pub fn restoring_gives_one_book()
    ensures { (place : ℕ) (before : List Entry) (dumped : List Dumped)
        (verdicts others : List Verdict) (after other : List Entry)
        → Restores place before dumped verdicts after → Restores place before dumped others other
        → (verdicts ≡ others) × (after ≡ other) }
{}

/// What is restored of commands whose numbers never fall is a book, whatever becomes of each, and as many of its entries are of
/// edition 1 as were accepted by it.
pub fn what_is_restored_is_a_book()
    ensures book { (place : ℕ) (dumped : List Dumped) (verdicts : List Verdict)
        (after : List Entry) → NeverFall 0 dumped → Restores place [] dumped verdicts after
        → IsBookIn (After (place_after place dumped verdicts 0)) after }
    ensures within { (place : ℕ) (dumped : List Dumped) (verdicts : List Verdict)
        (after : List Entry) → Restores place [] dumped verdicts after
        → place_after place dumped verdicts 0 ≤ length after }
{}
