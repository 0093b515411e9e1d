//! Laws of what the contract of `serve` cites. Each is the contract of a function that does nothing.
ghost use Rattle.std.specs.Prelude.{◌≡◌, ◌≢◌, ◌≤◌, Option, Some, ℕ, List, [], ◌++◌, length};
ghost use Rattle.sqlite.specs.Files.{Finds, HoldsDatabase, IsOpened, file_state, image_of};
ghost use Rattle.sqlite.specs.Held.{Held, state};
ghost use Rattle.sqlite.specs.State.{IsLive, Opens};
ghost use Rattle.sqlite.specs.Tree.{Trees};
ghost use Rattle.sqlite_disk.specs.declared.Files.{Files};
ghost use Rattle.sqlite_store.specs.declared.store.FileStore.{FileStore};
ghost use Rattle.lot_book.specs.Book.{IsBookIn};
ghost use Rattle.lot_book.specs.Edition.{After};
ghost use Rattle.lot_book.specs.Facts.{Entry, text_under};
ghost use Rattle.lot_book.specs.Judged.{JudgesOn};
ghost use Rattle.lot_book.specs.declared.refusal.Refusal.TheVariants.{KeyReused};
ghost use Rattle.lot_book.specs.declared.verdict.Verdict.{Verdict};
ghost use Rattle.lot_book.specs.declared.verdict.Verdict.TheVariants.{Accepted, Refused, Repeated};
ghost use Rattle.lot_command.specs.Canonical.{canonical};
ghost use Rattle.lot_command.specs.declared.command.Command.{Command};
ghost use Rattle.lot_command.specs.declared.key.Key.{Key};
ghost use Rattle.lot_import.specs.Keyed.{IsKeyed};
ghost use Rattle.lot_import.specs.declared.accounts.Accounts.{Accounts};
ghost use Rattle.lot_import.specs.declared.row.Row.{Row};
ghost use Rattle.lot_command.specs.Sayable.{IsSayable};
ghost use Rattle.lot_input.specs.Keyed.{import_source, row_key};
ghost use Rattle.lot_atomic.specs.declared.all_or_none.Ended.{Ended};
ghost use Rattle.lot_atomic.specs.declared.all_or_none.Ended.TheVariants.{Kept};
ghost use Rattle.lot_cli.specs.AllOrNone.{AppliedOn, that_count};
ghost use Rattle.lot_rounding.specs.declared.asked.Asked.{Asked};
ghost use Rattle.lot_rounding.specs.declared.rounding.Rounding.{Rounding};
ghost use Rattle.lot_cli.specs.Sessions.{AllOrNoneLeaves, AreAllKept, Sent, SessionLeaves};
ghost use Rattle.lot_cli.specs.Reopen.{IsOpenedAgain, LeavesOneOf, StandsForOneOf};
ghost use Rattle.lot_stored.specs.StandFor.{Left, Stands};
ghost use Rattle.lot_book_report.specs.Dump.{dump_text};
ghost use Rattle.lot_dump.specs.Form.{IsHead};
ghost use Rattle.lot_parts.specs.Dump.{dump_text as text_of_dump};
ghost use Rattle.lot_input.specs.Input.{Reading};
ghost use Rattle.lot_io.specs.Writes.{WritesMade};
ghost use Rattle.lot_restore.specs.DumpOfBook.{CanBeDumped, GivesBack, HaveNoBlanks};
ghost use Rattle.lot_restore.specs.Restoring.{IsBookOf, JudgedDump, Terms};
ghost use Rattle.lot_store.specs.Extent.{extent_of};
ghost use Rattle.lot_stored.specs.Rows.{entry_rows};
ghost use Rattle.lot_cli.specs.Dumped.{TakesDump, book_dump};
ghost use Rattle.lot_cli.specs.Restore.{RestoresBook};
ghost use Rattle.lot_cli.specs.Says.{Told};

use sqlite::Alter;
use sqlite_disk::Disk;

/// A row of a broker file acts once. Where it is accepted as it is handed in, its text stands under its key. While it stands
/// there, the row is a repeat where it comes again to the same accounts, with its cash rounded to as many decimals, and another
/// row with its `ref` is refused. Neither changes anything.
///
/// A command may stand there that was posted in place of the row. Then the row changes nothing when its file comes: it is a
/// repeat where it says that command, and else it is refused.
pub fn a_row_acts_once()
    ensures stands { (book after : List Entry) (source : List ℕ) (accounts : Accounts)
        (decimals : Option ℕ) (row : Row) (keyed : Key × Asked)
        → IsKeyed source accounts decimals row keyed
        → JudgesOn book keyed.0 keyed.1.command Accepted after
        → text_under after keyed.0 ≡ Some (canonical keyed.1.command) }
    ensures repeats { (book after : List Entry) (source : List ℕ) (accounts : Accounts)
        (decimals : Option ℕ) (row : Row) (keyed again : Key × Asked) (verdict : Verdict)
        → IsKeyed source accounts decimals row keyed → IsKeyed source accounts decimals row again
        → text_under book keyed.0 ≡ Some (canonical keyed.1.command)
        → JudgesOn book again.0 again.1.command verdict after
        → (verdict ≡ Repeated) × (after ≡ book) }
    ensures refused { (book after : List Entry) (source : List ℕ) (accounts : Accounts)
        (decimals others : Option ℕ) (row other : Row) (keyed next : Key × Asked)
        (verdict : Verdict)
        → IsKeyed source accounts decimals row keyed → IsKeyed source accounts others other next
        → other.name ≡ row.name → other ≢ row
        → IsSayable keyed.1.command → IsSayable next.1.command
        → text_under book keyed.0 ≡ Some (canonical keyed.1.command)
        → JudgesOn book next.0 next.1.command verdict after
        → (verdict ≡ Refused KeyReused) × (after ≡ book) }
    ensures in_place { (book after : List Entry) (batch : List ℕ) (accounts : Accounts)
        (decimals : Option ℕ) (row : Row) (posted : Key × Command) (keyed : Key × Asked)
        (verdict : Verdict)
        → posted.0 ≡ row_key batch row.name → text_under book posted.0 ≡ Some (canonical posted.1)
        → IsKeyed (import_source batch) accounts decimals row keyed
        → IsSayable posted.1 → IsSayable keyed.1.command
        → JudgesOn book keyed.0 keyed.1.command verdict after
        → ((posted.1 ≢ keyed.1.command) → (verdict ≡ Refused KeyReused) × (after ≡ book))
        × ((posted.1 ≡ keyed.1.command) → (verdict ≡ Repeated) × (after ≡ book)) }
{}

/// Where a connection that was opened shows what a stop left of a book, it shows this book: its
/// tables and no others, which stand for the same entries.
pub fn a_book_that_is_left_is_found_again<S: Alter>()
    ensures { (c : Held S) (book : List Entry) → Opens (state S.Store c) → IsLive (state S.Store c)
        → Left (state S.Store c).committed.trees book → Stands (state S.Store c) book }
{}

/// The same of two files. Where they hold what a stop left of a book, a connection that is opened over them shows this book.
///
/// Let all that a stop may leave be books that a stop of a session leaves, and let the files read as that stop may leave them.
/// Then the connection shows one of these books.
pub fn a_stop_leaves_what_is_found_again<D: Disk>()
    ensures database { (files : Files D) (c : Held (FileStore D D.Disk))
        (trees : Trees) (book : List Entry)
        → HoldsDatabase (image_of D.Disk files) trees → Left trees book
        → Finds files c → IsOpened c → Stands (file_state c) book }
    ensures session { (stopped : Held (FileStore D D.Disk)) (files : Files D)
        (c : Held (FileStore D D.Disk)) (before : List Entry) (sent : Sent)
        → LeavesOneOf (SessionLeaves before sent) (file_state stopped).may_leave
        → IsOpenedAgain stopped files c
        → StandsForOneOf (SessionLeaves before sent) (file_state c) }
{}

/// What is applied all or none is a session of the headline that keeps its commands so. Its commands are those that were judged
/// in the place of what was handed in.
///
/// Let the book on which they are applied be all that a crash could leave before. Whatever was replied to of them, a crash then
/// leaves a book that a stop of the session leaves; at a fault no reply counts. Where they are kept, it leaves the book after all.
pub fn what_is_applied_all_or_none_is_a_session<S: Alter>()
    ensures leaves { (old new : Held S) (rounding : Option Rounding) (asked : List (Key × Asked))
        (entries : List Entry) (verdicts : List Verdict) (ended : Ended)
        (it : AppliedOn rounding asked entries (state S.Store old) (state S.Store new)
        verdicts ended)
        (replied more : List Verdict)
        → that_count ended verdicts ≡ replied ++ more
        → LeavesOneOf (AllOrNoneLeaves entries it.turned replied) (state S.Store new).may_leave }
    ensures kept { (old new : Held S) (rounding : Option Rounding) (asked : List (Key × Asked))
        (entries : List Entry) (verdicts : List Verdict) (ended : Ended)
        (it : AppliedOn rounding asked entries (state S.Store old) (state S.Store new)
        verdicts ended)
        → ended ≡ Kept
        → LeavesOneOf (AreAllKept entries it.turned) (state S.Store new).may_leave }
{}

/// What `dump` writes of a book is its dump. Where that is restored, and nothing is left out, the book that is made is that book,
/// with its place of migration.
pub fn what_is_dumped_is_restored()
    ensures text { (place : ℕ) (entries : List Entry)
        → dump_text (extent_of place entries) (entry_rows 1 entries)
        ≡ text_of_dump (book_dump place entries) }
    ensures restored { (asked : Terms) (place : ℕ) (entries : List Entry)
        → asked.without ≡ [] → CanBeDumped 1 entries → IsHead (book_dump place entries).head
        → IsBookIn (After place) entries → place ≤ length entries
        → (it : JudgedDump asked
        (Some (dump_text (extent_of place entries) (entry_rows 1 entries))))
        (book : List Entry) → IsBookOf asked it book → GivesBack asked it place entries book }
{}

/// What `dump` writes of a book is taken by `restore`, and the book is made again, with its place of migration: no call is refused
/// since the text is no dump, was changed, or has a faulty line. It is a book no key of which has a blank in its source, as none has
/// that the program posts or imports.
pub fn what_is_dumped_is_taken<S: Alter>()
    ensures { (asked : Terms) (book : Held S) (entries : List Entry)
        (stands : Stands (state S.Store book) entries)
        → asked.without ≡ [] → HaveNoBlanks entries
        → (input : Reading)
        → input.bytes
        ≡ Some (dump_text (extent_of stands.stand.place entries) (entry_rows 1 entries))
        → (old new : Held S) (before written : Option (List ℕ)) (calls : WritesMade) (told : Told)
        → RestoresBook asked input (state S.Store old) (state S.Store new) before written calls told
        → TakesDump stands.stand.place entries asked input
        (state S.Store old) (state S.Store new) before written calls told }
{}
