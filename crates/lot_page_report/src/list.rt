//! The rows of a walk are written one after another, each as it is read.

ghost use Rattle.std.specs.Prelude.{◌≡◌, ◌≢◌, ◌∷◌, ◌++◌, [], Err, IfErr, IfOk, List, OnErr, OnOk, map, ℕ};
ghost use Rattle.std.specs.Io.KnownBytes.{Appends};
ghost use Rattle.std.specs.String.{string_bytes};
ghost use Rattle.lot_book.specs.Facts.{Entry};
ghost use Rattle.lot_book_report.specs.Csv.{AreGood};
ghost use Rattle.lot_book_report.specs.Fault.{HasCause};
ghost use Rattle.lot_book_report.specs.Show.{ReadsBook};
ghost use Rattle.lot_book_report.specs.declared.fault.ShowFault.TheVariants.{Row as AtRow};
ghost use Rattle.lot_io.specs.Writes.{HasFailed, NoneFailed, writes_between};
ghost use Rattle.lot_page_report.specs.List.{Lists, ListsRows, list_text};
ghost use Rattle.lot_report.specs.Written.{WritesLine};
ghost use Rattle.lot_report.specs.declared.fault.ReportFault.TheVariants.{Range};
ghost use Rattle.lot_report.specs.declared.fault.RowFault.TheVariants.{Report};
ghost use Rattle.lot_rows.specs.Tables.{Tables};
ghost use Rattle.lot_store.specs.Walk.{HasGiven, HasGivenRows};
ghost use Rattle.lot_store.specs.declared.walk.Stage.TheVariants.{Going};
ghost use Rattle.lot_stored.specs.StandFor.{Stands};
ghost use Rattle.lot_sums.specs.Gather.{AreToldAs};
ghost use Rattle.sqlite.specs.Held.{state};
ghost use Rattle.sqlite.specs.State.{HasCleanDisk};

use lot_book_report::ShowFault;
use lot_io::CountedWrite;
use lot_report::{PrintFault, print_texts};
use lot_store::{StoreFault, Walk};
use lot_walk::Place;
use sqlite::Alter;
use std::alloc::AllocError;

/// What makes the text of rows, one after another.
pub(crate) trait Listing<Row> {
    // What is asked for.
    ghost Terms: { Type 0 };

    // What a row tells it.
    ghost Told: { Type 0 };

    ghost told: { Row → Told };

    // The text of a row behind others, and what stands behind all of them.
    ghost piece: { Terms → List Told → Told → List ℕ };

    ghost end_of: { Terms → List Told → List ℕ };

    // It has made the texts of these rows and of no other.
    ghost HasListed: { Terms → List Told → Self → Type 0 };

    /// Returns the text of one more row. The only error is out of memory.
    fn next_text(&mut self, row: Row) -> Result<String, AllocError>
        ensures { (terms : Terms) (rows : List Told) → HasListed terms rows self.old
            → IfOk result (λ text. HasListed terms (rows ++ told row ∷ []) self.new
            × (string_bytes text ≡ piece terms rows (told row))) };

    /// Returns what stands behind all rows.
    fn end_text(&self) -> &'static str
        ensures { (terms : Terms) (rows : List Told) → HasListed terms rows self.now
            → result.now ≡ end_of terms rows };
}

/// Writes the texts of all rows of a walk, which stands before its first one, and what stands
/// behind them. Nothing is flushed.
///
/// Where the book stops or memory ends, the texts of some first rows are written, each whole. Where
/// the writer fails, a prefix of all of it is. Of a book that is the text of all its rows. In the
/// contract rows are what the walk tells of them, and `tell` is what the list is told of that.
pub(crate) fn write_list<S: Alter, P: Place, L: Listing<P::Row>, W: CountedWrite>(
    walk: &mut Walk<'_, S, P>,
    list: &mut L,
    writer: &mut W,
) -> Result<(), ShowFault>
    requires going { walk.old.stage ≡ Going }
    requires begun { (entries : List Entry)
        → Stands (state S.Store walk.old.book.now.conn) entries → (asked : P.Place.Asked)
        × HasGiven S.Store P.Place.AreAll P.Place.IsBehind walk.old asked entries [] }
    ensures same_reference { walk.new.book.ghost_name ≡ walk.old.book.ghost_name }
    ensures lists { (terms : L.Listing.Terms) → L.Listing.HasListed terms [] list.old
        → (tell : P.Place.Shown → L.Listing.Told)
        → AreToldAs P.Place.shown L.Listing.told tell
        → HasCleanDisk (state S.Store walk.new.book.now.conn)
        → (asked : P.Place.Asked) (entries : List Entry)
        → HasGiven S.Store P.Place.AreAll P.Place.IsBehind walk.old asked entries []
        → (all : List P.Place.Shown) × P.Place.AreAll asked entries all
        × ListsRows (L.Listing.piece terms) (L.Listing.end_of terms) (map tell all)
        (W.contents writer.old) (W.contents writer.new) result }
    ensures some { (terms : L.Listing.Terms) → L.Listing.HasListed terms [] list.old
        → Lists (L.Listing.piece terms) (L.Listing.end_of terms)
        (W.contents writer.old) (W.contents writer.new) result }
    ensures rows { (terms : L.Listing.Terms) → L.Listing.HasListed terms [] list.old
        → (tell : P.Place.Shown → L.Listing.Told)
        → AreToldAs P.Place.shown L.Listing.told tell
        → HasCleanDisk (state S.Store walk.new.book.now.conn)
        → (asked : P.Place.Asked) (tables : Tables)
        → HasGivenRows S.Store P.Place.IsBehindRows walk.old asked tables []
        → OnOk result ((all : List P.Place.Shown) × P.Place.AreAllRows asked tables all
        × AreGood P.Place.shown P.Place.IsGood all
        × Appends (W.contents writer.old) (W.contents writer.new)
        (list_text (L.Listing.piece terms) (L.Listing.end_of terms) (map tell all))) }
    ensures in_range { result ≢ Err (AtRow (Report Range)) }
    ensures reads { ReadsBook S.Store walk.old.book.now walk.new.book.now result }
    ensures cause { HasCause result (writes_between (W.calls writer.old) (W.calls writer.new)) }
{
    'rows: for _ in 0..u64::MAX {
        let Some(row) = walk.next()? else {
            return Ok(print_texts(writer, &[list.end_text()])?);
        };
        let text = list.next_text(row)?;
        put_text(writer, text.as_str())?;
    }
    // No book has so many rows.
    Err(ShowFault::from(StoreFault::Memory))
}

/// Writes a text. The only fault is that of the writer. A prefix of the text is then written, but
/// not all of it.
pub(crate) fn put_text<W: CountedWrite>(writer: &mut W, text: &str) -> Result<(), PrintFault>
    ensures bytes { WritesLine (W.contents writer.old) (W.contents writer.new) result text.now }
    ensures fault { IfErr result (λ fault. fault ≡ PrintFault.Write) }
    ensures cause { OnErr result (HasFailed (W.calls writer.new)) }
    ensures none_failed { OnOk result (NoneFailed (W.calls writer.old) (W.calls writer.new)) }
{
    print_texts(writer, &[text])
}
