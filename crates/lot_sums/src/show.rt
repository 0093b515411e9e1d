//! The table of all rows of a walk is written.

ghost use Rattle.std.specs.Prelude.{◌≡◌, [], List, OnOk, map};
ghost use Rattle.lot_book.specs.Facts.{Entry};
ghost use Rattle.lot_book_report.specs.Csv.{AreGood};
ghost use Rattle.lot_book_report.specs.Fault.{HasCause};
ghost use Rattle.lot_book_report.specs.Show.{ReadsBook};
ghost use Rattle.lot_io.specs.Writes.{writes_between};
ghost use Rattle.lot_rows.specs.Tables.{Tables};
ghost use Rattle.lot_store.specs.Walk.{HasGiven, HasGivenRows};
ghost use Rattle.lot_store.specs.declared.walk.Stage.TheVariants.{Going};
ghost use Rattle.lot_stored.specs.StandFor.{Stands};
ghost use Rattle.lot_sums.specs.Gather.{AreToldAs, ShowsTable};
ghost use Rattle.sqlite.specs.Held.{state};
ghost use Rattle.sqlite.specs.State.{HasCleanDisk};

use crate::gathering::gather;
use crate::tally::Table;
use lot_book_report::ShowFault;
use lot_io::CountedWrite;
use lot_store::Walk;
use lot_walk::Place;
use sqlite::Alter;

/// Takes all rows of a walk, which stands before its first one, into a table that has taken none, and writes the table. Nothing is
/// flushed.
///
/// Where the book stops, or a sum leaves its range, nothing is written. Where the call succeeds, the table has taken all rows of the
/// book. In the contract rows are what the walk tells of them, and
/// `tell` is what the table is told of that.
pub fn show_table<S: Alter, P: Place, T: Table<P::Row>, W: CountedWrite>(
    walk: &mut Walk<'_, S, P>,
    tally: &mut T,
    writer: &mut W,
) -> Result<(), ShowFault>
    requires going { walk.old.stage ≡ Going }
    requires begun { (entries : List Entry)
        → Stands (state S.Store walk.old.book.now.conn) entries → (asked : P.Place.Asked)
        × HasGiven S.Store P.Place.AreAll P.Place.IsBehind walk.old asked entries [] }
    requires fresh { (terms : T.Tally.Terms) × T.Tally.HasTaken terms [] tally.old }
    ensures same_reference { walk.new.book.ghost_name ≡ walk.old.book.ghost_name }
    ensures shows { (terms : T.Tally.Terms) → T.Tally.HasTaken terms [] tally.old
        → (tell : P.Place.Shown → T.Tally.Told)
        → AreToldAs P.Place.shown T.Tally.told tell
        → HasCleanDisk (state S.Store walk.new.book.now.conn)
        → (asked : P.Place.Asked) (entries : List Entry)
        → HasGiven S.Store P.Place.AreAll P.Place.IsBehind walk.old asked entries []
        → (all : List P.Place.Shown) × P.Place.AreAll asked entries all
        × ShowsTable (T.Tally.fits terms) (T.Tally.AreLines terms) (map tell all)
        (W.contents writer.old) (W.contents writer.new) result }
    ensures keeps { (terms : T.Tally.Terms) → T.Tally.HasTaken terms [] tally.old
        → (tell : P.Place.Shown → T.Tally.Told)
        → AreToldAs P.Place.shown T.Tally.told tell
        → HasCleanDisk (state S.Store walk.new.book.now.conn)
        → (asked : P.Place.Asked) (entries : List Entry)
        → HasGiven S.Store P.Place.AreAll P.Place.IsBehind walk.old asked entries []
        → OnOk result ((all : List P.Place.Shown) × P.Place.AreAll asked entries all
        × T.Tally.HasTaken terms (map tell all) tally.new) }
    ensures some { (terms : T.Tally.Terms) → T.Tally.HasTaken terms [] tally.old
        → (rows : List T.Tally.Told)
        × ShowsTable (T.Tally.fits terms) (T.Tally.AreLines terms) rows
        (W.contents writer.old) (W.contents writer.new) result }
    ensures rows { (terms : T.Tally.Terms) → T.Tally.HasTaken terms [] tally.old
        → (tell : P.Place.Shown → T.Tally.Told)
        → AreToldAs P.Place.shown T.Tally.told tell
        → HasCleanDisk (state S.Store walk.new.book.now.conn)
        → (asked : P.Place.Asked) (tables : Tables)
        → HasGivenRows S.Store P.Place.IsBehindRows walk.old asked tables []
        → OnOk result ((all : List P.Place.Shown) × P.Place.AreAllRows asked tables all
        × AreGood P.Place.shown P.Place.IsGood all
        × ShowsTable (T.Tally.fits terms) (T.Tally.AreLines terms) (map tell all)
        (W.contents writer.old) (W.contents writer.new) result) }
    ensures reads { ReadsBook S.Store walk.old.book.now walk.new.book.now result }
    ensures cause { HasCause result (writes_between (W.calls writer.old) (W.calls writer.new)) }
{
    gather(walk, tally)?;
    tally.print(writer)?;
    Ok(())
}
