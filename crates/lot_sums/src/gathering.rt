//! All rows of a walk are taken, and added up.

ghost use Rattle.std.specs.Prelude.{◌≡◌, [], List, OnOk, map};
ghost use Rattle.lot_book.specs.Facts.{Entry};
ghost use Rattle.lot_book_report.specs.Csv.{AreGood};
ghost use Rattle.lot_book_report.specs.Show.{ReadsBook};
ghost use Rattle.lot_rows.specs.Tables.{Tables};
ghost use Rattle.lot_store.specs.Walk.{HasGiven, HasGivenRows};
ghost use Rattle.lot_store.specs.declared.walk.Stage.TheVariants.{Going};
ghost use Rattle.lot_stored.specs.StandFor.{Stands};
ghost use Rattle.lot_sums.specs.Gather.{AreToldAs, Gathers};
ghost use Rattle.sqlite.specs.Held.{state};
ghost use Rattle.sqlite.specs.State.{HasCleanDisk};

use crate::tally::Tally;
use lot_book_report::ShowFault;
use lot_report::RowFault;
use lot_store::{StoreFault, Walk};
use lot_walk::Place;
use sqlite::Alter;

/// Takes all rows of a walk, which stands before its first one, into what adds them up.
///
/// Where a sum leaves its range, the rows before were taken. Nothing is written. In the contract rows are what the walk tells of
/// them, and `tell` is what the tally is told of that.
pub fn gather<S: Alter, P: Place, T: Tally<P::Row>>(
    walk: &mut Walk<'_, S, P>,
    tally: &mut T,
) -> Result<(), ShowFault>
    requires going { walk.old.stage ≡ Going }
    requires begun { (entries : List Entry)
        → Stands (state S.Store walk.old.book.now.conn) entries → (asked : P.Place.Asked)
        × HasGiven S.Store P.Place.AreAll P.Place.IsBehind walk.old asked entries [] }
    ensures same_reference { walk.new.book.ghost_name ≡ walk.old.book.ghost_name }
    ensures gathers { (terms : T.Tally.Terms) → T.Tally.HasTaken terms [] tally.old
        → (tell : P.Place.Shown → T.Tally.Told)
        → AreToldAs P.Place.shown T.Tally.told tell
        → HasCleanDisk (state S.Store walk.new.book.now.conn)
        → (asked : P.Place.Asked) (entries : List Entry)
        → HasGiven S.Store P.Place.AreAll P.Place.IsBehind walk.old asked entries []
        → (all : List P.Place.Shown) × P.Place.AreAll asked entries all
        × Gathers (T.Tally.fits terms) (T.Tally.HasTaken terms) (map tell all) tally.new result }
    ensures some { (terms : T.Tally.Terms) → T.Tally.HasTaken terms [] tally.old
        → (rows : List T.Tally.Told)
        × Gathers (T.Tally.fits terms) (T.Tally.HasTaken terms) rows tally.new result }
    ensures rows { (terms : T.Tally.Terms) → T.Tally.HasTaken terms [] tally.old
        → (tell : P.Place.Shown → T.Tally.Told)
        → AreToldAs P.Place.shown T.Tally.told tell
        → HasCleanDisk (state S.Store walk.new.book.now.conn)
        → (asked : P.Place.Asked) (tables : Tables)
        → HasGivenRows S.Store P.Place.IsBehindRows walk.old asked tables []
        → OnOk result ((all : List P.Place.Shown) × P.Place.AreAllRows asked tables all
        × AreGood P.Place.shown P.Place.IsGood all
        × Gathers (T.Tally.fits terms) (T.Tally.HasTaken terms) (map tell all) tally.new result) }
    ensures reads { ReadsBook S.Store walk.old.book.now walk.new.book.now result }
{
    'rows: for _ in 0..u64::MAX {
        let Some(row) = walk.next()? else {
            return Ok(());
        };
        match tally.take(row) {
            Ok(()) => {}
            Err(fault) => return Err(ShowFault::Row(RowFault::Report(fault))),
        }
    }
    // No book has so many rows.
    Err(ShowFault::from(StoreFault::Memory))
}
