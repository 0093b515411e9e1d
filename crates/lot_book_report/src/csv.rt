//! Reports of a book as CSV: a header with the names of the columns, then the records of the rows
//! of a walk.
ghost use Rattle.std.specs.Prelude.{◌≡◌, ℕ, IsErrOf, List, OnOk, [], ◌++◌};
ghost use Rattle.std.specs.Io.KnownBytes.{Appends};
ghost use Rattle.lot_book.specs.Facts.{Entry};
ghost use Rattle.lot_book_report.specs.Csv.{AreGood, AreRecordsOf, ShowsCsv, ShowsSomeCsv};
ghost use Rattle.lot_book_report.specs.Fault.{HasCause};
ghost use Rattle.lot_book_report.specs.Show.{ReadsBook};
ghost use Rattle.lot_report.specs.Fed.{text_of};
ghost use Rattle.lot_io.specs.Writes.{HasFailed, NoneFailed, writes_between};
ghost use Rattle.lot_report.specs.Written.{WritesEach};
ghost use Rattle.lot_rows.specs.Tables.{Tables};
ghost use Rattle.lot_store.specs.Walk.{HasGiven, HasGivenRows};
ghost use Rattle.lot_store.specs.declared.walk.Stage.TheVariants.{Going};
ghost use Rattle.lot_stored.specs.StandFor.{Stands};
ghost use Rattle.sqlite.specs.Held.{state};
ghost use Rattle.sqlite.specs.State.{HasCleanDisk};

mod gains;
mod holdings;

use crate::fault::ShowFault;
pub use gains::show_gains_csv;
pub use holdings::{show_holdings_csv, write_listed_csv};
use lot_io::CountedWrite;
use lot_report::{PrintFault, print_texts};
use lot_store::{StoreFault, Walk};
use lot_walk::Place;
use sqlite::Alter;
use std::alloc::Global;

/// The records that the rows of a walk give.
pub(crate) trait Records<Row> {
    // The records of a row, each with its line end.
    ghost records: { Self → Row → List (List ℕ) };

    /// Writes the records of a row. Where memory ends, whole records are written, but not all.
    /// Where the writer fails, a prefix of the records is written, but not all of it.
    fn write<W: CountedWrite>(
        &self,
        alloc: Global,
        row: Row,
        writer: &mut W,
    ) -> Result<(), PrintFault>
        ensures records { WritesEach (λ text. text) (records self.now row)
            (W.contents writer.old) (W.contents writer.new) result }
        ensures cause { IsErrOf result PrintFault.Write → HasFailed (W.calls writer.new) }
        ensures none_failed { OnOk result (NoneFailed (W.calls writer.old) (W.calls writer.new)) };
}

/// Writes the header, then the records of all rows of a walk, each row as it is read. The walk
/// stands before its first row. Nothing is flushed.
///
/// Where the book stops, the records of the rows read before are written, and nothing behind them.
/// Where it stops before the first row, nothing is written. In the contract rows are what the walk
/// tells of them, and `told` are the records of what is told.
fn write_csv<S: Alter, P: Place, R: Records<P::Row>, W: CountedWrite>(
    alloc: Global,
    header: &str,
    records: &R,
    walk: &mut Walk<'_, S, P>,
    writer: &mut W,
) -> Result<(), ShowFault>
    requires going { walk.old.stage ≡ Going }
    requires begun { (entries : List Entry)
        → Stands (state S.Store walk.old.book.now.conn) entries → (asked : P.Place.Asked)
        × HasGiven S.Store P.Place.AreAll P.Place.IsBehind walk.old asked entries [] }
    ensures same_reference { walk.new.book.ghost_name ≡ walk.old.book.ghost_name }
    ensures shows { (told : P.Place.Shown → List (List ℕ))
        → AreRecordsOf P.Place.shown (R.Records.records records.now) told
        → HasCleanDisk (state S.Store walk.new.book.now.conn)
        → (asked : P.Place.Asked) (entries : List Entry)
        → HasGiven S.Store P.Place.AreAll P.Place.IsBehind walk.old asked entries []
        → (all : List P.Place.Shown) × P.Place.AreAll asked entries all
        × ShowsCsv header.now told all (W.contents writer.old) (W.contents writer.new) result }
    ensures lines { (told : P.Place.Shown → List (List ℕ))
        → AreRecordsOf P.Place.shown (R.Records.records records.now) told
        → ShowsSomeCsv header.now told (W.contents writer.old) (W.contents writer.new) result }
    ensures rows { (told : P.Place.Shown → List (List ℕ))
        → AreRecordsOf P.Place.shown (R.Records.records records.now) told
        → HasCleanDisk (state S.Store walk.new.book.now.conn)
        → (asked : P.Place.Asked) (tables : Tables)
        → HasGivenRows S.Store P.Place.IsBehindRows walk.old asked tables []
        → OnOk result ((all : List P.Place.Shown) × P.Place.AreAllRows asked tables all
        × AreGood P.Place.shown P.Place.IsGood all
        × Appends (W.contents writer.old) (W.contents writer.new)
        (header.now ++ text_of told all)) }
    ensures reads { ReadsBook S.Store walk.old.book.now walk.new.book.now result }
    ensures cause { HasCause result (writes_between (W.calls writer.old) (W.calls writer.new)) }
{
    let mut found = walk.next()?;
    print_texts(writer, &[header])?;
    'rows: for _ in 0..u64::MAX {
        let Some(row) = found else {
            return Ok(());
        };
        records.write(alloc, row, writer)?;
        found = walk.next()?;
    }
    // No book has so many rows.
    Err(ShowFault::from(StoreFault::Memory))
}
