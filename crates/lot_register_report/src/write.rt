ghost use Rattle.std.specs.Prelude.{◌≡◌, [], List, OnOk};
ghost use Rattle.lot_book.specs.Facts.{Entry};
ghost use Rattle.lot_book_report.specs.Fault.{HasCause};
ghost use Rattle.lot_book_report.specs.Show.{ReadsBook};
ghost use Rattle.lot_io.specs.Writes.{writes_between};
ghost use Rattle.lot_recall.specs.Wanted.{AreWanted, AreWantedRows, IsBehindWanted, IsBehindWantedRows};
ghost use Rattle.lot_recall.specs.Wanted.{Wanted};
ghost use Rattle.lot_register.specs.Register.{HasTaken, Terms};
ghost use Rattle.lot_register.specs.declared.leg.NotedLeg.{NotedLeg as NotedLegOf};
ghost use Rattle.lot_register_report.specs.Show.{ShowsRegister};
ghost use Rattle.lot_rows.specs.Tables.{Tables};
ghost use Rattle.lot_store.specs.Walk.{HasGiven, HasGivenRows};
ghost use Rattle.lot_store.specs.declared.walk.Stage.TheVariants.{Going};
ghost use Rattle.lot_stored.specs.StandFor.{Stands};
ghost use Rattle.sqlite.specs.Held.{state};
ghost use Rattle.sqlite.specs.State.{HasCleanDisk};

use lot_book_report::ShowFault;
use lot_io::CountedWrite;
use lot_recall::RegisterPlace;
use lot_register::Register;
use lot_report::RowFault;
use lot_store::{StoreFault, Walk};
use sqlite::Alter;

/// Writes the rows of all legs of a walk into a register, which has taken none, each row as its leg
/// is read. The walk stands before its first leg. Nothing is flushed.
///
/// Where the book stops, the rows of the legs read before are written, and nothing behind them.
/// Where it stops before the first leg, nothing is written, not even the names of the columns.
pub(crate) fn write_register<S: Alter, W: CountedWrite>(
    walk: &mut Walk<'_, S, RegisterPlace>,
    register: &mut Register,
    writer: &mut W,
) -> Result<(), ShowFault>
    requires going { walk.old.stage ≡ Going }
    requires begun { HasCleanDisk (state S.Store walk.old.book.now.conn) → (entries : List Entry)
        → Stands (state S.Store walk.old.book.now.conn) entries → (wanted : Wanted)
        × HasGiven S.Store AreWanted IsBehindWanted walk.old wanted entries [] }
    ensures same_reference { walk.new.book.ghost_name ≡ walk.old.book.ghost_name }
    ensures shows { (terms : Terms) → HasTaken terms [] register.old
        → HasCleanDisk (state S.Store walk.new.book.now.conn)
        → (wanted : Wanted) (entries : List Entry)
        → HasGiven S.Store AreWanted IsBehindWanted walk.old wanted entries []
        → (legs : List NotedLegOf) × AreWanted wanted entries legs
        × ShowsRegister terms legs (W.contents writer.old) (W.contents writer.new) result }
    ensures some { (terms : Terms) → HasTaken terms [] register.old → (legs : List NotedLegOf)
        × ShowsRegister terms legs (W.contents writer.old) (W.contents writer.new) result }
    ensures rows { (terms : Terms) → HasTaken terms [] register.old
        → HasCleanDisk (state S.Store walk.new.book.now.conn)
        → (wanted : Wanted) (tables : Tables)
        → HasGivenRows S.Store IsBehindWantedRows walk.old wanted tables []
        → OnOk result ((legs : List NotedLegOf) × AreWantedRows wanted tables legs
        × ShowsRegister terms legs (W.contents writer.old) (W.contents writer.new) result) }
    ensures reads { ReadsBook S.Store walk.old.book.now walk.new.book.now result }
    ensures cause { HasCause result (writes_between (W.calls writer.old) (W.calls writer.new)) }
{
    let mut found = walk.next()?;
    register.begin(writer)?;
    'legs: for _ in 0..u64::MAX {
        let Some(leg) = found else {
            return Ok(register.end(writer)?);
        };
        match register.row(&leg, writer) {
            Ok(()) => {}
            Err(fault) => return Err(ShowFault::Row(RowFault::Report(fault))),
        }
        found = walk.next()?;
    }
    // No book has so many legs.
    Err(ShowFault::from(StoreFault::Memory))
}
