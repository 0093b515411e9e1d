ghost use Rattle.std.specs.Prelude.{◌≡◌, ◌≢◌, [], ◌∷◌, ◌++◌, All, Err, IfOk, List, OnOk, SomeIff, map};
ghost use Rattle.lot_book.specs.OpeningNumber.{IsNumbered};
ghost use Rattle.lot_book.specs.declared.leg.Leg.{Leg};
ghost use Rattle.lot_migrate.specs.LotOpenings.{Keeps, LeavesRange};
ghost use Rattle.lot_migrate.specs.Read.{
  AreLegs,
  CanFold,
  IsLastOf,
  KeepsTable,
  LotsStayInRange,
  Reads,
};
ghost use Rattle.lot_migrate.specs.Rows.{leg_of};
ghost use Rattle.lot_rows.specs.Leg.{IsLegRow, leg_cells};
ghost use Rattle.lot_rows.specs.declared.leg.LegRow.{LegRow};
ghost use Rattle.sqlite.specs.Held.{state};

use crate::opening_numbers::{LegFault, OpenLots};
use crate::progress::Progress;
use lot_book::{Leg, MOST_POSTINGS, Position};
use lot_page::legs_behind;
use lot_rows::leg::LegRow;
use lot_table::{Fault, TableRow};
use sqlite::{Alter, Row, Transaction};
use std::alloc::Global;

/// The most entries of a book.
const MOST_ENTRIES: u32 = 2_000_000_000;

/// Returns what the legs of the table leave in each lot, and the posting that opened it last.
///
/// The legs are read a page at a time, in the order of the table. The error is `Damaged` where no
/// book has the leg, or where the leg takes the units of its lot out of their range.
pub(crate) fn fold_legs<S: Alter, P: Progress>(
    alloc: Global,
    tx: &mut Transaction<'_, S>,
    progress: &mut P,
) -> Result<OpenLots, Fault>
    ensures same_reference { tx.new.conn.ghost_name ≡ tx.old.conn.ghost_name }
    ensures reads { Reads KeepsTable CanFold
        (state S.Store tx.old.conn.now) (state S.Store tx.new.conn.now) result }
    ensures kept { IfOk result (λ lots.
        (rows : List LegRow) × AreLegs rows × Keeps (map leg_of rows) lots) }
{
    let mut lots = OpenLots::new(alloc);
    let mut last = None;
    'pages: for _ in 0..u64::MAX {
        let page = legs_behind(tx, &last)?;
        let Some(row) = last_row(alloc, &page)? else {
            return Ok(lots);
        };
        post_page(alloc, &mut lots, &page)?;
        progress.legs_read(page.len());
        last = Some(row);
    }
    // No book has so many legs.
    Err(Fault::Memory)
}

/// Returns the last row of a page, or `None` where the page has none.
fn last_row(alloc: Global, page: &[Row]) -> Result<Option<LegRow>, Fault>
    ensures ok { IfOk result (IsLastOf page.now) }
    ensures damaged { result ≡ Err Fault.Damaged
        → (rows : List LegRow) → All IsLegRow rows → page.now ≢ map leg_cells rows }
    ensures no_device { result ≢ Err Fault.Device }
{
    match page.last() {
        Some(row) => Ok(Some(LegRow::read(alloc, row)?)),
        None => Ok(None),
    }
}

/// Posts the legs of a page, one after another.
fn post_page(alloc: Global, lots: &mut OpenLots, page: &[Row]) -> Result<(), Fault>
    ensures posts { OnOk result ((rows : List LegRow)
        × (page.now ≡ map leg_cells rows) × AreLegs rows
        × ((before : List Leg) → Keeps before lots.old
        → Keeps (before ++ map leg_of rows) lots.new)) }
    ensures damaged { result ≡ Err Fault.Damaged
        → (before : List Leg) → Keeps before lots.old → (rows : List LegRow) → AreLegs rows
        → page.now ≡ map leg_cells rows → ¬ LotsStayInRange (before ++ map leg_of rows) }
    ensures no_device { result ≢ Err Fault.Device }
{
    'rows: for row in page {
        post_row(alloc, lots, row)?;
    }
    Ok(())
}

/// Posts the leg of a row.
fn post_row(alloc: Global, lots: &mut OpenLots, row: &Row) -> Result<(), Fault>
    ensures posts { OnOk result ((leg : LegRow)
        × (row.now ≡ leg_cells leg) × IsLegRow leg × IsNumbered (leg_of leg)
        × ((before : List Leg) → Keeps before lots.old
        → Keeps (before ++ leg_of leg ∷ []) lots.new)) }
    ensures damaged { result ≡ Err Fault.Damaged
        → (before : List Leg) → Keeps before lots.old
        → (leg : LegRow) → IsLegRow leg → IsNumbered (leg_of leg) → row.now ≡ leg_cells leg
        → LeavesRange before (leg_of leg) }
    ensures no_device { result ≢ Err Fault.Device }
{
    let Some(leg) = leg_of(LegRow::read(alloc, row)?) else {
        return Err(Fault::Damaged);
    };
    match lots.post(&leg) {
        Ok(()) => Ok(()),
        Err(LegFault::Range) => Err(Fault::Damaged),
        Err(LegFault::Memory) => Err(Fault::Memory),
    }
}

/// Returns the leg of a row, or `None` where its numbers are none of a book.
fn leg_of(row: LegRow) -> Option<Leg>
    ensures { SomeIff result (IsNumbered (leg_of row)) (leg_of row) }
{
    let entry = row.entry.number();
    let posting = row.posting.number() as usize;
    if entry > MOST_ENTRIES || posting > MOST_POSTINGS {
        return None;
    }
    Some(Leg {
        entry: u64::from(entry),
        posting,
        place: row.place as usize,
        position: Position {
            account: row.account,
            commodity: row.commodity,
            lot: row.lot,
        },
        units: row.units,
    })
}
