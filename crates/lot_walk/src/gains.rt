ghost use Rattle.std.specs.Prelude.{◌≡◌, ◌≢◌, IfOk, List, Option, map, ℤ};
ghost use Rattle.lot_cost.specs.declared.lot_key.LotKey.{LotKey as LotKeyOf};
ghost use Rattle.lot_walk.specs.Gains.{AreAllSaleRows, AreSalesWithin, HasLegs, IsBehindSaleRows, IsBehindSales, Range, at_lot, is_from, is_up_to, is_within, taken};
ghost use Rattle.lot_walk.specs.SaleStep.{TellsSale};
ghost use Rattle.lot_walk.specs.Step.{HasGivenNoRows, HasGivenNone};
ghost use Rattle.lot_walk.specs.declared.gains.NumberedSale.{NumberedSale as NumberedSaleOf};
ghost use Rattle.sqlite.specs.Held.{state};

use crate::place::Place;
use lot_base::Day;
use lot_book::{LotKey, Sale};
use lot_num::Units;
use lot_page::SaleCursor;
use lot_rows::leg::{LegRow, list_of};
use lot_rows::sale::SaleRow;
use lot_table::Fault;
use sqlite::{Alter, Connection};
use std::alloc::Global;

/// A sale of a book, with the posting that it is.
#[derive(Drop)]
pub struct NumberedSale {
    /// The number of its entry, from 1.
    pub entry: u32,
    /// The place of its posting in the entry, from 1.
    pub posting: u32,
    pub sale: Sale,
}

/// The place of a walk over the sales of a book on the days of a range, in their order, each with its legs.
#[derive(Drop)]
pub struct GainsPlace {
    cursor: SaleCursor,
    first: Option<Day>,
    last: Option<Day>,
}

impl GainsPlace {
    /// Returns the place before the first sale. The walk is over the sales from the first day to the last, both included.
    /// Without a day that end of the range is open. It takes no memory.
    pub fn new(alloc: Global, first: Option<Day>, last: Option<Day>) -> GainsPlace
        ensures begun { HasGivenNone AreSalesWithin IsBehindSales result (first, last) }
        ensures rows { HasGivenNoRows IsBehindSaleRows result (first, last) }
    {
        GainsPlace {
            cursor: SaleCursor::new(alloc),
            first,
            last,
        }
    }
}

impl Place for GainsPlace {
    type Row = NumberedSale;

    ghost Asked = { Range };

    ghost Shown = { NumberedSaleOf };

    ghost shown = { λ sold. sold };

    ghost IsGood = { HasLegs };

    ghost AreAll = { AreSalesWithin };

    ghost IsBehind = { IsBehindSales };

    ghost AreAllRows = { AreAllSaleRows };

    ghost IsBehindRows = { IsBehindSaleRows };

    /// `Memory` is returned also where more sales are passed over than a `u64` counts.
    fn next<S: Alter>(
        &mut self,
        alloc: Global,
        conn: &mut Connection<S>,
    ) -> Result<Option<NumberedSale>, Fault> {
        'rows: for _ in 0..u64::MAX {
            let Some(row) = self.cursor.next(conn)? else {
                return Ok(None);
            };
            if is_within(self.first, self.last, row.day) {
                let entry = row.entry.number();
                let posting = row.posting.number();
                let sale = sale_of(alloc, conn, row)?;
                return Ok(Some(NumberedSale {
                    entry,
                    posting,
                    sale,
                }));
            }
        }
        Err(Fault::Memory)
    }
}

/// Returns whether a day is in a range.
fn is_within(first: Option<Day>, last: Option<Day>, day: Day) -> bool
    ensures { result ≡ is_within (first, last) day }
{
    is_from(first, day) && is_up_to(last, day)
}

/// Returns whether a range that begins on a day, if it begins, hasn't begun later.
fn is_from(first: Option<Day>, day: Day) -> bool
    ensures { result ≡ is_from first day }
{
    match first {
        Some(first) => day >= first,
        None => true,
    }
}

/// Returns whether a range that ends on a day, if it ends, hasn't ended before.
fn is_up_to(last: Option<Day>, day: Day) -> bool
    ensures { result ≡ is_up_to last day }
{
    match last {
        Some(last) => day <= last,
        None => true,
    }
}

/// Returns the sale that a row and the legs of its posting say.
///
/// The error is `Damaged` where the legs aren't those of the units, and only in tables that stand for no book.
fn sale_of<S: Alter>(alloc: Global, conn: &mut Connection<S>, row: SaleRow) -> Result<Sale, Fault>
    ensures tells { TellsSale row (state S.Store conn.old) (state S.Store conn.new) result }
{
    let rows = list_of(alloc, conn, row.entry, row.posting)?;
    let legs = legs_at(alloc, &rows)?;
    let units = row.units.units();
    match Sale::new(row.day, row.account, row.commodity, units, row.price, legs) {
        Some(sale) => Ok(sale),
        None => Err(Fault::Damaged),
    }
}

/// Returns the lots and the units of legs.
///
/// The error is `Damaged`, exactly where some leg isn't at a lot, or `Memory`.
fn legs_at(alloc: Global, rows: &[LegRow]) -> Result<Vec<(LotKey, Units)>, Fault>
    ensures ok { IfOk result (λ legs. map taken rows.now ≡ map at_lot legs.items) }
    ensures damaged { result ≡ Err Fault.Damaged → (legs : List (LotKeyOf × ℤ))
        → map taken rows.now ≢ map at_lot legs }
    ensures no_device { result ≢ Err Fault.Device }
{
    let mut legs = Vec::new(alloc);
    'rows: for row in rows {
        let Some(lot) = &row.lot else {
            return Err(Fault::Damaged);
        };
        legs.push((lot.copy()?, row.units))?;
    }
    Ok(legs)
}
