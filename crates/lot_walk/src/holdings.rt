ghost use Rattle.std.specs.Prelude.{◌≡◌, false, Some};
ghost use Rattle.sqlite.specs.Held.{state};
ghost use Rattle.lot_book.specs.declared.holding.Holding.{Holding as HoldingOf};
ghost use Rattle.lot_walk.specs.Holdings.{AreAllHoldingRows, AreHoldings, Begins, BeginsOverRows, IsAnyHolding, IsBehindHoldingRows, IsBehindHoldings, Takes, is_lot_next, lot_holding, plain_holding, shown_holding};
ghost use Rattle.lot_walk.specs.Step.{HasGivenNoRows, HasGivenNone};

use crate::place::Place;
use lot_book::Holding;
use lot_page::LotCursor;
use lot_rows::lot::LotRow;
use lot_rows::plain::{PlainRow, list};
use lot_table::Fault;
use sqlite::{Alter, Connection};
use std::alloc::Global;
use std::mem;
use std::vec::IntoIter;

/// The place of a walk over what a book holds: by account, then commodity, the plain units first, then the lots in the order of
/// their keys. It merges the rows of two tables. The rows of plain units are read at once, the lots one after another.
#[derive(Drop)]
pub struct HoldingsPlace {
    has_begun: bool,
    /// The next row of plain units, and those behind it.
    plain: Option<PlainRow>,
    more: IntoIter<PlainRow>,
    /// The next lot.
    lot: Option<LotRow>,
    lots: LotCursor,
}

impl Place for HoldingsPlace {
    type Row = Holding;

    ghost Asked = { Unit {0} };

    ghost Shown = { HoldingOf };

    ghost shown = { shown_holding };

    ghost IsGood = { IsAnyHolding };

    ghost AreAll = { AreHoldings };

    ghost IsBehind = { IsBehindHoldings };

    ghost AreAllRows = { AreAllHoldingRows };

    ghost IsBehindRows = { IsBehindHoldingRows };

    fn next<S: Alter>(
        &mut self,
        alloc: Global,
        conn: &mut Connection<S>,
    ) -> Result<Option<Holding>, Fault> {
        self.begin(alloc, conn)?;
        if !self.is_lot_next() {
            return Ok(self.next_plain());
        }
        let next = self.lots.next(conn)?;
        Ok(mem::replace(&mut self.lot, next).map(lot_holding))
    }
}

impl HoldingsPlace {
    /// Returns the place before the first row. It takes no memory.
    pub fn new(alloc: Global) -> HoldingsPlace
        ensures begun { HasGivenNone AreHoldings IsBehindHoldings result tt }
        ensures rows { HasGivenNoRows IsBehindHoldingRows result tt }
    {
        let lots = LotCursor::new(alloc);
        HoldingsPlace {
            has_begun: false,
            plain: None,
            more: Vec::new(alloc).into_iter(),
            lot: None,
            lots,
        }
    }

    /// Reads the rows of plain units and the first lot, unless they are read.
    fn begin<S: Alter>(&mut self, alloc: Global, conn: &mut Connection<S>) -> Result<(), Fault>
        ensures begins { Begins self.old self.new (state S.Store conn.old)
            (state S.Store conn.new) result }
        ensures rows { BeginsOverRows self.old self.new (state S.Store conn.old)
            (state S.Store conn.new) result }
    {
        if self.has_begun {
            return Ok(());
        }
        self.more = list(alloc, conn)?.into_iter();
        self.plain = self.more.next();
        self.lot = self.lots.next(conn)?;
        self.has_begun = true;
        Ok(())
    }

    /// Returns whether the next row is a lot.
    fn is_lot_next(&self) -> bool
        ensures { result ≡ is_lot_next self.now.plain self.now.lot }
    {
        match (&self.plain, &self.lot) {
            (_, None) => false,
            (None, Some(_)) => true,
            (Some(plain), Some(lot)) => is_below(lot, plain),
        }
    }

    /// Returns the next plain units.
    fn next_plain(&mut self) -> Option<Holding>
        ensures begun { self.new.has_begun ≡ self.old.has_begun }
        ensures lot { self.new.lot ≡ self.old.lot }
        ensures lots { self.new.lots ≡ self.old.lots }
        ensures takes { Takes self.old self.new result }
    {
        let row = self.plain.take()?;
        self.plain = self.more.next();
        Some(plain_holding(row))
    }
}

/// Returns whether a lot comes before plain units: the account and the commodity are below theirs.
fn is_below(lot: &LotRow, plain: &PlainRow) -> bool
    ensures { result ≡ is_lot_next (Some plain.now) (Some lot.now) }
{
    (&lot.account, &lot.commodity) < (&plain.account, &plain.commodity)
}

/// Returns what a row of plain units says.
fn plain_holding(row: PlainRow) -> Holding
    ensures { result ≡ plain_holding row }
{
    let PlainRow {
        account,
        commodity,
        units,
    } = row;
    Holding {
        account,
        commodity,
        lot: None,
        units: units.units(),
    }
}

/// Returns what a row of a lot says.
fn lot_holding(row: LotRow) -> Holding
    ensures { result ≡ lot_holding row }
{
    let LotRow {
        account,
        commodity,
        lot,
        units,
    } = row;
    Holding {
        account,
        commodity,
        lot: Some(lot),
        units: units.units(),
    }
}
