//! What a book held at the end of a past day.

ghost use Rattle.std.specs.Prelude.{◌≡◌, [], IfErr, List, OnOk, map, true, ℤ};
ghost use Rattle.lot_book_report.specs.Csv.{columns_for};
ghost use Rattle.lot_book_report.specs.Fault.{HasCause};
ghost use Rattle.lot_book_report.specs.Holdings.{valued_with};
ghost use Rattle.lot_book_report.specs.Show.{HoldsOfBook, HoldsOfTables, IsOfReport, ReadsBook};
ghost use Rattle.lot_io.specs.Writes.{writes_between};
ghost use Rattle.lot_legs.specs.Legs.{AreAllLegRows, dated_legs};
ghost use Rattle.lot_legs.specs.declared.leg.DatedLeg.{DatedLeg as DatedLegOf};
ghost use Rattle.lot_position.specs.Held.{Keeps};
ghost use Rattle.lot_sums.specs.Held.{FindsHeld, ShowsAllHoldingsOn, ShowsHoldingsOn, ShowsRows, ShowsSomeHoldingsOn};

use crate::gathering::gather;
use crate::tally::Tally;
use lot_base::Day;
use lot_book::Holding;
use lot_book_report::{DayPrices, ShowFault, write_listed, write_listed_csv};
use lot_io::CountedWrite;
use lot_legs::DatedLeg;
use lot_position::Positions;
use lot_report::{ReportFault, RowFault};
use lot_store::Book;
use lot_tally::TableForm;
use sqlite::Alter;
use std::alloc::Global;

/// Writes what a book held at the end of a day, lot by lot, in the form of the report of what it holds. Each lot has its value at the
/// prices of a day, which may be another one. Nothing is flushed.
///
/// What was held is what the entries up to the day leave, whatever the order in which they were accepted. Where the book stops, or
/// a position is out of the range of units at the end of the day, nothing is written. Where a total of costs or values leaves its
/// range, the rows before are written, as they are of what is held now. Where the call succeeds, the report is that of all rows of
/// legs, whatever the tables stand for.
pub fn show_holdings_on<S: Alter, W: CountedWrite>(
    alloc: Global,
    book: &mut Book<S>,
    on: Day,
    day: Day,
    form: TableForm,
    writer: &mut W,
) -> Result<(), ShowFault>
    ensures shows { HoldsOfBook S.Store book.old book.new
        (λ entries. ShowsHoldingsOn form on day entries
        (W.contents writer.old) (W.contents writer.new) result) }
    ensures some { ShowsSomeHoldingsOn form on
        (W.contents writer.old) (W.contents writer.new) result }
    ensures rows { HoldsOfTables S.Store book.old book.new
        (λ tables. ShowsAllHoldingsOn form on day tables
        (W.contents writer.old) (W.contents writer.new) result) }
    ensures reads { ReadsBook S.Store book.old book.new result }
    ensures cause { HasCause result (writes_between (W.calls writer.old) (W.calls writer.new)) }
{
    let prices = DayPrices::read(alloc, book, day)?;
    let rows = held_on(alloc, book, on)?;
    write_rows(alloc, rows, &Some(prices), form, writer)
}

/// Returns what a book held at the end of a day: each position in which the legs up to it leave some units, in the order of
/// account, commodity and lot, the plain units before the lots.
///
/// The fault is `Range` of the report where a position is out of the range of units at the end of the day.
pub fn held_on<S: Alter>(
    alloc: Global,
    book: &mut Book<S>,
    on: Day,
) -> Result<Vec<Holding>, ShowFault>
    ensures finds { HoldsOfBook S.Store book.old book.new
        (λ entries. FindsHeld on (dated_legs entries) result) }
    ensures some { (legs : List DatedLegOf) × FindsHeld on legs result }
    ensures rows { HoldsOfTables S.Store book.old book.new (λ tables.
        OnOk result ((legs : List DatedLegOf) × AreAllLegRows tt tables legs
        × FindsHeld on legs result)) }
    ensures reads { ReadsBook S.Store book.old book.new result }
{
    let mut positions = Positions::new(alloc, on);
    let mut walk = book.legs();
    gather(&mut walk, &mut positions)?;
    match positions.into_holdings(alloc) {
        Ok(rows) => Ok(rows),
        Err(fault) => Err(ShowFault::Row(RowFault::Report(fault))),
    }
}

impl Tally<DatedLeg> for Positions {
    // The day.
    ghost Terms = { ℤ };

    ghost Told = { DatedLegOf };

    ghost told = { λ leg. leg };

    ghost fits = { λ day legs leg. true };

    ghost HasTaken = { Keeps };

    ghost AreLines = { λ day legs lines. lines ≡ [] };

    fn take(&mut self, leg: DatedLeg) -> Result<(), ReportFault> {
        self.add(leg)
    }
}

/// Writes rows of holdings in a form, each with its value where there are prices.
fn write_rows<W: CountedWrite>(
    alloc: Global,
    rows: Vec<Holding>,
    prices: &Option<DayPrices>,
    form: TableForm,
    writer: &mut W,
) -> Result<(), ShowFault>
    ensures shows { ShowsRows form (columns_for prices.now)
        (map (valued_with prices.now) rows.items)
        (W.contents writer.old) (W.contents writer.new) result }
    ensures fault { IfErr result IsOfReport }
    ensures cause { HasCause result (writes_between (W.calls writer.old) (W.calls writer.new)) }
{
    match form {
        TableForm::Text => write_listed(alloc, rows, prices, writer),
        TableForm::Csv => write_listed_csv(alloc, rows, prices, writer),
    }
}
