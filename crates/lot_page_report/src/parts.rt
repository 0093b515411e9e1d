//! What a page is made of, but for the lists that are written as they are read.

ghost use Rattle.std.specs.Prelude.{◌≡◌, ◌≢◌, Err, IfErr, IfOk, List, Some, map};
ghost use Rattle.lot_book_report.specs.Fault.{is_of_writer};
ghost use Rattle.lot_page_report.specs.Counted.{days_in};
ghost use Rattle.lot_page_report.specs.Made.{AreLotRows, AreLots, AreLotsOf, AreMonthsOf, IsPageOfBook, IsPageOfTables, IsSomePage, LotsLeaveRange, MonthsLeaveRange};
ghost use Rattle.lot_page_report.specs.OutOfRange.{PageLeavesRange};
ghost use Rattle.lot_page_report.specs.Parts.{IsRangeFor, covered, page_in};
ghost use Rattle.lot_page_report.specs.Read.{Reads};
ghost use Rattle.lot_report.specs.declared.fault.ReportFault.TheVariants.{Range, Write};
ghost use Rattle.lot_stored.specs.Rows.{entry_rows};

use crate::counted::{Counted, Days};
use crate::held::{Held, held_of};
use crate::read::{
    LegTally, SalesTally, read_digest, read_entries, read_legs, read_quotes, read_sales,
};
use crate::scope::PageScope;
use lot_book_report::{BookDigest, DayPrices, ShowFault};
use lot_months::{CurrencyMonths, MonthFlows, MonthPrices, MonthRange, currency_months};
use lot_report::{ReportFault, RowFault};
use lot_store::Book;
use sqlite::Alter;
use std::alloc::Global;

/// What is held, and what lots come to at the end of each month.
#[derive(Drop)]
pub(crate) struct Lots {
    pub held: Held,
    pub range: Option<MonthRange>,
    pub months: Vec<CurrencyMonths>,
}

/// What a page is made of.
#[derive(Drop)]
pub(crate) struct PageParts {
    pub counted: Counted,
    pub digest: Option<BookDigest>,
    pub sales: SalesTally<'static>,
    pub lots: Lots,
}

/// Reads what a page is made of. Nothing is written. The fault is one of the book, or of memory, or
/// `Range` of the report where a sum leaves its range.
pub(crate) fn read_parts<S: Alter>(
    alloc: Global,
    book: &mut Book<S>,
    scope: &PageScope<'_>,
) -> Result<PageParts, ShowFault>
    ensures { Reads S.Store book.old book.new (IsPageOfBook (page_in scope.now))
        (IsPageOfTables (page_in scope.now)) (IsSomePage (page_in scope.now))
        (PageLeavesRange (page_in scope.now)) result }
{
    let counted = read_entries(book, scope.first, scope.last)?;
    let digest = read_digest(book, scope.heading)?;
    let sales = read_sales(alloc, book, scope.first, scope.last)?;
    let range = range_of(counted.covered());
    let lots = read_lots(alloc, book, scope, &range)?;
    Ok(PageParts {
        counted,
        digest,
        sales,
        lots,
    })
}

/// Reads what is held, and what lots come to at the end of each of some months.
fn read_lots<S: Alter>(
    alloc: Global,
    book: &mut Book<S>,
    scope: &PageScope<'_>,
    range: &Option<MonthRange>,
) -> Result<Lots, ShowFault>
    ensures { Reads S.Store book.old book.new
        (λ place entries lots.
        IsRangeFor (covered (page_in scope.now) (entry_rows 1 entries)) range.now
        → AreLots (page_in scope.now) entries lots)
        (λ tables lots. IsRangeFor (covered (page_in scope.now) tables.entry) range.now
        → AreLotRows (page_in scope.now) tables lots)
        (λ lots. Unit {0})
        (λ entries. IsRangeFor (covered (page_in scope.now) (entry_rows 1 entries)) range.now
        → PageLeavesRange (page_in scope.now) entries) result }
{
    let prices = DayPrices::read(alloc, book, scope.price_day())?;
    let quotes = read_quotes(alloc, book, *range)?;
    let legs = read_legs(alloc, book, scope.end(), *range)?;
    match lots_of(alloc, *range, legs, quotes, prices) {
        Ok(lots) => Ok(lots),
        Err(fault) => Err(ShowFault::Row(RowFault::Report(fault))),
    }
}

/// Returns the months of days, where there are some.
fn range_of(days: Option<Days>) -> Option<MonthRange>
    ensures { IsRangeFor (days_in days) result }
{
    match days {
        Some(days) => MonthRange::between(days.first, days.last),
        None => None,
    }
}

/// Returns what is held, and what lots come to at the end of each month. The error is `Range`,
/// where a sum leaves its range, or `Memory`.
fn lots_of(
    alloc: Global,
    range: Option<MonthRange>,
    legs: LegTally,
    quotes: Option<MonthPrices>,
    prices: DayPrices,
) -> Result<Lots, ReportFault>
    ensures lots { IfOk result (λ lots. AreLotsOf range legs quotes prices lots) }
    ensures cause { IfErr result (λ fault. fault ≢ Write) }
    ensures range { result ≡ Err Range → LotsLeaveRange legs quotes prices }
{
    let LegTally {
        positions,
        flows,
        ..
    } = legs;
    let holdings = positions.into_holdings(alloc)?;
    let held = held_of(alloc, holdings, &prices)?;
    let months = months_of(alloc, &flows, &quotes)?;
    Ok(Lots {
        held,
        range,
        months,
    })
}

/// Returns what lots come to at the end of each month, where there are months. The error is
/// `Range`, where a sum leaves its range, or `Memory`.
fn months_of(
    alloc: Global,
    flows: &Option<MonthFlows>,
    prices: &Option<MonthPrices>,
) -> Result<Vec<CurrencyMonths>, ReportFault>
    ensures months { IfOk result (λ all. AreMonthsOf flows.now prices.now all.items) }
    ensures cause { IfErr result (λ fault. fault ≢ Write) }
    ensures range { result ≡ Err Range → MonthsLeaveRange flows.now prices.now }
{
    match (flows, prices) {
        (Some(flows), Some(prices)) => currency_months(alloc, flows, prices),
        _ => Ok(Vec::new(alloc)),
    }
}
