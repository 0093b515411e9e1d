ghost use Rattle.std.specs.Prelude.{◌≡◌, IfErr, map};
ghost use Rattle.lot_book_report.specs.Fault.{HasCause};
ghost use Rattle.lot_book_report.specs.Holdings.{ShowsAllHoldings, ShowsAllWith, ShowsHoldings, ShowsSomeHoldings, ShowsWith, valued_with};
ghost use Rattle.lot_book_report.specs.Show.{HoldsOfBook, HoldsOfTables, IsOfReport, ReadsBook, Shows};
ghost use Rattle.lot_io.specs.Writes.{writes_between};
ghost use Rattle.lot_report.specs.Holdings.{IsEnd, fits, row_lines};

use crate::fault::ShowFault;
use crate::prices::DayPrices;
use lot_base::Day;
use lot_book::Holding;
use lot_io::CountedWrite;
use lot_report::{Holdings, Valuation, ValuedHolding};
use lot_store::{Book, StoreFault};
use sqlite::Alter;
use std::alloc::Global;

/// Writes what a book holds, each row as it is read, and what its lots cost. With a day each lot has its value, too, at the
/// price of its commodity in the currency of its cost. Nothing is flushed.
///
/// Where the book stops, the rows before are written, and nothing behind them, not even totals. Where it stops while the prices
/// are read, nothing is written. Where the report stops, the output is what `Holdings` of `lot_report` writes at such a fault,
/// and the book can still be used. Where the call succeeds, all rows of plain units and of lots are written, at the prices that
/// the rows of prices give, whatever the tables stand for.
pub fn show_holdings<S: Alter, W: CountedWrite>(
    alloc: Global,
    book: &mut Book<S>,
    day: Option<Day>,
    writer: &mut W,
) -> Result<(), ShowFault>
    ensures shows { HoldsOfBook S.Store book.old book.new
        (λ entries.
        ShowsHoldings entries day (W.contents writer.old) (W.contents writer.new) result) }
    ensures lines { ShowsSomeHoldings (W.contents writer.old) (W.contents writer.new) result }
    ensures rows { HoldsOfTables S.Store book.old book.new
        (λ tables.
        ShowsAllHoldings tables day (W.contents writer.old) (W.contents writer.new) result) }
    ensures reads { ReadsBook S.Store book.old book.new result }
    ensures cause { HasCause result (writes_between (W.calls writer.old) (W.calls writer.new)) }
{
    match day {
        Some(day) => {
            let prices = DayPrices::read(alloc, book, day)?;
            write_holdings(alloc, book, &Some(prices), writer)
        }
        None => write_holdings(alloc, book, &None, writer),
    }
}

/// Writes what a book holds, each lot with its value where there are prices.
fn write_holdings<S: Alter, W: CountedWrite>(
    alloc: Global,
    book: &mut Book<S>,
    prices: &Option<DayPrices>,
    writer: &mut W,
) -> Result<(), ShowFault>
    ensures shows { HoldsOfBook S.Store book.old book.new
        (λ entries.
        ShowsWith entries prices.now (W.contents writer.old) (W.contents writer.new) result) }
    ensures lines { ShowsSomeHoldings (W.contents writer.old) (W.contents writer.new) result }
    ensures rows { HoldsOfTables S.Store book.old book.new
        (λ tables.
        ShowsAllWith tables prices.now (W.contents writer.old) (W.contents writer.new) result) }
    ensures reads { ReadsBook S.Store book.old book.new result }
    ensures cause { HasCause result (writes_between (W.calls writer.old) (W.calls writer.new)) }
{
    let mut report = Holdings::new(alloc);
    let mut walk = book.holdings();
    'holdings: for _ in 0..u64::MAX {
        let Some(holding) = walk.next()? else {
            return Ok(report.end(writer)?);
        };
        report.row(&valued(prices, holding), writer)?;
    }
    // No book has so many holdings.
    Err(ShowFault::from(StoreFault::Memory))
}

/// Writes rows of holdings that are given at once, as `show_holdings` writes those of a book: each lot with its value where there
/// are prices, and the totals behind them. Nothing is flushed.
///
/// Where the report stops, the output is what `Holdings` of `lot_report` writes at such a fault.
pub fn write_listed<W: CountedWrite>(
    alloc: Global,
    rows: Vec<Holding>,
    prices: &Option<DayPrices>,
    writer: &mut W,
) -> Result<(), ShowFault>
    ensures shows { Shows row_lines fits IsEnd (map (valued_with prices.now) rows.items)
        (W.contents writer.old) (W.contents writer.new) result }
    ensures fault { IfErr result IsOfReport }
    ensures cause { HasCause result (writes_between (W.calls writer.old) (W.calls writer.new)) }
{
    let mut report = Holdings::new(alloc);
    for holding in rows {
        let row = valued(prices, holding);
        report.row(&row, writer)?;
    }
    Ok(report.end(writer)?)
}

/// Returns a holding with its valuation.
pub(crate) fn valued(prices: &Option<DayPrices>, holding: Holding) -> ValuedHolding
    ensures { result ≡ valued_with prices.now holding }
{
    let valuation = match prices {
        Some(prices) => prices.valuation(&holding),
        None => Valuation::Unasked,
    };
    ValuedHolding { holding, valuation }
}
