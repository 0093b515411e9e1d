ghost use Rattle.lot_book_report.specs.Fault.{HasCause};
ghost use Rattle.lot_book_report.specs.Gains.{ShowsAllSales, ShowsGains, ShowsSomeGains};
ghost use Rattle.lot_book_report.specs.Show.{HoldsOfBook, HoldsOfTables, ReadsBook};
ghost use Rattle.lot_io.specs.Writes.{writes_between};

use crate::fault::ShowFault;
use lot_base::Day;
use lot_io::CountedWrite;
use lot_report::Gains;
use lot_store::{Book, StoreFault};
use sqlite::Alter;
use std::alloc::Global;

/// Writes what the sales of a book gained, each sale as it is read. The sales are those from the first day to the last, both
/// included. Without a day that end of the range is open. Nothing is flushed.
///
/// Where the book stops, the sales before are written, and nothing behind them, not even totals. Where the report stops, the
/// output is what `Gains` of `lot_report` writes at such a fault, and the book can still be used. Where the call succeeds, all
/// rows of sales on those days are written, whatever the tables stand for.
pub fn show_gains<S: Alter, W: CountedWrite>(
    alloc: Global,
    book: &mut Book<S>,
    first: Option<Day>,
    last: Option<Day>,
    writer: &mut W,
) -> Result<(), ShowFault>
    ensures shows { HoldsOfBook S.Store book.old book.new
        (λ entries.
        ShowsGains entries (first, last) (W.contents writer.old) (W.contents writer.new) result) }
    ensures lines { ShowsSomeGains (W.contents writer.old) (W.contents writer.new) result }
    ensures rows { HoldsOfTables S.Store book.old book.new
        (λ tables.
        ShowsAllSales tables (first, last) (W.contents writer.old) (W.contents writer.new) result) }
    ensures reads { ReadsBook S.Store book.old book.new result }
    ensures cause { HasCause result (writes_between (W.calls writer.old) (W.calls writer.new)) }
{
    let mut report = Gains::new(alloc);
    let mut walk = book.gains(first, last);
    'sales: for _ in 0..u64::MAX {
        let Some(sold) = walk.next()? else {
            return Ok(report.end(writer)?);
        };
        report.row(&sold.sale, writer)?;
    }
    // No book has so many sales.
    Err(ShowFault::from(StoreFault::Memory))
}
