ghost use Rattle.lot_added_report.specs.Show.{ShowsAddedGains, ShowsAllAddedSales};
ghost use Rattle.lot_book_report.specs.Fault.{HasCause};
ghost use Rattle.lot_book_report.specs.Gains.{ShowsSomeGains};
ghost use Rattle.lot_book_report.specs.Show.{HoldsOfBook, HoldsOfTables, ReadsBook};
ghost use Rattle.lot_io.specs.Writes.{writes_between};

use lot_added::AddedPlace;
use lot_book_report::ShowFault;
use lot_io::CountedWrite;
use lot_report::Gains;
use lot_store::{Book, StoreFault};
use sqlite::Alter;
use std::alloc::Global;

/// Writes what the sales of the entries of a book behind a number of them gained, each sale as it is read, in the form of the
/// report of all gains. Nothing is flushed.
///
/// The sales of the entries before are read, too. Where the book stops, the sales before are written, and nothing behind them, not
/// even totals. Where the report stops, the output is what `Gains` of `lot_report` writes at such a fault, and the book can still
/// be used. Where the call succeeds, all rows of sales of these entries are written, whatever the tables stand for.
pub fn show_added_gains<S: Alter, W: CountedWrite>(
    alloc: Global,
    book: &mut Book<S>,
    behind: u32,
    writer: &mut W,
) -> Result<(), ShowFault>
    ensures shows { HoldsOfBook S.Store book.old book.new
        (λ entries.
        ShowsAddedGains entries behind (W.contents writer.old) (W.contents writer.new) result) }
    ensures some { ShowsSomeGains (W.contents writer.old) (W.contents writer.new) result }
    ensures rows { HoldsOfTables S.Store book.old book.new
        (λ tables.
        ShowsAllAddedSales tables behind (W.contents writer.old) (W.contents writer.new) result) }
    ensures reads { ReadsBook S.Store book.old book.new result }
    ensures cause { HasCause result (writes_between (W.calls writer.old) (W.calls writer.new)) }
{
    let mut report = Gains::new(alloc);
    let mut walk = book.walk_from(AddedPlace::new(alloc, behind));
    'sales: for _ in 0..u64::MAX {
        let Some(sold) = walk.next()? else {
            return Ok(report.end(writer)?);
        };
        report.row(&sold.sale, writer)?;
    }
    // No book has so many sales.
    Err(ShowFault::from(StoreFault::Memory))
}
