ghost use Rattle.std.specs.Prelude.{ℕ, List};
ghost use Rattle.lot_book_report.specs.Csv.{ShowsAllSalesCsv, ShowsGainsCsv, ShowsSomeGainsCsv, records_of_sale};
ghost use Rattle.lot_book_report.specs.Fault.{HasCause};
ghost use Rattle.lot_book_report.specs.Show.{HoldsOfBook, HoldsOfTables, ReadsBook};
ghost use Rattle.lot_io.specs.Writes.{writes_between};

use super::{Records, write_csv};
use crate::fault::ShowFault;
use lot_base::Day;
use lot_csv::{Seller, gains_header, write_sale};
use lot_io::CountedWrite;
use lot_report::PrintFault;
use lot_store::Book;
use lot_walk::NumberedSale;
use sqlite::Alter;
use std::alloc::Global;

/// Writes what the sales of a book gained as CSV: a record for each lot of each sale, as the sale
/// is read. The sales are those from the first day to the last, both included. Without a day that
/// end of the range is open. Nothing is flushed.
///
/// Where the book stops, the records of the sales before are written, and nothing behind them.
/// Where it stops before the first sale, nothing is written, not even the header. Where the writer
/// fails, a prefix of the output is written, and the book can still be used. Where the call
/// succeeds, the records of all rows of sales on those days are written, whatever the tables stand
/// for.
pub fn show_gains_csv<S: Alter, W: CountedWrite>(
    alloc: Global,
    book: &mut Book<S>,
    first: Option<Day>,
    last: Option<Day>,
    writer: &mut W,
) -> Result<(), ShowFault>
    ensures shows { HoldsOfBook S.Store book.old book.new
        (λ entries. ShowsGainsCsv entries (first, last)
        (W.contents writer.old) (W.contents writer.new) result) }
    ensures lines { ShowsSomeGainsCsv (W.contents writer.old) (W.contents writer.new) result }
    ensures rows { HoldsOfTables S.Store book.old book.new
        (λ tables. ShowsAllSalesCsv tables (first, last)
        (W.contents writer.old) (W.contents writer.new) result) }
    ensures reads { ReadsBook S.Store book.old book.new result }
    ensures cause { HasCause result (writes_between (W.calls writer.old) (W.calls writer.new)) }
{
    let mut walk = book.gains(first, last);
    write_csv(alloc, gains_header(), &SaleRecords, &mut walk, writer)
}

/// The records of sales.
#[derive(Clone, Copy)]
struct SaleRecords;

impl Records<NumberedSale> for SaleRecords {
    ghost records = { λ _ sold. records_of_sale sold };

    fn write<W: CountedWrite>(
        &self,
        alloc: Global,
        sold: NumberedSale,
        writer: &mut W,
    ) -> Result<(), PrintFault> {
        let seller = Seller {
            entry: sold.entry,
            posting: sold.posting,
        };
        write_sale(alloc, writer, seller, &sold.sale)
    }
}
