ghost use Rattle.std.specs.Prelude.{◌≡◌, IfErr, map};
ghost use Rattle.lot_book_report.specs.Csv.{ShowsAllCsvWith, ShowsAllHoldingsCsv, ShowsCsv, ShowsCsvWith, ShowsHoldingsCsv, ShowsSomeCsv, ShowsSomeHoldingsCsv, columns_for, record_of_holding};
ghost use Rattle.lot_book_report.specs.Fault.{HasCause};
ghost use Rattle.lot_book_report.specs.Holdings.{valued_with};
ghost use Rattle.lot_book_report.specs.Show.{HoldsOfBook, HoldsOfTables, IsOfReport, ReadsBook};
ghost use Rattle.lot_csv.specs.Holdings.{holdings_header};
ghost use Rattle.lot_io.specs.Writes.{writes_between};

use super::{Records, write_csv};
use crate::fault::ShowFault;
use crate::holdings::valued;
use crate::prices::DayPrices;
use lot_base::Day;
use lot_book::Holding;
use lot_csv::{Columns, holdings_header, write_holding};
use lot_io::CountedWrite;
use lot_report::{PrintFault, print_texts};
use lot_store::Book;
use sqlite::Alter;
use std::alloc::Global;

/// Writes what a book holds as CSV: a record for each position, as it is read. With a day each lot
/// has its value, too, at the price of its commodity in the currency of its cost. Nothing is
/// flushed.
///
/// Where the book stops, the records of the rows before are written, and nothing behind them. Where
/// it stops while the prices or the first row are read, nothing is written, not even the header.
/// Where the writer fails, a prefix of the output is written, and the book can still be used. Where
/// the call succeeds, the records of all rows of plain units and of lots are written, whatever the
/// tables stand for, at the prices that the rows of prices give.
pub fn show_holdings_csv<S: Alter, W: CountedWrite>(
    alloc: Global,
    book: &mut Book<S>,
    day: Option<Day>,
    writer: &mut W,
) -> Result<(), ShowFault>
    ensures shows { HoldsOfBook S.Store book.old book.new
        (λ entries. ShowsHoldingsCsv entries day
        (W.contents writer.old) (W.contents writer.new) result) }
    ensures lines { ShowsSomeHoldingsCsv day
        (W.contents writer.old) (W.contents writer.new) result }
    ensures rows { HoldsOfTables S.Store book.old book.new
        (λ tables. ShowsAllHoldingsCsv tables day
        (W.contents writer.old) (W.contents writer.new) result) }
    ensures reads { ReadsBook S.Store book.old book.new result }
    ensures cause { HasCause result (writes_between (W.calls writer.old) (W.calls writer.new)) }
{
    match day {
        Some(day) => {
            let prices = DayPrices::read(alloc, book, day)?;
            write_holdings_csv(alloc, book, &Some(prices), writer)
        }
        None => write_holdings_csv(alloc, book, &None, writer),
    }
}

/// Writes what a book holds as CSV, each lot with its value where there are prices.
fn write_holdings_csv<S: Alter, W: CountedWrite>(
    alloc: Global,
    book: &mut Book<S>,
    prices: &Option<DayPrices>,
    writer: &mut W,
) -> Result<(), ShowFault>
    ensures shows { HoldsOfBook S.Store book.old book.new
        (λ entries. ShowsCsvWith entries prices.now
        (W.contents writer.old) (W.contents writer.new) result) }
    ensures lines { ShowsSomeCsv (holdings_header (columns_for prices.now))
        (record_of_holding (columns_for prices.now))
        (W.contents writer.old) (W.contents writer.new) result }
    ensures rows { HoldsOfTables S.Store book.old book.new
        (λ tables. ShowsAllCsvWith tables prices.now
        (W.contents writer.old) (W.contents writer.new) result) }
    ensures reads { ReadsBook S.Store book.old book.new result }
    ensures cause { HasCause result (writes_between (W.calls writer.old) (W.calls writer.new)) }
{
    let records = HoldingRecords { prices };
    let mut walk = book.holdings();
    write_csv(
        alloc,
        holdings_header(columns(prices)),
        &records,
        &mut walk,
        writer,
    )
}

/// Writes rows of holdings that are given at once, as `show_holdings_csv` writes those of a book: a header, and a record for each,
/// with its value where there are prices. Nothing is flushed.
///
/// Where the writer fails, a prefix of the output is written. Where memory ends, whole records are, but not all.
pub fn write_listed_csv<W: CountedWrite>(
    alloc: Global,
    rows: Vec<Holding>,
    prices: &Option<DayPrices>,
    writer: &mut W,
) -> Result<(), ShowFault>
    ensures shows { ShowsCsv (holdings_header (columns_for prices.now))
        (record_of_holding (columns_for prices.now)) (map (valued_with prices.now) rows.items)
        (W.contents writer.old) (W.contents writer.new) result }
    ensures fault { IfErr result IsOfReport }
    ensures cause { HasCause result (writes_between (W.calls writer.old) (W.calls writer.new)) }
{
    let records = HoldingRecords { prices };
    print_texts(writer, &[holdings_header(columns(prices))])?;
    for holding in rows {
        records.write(alloc, holding, writer)?;
    }
    Ok(())
}

/// The records of holdings, each with its value where there are prices.
#[derive(Clone, Copy)]
struct HoldingRecords<'a> {
    prices: &'a Option<DayPrices>,
}

impl Records<Holding> for HoldingRecords<'_> {
    ghost records = { λ table holding.
        record_of_holding (columns_for table.prices.now) (valued_with table.prices.now holding) };

    fn write<W: CountedWrite>(
        &self,
        alloc: Global,
        holding: Holding,
        writer: &mut W,
    ) -> Result<(), PrintFault> {
        let row = valued(self.prices, holding);
        write_holding(alloc, writer, columns(self.prices), &row)
    }
}

/// Returns the columns of a table. It has a price and a value for each position only where there
/// are prices.
fn columns(prices: &Option<DayPrices>) -> Columns
    ensures { result ≡ columns_for prices.now }
{
    match prices {
        Some(_) => Columns::Values,
        None => Columns::Costs,
    }
}
