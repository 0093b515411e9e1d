//! What the sales of a book gained in all, by keys.

ghost use Rattle.std.specs.Prelude.{ℕ, List};
ghost use Rattle.lot_book.specs.Sale.{SaleParts};
ghost use Rattle.lot_book_report.specs.Fault.{HasCause};
ghost use Rattle.lot_book_report.specs.Show.{HoldsOfBook, HoldsOfTables, ReadsBook};
ghost use Rattle.lot_io.specs.Writes.{writes_between};
ghost use Rattle.lot_sums.specs.GainsBy.{ShowsAllSalesBy, ShowsGainsBy, ShowsSomeGainsBy};
ghost use Rattle.lot_tally.specs.Table.{IsEnd, IsTable, fits};
ghost use Rattle.lot_tally.specs.declared.key.GainKey.{GainKey as GainKeyOf};
ghost use Rattle.lot_tally.specs.declared.key.TableForm.{TableForm as TableFormOf};

use crate::show::show_table;
use crate::tally::{Table, Tally};
use lot_base::Day;
use lot_book_report::ShowFault;
use lot_io::CountedWrite;
use lot_report::{PrintFault, ReportFault};
use lot_store::Book;
use lot_tally::{GainKey, GainsTable, TableForm};
use lot_walk::NumberedSale;
use sqlite::Alter;
use std::alloc::Global;

/// Writes what the sales of a book gained in all, by keys: a table with a row for each combination of keys and currency. The sales
/// are those from the first day to the last, both included. Without a day that end of the range is open. Nothing is flushed.
///
/// Where the book stops, or a sum leaves its range, nothing is written, and the book can still be used behind the latter. Where the
/// call succeeds, the table is that of all rows of sales on those days, whatever the tables stand for.
pub fn show_gains_by<S: Alter, W: CountedWrite>(
    alloc: Global,
    book: &mut Book<S>,
    first: Option<Day>,
    last: Option<Day>,
    by: &[GainKey],
    form: TableForm,
    writer: &mut W,
) -> Result<(), ShowFault>
    ensures shows { HoldsOfBook S.Store book.old book.new
        (λ entries. ShowsGainsBy by.now form entries (first, last)
        (W.contents writer.old) (W.contents writer.new) result) }
    ensures some { ShowsSomeGainsBy by.now form
        (W.contents writer.old) (W.contents writer.new) result }
    ensures rows { HoldsOfTables S.Store book.old book.new
        (λ tables. ShowsAllSalesBy by.now form tables (first, last)
        (W.contents writer.old) (W.contents writer.new) result) }
    ensures reads { ReadsBook S.Store book.old book.new result }
    ensures cause { HasCause result (writes_between (W.calls writer.old) (W.calls writer.new)) }
{
    let mut table = GainsTable::new(alloc, by, form);
    let mut walk = book.gains(first, last);
    show_table(&mut walk, &mut table, writer)
}

impl Tally<NumberedSale> for GainsTable<'_> {
    ghost Terms = { List GainKeyOf × TableFormOf };

    ghost Told = { SaleParts };

    ghost told = { λ sold. sold.sale };

    ghost fits = { λ terms. fits terms.0 terms.1 };

    ghost HasTaken = { λ terms. IsTable terms.0 terms.1 };

    ghost AreLines = { λ terms. IsEnd terms.0 terms.1 };

    fn take(&mut self, row: NumberedSale) -> Result<(), ReportFault> {
        self.add(&row.sale)
    }
}

impl Table<NumberedSale> for GainsTable<'_> {
    fn print<W: CountedWrite>(&self, writer: &mut W) -> Result<(), PrintFault> {
        self.write(writer)
    }
}
