ghost use Rattle.std.specs.Prelude.{◌≢◌, Err, OnOk};
ghost use Rattle.lot_book_report.specs.Dump.{HoldsOfPlacedBook};
ghost use Rattle.lot_book_report.specs.Fault.{HasCause};
ghost use Rattle.lot_book_report.specs.Show.{HoldsOfBook, HoldsOfTables, ReadsBook};
ghost use Rattle.lot_book_report.specs.declared.fault.ShowFault.TheVariants.{Row as AtRow};
ghost use Rattle.lot_io.specs.Writes.{writes_between};
ghost use Rattle.lot_page_report.specs.List.{Lists};
ghost use Rattle.lot_page_report.specs.Page.{ShowsPage, ShowsPageOfTables, ShowsSomePage};
ghost use Rattle.lot_page_report.specs.Parts.{page_in};
ghost use Rattle.lot_page_report.specs.Sections.{entry_piece, journal_end, sale_piece, sales_end};
ghost use Rattle.lot_page_report.specs.Shown.{ListsEntries, ListsEntriesOfTables, ListsSales, ListsSalesOfTables};
ghost use Rattle.lot_report.specs.declared.fault.ReportFault.TheVariants.{Range};
ghost use Rattle.lot_report.specs.declared.fault.RowFault.TheVariants.{Report};

use crate::journal::JournalList;
use crate::list::{put_text, write_list};
use crate::parts::read_parts;
use crate::sales::SalesList;
use crate::scope::PageScope;
use crate::top::top_text;
use lot_base::Day;
use lot_book_report::ShowFault;
use lot_io::CountedWrite;
use lot_report::print_texts;
use lot_store::Book;
use sqlite::Alter;
use std::alloc::Global;

/// What stands between the sales and the entries.
const JOURNAL: &str = "<section id=\"journal\">\n<h2>Journal</h2>\n";

/// Writes a book as one page of HTML: what it is of, what sales gained by year and by commodity,
/// what is held, what lots come to at the end of each month, the sales with their lots, and the
/// journal. Nothing is flushed.
///
/// The book is read several times, and stays as it is. The fault is `Range` of the report only where
/// a sum leaves its range. Then nothing is written, nor where the book stops before all is added up.
/// Where it stops later or memory ends, a prefix of its page is, up to the end of a whole row; where
/// the writer fails, one that may end anywhere.
pub fn show_page<S: Alter, W: CountedWrite>(
    alloc: Global,
    book: &mut Book<S>,
    scope: &PageScope<'_>,
    writer: &mut W,
) -> Result<(), ShowFault>
    ensures shows { HoldsOfPlacedBook S.Store book.old book.new (λ place entries.
        ShowsPage (page_in scope.now) place entries
        (W.contents writer.old) (W.contents writer.new) result) }
    ensures some { ShowsSomePage (page_in scope.now)
        (W.contents writer.old) (W.contents writer.new) result }
    ensures rows { HoldsOfTables S.Store book.old book.new (λ tables.
        ShowsPageOfTables (page_in scope.now) tables
        (W.contents writer.old) (W.contents writer.new) result) }
    ensures reads { ReadsBook S.Store book.old book.new result }
    ensures cause { HasCause result (writes_between (W.calls writer.old) (W.calls writer.new)) }
{
    let parts = read_parts(alloc, book, scope)?;
    let top = top_text(alloc, scope, &parts)?;
    put_text(writer, top.as_str())?;
    show_sales(alloc, book, scope.first, scope.last, writer)?;
    print_texts(writer, &[JOURNAL])?;
    show_entries(alloc, book, scope.first, scope.last, writer)
}

/// Writes the sales of a range, each as it is read.
fn show_sales<S: Alter, W: CountedWrite>(
    alloc: Global,
    book: &mut Book<S>,
    first: Option<Day>,
    last: Option<Day>,
    writer: &mut W,
) -> Result<(), ShowFault>
    ensures shows { HoldsOfBook S.Store book.old book.new (λ entries.
        ListsSales (first, last) entries (W.contents writer.old) (W.contents writer.new) result) }
    ensures some { Lists sale_piece sales_end
        (W.contents writer.old) (W.contents writer.new) result }
    ensures rows { HoldsOfTables S.Store book.old book.new (λ tables. OnOk result
        (ListsSalesOfTables (first, last) tables
        (W.contents writer.old) (W.contents writer.new))) }
    ensures in_range { result ≢ Err (AtRow (Report Range)) }
    ensures reads { ReadsBook S.Store book.old book.new result }
    ensures cause { HasCause result (writes_between (W.calls writer.old) (W.calls writer.new)) }
{
    let mut list = SalesList::new(alloc);
    let mut walk = book.gains(first, last);
    write_list(&mut walk, &mut list, writer)
}

/// Writes the entries of a range, each as it is read, and the end of the page.
fn show_entries<S: Alter, W: CountedWrite>(
    alloc: Global,
    book: &mut Book<S>,
    first: Option<Day>,
    last: Option<Day>,
    writer: &mut W,
) -> Result<(), ShowFault>
    ensures shows { HoldsOfBook S.Store book.old book.new (λ entries.
        ListsEntries (first, last) entries (W.contents writer.old) (W.contents writer.new) result) }
    ensures some { Lists (entry_piece (first, last)) (journal_end (first, last))
        (W.contents writer.old) (W.contents writer.new) result }
    ensures rows { HoldsOfTables S.Store book.old book.new (λ tables. OnOk result
        (ListsEntriesOfTables (first, last) tables
        (W.contents writer.old) (W.contents writer.new))) }
    ensures in_range { result ≢ Err (AtRow (Report Range)) }
    ensures reads { ReadsBook S.Store book.old book.new result }
    ensures cause { HasCause result (writes_between (W.calls writer.old) (W.calls writer.new)) }
{
    let mut list = JournalList::new(alloc, first, last);
    let mut walk = book.journal();
    write_list(&mut walk, &mut list, writer)
}
