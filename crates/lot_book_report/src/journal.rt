ghost use Rattle.lot_stored.specs.Rows.{entry_rows};
ghost use Rattle.lot_book_report.specs.Fault.{HasCause};
ghost use Rattle.lot_book_report.specs.Journal.{HearsMore, ShowsAllEntries, ShowsAllHeard, ShowsHeard, ShowsJournal, ShowsSomeHeard, ShowsSomeJournal};
ghost use Rattle.lot_book_report.specs.Show.{HoldsOfBook, HoldsOfTables, ReadsBook};
ghost use Rattle.lot_io.specs.Writes.{writes_between};

use crate::fault::ShowFault;
use crate::heard::{Hear, Nobody};
use lot_io::CountedWrite;
use lot_report::Journal;
use lot_store::{Book, StoreFault};
use sqlite::Alter;

/// Writes the journal of a book: its entries in their order, each as it is read. Nothing is flushed.
///
/// Where the book stops, the entries before are written, and nothing behind them. Where the writer fails, a prefix of the next
/// entry is written behind them, and the book can still be used. Where the call succeeds, all rows of the table are written,
/// whatever the tables stand for.
pub fn show_journal<S: Alter, W: CountedWrite>(
    book: &mut Book<S>,
    writer: &mut W,
) -> Result<(), ShowFault>
    ensures shows { HoldsOfBook S.Store book.old book.new
        (λ entries. ShowsJournal (entry_rows 1 entries) (W.contents writer.old)
        (W.contents writer.new) result) }
    ensures lines { ShowsSomeJournal (W.contents writer.old) (W.contents writer.new) result }
    ensures rows { HoldsOfTables S.Store book.old book.new
        (λ tables. ShowsAllEntries tables (W.contents writer.old) (W.contents writer.new) result) }
    ensures reads { ReadsBook S.Store book.old book.new result }
    ensures cause { HasCause result (writes_between (W.calls writer.old) (W.calls writer.new)) }
{
    write_entries(book, &mut Nobody {}, writer)
}

/// Writes the entries of a book in their order, each as it is read, and has each heard that is written. Nothing is flushed.
///
/// What is written is what `show_journal` writes.
pub(crate) fn write_entries<S: Alter, H: Hear, W: CountedWrite>(
    book: &mut Book<S>,
    heard: &mut H,
    writer: &mut W,
) -> Result<(), ShowFault>
    ensures shows { HoldsOfBook S.Store book.old book.new
        (λ entries. ShowsHeard (HearsMore (H.has_heard heard.old) (H.has_heard heard.new))
        (entry_rows 1 entries) (W.contents writer.old) (W.contents writer.new) result) }
    ensures lines { ShowsSomeHeard (HearsMore (H.has_heard heard.old) (H.has_heard heard.new))
        (W.contents writer.old) (W.contents writer.new) result }
    ensures rows { HoldsOfTables S.Store book.old book.new
        (λ tables. ShowsAllHeard (HearsMore (H.has_heard heard.old) (H.has_heard heard.new))
        tables (W.contents writer.old) (W.contents writer.new) result) }
    ensures reads { ReadsBook S.Store book.old book.new result }
    ensures cause { HasCause result (writes_between (W.calls writer.old) (W.calls writer.new)) }
{
    let mut journal = Journal::new();
    let mut walk = book.journal();
    'entries: for _ in 0..u64::MAX {
        let Some(entry) = walk.next()? else {
            return Ok(journal.end(writer)?);
        };
        journal.row(&entry, writer)?;
        heard.hear(&entry);
    }
    // No book has so many entries.
    Err(ShowFault::from(StoreFault::Memory))
}
