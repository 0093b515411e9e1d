//! What a statement says that accounts hold, beside what a book says.

ghost use Rattle.std.specs.Prelude.{[]};
ghost use Rattle.lot_book_report.specs.Fault.{HasCause};
ghost use Rattle.lot_book_report.specs.Show.{HoldsOfBook, HoldsOfTables, ReadsBook};
ghost use Rattle.lot_io.specs.Writes.{writes_between};
ghost use Rattle.lot_legs.specs.declared.leg.DatedLeg.{DatedLeg as DatedLegOf};
ghost use Rattle.lot_reconcile.specs.Table.{IsEnd, IsTable, Terms as TermsOf, fits};
ghost use Rattle.lot_sums.specs.Reconciliation.{HasAllLegs, ShowsAllReconciliation, ShowsReconciliation, ShowsSomeReconciliation};

use crate::show::show_table;
use crate::tally::{Table, Tally};
use lot_book_report::ShowFault;
use lot_io::CountedWrite;
use lot_legs::DatedLeg;
use lot_reconcile::Reconciliation;
use lot_report::{PrintFault, ReportFault};
use lot_store::Book;
use sqlite::Alter;

/// Takes all legs of a book into a table of a statement that has taken none, and writes what differs: a row for each commodity that
/// the book doesn't hold as it is said. Nothing is flushed. Where the call succeeds, the table says whether nothing differs.
///
/// Where the book stops, or a sum leaves its range, nothing is written, and the book can still be used behind the latter. Where the
/// call succeeds, the table is that of all rows of legs, whatever the tables stand for.
pub fn show_reconciliation<S: Alter, W: CountedWrite>(
    book: &mut Book<S>,
    table: &mut Reconciliation<'_>,
    writer: &mut W,
) -> Result<(), ShowFault>
    requires fresh { (terms : TermsOf) × IsTable terms [] table.old }
    ensures shows { (terms : TermsOf) → IsTable terms [] table.old
        → HoldsOfBook S.Store book.old book.new (λ entries.
        ShowsReconciliation terms entries (W.contents writer.old) (W.contents writer.new) result) }
    ensures keeps { (terms : TermsOf) → IsTable terms [] table.old
        → HoldsOfBook S.Store book.old book.new (λ entries.
        HasAllLegs terms entries table.new result) }
    ensures some { (terms : TermsOf) → IsTable terms [] table.old
        → ShowsSomeReconciliation terms (W.contents writer.old) (W.contents writer.new) result }
    ensures rows { (terms : TermsOf) → IsTable terms [] table.old
        → HoldsOfTables S.Store book.old book.new (λ tables. ShowsAllReconciliation terms
        tables (W.contents writer.old) (W.contents writer.new) result) }
    ensures reads { ReadsBook S.Store book.old book.new result }
    ensures cause { HasCause result (writes_between (W.calls writer.old) (W.calls writer.new)) }
{
    let mut walk = book.legs();
    show_table(&mut walk, table, writer)
}

impl Tally<DatedLeg> for Reconciliation<'_> {
    ghost Terms = { TermsOf };

    ghost Told = { DatedLegOf };

    ghost told = { λ leg. leg };

    ghost fits = { fits };

    ghost HasTaken = { IsTable };

    ghost AreLines = { IsEnd };

    fn take(&mut self, row: DatedLeg) -> Result<(), ReportFault> {
        self.add(&row)
    }
}

impl Table<DatedLeg> for Reconciliation<'_> {
    fn print<W: CountedWrite>(&self, writer: &mut W) -> Result<(), PrintFault> {
        self.write(writer)
    }
}
