//! What went into accounts and out of them in plain units, by period.

ghost use Rattle.lot_activity.specs.Scope.{asked_in};
ghost use Rattle.lot_activity.specs.Table.{IsEnd, IsTable, Terms as TermsOf, fits, terms_with};
ghost use Rattle.lot_book_report.specs.Fault.{HasCause};
ghost use Rattle.lot_book_report.specs.Show.{HoldsOfBook, HoldsOfTables, ReadsBook};
ghost use Rattle.lot_io.specs.Writes.{writes_between};
ghost use Rattle.lot_legs.specs.declared.leg.DatedLeg.{DatedLeg as DatedLegOf};
ghost use Rattle.lot_sums.specs.Activity.{ShowsActivity, ShowsAllActivity, ShowsSomeActivity};

use crate::show::show_table;
use crate::tally::{Table, Tally};
use lot_activity::{ActivityTable, Scope};
use lot_book_report::ShowFault;
use lot_io::CountedWrite;
use lot_legs::DatedLeg;
use lot_period::PeriodLength;
use lot_report::{PrintFault, ReportFault};
use lot_store::Book;
use lot_tally::TableForm;
use sqlite::Alter;
use std::alloc::Global;

/// Writes what went into accounts and out of them in plain units, leg by leg: a table with a row for each period of that length,
/// account and commodity. The legs are those of the scope. Nothing is flushed.
///
/// Where the book stops, or a sum leaves its range, nothing is written, and the book can still be used behind the latter. Where the
/// call succeeds, the table is that of all rows of legs, whatever the tables stand for.
pub fn show_activity<S: Alter, W: CountedWrite>(
    alloc: Global,
    book: &mut Book<S>,
    length: PeriodLength,
    scope: &Scope<'_>,
    form: TableForm,
    writer: &mut W,
) -> Result<(), ShowFault>
    ensures shows { HoldsOfBook S.Store book.old book.new
        (λ entries. ShowsActivity (terms_with length (asked_in scope.now) form) entries
        (W.contents writer.old) (W.contents writer.new) result) }
    ensures some { ShowsSomeActivity (terms_with length (asked_in scope.now) form)
        (W.contents writer.old) (W.contents writer.new) result }
    ensures rows { HoldsOfTables S.Store book.old book.new
        (λ tables. ShowsAllActivity (terms_with length (asked_in scope.now) form) tables
        (W.contents writer.old) (W.contents writer.new) result) }
    ensures reads { ReadsBook S.Store book.old book.new result }
    ensures cause { HasCause result (writes_between (W.calls writer.old) (W.calls writer.new)) }
{
    let mut table = ActivityTable::new(alloc, length, scope, form);
    let mut walk = book.legs();
    show_table(&mut walk, &mut table, writer)
}

impl Tally<DatedLeg> for ActivityTable<'_> {
    ghost Terms = { TermsOf };

    ghost Told = { DatedLegOf };

    ghost told = { λ leg. leg };

    ghost fits = { fits };

    ghost HasTaken = { IsTable };

    ghost AreLines = { IsEnd };

    fn take(&mut self, row: DatedLeg) -> Result<(), ReportFault> {
        self.add(&row)
    }
}

impl Table<DatedLeg> for ActivityTable<'_> {
    fn print<W: CountedWrite>(&self, writer: &mut W) -> Result<(), PrintFault> {
        self.write(writer)
    }
}
