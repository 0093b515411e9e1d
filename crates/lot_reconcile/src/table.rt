ghost use Rattle.std.specs.Prelude.{◌≡◌, ◌∷◌, ◌++◌, [], ℕ, IfErr, IfOk, IsErrOf, List, OnOk};
ghost use Rattle.lot_activity.specs.Scope.{asked_in, has};
ghost use Rattle.lot_io.specs.Writes.{HasFailed, NoneFailed};
ghost use Rattle.lot_legs.specs.declared.leg.DatedLeg.{DatedLeg as DatedLegOf};
ghost use Rattle.lot_report.specs.Written.{WritesEach};
ghost use Rattle.lot_statement.specs.Line.{Line};
ghost use Rattle.lot_statement.specs.Statement.{HasSaid};
ghost use Rattle.lot_tally.specs.Rows.{Adds};
ghost use Rattle.lot_reconcile.specs.Table.{Agrees, IsEnd, IsTable, Terms, fits, terms_with};

use crate::rows::{Rows, add_leg, agree, print_table, rows_of};
use lot_activity::Scope;
use lot_io::CountedWrite;
use lot_legs::DatedLeg;
use lot_report::{PrintFault, ReportFault};
use lot_statement::Statement;
use lot_tally::TableForm;
use std::alloc::Global;

/// A table of what a statement says of accounts, beside what a book says: the units of each commodity, plain and at lots, and by how
/// much they differ.
///
/// It takes the legs of a book one after another, and is written at the end. After a fault it says nothing of use.
#[derive(Drop)]
pub struct Reconciliation<'a> {
    alloc: Global,
    scope: &'a Scope<'a>,
    form: TableForm,
    rows: Rows,
}

impl<'a> Reconciliation<'a> {
    /// The table of a statement and the legs of the scope, in that form, before its first leg. The only error is `Memory`.
    pub fn new(
        alloc: Global,
        statement: Statement,
        scope: &'a Scope<'a>,
        form: TableForm,
    ) -> Result<Reconciliation<'a>, ReportFault>
        ensures table { IfOk result (λ table. (lines : List Line) → HasSaid lines statement
            → IsTable (terms_with lines (asked_in scope.now) form) [] table) }
        ensures cause { IfErr result (λ fault. fault ≡ ReportFault.Memory) }
    {
        let rows = rows_of(alloc, statement)?;
        Ok(Reconciliation {
            alloc,
            scope,
            form,
            rows,
        })
    }

    /// Takes a leg: one that is asked for is added to the row of its commodity, and others are passed over. The error is one of
    /// these:
    ///
    /// - `Range`: the units of the book, or the difference, leave the range of weights.
    /// - `Memory`: out of memory.
    pub fn add(&mut self, leg: &DatedLeg) -> Result<(), ReportFault>
        ensures { (terms : Terms) (legs : List DatedLegOf) → IsTable terms legs self.old
            → Adds (fits terms legs leg.now) (IsTable terms (legs ++ leg.now ∷ []) self.new)
            result }
    {
        if self.scope.has(leg) {
            add_leg(&mut self.rows, leg)
        } else {
            Ok(())
        }
    }

    /// Returns whether nothing differs, by all legs so far.
    pub fn agrees(&self) -> bool
        ensures { (terms : Terms) (legs : List DatedLegOf) → IsTable terms legs self.now
            → Agrees terms legs result }
    {
        agree(&self.rows)
    }

    /// Writes the table of what differs, by all legs so far. As text it says so where nothing differs. As CSV it begins with the names
    /// of the columns.
    ///
    /// Where memory ends, whole rows are written, but not all. Where the writer fails, a prefix of the table is written, but not all
    /// of it.
    pub fn write<W: CountedWrite>(&self, writer: &mut W) -> Result<(), PrintFault>
        ensures table { (terms : Terms) (legs : List DatedLegOf) → IsTable terms legs self.now
            → (end : List (List ℕ)) × IsEnd terms legs end
            × WritesEach (λ text. text) end (W.contents writer.old) (W.contents writer.new)
            result }
        ensures cause { IsErrOf result PrintFault.Write → HasFailed (W.calls writer.new) }
        ensures none_failed { OnOk result
            (NoneFailed (W.calls writer.old) (W.calls writer.new)) }
    {
        print_table(self.alloc, writer, self.form, &self.rows)
    }
}
