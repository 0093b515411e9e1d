ghost use Rattle.std.specs.Prelude.{◌≡◌, ◌∷◌, ◌++◌, [], ℕ, IsErrOf, List, OnOk};
ghost use Rattle.lot_io.specs.Writes.{HasFailed, NoneFailed};
ghost use Rattle.lot_legs.specs.declared.leg.DatedLeg.{DatedLeg as DatedLegOf};
ghost use Rattle.lot_report.specs.Written.{WritesEach};
ghost use Rattle.lot_tally.specs.Rows.{Adds};
ghost use Rattle.lot_activity.specs.Rows.{is_counted};
ghost use Rattle.lot_activity.specs.Scope.{asked_in};
ghost use Rattle.lot_activity.specs.Table.{IsEnd, IsTable, Terms, fits, terms_with};

use crate::rows::{Rows, add_leg, print_table};
use crate::scope::Scope;
use lot_io::CountedWrite;
use lot_legs::DatedLeg;
use lot_period::PeriodLength;
use lot_report::{PrintFault, ReportFault};
use lot_tally::TableForm;
use std::alloc::Global;
use std::collections::BTreeMap;

/// A table of the plain units that went into accounts and out of them: a row for each period,
/// account and commodity, with what came in and what went out, leg by leg.
///
/// It takes the legs of a book one after another, and is written at the end. After a fault it says
/// nothing of use.
#[derive(Drop)]
pub struct ActivityTable<'a> {
    alloc: Global,
    length: PeriodLength,
    scope: &'a Scope<'a>,
    form: TableForm,
    rows: Rows,
}

impl<'a> ActivityTable<'a> {
    /// The table by periods of that length, of the legs of the scope, in that form, before its
    /// first leg. It takes no memory.
    pub fn new(
        alloc: Global,
        length: PeriodLength,
        scope: &'a Scope<'a>,
        form: TableForm,
    ) -> ActivityTable<'a>
        ensures { IsTable (terms_with length (asked_in scope.now) form) [] result }
    {
        ActivityTable {
            alloc,
            length,
            scope,
            form,
            rows: BTreeMap::new(alloc),
        }
    }

    /// Takes a leg: one of plain units that is asked for is added to its row, and others are passed
    /// over. The error is one of these:
    ///
    /// - `Range`: a sum of its row leaves the range of weights.
    /// - `Memory`: out of memory.
    pub fn add(&mut self, leg: &DatedLeg) -> Result<(), ReportFault>
        ensures { (terms : Terms) (legs : List DatedLegOf) → IsTable terms legs self.old
            → Adds (fits terms legs leg.now) (IsTable terms (legs ++ leg.now ∷ []) self.new)
            result }
    {
        if is_counted(self.scope, leg) {
            add_leg(&mut self.rows, self.alloc, self.length, leg)
        } else {
            Ok(())
        }
    }

    /// Writes the table of all legs so far. As text it says that there is no activity, where no leg
    /// was counted. As CSV it begins with the names of the columns.
    ///
    /// Where memory ends, whole rows are written, but not all. Where the writer fails, a prefix of
    /// the table is written, but not all of it.
    pub fn write<W: CountedWrite>(&self, writer: &mut W) -> Result<(), PrintFault>
        ensures table { (terms : Terms) (legs : List DatedLegOf) → IsTable terms legs self.now
            → (end : List (List ℕ)) × IsEnd terms legs end
            × WritesEach (λ text. text) end (W.contents writer.old) (W.contents writer.new)
            result }
        ensures cause { IsErrOf result PrintFault.Write → HasFailed (W.calls writer.new) }
        ensures none_failed { OnOk result
            (NoneFailed (W.calls writer.old) (W.calls writer.new)) }
    {
        print_table(self.alloc, writer, self.form, &self.rows)
    }
}

/// Returns whether a leg is counted: one of plain units that is asked for.
fn is_counted(scope: &Scope<'_>, leg: &DatedLeg) -> bool
    ensures { result ≡ is_counted (asked_in scope.now) leg.now }
{
    leg.lot.is_none() && scope.has(leg)
}
