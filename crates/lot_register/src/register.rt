ghost use Rattle.std.specs.Prelude.{◌≡◌, [], IsErrOf, List, OnOk};
ghost use Rattle.lot_io.specs.Writes.{HasFailed, NoneFailed};
ghost use Rattle.lot_register.specs.Left.{RegisterRow};
ghost use Rattle.lot_register.specs.Register.{HasTaken, TakesLeg, Terms, foot_lines, has_rows, head_lines, is_from, written_rows};
ghost use Rattle.lot_register.specs.declared.leg.NotedLeg.{NotedLeg as NotedLegOf};
ghost use Rattle.lot_report.specs.Written.{WritesEach};
ghost use Rattle.lot_tally.specs.declared.key.TableForm.TheVariants.{Text};

use crate::left::Lefts;
use crate::leg::NotedLeg;
use crate::text::print_row;
use lot_base::Day;
use lot_io::CountedWrite;
use lot_report::{PrintFault, ReportFault, print_line, print_texts};
use lot_tally::TableForm;
use std::alloc::Global;

/// The names of the columns.
const HEADER: &str =
    "day,entry,posting,account,commodity,units,acquired,label,unit_cost,currency,left,narration\n";

/// A register of legs: a row for each, with what is left behind it of its commodity in its account.
/// What is left counts from the first leg on; rows are written from the first day on.
///
/// It takes legs one after another, and writes the row of each behind those before it. After a
/// fault it says nothing of use.
#[derive(Drop)]
pub struct Register {
    alloc: Global,
    form: TableForm,
    /// The first day that is written. Without one that end is open.
    first: Option<Day>,
    lefts: Lefts,
    /// Whether a row was written.
    has_rows: bool,
}

impl Register {
    /// The register before its first leg, which writes rows from a day on. It takes no memory.
    pub fn new(alloc: Global, form: TableForm, first: Option<Day>) -> Register
        ensures { HasTaken (form, first) [] result }
    {
        Register {
            alloc,
            form,
            first,
            lefts: Lefts::new(alloc),
            has_rows: false,
        }
    }

    /// Writes what stands before the rows: as CSV the names of the columns.
    ///
    /// The only fault is that of the writer. A prefix is then written, but not all of it.
    pub fn begin<W: CountedWrite>(&self, writer: &mut W) -> Result<(), PrintFault>
        ensures lines { (terms : Terms) (legs : List NotedLegOf) → HasTaken terms legs self.now
            → WritesEach (λ text. text) (head_lines terms.0)
            (W.contents writer.old) (W.contents writer.new) result }
        ensures cause { IsErrOf result PrintFault.Write → HasFailed (W.calls writer.new) }
        ensures none_failed { OnOk result (NoneFailed (W.calls writer.old) (W.calls writer.new)) }
    {
        match self.form {
            TableForm::Text => Ok(()),
            TableForm::Csv => print_texts(writer, &[HEADER]),
        }
    }

    /// Takes a leg, and writes its row, unless it is before the first day. The error is one of
    /// these:
    ///
    /// - `Range`: what is left of its commodity in its account leaves the range of units. Nothing is
    ///   written.
    /// - `Memory`: out of memory. Nothing is written.
    /// - `Write`: the writer failed. A prefix of the row is written, but not all of it.
    pub fn row<W: CountedWrite>(
        &mut self,
        leg: &NotedLeg,
        writer: &mut W,
    ) -> Result<(), ReportFault>
        ensures takes { (terms : Terms) (legs : List NotedLegOf) → HasTaken terms legs self.old
            → TakesLeg terms legs leg.now self.new
            (W.contents writer.old) (W.contents writer.new) result }
        ensures cause { IsErrOf result ReportFault.Write → HasFailed (W.calls writer.new) }
        ensures none_failed { OnOk result (NoneFailed (W.calls writer.old) (W.calls writer.new)) }
    {
        let left = self.lefts.add(leg)?;
        if !is_from(self.first, leg.day) {
            return Ok(());
        }
        self.has_rows = true;
        print_row(self.alloc, writer, self.form, leg, left)?;
        Ok(())
    }

    /// Writes what stands behind the rows: a text without rows says so.
    ///
    /// The only fault is that of the writer. A prefix is then written, but not all of it.
    pub fn end<W: CountedWrite>(&self, writer: &mut W) -> Result<(), PrintFault>
        ensures lines { (terms : Terms) (legs : List NotedLegOf) → HasTaken terms legs self.now
            → WritesEach (λ text. text) (foot_lines terms.0 (written_rows terms.1 legs))
            (W.contents writer.old) (W.contents writer.new) result }
        ensures cause { IsErrOf result PrintFault.Write → HasFailed (W.calls writer.new) }
        ensures none_failed { OnOk result (NoneFailed (W.calls writer.old) (W.calls writer.new)) }
    {
        match self.form {
            TableForm::Text => self.end_text(writer),
            TableForm::Csv => Ok(()),
        }
    }

    /// Writes that a text has no rows, where none was written. The only fault is that of the writer.
    fn end_text<W: CountedWrite>(&self, writer: &mut W) -> Result<(), PrintFault>
        ensures lines { (rows : List RegisterRow) → self.now.has_rows ≡ has_rows rows
            → WritesEach (λ text. text) (foot_lines Text rows)
            (W.contents writer.old) (W.contents writer.new) result }
        ensures cause { IsErrOf result PrintFault.Write → HasFailed (W.calls writer.new) }
        ensures none_failed { OnOk result (NoneFailed (W.calls writer.old) (W.calls writer.new)) }
    {
        if self.has_rows {
            return Ok(());
        }
        print_line(writer, "no legs")
    }
}

/// Returns whether a range that begins on a day, if it begins, hasn't begun later.
fn is_from(first: Option<Day>, day: Day) -> bool
    ensures { result ≡ is_from first day }
{
    match first {
        Some(first) => day >= first,
        None => true,
    }
}
