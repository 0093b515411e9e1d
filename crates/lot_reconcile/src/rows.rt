ghost use Rattle.std.specs.Prelude.{◌≡◌, ◌∷◌, ◌++◌, [], IfErr, IfOk, IsErrOf, List, OnOk};
ghost use Rattle.std.specs.BTreeMap.{insert_entry};
ghost use Rattle.lot_base.specs.Text.{text_cmp};
ghost use Rattle.lot_io.specs.Writes.{HasFailed, NoneFailed};
ghost use Rattle.lot_legs.specs.declared.leg.DatedLeg.{DatedLeg as DatedLegOf};
ghost use Rattle.lot_report.specs.Written.{WritesEach};
ghost use Rattle.lot_statement.specs.Line.{Line};
ghost use Rattle.lot_statement.specs.Statement.{HasSaid};
ghost use Rattle.lot_tally.specs.Rows.{Adds, AddsFitting};
ghost use Rattle.lot_tally.specs.declared.key.TableForm.TheVariants.{Csv};
ghost use Rattle.lot_reconcile.specs.Balance.{AreBalances, leg_fits};
ghost use Rattle.lot_reconcile.specs.Table.{agree, row_text, table_lines, text_lines};

use crate::balance::Balance;
use crate::text::{print_header, print_row};
use lot_base::Commodity;
use lot_io::CountedWrite;
use lot_legs::DatedLeg;
use lot_num::Units;
use lot_report::{PrintFault, ReportFault, print_line};
use lot_statement::Statement;
use lot_tally::TableForm;
use std::alloc::Global;
use std::collections::BTreeMap;

/// The balance of each commodity, in the order of their names.
pub(crate) type Rows = BTreeMap<Commodity, Balance>;

/// Returns the rows of a statement, beside which the book has nothing. The only error is out of memory.
pub(crate) fn rows_of(alloc: Global, statement: Statement) -> Result<Rows, ReportFault>
    ensures rows { IfOk result (λ rows. (lines : List Line) → HasSaid lines statement
        → AreBalances lines [] rows.entries) }
    ensures cause { IfErr result (λ fault. fault ≡ ReportFault.Memory) }
{
    let mut rows = BTreeMap::new(alloc);
    for (commodity, units) in statement {
        set_row(&mut rows, commodity, Balance::of_statement(units))?;
    }
    Ok(rows)
}

/// Adds a leg to the row of its commodity. Returns `Range` where a sum leaves its range.
pub(crate) fn add_leg(rows: &mut Rows, leg: &DatedLeg) -> Result<(), ReportFault>
    ensures { (lines : List Line) (legs : List DatedLegOf) → AreBalances lines legs rows.old.entries
        → Adds (leg_fits lines legs leg.now)
        (AreBalances lines (legs ++ leg.now ∷ []) rows.new.entries) result }
{
    let commodity = leg.commodity.copy()?;
    add_units(rows, commodity, leg.units)
}

/// Adds the units of a leg to the row of its commodity. The error is `Range` where a sum of the row
/// leaves its range, else `Memory`.
fn add_units(rows: &mut Rows, commodity: Commodity, units: Units) -> Result<(), ReportFault>
    ensures { (lines : List Line) (legs : List DatedLegOf) (leg : DatedLegOf)
        → commodity ≡ leg.commodity → units ≡ leg.units → AreBalances lines legs rows.old.entries
        → AddsFitting (leg_fits lines legs leg)
        (AreBalances lines (legs ++ leg ∷ []) rows.new.entries) result }
{
    let balance = rows
        .get(&commodity)
        .copied()
        .unwrap_or(Balance::of_statement(Units::ZERO));
    match balance.with(units) {
        Some(balance) => set_row(rows, commodity, balance),
        None => Err(ReportFault::Range),
    }
}

/// Sets the balance of a commodity. The only error is out of memory.
fn set_row(rows: &mut Rows, commodity: Commodity, balance: Balance) -> Result<(), ReportFault>
    ensures entries { OnOk result
        (rows.new.entries ≡ insert_entry text_cmp rows.old.entries commodity balance) }
    ensures cause { IfErr result (λ fault. fault ≡ ReportFault.Memory) }
{
    rows.insert(commodity, balance)?;
    Ok(())
}

/// Returns whether no commodity differs.
pub(crate) fn agree(rows: &Rows) -> bool
    ensures { result ≡ agree rows.now.entries }
{
    for row in rows {
        if row.1.differs() {
            return false;
        }
    }
    true
}

/// Writes the table of the rows that differ.
pub(crate) fn print_table<W: CountedWrite>(
    alloc: Global,
    writer: &mut W,
    form: TableForm,
    rows: &Rows,
) -> Result<(), PrintFault>
    ensures lines { WritesEach (λ text. text) (table_lines form rows.now.entries)
        (W.contents writer.old) (W.contents writer.new) result }
    ensures cause { IsErrOf result PrintFault.Write → HasFailed (W.calls writer.new) }
    ensures none_failed { OnOk result (NoneFailed (W.calls writer.old) (W.calls writer.new)) }
{
    match form {
        TableForm::Text => print_lines(alloc, writer, rows),
        TableForm::Csv => print_records(alloc, writer, rows),
    }
}

/// Writes the rows that differ as text, or that none does.
fn print_lines<W: CountedWrite>(
    alloc: Global,
    writer: &mut W,
    rows: &Rows,
) -> Result<(), PrintFault>
    ensures lines { WritesEach (λ text. text) (text_lines rows.now.entries)
        (W.contents writer.old) (W.contents writer.new) result }
    ensures cause { IsErrOf result PrintFault.Write → HasFailed (W.calls writer.new) }
    ensures none_failed { OnOk result (NoneFailed (W.calls writer.old) (W.calls writer.new)) }
{
    if agree(rows) {
        return print_line(writer, "nothing differs");
    }
    print_rows(alloc, writer, TableForm::Text, rows)
}

/// Writes the names of the columns, and the rows that differ as CSV.
fn print_records<W: CountedWrite>(
    alloc: Global,
    writer: &mut W,
    rows: &Rows,
) -> Result<(), PrintFault>
    ensures lines { WritesEach (λ text. text) (table_lines Csv rows.now.entries)
        (W.contents writer.old) (W.contents writer.new) result }
    ensures cause { IsErrOf result PrintFault.Write → HasFailed (W.calls writer.new) }
    ensures none_failed { OnOk result (NoneFailed (W.calls writer.old) (W.calls writer.new)) }
{
    print_header(writer)?;
    print_rows(alloc, writer, TableForm::Csv, rows)
}

/// Writes rows, each with its line where it differs.
fn print_rows<W: CountedWrite>(
    alloc: Global,
    writer: &mut W,
    form: TableForm,
    rows: &Rows,
) -> Result<(), PrintFault>
    ensures rows { WritesEach (row_text form) rows.now.entries
        (W.contents writer.old) (W.contents writer.new) result }
    ensures cause { IsErrOf result PrintFault.Write → HasFailed (W.calls writer.new) }
    ensures none_failed { OnOk result (NoneFailed (W.calls writer.old) (W.calls writer.new)) }
{
    for (commodity, balance) in rows {
        print_row(alloc, writer, form, commodity, balance)?;
    }
    Ok(())
}
