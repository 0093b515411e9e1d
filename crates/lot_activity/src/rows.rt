ghost use Rattle.std.specs.Prelude.{◌≡◌, ◌∷◌, ◌++◌, [], List, IfErr, IfOk, IsErrOf, OnOk, map};
ghost use Rattle.std.specs.BTreeMap.{insert_entry};
ghost use Rattle.std.specs.String.{string_bytes};
ghost use Rattle.lot_io.specs.Writes.{HasFailed, NoneFailed};
ghost use Rattle.lot_legs.specs.declared.leg.DatedLeg.{DatedLeg as DatedLegOf};
ghost use Rattle.lot_period.specs.declared.period.PeriodLength.{PeriodLength as PeriodLengthOf};
ghost use Rattle.lot_report.specs.Written.{WritesEach};
ghost use Rattle.lot_tally.specs.Rows.{Adds, AddsFitting};
ghost use Rattle.lot_activity.specs.Rows.{leg_fits, row_of};
ghost use Rattle.lot_activity.specs.Table.{HasRows, header, kept_cmp, row_text, seen, shown, table_lines, text_lines};
ghost use Rattle.lot_tally.specs.declared.key.TableForm.TheVariants.{Csv};

use crate::flow::Flow;
use crate::text::print_row;
use lot_book::Pair;
use lot_io::CountedWrite;
use lot_legs::DatedLeg;
use lot_num::Units;
use lot_period::{PeriodLength, period_text};
use lot_report::{PrintFault, ReportFault, print_line, print_texts};
use lot_tally::TableForm;
use std::alloc::{AllocError, Global};
use std::collections::BTreeMap;

/// What tells a row from others: the text of its period, and its account and commodity.
pub(crate) type RowKey = (String, Pair);

/// The rows, in the order of their keys.
pub(crate) type Rows = BTreeMap<RowKey, Flow>;

/// The names of the columns.
const HEADER: &str = "period,account,commodity,in,out\n";

/// Adds a leg to its row. Returns `Range` where a sum leaves its range.
pub(crate) fn add_leg(
    rows: &mut Rows,
    alloc: Global,
    length: PeriodLength,
    leg: &DatedLeg,
) -> Result<(), ReportFault>
    ensures { (legs : List DatedLegOf) → HasRows length legs rows.old
        → Adds (leg_fits length legs leg.now)
        (HasRows length (legs ++ leg.now ∷ []) rows.new) result }
{
    let key = row_of(alloc, length, leg)?;
    add_units(rows, key, leg.units)
}

/// Returns what tells the row of a leg from others. The only error is out of memory.
fn row_of(alloc: Global, length: PeriodLength, leg: &DatedLeg) -> Result<RowKey, AllocError>
    ensures { IfOk result (λ key. seen key ≡ row_of length leg.now) }
{
    let period = period_text(alloc, length, leg.day)?;
    let account = leg.account.copy()?;
    let commodity = leg.commodity.copy()?;
    Ok((period, Pair { account, commodity }))
}

/// Adds the units of a leg to its row. The error is `Range` where a sum of the row leaves its range,
/// else `Memory`.
fn add_units(rows: &mut Rows, key: RowKey, units: Units) -> Result<(), ReportFault>
    ensures { (length : PeriodLengthOf) (legs : List DatedLegOf) (leg : DatedLegOf)
        → seen key ≡ row_of length leg → units ≡ leg.units → HasRows length legs rows.old
        → AddsFitting (leg_fits length legs leg)
        (HasRows length (legs ++ leg ∷ []) rows.new) result }
{
    let flow = rows.get(&key).copied().unwrap_or(Flow::none());
    match flow.with(units) {
        Some(flow) => set_row(rows, key, flow),
        None => Err(ReportFault::Range),
    }
}

/// Sets the sums of a row. The only error is out of memory.
fn set_row(rows: &mut Rows, key: RowKey, flow: Flow) -> Result<(), ReportFault>
    ensures entries { OnOk result
        (rows.new.entries ≡ insert_entry kept_cmp rows.old.entries key flow) }
    ensures cause { IfErr result (λ fault. fault ≡ ReportFault.Memory) }
{
    rows.insert(key, flow)?;
    Ok(())
}

/// Writes the table of rows.
pub(crate) fn print_table<W: CountedWrite>(
    alloc: Global,
    writer: &mut W,
    form: TableForm,
    rows: &Rows,
) -> Result<(), PrintFault>
    ensures lines { WritesEach (λ text. text) (table_lines form (map shown rows.now.entries))
        (W.contents writer.old) (W.contents writer.new) result }
    ensures cause { IsErrOf result PrintFault.Write → HasFailed (W.calls writer.new) }
    ensures none_failed { OnOk result (NoneFailed (W.calls writer.old) (W.calls writer.new)) }
{
    match form {
        TableForm::Text => print_lines(alloc, writer, rows),
        TableForm::Csv => print_records(alloc, writer, rows),
    }
}

/// Writes the rows as text, or that there are none.
fn print_lines<W: CountedWrite>(
    alloc: Global,
    writer: &mut W,
    rows: &Rows,
) -> Result<(), PrintFault>
    ensures lines { WritesEach (λ text. text) (text_lines (map shown rows.now.entries))
        (W.contents writer.old) (W.contents writer.new) result }
    ensures cause { IsErrOf result PrintFault.Write → HasFailed (W.calls writer.new) }
    ensures none_failed { OnOk result (NoneFailed (W.calls writer.old) (W.calls writer.new)) }
{
    if rows.is_empty() {
        return print_line(writer, "no activity");
    }
    print_rows(alloc, writer, TableForm::Text, rows)
}

/// Writes the names of the columns, and the rows as CSV.
fn print_records<W: CountedWrite>(
    alloc: Global,
    writer: &mut W,
    rows: &Rows,
) -> Result<(), PrintFault>
    ensures lines { WritesEach (λ text. text)
        (header ∷ map (row_text Csv) (map shown rows.now.entries))
        (W.contents writer.old) (W.contents writer.new) result }
    ensures cause { IsErrOf result PrintFault.Write → HasFailed (W.calls writer.new) }
    ensures none_failed { OnOk result (NoneFailed (W.calls writer.old) (W.calls writer.new)) }
{
    print_texts(writer, &[HEADER])?;
    print_rows(alloc, writer, TableForm::Csv, rows)
}

/// Writes rows, each with its line.
fn print_rows<W: CountedWrite>(
    alloc: Global,
    writer: &mut W,
    form: TableForm,
    rows: &Rows,
) -> Result<(), PrintFault>
    ensures rows { WritesEach (λ row. row_text form (shown row)) rows.now.entries
        (W.contents writer.old) (W.contents writer.new) result }
    ensures cause { IsErrOf result PrintFault.Write → HasFailed (W.calls writer.new) }
    ensures none_failed { OnOk result (NoneFailed (W.calls writer.old) (W.calls writer.new)) }
{
    for (key, flow) in rows {
        print_row(alloc, writer, form, key, flow)?;
    }
    Ok(())
}
