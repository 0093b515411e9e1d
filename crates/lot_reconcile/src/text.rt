ghost use Rattle.std.specs.Prelude.{◌≡◌, IfOk, IsErrOf, OnOk};
ghost use Rattle.std.specs.String.{string_bytes};
ghost use Rattle.lot_io.specs.Writes.{HasFailed, NoneFailed};
ghost use Rattle.lot_report.specs.Written.{WritesLine};
ghost use Rattle.lot_reconcile.specs.Table.{csv_row, header, line_of, row_text, text_row};

use crate::balance::Balance;
use lot_base::Commodity;
use lot_csv::{push_field, push_others};
use lot_io::CountedWrite;
use lot_report::{PrintFault, print_texts};
use lot_tally::TableForm;
use std::alloc::{AllocError, Global};

/// The names of the columns.
const HEADER: &str = "commodity,statement,book,difference\n";

/// Writes the line with the names of the columns.
pub(crate) fn print_header<W: CountedWrite>(writer: &mut W) -> Result<(), PrintFault>
    ensures line { WritesLine (W.contents writer.old) (W.contents writer.new) result header }
    ensures cause { IsErrOf result PrintFault.Write → HasFailed (W.calls writer.new) }
    ensures none_failed { OnOk result (NoneFailed (W.calls writer.old) (W.calls writer.new)) }
{
    print_texts(writer, &[HEADER])
}

/// Writes the line of a row, and nothing where it doesn't differ. Out of memory nothing is written.
pub(crate) fn print_row<W: CountedWrite>(
    alloc: Global,
    writer: &mut W,
    form: TableForm,
    commodity: &Commodity,
    balance: &Balance,
) -> Result<(), PrintFault>
    ensures line { WritesLine (W.contents writer.old) (W.contents writer.new) result
        (row_text form (commodity.now, balance.now)) }
    ensures cause { IsErrOf result PrintFault.Write → HasFailed (W.calls writer.new) }
    ensures none_failed { OnOk result (NoneFailed (W.calls writer.old) (W.calls writer.new)) }
{
    if balance.differs() {
        return print_difference(alloc, writer, form, commodity, balance);
    }
    print_texts(writer, &[""])
}

/// Writes the line of a row that differs.
fn print_difference<W: CountedWrite>(
    alloc: Global,
    writer: &mut W,
    form: TableForm,
    commodity: &Commodity,
    balance: &Balance,
) -> Result<(), PrintFault>
    ensures line { WritesLine (W.contents writer.old) (W.contents writer.new) result
        (line_of form (commodity.now, balance.now)) }
    ensures cause { IsErrOf result PrintFault.Write → HasFailed (W.calls writer.new) }
    ensures none_failed { OnOk result (NoneFailed (W.calls writer.old) (W.calls writer.new)) }
{
    match form {
        TableForm::Text => print_text(alloc, writer, commodity, balance),
        TableForm::Csv => print_record(alloc, writer, commodity, balance),
    }
}

/// Writes the line of a row as text.
fn print_text<W: CountedWrite>(
    alloc: Global,
    writer: &mut W,
    commodity: &Commodity,
    balance: &Balance,
) -> Result<(), PrintFault>
    ensures line { WritesLine (W.contents writer.old) (W.contents writer.new) result
        (text_row commodity.now balance.now) }
    ensures cause { IsErrOf result PrintFault.Write → HasFailed (W.calls writer.new) }
    ensures none_failed { OnOk result (NoneFailed (W.calls writer.old) (W.calls writer.new)) }
{
    let said = balance.said.text_money(alloc)?;
    let held = balance.held.text_money(alloc)?;
    let difference = balance.difference.text_money(alloc)?;
    print_texts(
        writer,
        &[
            commodity.as_str(),
            " statement ",
            said.as_str(),
            " book ",
            held.as_str(),
            " difference ",
            difference.as_str(),
            "\n",
        ],
    )
}

/// Writes the record of a row.
fn print_record<W: CountedWrite>(
    alloc: Global,
    writer: &mut W,
    commodity: &Commodity,
    balance: &Balance,
) -> Result<(), PrintFault>
    ensures line { WritesLine (W.contents writer.old) (W.contents writer.new) result
        (csv_row commodity.now balance.now) }
    ensures cause { IsErrOf result PrintFault.Write → HasFailed (W.calls writer.new) }
    ensures none_failed { OnOk result (NoneFailed (W.calls writer.old) (W.calls writer.new)) }
{
    let record = record_of(alloc, commodity, balance)?;
    print_texts(writer, &[record.as_str()])
}

/// Returns the record of a row. The only error is out of memory.
fn record_of(alloc: Global, commodity: &Commodity, balance: &Balance) -> Result<String, AllocError>
    ensures { IfOk result (λ text. string_bytes text ≡ csv_row commodity.now balance.now) }
{
    let said = balance.said.text_money(alloc)?;
    let held = balance.held.text_money(alloc)?;
    let difference = balance.difference.text_money(alloc)?;
    let mut text = String::new(alloc);
    push_field(&mut text, commodity.as_str())?;
    push_others(
        &mut text,
        &[said.as_str(), held.as_str(), difference.as_str()],
    )?;
    text.push_str("\n")?;
    Ok(text)
}
