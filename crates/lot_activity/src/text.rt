ghost use Rattle.std.specs.Prelude.{◌≡◌, IfOk, IsErrOf, OnOk};
ghost use Rattle.std.specs.String.{string_bytes};
ghost use Rattle.lot_io.specs.Writes.{HasFailed, NoneFailed};
ghost use Rattle.lot_report.specs.Written.{WritesLine};
ghost use Rattle.lot_activity.specs.Table.{csv_row, row_text, seen, shown, text_row};

use crate::flow::Flow;
use crate::rows::RowKey;
use lot_csv::{push_field, push_others};
use lot_io::CountedWrite;
use lot_report::{PrintFault, print_texts};
use lot_tally::TableForm;
use std::alloc::{AllocError, Global};

/// Writes the line of a row. Out of memory nothing is written.
pub(crate) fn print_row<W: CountedWrite>(
    alloc: Global,
    writer: &mut W,
    form: TableForm,
    key: &RowKey,
    flow: &Flow,
) -> Result<(), PrintFault>
    ensures line { WritesLine (W.contents writer.old) (W.contents writer.new) result
        (row_text form (shown (key.now, flow.now))) }
    ensures cause { IsErrOf result PrintFault.Write → HasFailed (W.calls writer.new) }
    ensures none_failed { OnOk result (NoneFailed (W.calls writer.old) (W.calls writer.new)) }
{
    match form {
        TableForm::Text => print_text(alloc, writer, key, flow),
        TableForm::Csv => print_record(alloc, writer, key, flow),
    }
}

/// Writes the line of a row as text.
fn print_text<W: CountedWrite>(
    alloc: Global,
    writer: &mut W,
    key: &RowKey,
    flow: &Flow,
) -> Result<(), PrintFault>
    ensures line { WritesLine (W.contents writer.old) (W.contents writer.new) result
        (text_row (seen key.now) flow.now) }
    ensures cause { IsErrOf result PrintFault.Write → HasFailed (W.calls writer.new) }
    ensures none_failed { OnOk result (NoneFailed (W.calls writer.old) (W.calls writer.new)) }
{
    let incoming = flow.incoming.text_money(alloc)?;
    let outgoing = flow.outgoing.text_money(alloc)?;
    print_texts(
        writer,
        &[
            key.0.as_str(),
            " ",
            key.1.account.as_str(),
            " ",
            key.1.commodity.as_str(),
            " in ",
            incoming.as_str(),
            " out ",
            outgoing.as_str(),
            "\n",
        ],
    )
}

/// Writes the record of a row.
fn print_record<W: CountedWrite>(
    alloc: Global,
    writer: &mut W,
    key: &RowKey,
    flow: &Flow,
) -> Result<(), PrintFault>
    ensures line { WritesLine (W.contents writer.old) (W.contents writer.new) result
        (csv_row (seen key.now) flow.now) }
    ensures cause { IsErrOf result PrintFault.Write → HasFailed (W.calls writer.new) }
    ensures none_failed { OnOk result (NoneFailed (W.calls writer.old) (W.calls writer.new)) }
{
    let record = record_of(alloc, key, flow)?;
    print_texts(writer, &[record.as_str()])
}

/// Returns the record of a row. The only error is out of memory.
fn record_of(alloc: Global, key: &RowKey, flow: &Flow) -> Result<String, AllocError>
    ensures { IfOk result (λ text. string_bytes text ≡ csv_row (seen key.now) flow.now) }
{
    let incoming = flow.incoming.text_money(alloc)?;
    let outgoing = flow.outgoing.text_money(alloc)?;
    let mut text = String::new(alloc);
    push_field(&mut text, key.0.as_str())?;
    push_others(
        &mut text,
        &[
            key.1.account.as_str(),
            key.1.commodity.as_str(),
            incoming.as_str(),
            outgoing.as_str(),
        ],
    )?;
    text.push_str("\n")?;
    Ok(text)
}
