ghost use Rattle.std.specs.Prelude.{◌≡◌, ◌++◌, IfOk, IsErrOf, OnOk, flat_map, map, codes};
ghost use Rattle.std.specs.String.{string_bytes};
ghost use Rattle.lot_csv.specs.Record.{field_text, others_text};
ghost use Rattle.lot_io.specs.Writes.{HasFailed, NoneFailed};
ghost use Rattle.lot_report.specs.Written.{WritesLine};
ghost use Rattle.lot_tally.specs.Table.{header, priced_line, row_text, shown, unless_none, unpriced_line};

use crate::counted::RowKey;
use crate::key::{GainKey, TableForm};
use crate::sums::RowSums;
use itoa::Buffer;
use lot_csv::{push_field, push_others};
use lot_io::CountedWrite;
use lot_report::{PrintFault, print_texts};
use std::alloc::{AllocError, Global};

/// Writes the lines of a row. Out of memory nothing is written.
pub(crate) fn print_row<W: CountedWrite>(
    alloc: Global,
    writer: &mut W,
    form: TableForm,
    key: &RowKey,
    sums: &RowSums,
) -> Result<(), PrintFault>
    ensures line { WritesLine (W.contents writer.old) (W.contents writer.new) result
        (row_text form (shown (key.now, sums.now))) }
    ensures cause { IsErrOf result PrintFault.Write → HasFailed (W.calls writer.new) }
    ensures none_failed { OnOk result (NoneFailed (W.calls writer.old) (W.calls writer.new)) }
{
    let text = row_text(alloc, form, key, sums)?;
    print_texts(writer, &[text.as_str()])
}

/// Writes the line with the names of the columns. Out of memory nothing is written.
pub(crate) fn print_header<W: CountedWrite>(
    alloc: Global,
    writer: &mut W,
    by: &[GainKey],
) -> Result<(), PrintFault>
    ensures line { WritesLine (W.contents writer.old) (W.contents writer.new) result
        (header by.now) }
    ensures cause { IsErrOf result PrintFault.Write → HasFailed (W.calls writer.new) }
    ensures none_failed { OnOk result (NoneFailed (W.calls writer.old) (W.calls writer.new)) }
{
    let text = header(alloc, by)?;
    print_texts(writer, &[text.as_str()])
}

/// Returns the line with the names of the columns. The only error is out of memory.
fn header(alloc: Global, by: &[GainKey]) -> Result<String, AllocError>
    ensures { IfOk result (λ text. string_bytes text ≡ header by.now) }
{
    let mut text = String::new(alloc);
    for key in by {
        text.push_str(key.as_str())?;
        text.push_str(",")?;
    }
    text.push_str("currency,lots,proceeds,cost,gain\n")?;
    Ok(text)
}

/// Returns the lines of a row: one for its lots that have a gain, and one for those that have none,
/// where there are any. The only error is out of memory.
fn row_text(
    alloc: Global,
    form: TableForm,
    key: &RowKey,
    sums: &RowSums,
) -> Result<String, AllocError>
    ensures { IfOk result (λ text. string_bytes text ≡ row_text form (shown (key.now, sums.now))) }
{
    let mut text = String::new(alloc);
    push_priced(alloc, &mut text, form, key, sums)?;
    push_unpriced(alloc, &mut text, form, key, sums)?;
    Ok(text)
}

/// Appends the line of the lots that have a gain, if there are any. The only error is out of
/// memory.
fn push_priced(
    alloc: Global,
    text: &mut String,
    form: TableForm,
    key: &RowKey,
    sums: &RowSums,
) -> Result<(), AllocError>
    ensures { OnOk result (string_bytes text.new ≡ string_bytes text.old
        ++ unless_none sums.now.priced_lots
        (priced_line form (shown (key.now, sums.now)).0 sums.now)) }
{
    if sums.priced_lots == 0 {
        return Ok(());
    }
    let mut digits = Buffer::new();
    let lots = digits.format(sums.priced_lots);
    let proceeds = sums.proceeds.text_money(alloc)?;
    let cost = sums.cost.text_money(alloc)?;
    let gain = sums.gain.text_money(alloc)?;
    match form {
        TableForm::Text => push_all(
            text,
            &[
                key.0.as_str(),
                key.1.as_str(),
                " lots ",
                lots,
                " proceeds ",
                proceeds.as_str(),
                " cost ",
                cost.as_str(),
                " gain ",
                gain.as_str(),
                "\n",
            ],
        ),
        TableForm::Csv => push_record(
            text,
            key,
            &[lots, proceeds.as_str(), cost.as_str(), gain.as_str()],
        ),
    }
}

/// Appends the line of the lots that have no gain, if there are any. The only error is out of
/// memory.
fn push_unpriced(
    alloc: Global,
    text: &mut String,
    form: TableForm,
    key: &RowKey,
    sums: &RowSums,
) -> Result<(), AllocError>
    ensures { OnOk result (string_bytes text.new ≡ string_bytes text.old
        ++ unless_none sums.now.unpriced_lots
        (unpriced_line form (shown (key.now, sums.now)).0 sums.now)) }
{
    if sums.unpriced_lots == 0 {
        return Ok(());
    }
    let mut digits = Buffer::new();
    let lots = digits.format(sums.unpriced_lots);
    let cost = sums.unpriced_cost.text_money(alloc)?;
    match form {
        TableForm::Text => push_all(
            text,
            &[
                key.0.as_str(),
                key.1.as_str(),
                " lots ",
                lots,
                " cost ",
                cost.as_str(),
                " unpriced\n",
            ],
        ),
        TableForm::Csv => push_record(text, key, &[lots, "", cost.as_str(), ""]),
    }
}

/// Appends a record: the fields of a row, and those behind them. The only error is out of memory.
fn push_record(text: &mut String, key: &RowKey, fields: &[&str]) -> Result<(), AllocError>
    ensures { OnOk result (string_bytes text.new ≡ string_bytes text.old
        ++ (string_bytes key.now.0 ++ field_text key.now.1
        ++ others_text (map (λ field. field.now) fields.now) ++ codes "\n")) }
{
    text.push_str(key.0.as_str())?;
    push_field(text, key.1.as_str())?;
    push_others(text, fields)?;
    text.push_str("\n")
}

/// Appends texts, one behind another. The only error is out of memory.
fn push_all(text: &mut String, texts: &[&str]) -> Result<(), AllocError>
    ensures { OnOk result (string_bytes text.new
        ≡ string_bytes text.old ++ flat_map (λ text. text.now) texts.now) }
{
    for more in texts {
        text.push_str(more)?;
    }
    Ok(())
}
