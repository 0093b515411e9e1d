ghost use Rattle.std.specs.Prelude.{◌≡◌, ◌++◌, IfOk, IsErrOf, OnOk};
ghost use Rattle.std.specs.String.{string_bytes};
ghost use Rattle.lot_csv.specs.Holdings.{holding_record, holdings_header, position_fields, value_fields};
ghost use Rattle.lot_csv.specs.Record.{others_text};
ghost use Rattle.lot_io.specs.Writes.{HasFailed, NoneFailed};
ghost use Rattle.lot_report.specs.Written.{WritesLine};

use crate::record::{push_cost, push_field, push_others};
use lot_book::LotKey;
use lot_io::CountedWrite;
use lot_num::{Units, weight};
use lot_report::{PrintFault, Valuation, ValuedHolding, print_texts};
use std::alloc::{AllocError, Global};

/// Which columns a table of holdings has.
#[derive(Clone, Copy, Debug, PartialEq, Eq)]
pub enum Columns {
    /// What is held, and what it costs.
    Costs,
    /// The same, with its price and its value.
    Values,
}

/// Returns the line with the names of the columns.
pub fn holdings_header(columns: Columns) -> &'static str
    ensures { result.now ≡ holdings_header columns }
{
    match columns {
        Columns::Costs => "account,commodity,units,acquired,label,unit_cost,currency,cost\n",
        Columns::Values => {
            "account,commodity,units,acquired,label,unit_cost,currency,cost,price,value\n"
        }
    }
}

/// Writes the record of a holding. Where memory ends, nothing is written. Where the writer fails, a
/// prefix of the record is written, but not all of it.
pub fn write_holding<W: CountedWrite>(
    alloc: Global,
    writer: &mut W,
    columns: Columns,
    row: &ValuedHolding,
) -> Result<(), PrintFault>
    ensures line { WritesLine (W.contents writer.old) (W.contents writer.new) result
        (holding_record columns row.now) }
    ensures cause { IsErrOf result PrintFault.Write → HasFailed (W.calls writer.new) }
    ensures none_failed { OnOk result (NoneFailed (W.calls writer.old) (W.calls writer.new)) }
{
    let record = holding_record(alloc, columns, row)?;
    print_texts(writer, &[record.as_str()])
}

/// Returns the record of a holding. The only error is out of memory.
fn holding_record(
    alloc: Global,
    columns: Columns,
    row: &ValuedHolding,
) -> Result<String, AllocError>
    ensures { IfOk result (λ text. string_bytes text ≡ holding_record columns row.now) }
{
    let holding = &row.holding;
    let units = holding.units.text(alloc)?;
    let mut text = String::new(alloc);
    push_field(&mut text, holding.account.as_str())?;
    push_others(&mut text, &[holding.commodity.as_str(), units.as_str()])?;
    push_position(alloc, &mut text, &holding.lot, holding.units)?;
    push_value(alloc, &mut text, columns, row.valuation, holding.units)?;
    text.push_str("\n")?;
    Ok(text)
}

/// Appends the fields of a lot with so many units; those of plain units are empty.
fn push_position(
    alloc: Global,
    text: &mut String,
    lot: &Option<LotKey>,
    units: Units,
) -> Result<(), AllocError>
    ensures { OnOk result (string_bytes text.new
        ≡ string_bytes text.old ++ others_text (position_fields lot.now units)) }
{
    let Some(lot) = lot else {
        return push_others(text, &["", "", "", "", ""]);
    };
    let acquired = lot.day.text(alloc)?;
    let cost = weight(units, lot.number).text_money(alloc)?;
    push_others(text, &[acquired.as_str()])?;
    push_cost(alloc, text, lot)?;
    push_others(text, &[cost.as_str()])
}

/// Appends the price and the value of so many units, where the table has them; without a price both
/// are empty.
fn push_value(
    alloc: Global,
    text: &mut String,
    columns: Columns,
    valuation: Valuation,
    units: Units,
) -> Result<(), AllocError>
    ensures { OnOk result (string_bytes text.new
        ≡ string_bytes text.old ++ others_text (value_fields columns valuation units)) }
{
    match (columns, valuation) {
        (Columns::Costs, _) => Ok(()),
        (Columns::Values, Valuation::At(price)) => {
            let value = weight(units, price).text_money(alloc)?;
            let price = price.text(alloc)?;
            push_others(text, &[price.as_str(), value.as_str()])
        }
        (Columns::Values, _) => push_others(text, &["", ""]),
    }
}
