//! What the fields of a record say, each by the rule of its column.
ghost use Rattle.std.specs.Prelude.{◌≡◌, IsUtf8, IsSome, IfSome, IfNone};
ghost use Rattle.csv.specs.Records.{fields_of};
ghost use Rattle.lot_import.specs.Row.{NamesLot, SaysAction, SaysCommodity, SaysDay, SaysFee, SaysLabel, SaysLot, SaysRate, SaysUnits, at_column};
ghost use Rattle.lot_import.specs.Column.{GivesField, GivesLot, GivesName};

use crate::fault::Cause;
use crate::row::Action;
use csv::ByteRecord;
use lot_base::{Commodity, Day, Label};
use lot_num::{Rate, Units};

/// Returns the field of a record at a column, counted from 0; it is empty where the record is shorter.
pub fn field(written: &ByteRecord, column: usize) -> &[u8]
    ensures { result.now ≡ at_column (fields_of written.now) column }
{
    match written.get(column) {
        Some(field) => field,
        None => &[],
    }
}

/// Returns the label that a field says, or else that cause.
pub(crate) fn label(field: &[u8], cause: Cause) -> Result<&str, Cause>
    ensures { GivesName (SaysLabel field.now) cause result }
{
    match text(field) {
        Some(text) if Label::is_name(text) => Ok(text),
        _ => Err(cause),
    }
}

/// Returns the commodity that a field says, or else that cause.
pub(crate) fn commodity(field: &[u8], cause: Cause) -> Result<&str, Cause>
    ensures { GivesName (SaysCommodity field.now) cause result }
{
    match text(field) {
        Some(text) if Commodity::is_name(text) => Ok(text),
        _ => Err(cause),
    }
}

/// Returns the day that a field says, or else that cause.
pub(crate) fn day(field: &[u8], cause: Cause) -> Result<Day, Cause>
    ensures { GivesField (SaysDay field.now) cause result }
{
    let Some(text) = text(field) else {
        return Err(cause);
    };
    match Day::parse(text) {
        Ok(day) => Ok(day),
        Err(_) => Err(cause),
    }
}

/// Returns the action that a field says, or else that cause.
pub(crate) fn action(field: &[u8], cause: Cause) -> Result<Action, Cause>
    ensures { GivesField (SaysAction field.now) cause result }
{
    if field == b"BUY".as_slice() {
        Ok(Action::Buy)
    } else if field == b"SELL".as_slice() {
        Ok(Action::Sell)
    } else {
        Err(cause)
    }
}

/// Returns the units that a field says, which aren't below zero, or else that cause.
pub(crate) fn units(field: &[u8], cause: Cause) -> Result<Units, Cause>
    ensures { GivesField (SaysUnits field.now) cause result }
{
    let Some(text) = text(field) else {
        return Err(cause);
    };
    match Units::parse_total(text) {
        Ok(units) => Ok(units),
        Err(_) => Err(cause),
    }
}

/// Returns the rate that a field says, or else that cause.
pub(crate) fn rate(field: &[u8], cause: Cause) -> Result<Rate, Cause>
    ensures { GivesField (SaysRate field.now) cause result }
{
    let Some(text) = text(field) else {
        return Err(cause);
    };
    match Rate::parse(text) {
        Ok(rate) => Ok(rate),
        Err(_) => Err(cause),
    }
}

/// Returns the fee that a field says, which is zero where it is empty, or else that cause.
pub(crate) fn fee(field: &[u8], cause: Cause) -> Result<Rate, Cause>
    ensures { GivesField (SaysFee field.now) cause result }
{
    if field.is_empty() {
        Ok(no_fee())
    } else {
        rate(field, cause)
    }
}

fn no_fee() -> Rate
    ensures { result ≡ 0 }
{
    match Rate::from_mantissa(0) {
        Some(rate) => rate,
        None => unreachable!(),
    }
}

/// Returns the label of the lot that a field says beside the reference of the row, or `None` where the field is empty. Else it
/// returns that cause.
pub(crate) fn lot<'a>(
    action: Action,
    reference: &[u8],
    field: &'a [u8],
    cause: Cause,
) -> Result<Option<&'a str>, Cause>
    ensures { GivesLot (SaysLot action reference.now field.now) cause result }
{
    if field.is_empty() {
        return Ok(None);
    }
    if action == Action::Buy && field != reference {
        return Err(cause);
    }
    Ok(Some(label(field, cause)?))
}

/// Returns a field as text, or `None` where it isn't UTF-8.
fn text(field: &[u8]) -> Option<&str>
    ensures some { IfSome result (λ text. text.now ≡ field.now) }
    ensures utf8 { IsSome result → IsUtf8 field.now }
    ensures none { IfNone result (IsUtf8 field.now → ⊥) }
{
    str::from_utf8(field).ok()
}
