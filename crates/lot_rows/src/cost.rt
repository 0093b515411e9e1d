//! The cost of a leg in columns: number, currency, day and label, each null for plain units.

ghost use Rattle.std.specs.Prelude.{◌≡◌, ◌≢◌, ◌↔◌, ◌<◌, ◌+◌, length, IfOk, Option, IsTrue};
ghost use Rattle.lot_cost.specs.declared.lot_key.LotKey.{LotKey};
ghost use Rattle.lot_rows.specs.LotKey.{IsLotOrPlain, cost_currency, cost_day, cost_label, cost_number};
ghost use Rattle.sqlite.specs.declared.types.Value.TheVariants.{Null};
ghost use Rattle.sqlite_value.specs.Order.{column};
ghost use Rattle.sqlite_value.specs.Value.{owned};

use lot_cost::LotKey;
use lot_table::{Cell, Fault, column};
use sqlite::Row;
use sqlite::types::ValueRef;
use std::alloc::Global;

/// Returns the column of the number.
pub(crate) fn number_cell(lot: &Option<LotKey>) -> ValueRef<'_>
    ensures { owned result ≡ cost_number lot.now }
{
    match lot {
        Some(lot) => lot.number.to_cell(),
        None => ValueRef::Null,
    }
}

/// Returns the column of the currency.
pub(crate) fn currency_cell(lot: &Option<LotKey>) -> ValueRef<'_>
    ensures { owned result ≡ cost_currency lot.now }
{
    match lot {
        Some(lot) => lot.currency.to_cell(),
        None => ValueRef::Null,
    }
}

/// Returns the column of the day.
pub(crate) fn day_cell(lot: &Option<LotKey>) -> ValueRef<'_>
    ensures { owned result ≡ cost_day lot.now }
{
    match lot {
        Some(lot) => lot.day.to_cell(),
        None => ValueRef::Null,
    }
}

/// Returns the column of the label, which holds the empty text where a lot has none.
pub(crate) fn label_cell(lot: &Option<LotKey>) -> ValueRef<'_>
    ensures { owned result ≡ cost_label lot.now }
{
    match lot {
        Some(lot) => lot.label.to_cell(),
        None => ValueRef::Null,
    }
}

/// Returns whether a column is null.
pub(crate) fn is_null(row: &Row, at: usize) -> bool
    requires { at < length row.now }
    ensures { IsTrue result ↔ column row.now at ≡ Null }
{
    matches!(row.get_ref(at), Ok(ValueRef::Null))
}

/// Returns the lot that the last four of the ten columns of a leg say, or `None` where all four are null.
///
/// The error is `Memory`, or `Damaged` exactly where the columns aren't all null and say no lot that a book can have.
pub(crate) fn lot(alloc: Global, row: &Row) -> Result<Option<LotKey>, Fault>
    requires { length row.now ≡ 10 }
    ensures ok { IfOk result
        (λ lot. (column row.now 6 ≡ cost_number lot) × (column row.now 7 ≡ cost_currency lot)
        × (column row.now 8 ≡ cost_day lot) × (column row.now 9 ≡ cost_label lot)) }
    ensures good { IfOk result IsLotOrPlain }
    ensures damaged { result ≡ Err Fault.Damaged → (lot : Option LotKey) → IsLotOrPlain lot
        → ¬ ((column row.now 6 ≡ cost_number lot) × (column row.now 7 ≡ cost_currency lot)
        × (column row.now 8 ≡ cost_day lot) × (column row.now 9 ≡ cost_label lot)) }
    ensures no_device { result ≢ Err Fault.Device }
{
    if is_null(row, 6) && is_null(row, 7) && is_null(row, 8) && is_null(row, 9) {
        return Ok(None);
    }
    Ok(Some(LotKey {
        number: column(alloc, row, 6)?,
        currency: column(alloc, row, 7)?,
        day: column(alloc, row, 8)?,
        label: column(alloc, row, 9)?,
    }))
}
