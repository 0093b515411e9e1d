//! The price of a sale in columns: kind, amount and currency.

ghost use Rattle.std.specs.Prelude.{◌≡◌, ◌≢◌, length, IfOk, Option};
ghost use Rattle.lot_command.specs.declared.price.Price.{Price};
ghost use Rattle.lot_rows.specs.Sale.{IsPriceOrNone, amount_of, currency_of, kind_of};
ghost use Rattle.sqlite.specs.declared.types.Value.TheVariants.{Int};
ghost use Rattle.sqlite_value.specs.Order.{column};
ghost use Rattle.sqlite_value.specs.Value.{owned};

use crate::cost::is_null;
use lot_command::{Price, UnitPrice, WholePrice};
use lot_table::{Cell, Fault, column};
use sqlite::Row;
use sqlite::types::ValueRef;
use std::alloc::Global;

/// Returns the column of the kind: 0 without a price, 1 with a price for each unit, 2 with a price for all units.
pub(crate) fn kind_cell(price: &Option<Price>) -> ValueRef<'_>
    ensures { owned result ≡ Int (kind_of price.now) }
{
    ValueRef::Int(match price {
        None => 0,
        Some(Price::Each(_)) => 1,
        Some(Price::Whole(_)) => 2,
    })
}

/// Returns the column of the amount, a rate or a total.
pub(crate) fn amount_cell(price: &Option<Price>) -> ValueRef<'_>
    ensures { owned result ≡ amount_of price.now }
{
    match price {
        None => ValueRef::Null,
        Some(Price::Each(price)) => price.rate.to_cell(),
        Some(Price::Whole(price)) => ValueRef::Int(price.total().mantissa()),
    }
}

/// Returns the column of the currency.
pub(crate) fn currency_cell(price: &Option<Price>) -> ValueRef<'_>
    ensures { owned result ≡ currency_of price.now }
{
    match price {
        None => ValueRef::Null,
        Some(Price::Each(price)) => price.currency.to_cell(),
        Some(Price::Whole(price)) => price.currency().to_cell(),
    }
}

/// Returns the price that the last three of the nine columns of a sale say, or `None` where they say that there is
/// none.
///
/// The error is `Memory`, or `Damaged` exactly where the columns say no price that a book can have.
pub(crate) fn price(alloc: Global, row: &Row) -> Result<Option<Price>, Fault>
    requires { length row.now ≡ 9 }
    ensures ok { IfOk result (λ price. (column row.now 6 ≡ Int (kind_of price))
        × (column row.now 7 ≡ amount_of price) × (column row.now 8 ≡ currency_of price)) }
    ensures good { IfOk result IsPriceOrNone }
    ensures damaged { result ≡ Err Fault.Damaged → (price : Option Price) → IsPriceOrNone price
        → ¬ ((column row.now 6 ≡ Int (kind_of price)) × (column row.now 7 ≡ amount_of price)
        × (column row.now 8 ≡ currency_of price)) }
    ensures no_device { result ≢ Err Fault.Device }
{
    let kind: i64 = column(alloc, row, 6)?;
    match kind {
        0 if is_null(row, 7) && is_null(row, 8) => Ok(None),
        1 => Ok(Some(Price::Each(UnitPrice {
            rate: column(alloc, row, 7)?,
            currency: column(alloc, row, 8)?,
        }))),
        2 => {
            let price = WholePrice::new(column(alloc, row, 7)?, column(alloc, row, 8)?).ok_or(
                Fault::Damaged,
            )?;
            Ok(Some(Price::Whole(price)))
        }
        _ => Err(Fault::Damaged),
    }
}
