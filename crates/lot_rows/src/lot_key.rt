//! A lot in the columns of a table that has a row for each lot. The key is the account, the commodity, and the day, currency,
//! number and label of the cost.

ghost use Rattle.std.specs.Prelude.{◌≡◌, ◌∷◌, []};
ghost use Rattle.lot_rows.specs.LotKey.{lot_columns, lot_key};
ghost use Rattle.sqlite.specs.Values.{bound};

use lot_base::{Account, Commodity};
use lot_cost::LotKey;
use lot_table::Cell;
use sqlite::types::ValueRef;

/// Returns the columns of the key.
pub(crate) fn cells<'a>(
    account: &'a Account,
    commodity: &'a Commodity,
    lot: &'a LotKey,
) -> [ValueRef<'a>; 6]
    ensures columns { bound result ≡ lot_key account.now commodity.now lot.now }
{
    [
        account.to_cell(),
        commodity.to_cell(),
        lot.day.to_cell(),
        lot.currency.to_cell(),
        lot.number.to_cell(),
        lot.label.to_cell(),
    ]
}

/// Returns the columns of a row: those of the key, and this one behind them.
pub(crate) fn cells_with<'a>(
    account: &'a Account,
    commodity: &'a Commodity,
    lot: &'a LotKey,
    last: ValueRef<'a>,
) -> [ValueRef<'a>; 7]
    ensures columns { bound result
        ≡ lot_columns account.now commodity.now lot.now (bound (last.entry ∷ [])) }
{
    let [account, commodity, day, currency, number, label] = cells(account, commodity, lot);
    [account, commodity, day, currency, number, label, last]
}
