//! What a kind needs of a row.
ghost use Rattle.std.specs.Prelude.{◌≡◌};
ghost use Rattle.lot_roles.specs.Reading.{Gives};
ghost use Rattle.lot_deal_read.specs.Needed.{amount_in, currency_in, currency_or, needed, price_in, symbol_in, units_in};

use lot_base::Commodity;
use lot_num::{Rate, Units};
use lot_profile::Role;
use lot_roles::{RowFault, Rules, amount, commodity, exact_units, rate, symbol};
use lot_sheet::Row;
use std::alloc::Global;

/// Returns a value of a role that a kind needs. The error is `Missing`, where there is none.
pub(crate) fn needed<T: Drop>(role: Role, value: Option<T>) -> Result<T, RowFault>
    ensures { result ≡ needed role value }
{
    match value {
        Some(value) => Ok(value),
        None => Err(RowFault::Missing(role)),
    }
}

/// Returns the symbol of a row.
pub(crate) fn symbol_in(alloc: Global, rules: &Rules, row: &Row) -> Result<Commodity, RowFault>
    ensures { Gives result (symbol_in rules.now row.now) }
{
    needed(Role::Symbol, symbol(alloc, rules, row)?)
}

/// Returns the units of a row.
pub(crate) fn units_in(rules: &Rules, row: &Row) -> Result<Units, RowFault>
    ensures { result ≡ units_in rules.now row.now }
{
    needed(Role::Units, exact_units(rules, row, Role::Units)?)
}

/// Returns the amount of a role in a row.
pub(crate) fn amount_in(rules: &Rules, row: &Row, role: Role) -> Result<Units, RowFault>
    ensures { result ≡ amount_in rules.now row.now role }
{
    needed(role, amount(rules, row, role)?)
}

/// Returns the price of a row.
pub(crate) fn price_in(rules: &Rules, row: &Row) -> Result<Rate, RowFault>
    ensures { result ≡ price_in rules.now row.now }
{
    needed(Role::Price, rate(rules, row, Role::Price)?)
}

/// Returns the currency of a role in a row.
pub(crate) fn currency_in(
    alloc: Global,
    rules: &Rules,
    row: &Row,
    role: Role,
) -> Result<Commodity, RowFault>
    ensures { Gives result (currency_in rules.now row.now role) }
{
    needed(role, commodity(alloc, rules, row, role)?)
}

/// Returns the currency of a role in a row, or that one where the row says none.
pub(crate) fn currency_or(
    alloc: Global,
    rules: &Rules,
    row: &Row,
    role: Role,
    currency: &Commodity,
) -> Result<Commodity, RowFault>
    ensures { Gives result (currency_or rules.now row.now role currency.now) }
{
    match commodity(alloc, rules, row, role)? {
        Some(other) => Ok(other),
        None => Ok(currency.copy()?),
    }
}
