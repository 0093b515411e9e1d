//! The units that come in for no cash by a row.
ghost use Rattle.std.specs.Prelude.{◌≡◌, IfOk};
ghost use Rattle.lot_roles.specs.Reading.{Gives};
ghost use Rattle.lot_deal_read.specs.Signs.{CameIn};
ghost use Rattle.lot_deal_read.specs.Incoming.{come_in, posted_incoming, priced, reward_cost, reward_of, reward_row_of, transfer_of, transfer_row_of, worth_by};

use crate::money::Money;
use crate::needed::{amount_in, currency_in, currency_or, needed, price_in, symbol_in, units_in};
use crate::pricing::worth;
use lot_base::{Commodity, Day};
use lot_deal::Incoming;
use lot_num::Units;
use lot_profile::{AccountRole, Rewards, Role};
use lot_roles::{RowFault, Rules, account, amount};
use lot_sheet::Row;
use std::alloc::Global;

/// What a row of units that come in says.
pub(crate) struct IncomingRow {
    pub symbol: Commodity,
    pub units: Units,
    /// What all of them cost.
    pub cost: Money,
    /// The day of their lot, where it isn't that of the row.
    pub day: Option<Day>,
}

impl Drop for IncomingRow {
    /// It is written out, so that callers don't prove again how each part is dropped.
    fn drop(self) {
        let IncomingRow {
            symbol: _symbol,
            units: _units,
            cost: _cost,
            day: _day,
        } = self;
    }
}

/// Returns the reward that a row comes to.
pub(crate) fn reward(alloc: Global, rules: &Rules, row: &Row) -> Result<Incoming, RowFault>
    ensures gives { Gives result (reward_of rules.now row.now) }
    ensures signs { IfOk result CameIn }
{
    let said = reward_row(alloc, rules, row)?;
    posted(alloc, rules, row, AccountRole::Rewards, &said)
}

/// Returns the units from elsewhere that a row of that day comes to.
pub(crate) fn transfer(
    alloc: Global,
    rules: &Rules,
    row: &Row,
    day: Day,
) -> Result<Incoming, RowFault>
    ensures gives { Gives result (transfer_of rules.now row.now day) }
    ensures signs { IfOk result CameIn }
{
    let said = transfer_row(alloc, rules, row, day)?;
    posted(alloc, rules, row, AccountRole::Transfers, &said)
}

/// Returns what a row of a reward says.
#[tactic(auto, unfolding(crate::specs::Incoming::reward_row_of))]
fn reward_row(alloc: Global, rules: &Rules, row: &Row) -> Result<IncomingRow, RowFault>
    ensures { Gives result (reward_row_of rules.now row.now) }
{
    let symbol = symbol_in(alloc, rules, row)?;
    let units = units_in(rules, row)?;
    let currency = currency_in(alloc, rules, row, Role::Currency)?;
    let cost = reward_cost(alloc, rules, row, units, &currency)?;
    Ok(IncomingRow {
        symbol,
        units,
        cost,
        day: None,
    })
}

/// Returns what a reward costs: nothing; or the amount of the row, else the units at their price.
fn reward_cost(
    alloc: Global,
    rules: &Rules,
    row: &Row,
    units: Units,
    currency: &Commodity,
) -> Result<Money, RowFault>
    ensures { Gives result
        (reward_cost rules.now.profile.now.basis.rewards rules.now row.now units currency.now) }
{
    let cost = match rules.profile.basis.rewards {
        Rewards::Zero => Some(Units::ZERO),
        Rewards::Value => amount(rules, row, Role::Amount)?,
    };
    match cost {
        Some(amount) => Ok(Money {
            amount,
            currency: currency.copy()?,
        }),
        None => priced(alloc, rules, row, units, currency),
    }
}

/// Returns what units are worth at the price of a row, in the currency of the price.
fn priced(
    alloc: Global,
    rules: &Rules,
    row: &Row,
    units: Units,
    currency: &Commodity,
) -> Result<Money, RowFault>
    ensures { Gives result (priced rules.now row.now units currency.now) }
{
    let price = price_in(rules, row)?;
    let currency = currency_or(alloc, rules, row, Role::PriceCurrency, currency)?;
    match worth(units, price, Units::ZERO) {
        Some(amount) => Ok(Money { amount, currency }),
        None => Err(RowFault::TooLarge(Role::Amount)),
    }
}

/// Returns what a row of units from elsewhere says, where its day is that.
#[tactic(auto, unfolding(crate::specs::Incoming::transfer_row_of))]
fn transfer_row(alloc: Global, rules: &Rules, row: &Row, day: Day) -> Result<IncomingRow, RowFault>
    ensures { Gives result (transfer_row_of rules.now row.now day) }
{
    let symbol = symbol_in(alloc, rules, row)?;
    let units = units_in(rules, row)?;
    let currency = currency_in(alloc, rules, row, Role::Currency)?;
    let amount = amount_in(rules, row, Role::Cost)?;
    let cost_day = needed(
        Role::CostDay,
        lot_roles::day(alloc, rules, row, Role::CostDay)?,
    )?;
    if cost_day > day {
        return Err(RowFault::CostDayLater);
    }
    Ok(IncomingRow {
        symbol,
        units,
        cost: Money { amount, currency },
        day: Some(cost_day),
    })
}

/// Returns the units of a row that come in from another account, as they are posted.
#[tactic(auto, unfolding(crate::specs::Incoming::posted_incoming))]
fn posted(
    alloc: Global,
    rules: &Rules,
    row: &Row,
    other: AccountRole,
    said: &IncomingRow,
) -> Result<Incoming, RowFault>
    ensures gives { Gives result (posted_incoming rules.now row.now other said.now) }
    ensures signs { IfOk result CameIn }
{
    if !come_in(said.units, said.cost.amount) {
        return Err(RowFault::Signs);
    }
    let currency = said.cost.currency.as_str();
    let invest = account(alloc, rules, row, AccountRole::Invest, currency)?;
    let from = if said.cost.amount == Units::ZERO {
        None
    } else {
        Some(account(alloc, rules, row, other, currency)?)
    };
    Ok(Incoming {
        symbol: said.symbol.copy()?,
        units: said.units,
        cost: said.cost.amount,
        currency: said.cost.currency.copy()?,
        day: said.day,
        invest,
        account: from,
    })
}

/// Returns whether units come in, at a cost that isn't below zero.
fn come_in(units: Units, cost: Units) -> bool
    ensures { result ≡ come_in units cost }
{
    units > Units::ZERO && cost >= Units::ZERO
}
