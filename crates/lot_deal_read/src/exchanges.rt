//! The exchange that a row comes to.
ghost use Rattle.std.specs.Prelude.{◌≡◌};
ghost use Rattle.lot_roles.specs.Reading.{Gives};
ghost use Rattle.lot_deal_read.specs.Cash.{are_exchanged, exchange_of, exchange_row_of, posted_exchange, whole_of};

use crate::fees::{fee_apart, fee_within};
use crate::incomes::have_other_signs;
use crate::money::{Money, fee, second, so_much_in};
use crate::movements::moved;
use crate::needed::{amount_in, currency_in};
use lot_base::Commodity;
use lot_deal::Exchange;
use lot_num::Units;
use lot_profile::{AccountRole, Role};
use lot_roles::{RowFault, Rules};
use lot_sheet::Row;
use std::alloc::Global;

/// What a row of an exchange says, each number with its sign.
pub(crate) struct ExchangeRow {
    /// What the cash got of one currency, below zero where it was paid.
    pub amount: Units,
    pub currency: Commodity,
    /// What the cash got of the other currency, where the row has it.
    pub other: Option<Money>,
    /// What was paid for it.
    pub fee: Option<Money>,
}

impl Drop for ExchangeRow {
    /// It is written out, so that callers don't prove again how each part is dropped.
    fn drop(self) {
        let ExchangeRow {
            amount: _amount,
            currency: _currency,
            other: _other,
            fee: _fee,
        } = self;
    }
}

/// Returns the exchange that a row comes to.
#[tactic(auto, unfolding(crate::specs::Cash::exchange_of))]
pub(crate) fn exchange(alloc: Global, rules: &Rules, row: &Row) -> Result<Exchange, RowFault>
    ensures { Gives result (exchange_of rules.now row.now) }
{
    let said = exchange_row(alloc, rules, row)?;
    are_exchanged(&said)?;
    whole(&said)?;
    posted(alloc, rules, row, &said)
}

/// Returns what a row of an exchange says.
#[tactic(auto, unfolding(crate::specs::Cash::exchange_row_of))]
fn exchange_row(alloc: Global, rules: &Rules, row: &Row) -> Result<ExchangeRow, RowFault>
    ensures { Gives result (exchange_row_of rules.now row.now) }
{
    let amount = amount_in(rules, row, Role::Amount)?;
    let currency = currency_in(alloc, rules, row, Role::Currency)?;
    let other = second(alloc, rules, row, (Role::Other, Role::OtherCurrency))?;
    let fee = fee(alloc, rules, row, &currency)?;
    Ok(ExchangeRow {
        amount,
        currency,
        other,
        fee,
    })
}

/// Tells whether the two amounts have other signs and other currencies, or the only one isn't zero.
fn are_exchanged(said: &ExchangeRow) -> Result<(), RowFault>
    ensures { result ≡ are_exchanged said.now.other said.now }
{
    let Some(other) = &said.other else {
        return if said.amount == Units::ZERO {
            Err(RowFault::Signs)
        } else {
            Ok(())
        };
    };
    if !have_other_signs(said.amount, other.amount) {
        return Err(RowFault::Signs);
    }
    if other.currency == said.currency {
        return Err(RowFault::SameCurrency);
    }
    Ok(())
}

/// Returns the amount with the fee in its currency.
fn whole(said: &ExchangeRow) -> Result<Units, RowFault>
    ensures { result ≡ whole_of said.now }
{
    match said
        .amount
        .checked_add(so_much_in(&said.currency, &said.fee))
    {
        Some(whole) => Ok(whole),
        None => Err(RowFault::TooLarge(Role::Amount)),
    }
}

/// Returns the exchange of a row as it is posted.
#[tactic(auto, unfolding(crate::specs::Cash::posted_exchange))]
fn posted(alloc: Global, rules: &Rules, row: &Row, said: &ExchangeRow) -> Result<Exchange, RowFault>
    ensures { Gives result (posted_exchange rules.now row.now said.now) }
{
    let transfers = AccountRole::Transfers;
    let currency = &said.currency;
    let movement = moved(alloc, rules, row, transfers, (said.amount, currency))?;
    let fee = fee_within(alloc, rules, row, currency, &said.fee)?;
    let other = match &said.other {
        Some(other) => Some(moved(
            alloc,
            rules,
            row,
            transfers,
            (other.amount, &other.currency),
        )?),
        None => None,
    };
    let beside = fee_apart(alloc, rules, row, currency, &said.fee)?;
    Ok(Exchange {
        movement,
        fee,
        other,
        beside,
    })
}
