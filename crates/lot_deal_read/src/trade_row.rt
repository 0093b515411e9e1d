//! What a row of a purchase or of a sale says.
ghost use Rattle.std.specs.Prelude.{◌≡◌};
ghost use Rattle.lot_roles.specs.Reading.{Gives};
ghost use Rattle.lot_deal_read.specs.TradeRow.{amount_for, by_price, cash_fee, has_one_currency, price_fee, price_of, pricing_by, trade_row_of, worked_out};

use crate::money::{Money, fee, so_much_in};
use crate::needed::{amount_in, currency_in, currency_or, needed, price_in, symbol_in, units_in};
use crate::pricing::worth;
use lot_base::Commodity;
use lot_num::{Rate, Units};
use lot_profile::{CostBasis, Role};
use lot_roles::{RowFault, Rules, has_sources, rate};
use lot_sheet::Row;
use std::alloc::Global;

/// What a row of a purchase or of a sale says, each number with its sign.
pub(crate) struct TradeRow {
    pub symbol: Commodity,
    /// How many came in, below zero where they went out.
    pub units: Units,
    /// The currency of the amount.
    pub currency: Commodity,
    pub pricing: Pricing,
    /// The currency of the price.
    pub price_currency: Commodity,
    /// What was paid beside the price.
    pub fee: Option<Money>,
}

impl Drop for TradeRow {
    /// It is written out, so that callers don't prove again how each part is dropped.
    fn drop(self) {
        let TradeRow {
            symbol: _symbol,
            units: _units,
            currency: _currency,
            pricing: _pricing,
            price_currency: _price_currency,
            fee: _fee,
        } = self;
    }
}

/// The price of one unit.
#[derive(Clone, Copy)]
pub(crate) enum Pricing {
    /// The amount counts as cost, and the row may have a price.
    Printed(Option<Rate>),
    /// The price counts as cost.
    Cost(Rate),
}

/// Returns what a row of a purchase or of a sale says, but for the amount.
#[tactic(auto, unfolding(crate::specs::TradeRow::trade_row_of))]
pub(crate) fn trade_row(alloc: Global, rules: &Rules, row: &Row) -> Result<TradeRow, RowFault>
    ensures { Gives result (trade_row_of rules.now row.now) }
{
    let symbol = symbol_in(alloc, rules, row)?;
    let units = units_in(rules, row)?;
    let currency = currency_in(alloc, rules, row, Role::Currency)?;
    let pricing = pricing_of(rules, row)?;
    let price_currency = currency_or(alloc, rules, row, Role::PriceCurrency, &currency)?;
    let fee = fee(alloc, rules, row, &currency)?;
    Ok(TradeRow {
        symbol,
        units,
        currency,
        pricing,
        price_currency,
        fee,
    })
}

/// Returns the price of a row, which it needs where that is the cost.
fn pricing_of(rules: &Rules, row: &Row) -> Result<Pricing, RowFault>
    ensures { result ≡ pricing_by rules.now.profile.now.basis.cost rules.now row.now }
{
    match rules.profile.basis.cost {
        CostBasis::Amount => Ok(Pricing::Printed(rate(rules, row, Role::Price)?)),
        CostBasis::Price => Ok(Pricing::Cost(price_in(rules, row)?)),
    }
}

/// Returns the amount: what its column has, where the profile names one, or else what units, price and fee come to.
pub(crate) fn amount_for(rules: &Rules, row: &Row, said: &TradeRow) -> Result<Units, RowFault>
    ensures { result ≡ amount_for rules.now row.now said.now }
{
    if has_sources(rules, Role::Amount) {
        amount_in(rules, row, Role::Amount)
    } else {
        worked_out(said)
    }
}

/// Returns what units, price and fee come to.
fn worked_out(said: &TradeRow) -> Result<Units, RowFault>
    ensures { result ≡ worked_out said.now }
{
    let price = needed(Role::Price, price_of(said.pricing))?;
    if !has_one_currency(said) {
        return Err(RowFault::PriceApart);
    }
    match worth(said.units, price, cash_fee(said)) {
        Some(worth) => Ok(worth.negated()),
        None => Err(RowFault::TooLarge(Role::Amount)),
    }
}

/// Returns the price of one unit, if there is one.
pub(crate) fn price_of(pricing: Pricing) -> Option<Rate>
    ensures { result ≡ price_of pricing }
{
    match pricing {
        Pricing::Printed(price) => price,
        Pricing::Cost(price) => Some(price),
    }
}

/// Returns whether the price is in the currency of the cash.
pub(crate) fn has_one_currency(said: &TradeRow) -> bool
    ensures { result ≡ has_one_currency said.now }
{
    said.price_currency == said.currency
}

/// Returns how much of the fee is in the currency of the cash.
pub(crate) fn cash_fee(said: &TradeRow) -> Units
    ensures { result ≡ cash_fee said.now }
{
    so_much_in(&said.currency, &said.fee)
}

/// Returns how much of the fee is in the currency of the price, where that is another.
pub(crate) fn price_fee(said: &TradeRow) -> Units
    ensures { result ≡ price_fee said.now }
{
    match &said.fee {
        Some(fee) if fee.currency != said.currency && fee.currency == said.price_currency =>
            fee.amount,
        _ => Units::ZERO,
    }
}
