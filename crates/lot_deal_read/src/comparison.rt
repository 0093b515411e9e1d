//! Whether what a row of a trade says agrees.
ghost use Rattle.std.specs.Prelude.{◌≡◌};
ghost use Rattle.std.specs.Option.{is_some};
ghost use Rattle.lot_num.specs.Amount.{one};
ghost use Rattle.lot_deal_read.specs.Comparison.{comparison, compared_at, figures_of, places_for, rate_for};
ghost use Rattle.lot_deal_read.specs.TradeRow.{third_fee};

use crate::figures::{Figures, Places};
use crate::trade_row::{TradeRow, cash_fee, has_one_currency, price_fee, price_of};
use lot_num::{Rate, Units};
use lot_profile::Role;
use lot_roles::{RowFault, Rules, has_sources, rate};
use lot_sheet::Row;

/// Tells whether units, price, fee and amount agree, so that a digit that was misread shows: of an amount that was read, where there
/// is a price, and both are in one currency or a rate ties them.
#[tactic(auto, unfolding(crate::specs::Comparison::comparison))]
pub(crate) fn compare(
    rules: &Rules,
    row: &Row,
    said: &TradeRow,
    amount: Units,
) -> Result<(), RowFault>
    ensures { result ≡ comparison rules.now row.now said.now amount }
{
    if !has_sources(rules, Role::Amount) {
        return Ok(());
    }
    let Some(price) = price_of(said.pricing) else {
        return Ok(());
    };
    match rate_for(rules, row, said)? {
        Some(rate) => compare_at(rules, said, figures(said, amount, price, rate)),
        None => Ok(()),
    }
}

/// Tells whether numbers of a row agree.
fn compare_at(rules: &Rules, said: &TradeRow, figures: Figures) -> Result<(), RowFault>
    ensures { result ≡ compared_at rules.now said.now figures }
{
    let places = places_for(rules, said);
    if figures.agree(&places, rules.profile.basis.within) {
        Ok(())
    } else {
        Err(RowFault::Disagree)
    }
}

/// Returns the numbers that are compared.
fn figures(said: &TradeRow, amount: Units, price: Rate, rate: Rate) -> Figures
    ensures { result ≡ figures_of said.now amount price rate }
{
    Figures {
        units: said.units,
        price,
        amount,
        fee: cash_fee(said),
        price_fee: price_fee(said),
        rate,
    }
}

/// Returns how much of the price's currency one of the cash's is, if that is known.
fn rate_for(rules: &Rules, row: &Row, said: &TradeRow) -> Result<Option<Rate>, RowFault>
    ensures { result ≡ rate_for rules.now row.now said.now }
{
    if has_one_currency(said) {
        return Ok(Some(one()));
    }
    match rate(rules, row, Role::Rate)? {
        Some(rate) if rate.mantissa() == 0 => Err(RowFault::RateZero),
        rate => Ok(rate),
    }
}

/// Returns the rate of a currency in itself.
fn one() -> Rate
    ensures { result ≡ one }
{
    match Rate::from_mantissa(100_000_000) {
        Some(one) => one,
        None => unreachable!(),
    }
}

/// Returns the last places to which the broker rounds; that of a fee counts if it is in the amount.
fn places_for(rules: &Rules, said: &TradeRow) -> Places
    ensures { result ≡ places_for rules.now said.now }
{
    let places = Places::of(&rules.profile.basis);
    if is_third(said) {
        places.without_fee()
    } else {
        places
    }
}

/// Returns whether the fee is in a third currency.
fn is_third(said: &TradeRow) -> bool
    ensures { result ≡ is_some (third_fee said.now) }
{
    match &said.fee {
        Some(fee) => fee.currency != said.currency && fee.currency != said.price_currency,
        None => false,
    }
}
