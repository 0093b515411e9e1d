//! The postings of an account that make up for a crumb, as completions make them.
ghost use Rattle.std.specs.Prelude.{◌≡◌, ◌++◌, OnOk, IfOk, Some, SomeIff};
ghost use Rattle.lot_num.specs.Amount.{IsUnits};
ghost use Rattle.lot_split.specs.Crumbs.{crumb_postings, is_nothing, part_posting, price_in, rest_of, speck_of, whole_of};

use lot_base::{Account, Commodity};
use lot_command::{Amount, Items, Posting, Price, UnitPrice};
use lot_num::{Rate, Units, Wide};
use std::alloc::AllocError;

/// Appends the postings that make up for the crumb of a currency. The only error is out of memory.
pub(crate) fn push_crumb(
    postings: &mut Items<Posting>,
    account: &Account,
    currency: &Commodity,
    crumb: Wide,
) -> Result<(), AllocError>
    requires { IsUnits (whole_of crumb) }
    ensures { OnOk result (postings.new
        ≡ postings.old ++ crumb_postings account.now currency.now crumb) }
{
    let Some(whole) = whole_of(crumb) else {
        unreachable!();
    };
    push_part(postings, account, currency, whole, None)?;
    push_part(postings, account, currency, speck_of(crumb), rest_of(crumb))
}

/// Appends a posting of units at a rate in their currency, if there is one, unless that is nothing. The
/// only error is out of memory.
fn push_part(
    postings: &mut Items<Posting>,
    account: &Account,
    currency: &Commodity,
    units: Units,
    rate: Option<Rate>,
) -> Result<(), AllocError>
    ensures { OnOk result (postings.new
        ≡ postings.old ++ part_posting account.now currency.now units rate) }
{
    if is_nothing(units, rate) {
        return Ok(());
    }
    let amount = Amount {
        units,
        commodity: currency.copy()?,
        cost: None,
        price: price_in(currency, rate)?,
    };
    postings.push(Posting {
        account: account.copy()?,
        amount: Some(amount),
    })?;
    Ok(())
}

/// Returns whether nothing is left of a crumb: no units, or, of the least units at a rate, no rate.
fn is_nothing(units: Units, rate: Option<Rate>) -> bool
    ensures { result ≡ is_nothing units rate }
{
    match rate {
        None => units == Units::ZERO,
        Some(rate) => rate.mantissa() == 0,
    }
}

/// Returns the price of a rate in a currency, if there is one. The only error is out of memory.
fn price_in(currency: &Commodity, rate: Option<Rate>) -> Result<Option<Price>, AllocError>
    ensures { IfOk result (λ price. price ≡ price_in currency.now rate) }
{
    let Some(rate) = rate else {
        return Ok(None);
    };
    Ok(Some(Price::Each(UnitPrice {
        rate,
        currency: currency.copy()?,
    })))
}

/// Returns the whole units of a crumb, or `None` where they are out of range.
fn whole_of(crumb: Wide) -> Option<Units>
    ensures { SomeIff result (IsUnits (whole_of crumb)) (whole_of crumb) }
{
    Units::from_mantissa(i64::try_from(crumb.mantissa() / 100_000_000).ok()?)
}

/// Returns what is left of a crumb behind the eighth decimal, sign aside, as a price.
fn rest_of(crumb: Wide) -> Option<Rate>
    ensures { result ≡ Some (rest_of crumb) }
{
    Rate::from_mantissa((crumb.mantissa().unsigned_abs() % 100_000_000) as u64)
}

/// Returns the least units with the sign of a crumb.
fn speck_of(crumb: Wide) -> Units
    ensures { result ≡ speck_of crumb }
{
    let speck = if crumb < Wide::ZERO { -1 } else { 1 };
    Units::from_mantissa(speck).unwrap_or(Units::ZERO)
}
