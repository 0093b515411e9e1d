//! What the postings of a transaction leave in a currency, as far as its text says it.
ghost use Rattle.std.specs.Prelude.{◌≡◌, option_map};
ghost use Rattle.lot_book.specs.Balance.{weight_at_price, with_sign};
ghost use Rattle.lot_explain.specs.Residual.{residual_said, weight_in_braces, weight_said, with_posting};

use lot_base::Commodity;
use lot_command::{Amount, Cost, Posting, Price};
use lot_num::{Units, Wide, weight};

/// Returns what the postings with amounts leave in a currency. It isn't known where braces don't
/// say the cost of a unit, since the lots that are taken then say it, or where the sum is out of
/// range.
pub(crate) fn residual(postings: &[Posting], currency: &str) -> Option<Wide>
    ensures { result ≡ residual_said currency.now postings.now }
{
    let mut sum = Wide::ZERO;
    for posting in postings {
        sum = add(sum, &posting.amount, currency)?;
    }
    Some(sum)
}

/// Returns the sum with what an amount weighs in the currency, where its text says it.
fn add(sum: Wide, amount: &Option<Amount>, currency: &str) -> Option<Wide>
    ensures { result ≡ with_posting currency.now sum amount.now }
{
    let Some(amount) = amount else {
        return Some(sum);
    };
    let Some((weighed, weight)) = weight_said(amount) else {
        return None;
    };
    if weighed.as_str() == currency {
        sum.checked_add(weight)
    } else {
        Some(sum)
    }
}

/// Returns what an amount weighs, with the currency, where its text says it.
fn weight_said(amount: &Amount) -> Option<(&Commodity, Wide)>
    ensures { option_map (λ said. (said.0.now, said.1)) result ≡ weight_said amount.now }
{
    match &amount.cost {
        Some(cost) => weight_in_braces(amount.units, cost),
        None => Some(weight_at_price(amount)),
    }
}

/// Returns what braces say that units weigh, with the currency.
fn weight_in_braces(units: Units, cost: &Cost) -> Option<(&Commodity, Wide)>
    ensures { option_map (λ said. (said.0.now, said.1)) result
        ≡ weight_in_braces units cost.now }
{
    match cost {
        Cost::Each(spec) => match (&spec.currency, spec.number) {
            (Some(currency), Some(number)) => Some((currency, weight(units, number))),
            _ => None,
        },
        Cost::Whole(whole) => match &whole.spec().currency {
            Some(currency) => Some((currency, with_sign(units, whole.total()))),
            None => None,
        },
    }
}

/// Returns what an amount without braces weighs, with the currency.
fn weight_at_price(amount: &Amount) -> (&Commodity, Wide)
    ensures { (result.0.now, result.1)
        ≡ weight_at_price amount.now.commodity amount.now.units amount.now.price }
{
    let units = amount.units;
    match &amount.price {
        Some(Price::Each(price)) => (&price.currency, weight(units, price.rate)),
        Some(Price::Whole(price)) => (price.currency(), with_sign(units, price.total())),
        None => (&amount.commodity, units.wide()),
    }
}

/// Returns the total, at scale 16, with the sign of the units, or zero for zero units.
fn with_sign(units: Units, total: Units) -> Wide
    ensures { result ≡ with_sign units total }
{
    if units.mantissa() == 0 {
        Wide::ZERO
    } else if units.mantissa() < 0 {
        total.wide().negated()
    } else {
        total.wide()
    }
}
