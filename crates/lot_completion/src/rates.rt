//! The whole costs that no rate comes to exactly, each replaced by the nearest rate.
ghost use Rattle.std.specs.Prelude.{◌≡◌, ◌≢◌, [], ◌++◌, OnOk, ◌+ℤ◌, ◌-ℤ◌, ◌*ℤ◌, pos, IfOk, IfSome, None, List};
ghost use Rattle.lot_book.specs.Balance.{with_sign};
ghost use Rattle.std.specs.List.{cons_option};
ghost use Rattle.lot_num.specs.Amount.{IsWide, per_unit};
ghost use Rattle.lot_completion.specs.Rates.{AreRated, Rates, RatesAll, RatesCost, RatesTotal, RoundsTotal};
ghost use Rattle.lot_completion.specs.declared.rates.RatedCost.{RatedCost as Rated};
ghost use Rattle.lot_completion.specs.declared.rates.RatedPosting.{RatedPosting as RatedLine};

use lot_base::Commodity;
use lot_command::{Amount, Items, Posting};
use lot_cost::{Cost, CostSpec, WholeCost};
use lot_num::{Rate, Units, Wide, weight};
use lot_rounding::nearest_rate;
use std::alloc::{AllocError, Global};

/// A cost, and what its rate leaves of the total in whose place it stands.
#[derive(Drop)]
struct RatedCost {
    cost: Option<Cost>,
    /// The currency, and the total less what the units cost at the rate, where the rate was rounded.
    left: Option<(Commodity, Wide)>,
}

/// A posting with such a cost.
#[derive(Drop)]
struct RatedPosting {
    posting: Posting,
    /// The currency, and the total less what the units cost at the rate, where the rate was rounded.
    left: Option<(Commodity, Wide)>,
}

/// Postings whose costs are rates, and what the rates leave of the totals.
#[derive(Drop)]
pub struct RatedPostings {
    pub postings: Items<Posting>,
    /// The amounts, each with its currency.
    pub left: Items<(Commodity, Wide)>,
}

/// Returns the postings with a rate for each whole cost that no rate comes to, or `None` where one
/// has no nearest rate or no currency. The only error is out of memory.
pub fn rate_all(alloc: Global, written: &[Posting]) -> Result<Option<RatedPostings>, AllocError>
    ensures some { IfOk result (λ found. IfSome found (AreRated written.now)) }
    ensures none { IfOk result (λ found. found ≡ None
        → (rated : List RatedLine) → RatesAll written.now rated → ⊥) }
{
    let mut postings = Items::new(alloc);
    let mut left = Items::new(alloc);
    for posting in written {
        let Some(rated) = rate(posting)? else {
            return Ok(None);
        };
        postings.push(rated.posting)?;
        push_some(&mut left, rated.left)?;
    }
    Ok(Some(RatedPostings { postings, left }))
}

/// Appends an amount, if there is one. The only error is out of memory.
fn push_some(
    left: &mut Items<(Commodity, Wide)>,
    amount: Option<(Commodity, Wide)>,
) -> Result<(), AllocError>
    ensures { OnOk result (left.new ≡ left.old ++ cons_option amount []) }
{
    if let Some(amount) = amount {
        left.push(amount)?;
    }
    Ok(())
}

/// Returns the posting with a rate for its whole cost, if no rate comes to it, or `None` where it has
/// no nearest rate or no currency. The only error is out of memory.
fn rate(written: &Posting) -> Result<Option<RatedPosting>, AllocError>
    ensures some { IfOk result (λ found. IfSome found (Rates written.now)) }
    ensures none { IfOk result (λ found. found ≡ None
        → (rated : RatedLine) → Rates written.now rated → ⊥) }
{
    let account = written.account.copy()?;
    let Some(amount) = &written.amount else {
        let posting = Posting {
            account,
            amount: None,
        };
        return Ok(Some(RatedPosting {
            posting,
            left: None,
        }));
    };
    let Some(RatedCost { cost, left }) = rate_cost(amount.units, &amount.cost)? else {
        return Ok(None);
    };
    let price = match &amount.price {
        Some(price) => Some(price.copy()?),
        None => None,
    };
    let amount = Amount {
        units: amount.units,
        commodity: amount.commodity.copy()?,
        cost,
        price,
    };
    let posting = Posting {
        account,
        amount: Some(amount),
    };
    Ok(Some(RatedPosting { posting, left }))
}

/// Returns the cost of these units, a rate where it is a total that no rate comes to, or `None` where
/// there is no nearest rate or no currency. The only error is out of memory.
fn rate_cost(units: Units, written: &Option<Cost>) -> Result<Option<RatedCost>, AllocError>
    ensures some { IfOk result (λ found. IfSome found (RatesCost units written.now)) }
    ensures none { IfOk result (λ found. found ≡ None
        → (rated : Rated) → RatesCost units written.now rated → ⊥) }
{
    let cost = match written {
        Some(Cost::Whole(whole)) => return rate_total(units, whole),
        Some(Cost::Each(spec)) => Some(Cost::Each(spec.copy()?)),
        None => None,
    };
    Ok(Some(RatedCost { cost, left: None }))
}

/// Returns the total of these units, or the nearest rate in its place where no rate comes to it, or
/// `None` where there is none or no currency. The only error is out of memory.
fn rate_total(units: Units, whole: &WholeCost) -> Result<Option<RatedCost>, AllocError>
    ensures some { IfOk result (λ found. IfSome found
        (RatesTotal units whole.now (per_unit units whole.now.0))) }
    ensures none { IfOk result (λ found. found ≡ None
        → (rated : Rated) → RatesTotal units whole.now (per_unit units whole.now.0) rated → ⊥) }
{
    if units.per_unit(whole.total()).is_none() {
        return round_cost(units, whole);
    }
    Ok(Some(RatedCost {
        cost: Some(Cost::Whole(whole.copy()?)),
        left: None,
    }))
}

/// Returns the nearest rate in the place of a total, or `None` where there is none or no currency.
/// The only error is out of memory.
fn round_cost(units: Units, whole: &WholeCost) -> Result<Option<RatedCost>, AllocError>
    ensures some { IfOk result (λ found. IfSome found (RoundsTotal units whole.now.0 whole.now.1)) }
    ensures none { IfOk result (λ found. found ≡ None
        → (rated : Rated) → RoundsTotal units whole.now.0 whole.now.1 rated → ⊥) }
{
    let Some(rate) = nearest_rate(units, whole.total()) else {
        return Ok(None);
    };
    let _in_range = units.mantissa();
    let spec = whole.spec();
    let Some(currency) = &spec.currency else {
        return Ok(None);
    };
    let left = (currency.copy()?, left_of(units, whole.total(), rate));
    let CostSpec {
        currency,
        day,
        label,
        ..
    } = spec.copy()?;
    let spec = CostSpec {
        number: Some(rate),
        currency,
        day,
        label,
    };
    Ok(Some(RatedCost {
        cost: Some(Cost::Each(spec)),
        left: Some(left),
    }))
}

/// Returns a total, with the sign of the units, less what the units cost at a rate.
fn left_of(units: Units, total: Units, rate: Rate) -> Wide
    requires { units ≢ pos 0 }
    ensures { result ≡ with_sign units total -ℤ units *ℤ pos rate }
{
    let total = if units < Units::ZERO {
        total.negated()
    } else {
        total
    };
    plus(total.wide(), weight(units, rate).negated())
}

/// Returns the sum of two weights.
pub(crate) fn plus(weight: Wide, other: Wide) -> Wide
    requires { IsWide (weight +ℤ other) }
    ensures { result ≡ weight +ℤ other }
{
    match weight.checked_add(other) {
        Some(sum) => sum,
        None => unreachable!(),
    }
}
