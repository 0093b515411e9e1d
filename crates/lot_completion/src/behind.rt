//! Crumbs, read back from the postings that make up for them.
ghost use Rattle.std.specs.Prelude.{◌≡◌, ◌≤◌, ◌++◌, ◌∷◌, [], ℕ, ℤ, List, IfOk, OnOk, if◌then◌else◌, unsigned_abs};
ghost use Rattle.std.specs.List.{AllByRecursion, list_any};
ghost use Rattle.lot_base.specs.Text.{same_text};
ghost use Rattle.lot_book.specs.Currencies.{sum_in};
ghost use Rattle.lot_num.specs.Amount.{IsUnits};
ghost use Rattle.lot_completion.specs.Crumbs.{whole_of};
ghost use Rattle.lot_completion.specs.Form.{most_of_crumb};
ghost use Rattle.lot_completion.specs.Formed.{crumbs_behind, made_by, part_at, part_of, parts_in, with_new};

use crate::crumbs::push_crumbs;
use crate::rates::plus;
use lot_base::Commodity;
use lot_command::{Amount, Items, Posting, Price};
use lot_num::{Wide, weight};
use std::alloc::{AllocError, Global};

/// Returns the crumbs that postings make up for, if they do so for some. The only error is out of
/// memory.
pub(crate) fn crumbs_behind(
    alloc: Global,
    postings: &[Posting],
) -> Result<Items<(Commodity, Wide)>, AllocError>
    ensures { IfOk result (λ crumbs. crumbs ≡ crumbs_behind postings.now) }
{
    let mut crumbs = Items::new(alloc);
    for posting in postings {
        if let Some(amount) = &posting.amount {
            push_new(&mut crumbs, postings, &amount.commodity)?;
        }
    }
    Ok(crumbs)
}

/// Appends what postings make up for in a currency, unless that stands among the crumbs. The only error
/// is out of memory.
fn push_new(
    crumbs: &mut Items<(Commodity, Wide)>,
    postings: &[Posting],
    currency: &Commodity,
) -> Result<(), AllocError>
    ensures { OnOk result (crumbs.new
        ≡ with_new crumbs.old (currency.now, sum_in (parts_in postings.now) currency.now)) }
{
    if !is_among(crumbs.as_slice(), currency) {
        crumbs.push((currency.copy()?, sum_in(postings, currency)))?;
    }
    Ok(())
}

/// Returns whether some crumb is in a currency.
fn is_among(crumbs: &[(Commodity, Wide)], currency: &Commodity) -> bool
    ensures { result ≡ list_any (λ (c : List ℕ × ℤ). same_text currency.now c.0) crumbs.now }
{
    crumbs.iter().any(|crumb| *currency == crumb.0)
}

/// Returns how much postings make up for in a currency.
fn sum_in(postings: &[Posting], currency: &Commodity) -> Wide
    ensures { result ≡ sum_in (parts_in postings.now) currency.now }
{
    let mut sum = Wide::ZERO;
    for posting in postings.iter() {
        sum = plus(sum, part_in(currency, &posting.amount));
    }
    sum
}

/// Returns how much a posting with that amount makes up for in a currency.
fn part_in(currency: &Commodity, amount: &Option<Amount>) -> Wide
    ensures value { result ≡ sum_in (part_at amount.now) currency.now }
    ensures small { unsigned_abs result ≤ most_of_crumb }
{
    match amount {
        Some(amount) if *currency == amount.commodity => part_of(amount),
        _ => Wide::ZERO,
    }
}

/// Returns how much an amount makes up for, of a crumb of at most one.
fn part_of(amount: &Amount) -> Wide
    ensures value { result ≡ part_of amount.now.units amount.now.price }
    ensures small { unsigned_abs result ≤ most_of_crumb }
{
    let size = amount.units.mantissa().unsigned_abs();
    match &amount.price {
        None if size <= 100_000_000 => amount.units.wide(),
        Some(Price::Each(price)) if size <= 1 => weight(amount.units, price.rate),
        _ => Wide::ZERO,
    }
}

/// Returns the postings of the account of the first of some that make up for crumbs. The only error is
/// out of memory.
pub(crate) fn made_by(
    alloc: Global,
    postings: &[Posting],
    crumbs: &[(Commodity, Wide)],
) -> Result<Items<Posting>, AllocError>
    requires { AllByRecursion (λ (c : List ℕ × ℤ). IsUnits (whole_of c.1)) crumbs.now }
    ensures { IfOk result (λ made. made ≡ made_by postings.now crumbs.now) }
{
    let mut made = Items::new(alloc);
    let Some(first) = postings.first() else {
        return Ok(made);
    };
    push_crumbs(&mut made, &first.account, crumbs)?;
    Ok(made)
}
