//! The transaction that completes another.
ghost use Rattle.std.specs.Prelude.{◌≡◌, [], ◌∷◌, ℕ, ℤ, List, None, IfOk, IfSome, is_none};
ghost use Rattle.std.specs.List.{AllZip, list_any};
ghost use Rattle.lot_book.specs.Balance.{AreWithin};
ghost use Rattle.lot_book.specs.Currencies.{sum_in};
ghost use Rattle.lot_book.specs.Openings.{ties_for};
ghost use Rattle.lot_book.specs.Refusals.{most_postings};
ghost use Rattle.lot_command.specs.declared.transaction.Transaction.{Transaction as TransactionOf};
ghost use Rattle.lot_completion.specs.Completion.{IsCompletion, IsCrumbOf, fill_decimals, has_products_in, is_cost_in, is_price_in, of_products, stated, weighs_at_price};
ghost use Rattle.lot_completion.specs.Crumbs.{IsCrumb};
ghost use Rattle.lot_completion.specs.Small.{AreFew, IsNear, IsWithinAll};
ghost use Rattle.lot_view.specs.View.{known, known_with_openings};

use crate::crumbs::{push_crumbs, whole_of};
use crate::rates::{RatedPostings, plus, rate_all};
use lot_base::{Account, Commodity};
use lot_book::MOST_POSTINGS;
use lot_command::{Amount, Items, Posting, Price, Transaction};
use lot_cost::LotKey;
use lot_ledger::{Edition, Leg, Stop, View, book_amounts};
use lot_num::Wide;
use lot_posting::Draft;
use lot_rounding::{Decimals, rounded};
use std::alloc::{AllocError, Global};

/// A transaction that completes another.
#[derive(Drop)]
pub struct Completion {
    pub transaction: Transaction,
    /// What its last postings make up for: the crumb of each currency in which a product weighs, at
    /// scale 16. It may be zero.
    pub crumbs: Items<(Commodity, Wide)>,
}

/// Returns the completion of a transaction on what a view knows, by an edition, with an account for the
/// crumbs and so many decimals of the fill, or `None` where there is none. The only error is out of
/// memory.
pub fn complete(
    alloc: Global,
    edition: Edition,
    view: &View,
    account: &Account,
    decimals: Decimals,
    transaction: &Transaction,
) -> Result<Option<Completion>, AllocError>
    ensures some { IfOk result (λ found. IfSome found (λ c.
        IsCompletion (ties_for edition (known_with_openings view.now)) (known view.now)
        account.now decimals transaction.now c.crumbs c.transaction)) }
    ensures none { IfOk result (λ found. found ≡ None
        → (crumbs : List (List ℕ × ℤ)) (completed : TransactionOf)
        → IsCompletion (ties_for edition (known_with_openings view.now)) (known view.now)
        account.now decimals transaction.now crumbs completed → ⊥) }
{
    let written = transaction.postings.as_slice();
    if written.len() > MOST_POSTINGS {
        return Ok(None);
    }
    let Some(RatedPostings { postings, left }) = rate_all(alloc, written)? else {
        return Ok(None);
    };
    let mut completed = with_postings(transaction, postings)?;
    let draft = match book_amounts(alloc, edition, view, &completed) {
        Ok(draft) => draft,
        Err(Stop::Refused(_)) => return Ok(None),
        Err(Stop::Memory) => return Err(AllocError),
    };
    let Draft {
        tally,
        residuals,
        ..
    } = draft;
    let residuals = residuals.into_items(alloc)?;
    let products = of_products(
        alloc,
        completed.postings.as_slice(),
        tally.legs.as_slice(),
        residuals.as_slice(),
    )?;
    let fill = fill_decimals(decimals, written);
    let Some(crumbs) = crumbs_of(alloc, fill, left.as_slice(), products.as_slice())? else {
        return Ok(None);
    };
    push_crumbs(&mut completed.postings, account, crumbs.as_slice())?;
    Ok(Some(Completion {
        transaction: completed,
        crumbs,
    }))
}

/// Returns a transaction with other postings. The only error is out of memory.
pub(crate) fn with_postings(
    transaction: &Transaction,
    postings: Items<Posting>,
) -> Result<Transaction, AllocError>
    ensures { IfOk result (λ t. t ≡ record transaction.now { postings = postings }) }
{
    let narration = match &transaction.narration {
        Some(narration) => Some(narration.copy()?),
        None => None,
    };
    Ok(Transaction {
        day: transaction.day,
        flag: transaction.flag,
        narration,
        postings,
    })
}

/// Returns how many decimals the fill of postings has, if one of them is elided.
fn fill_decimals(decimals: Decimals, postings: &[Posting]) -> Option<Decimals>
    ensures { result ≡ fill_decimals decimals postings.now }
{
    if has_elided(postings) {
        Some(decimals)
    } else {
        None
    }
}

/// Returns whether some posting is elided.
pub(crate) fn has_elided(postings: &[Posting]) -> bool
    ensures { result ≡ list_any (λ p. is_none p.amount) postings.now }
{
    postings.iter().any(|posting| posting.amount.is_none())
}

/// Returns the currencies in which a product weighs, of postings that have these legs, each beside its
/// residual. The only error is out of memory.
fn of_products(
    alloc: Global,
    postings: &[Posting],
    legs: &[Leg],
    residuals: &[(Commodity, Wide)],
) -> Result<Items<(Commodity, Wide)>, AllocError>
    ensures { IfOk result (λ found. found ≡ of_products postings.now legs.now residuals.now) }
{
    let mut found = Items::new(alloc);
    for (currency, residual) in residuals {
        if has_products_in(postings, legs, currency) {
            found.push((currency.copy()?, *residual))?;
        }
    }
    Ok(found)
}

/// Returns whether a product weighs in a currency.
fn has_products_in(postings: &[Posting], legs: &[Leg], currency: &Commodity) -> bool
    ensures { result ≡ has_products_in postings.now legs.now currency.now }
{
    has_costs_in(legs, currency) || has_prices_in(postings, currency)
}

/// Returns whether a leg weighs in a currency at cost.
fn has_costs_in(legs: &[Leg], currency: &Commodity) -> bool
    ensures { result ≡ list_any (λ leg. is_cost_in currency.now leg.position.lot) legs.now }
{
    legs.iter()
        .any(|leg| is_cost_in(currency, &leg.position.lot))
}

/// Returns whether a posting weighs in a currency at a price.
fn has_prices_in(postings: &[Posting], currency: &Commodity) -> bool
    ensures { result ≡ list_any (λ p. weighs_at_price currency.now p.amount) postings.now }
{
    postings
        .iter()
        .any(|posting| weighs_at_price(currency, &posting.amount))
}

/// Returns whether a leg in that lot weighs in a currency at cost.
fn is_cost_in(currency: &Commodity, lot: &Option<LotKey>) -> bool
    ensures { result ≡ is_cost_in currency.now lot.now }
{
    match lot {
        Some(lot) => *currency == lot.currency,
        None => false,
    }
}

/// Returns whether a posting with that amount weighs at a price in a currency.
pub(crate) fn weighs_at_price(currency: &Commodity, amount: &Option<Amount>) -> bool
    ensures { result ≡ weighs_at_price currency.now amount.now }
{
    match amount {
        Some(amount) => amount.cost.is_none() && is_price_in(currency, &amount.price),
        None => false,
    }
}

/// Returns whether a price is in a currency.
fn is_price_in(currency: &Commodity, price: &Option<Price>) -> bool
    ensures { result ≡ is_price_in currency.now price.now }
{
    match price {
        Some(Price::Each(price)) => *currency == price.currency,
        Some(Price::Whole(price)) => *currency == *price.currency(),
        None => false,
    }
}

/// Returns the crumb of each currency, or `None` where one is more than an account can take. The only
/// error is out of memory.
fn crumbs_of(
    alloc: Global,
    fill: Option<Decimals>,
    left: &[(Commodity, Wide)],
    residuals: &[(Commodity, Wide)],
) -> Result<Option<Items<(Commodity, Wide)>>, AllocError>
    requires few { AreFew left.now }
    requires within { AreWithin most_postings residuals.now }
    ensures some { IfOk result (λ found. IfSome found (λ crumbs.
        AllZip (IsCrumbOf fill left.now) residuals.now crumbs)) }
    ensures none { IfOk result (λ found. found ≡ None → (crumbs : List (List ℕ × ℤ))
        → AllZip (IsCrumbOf fill left.now) residuals.now crumbs → ⊥) }
{
    let mut crumbs = Items::new(alloc);
    for (currency, residual) in residuals {
        let Some(crumb) = crumb_of(fill, left, currency, *residual) else {
            return Ok(None);
        };
        crumbs.push((currency.copy()?, crumb))?;
    }
    Ok(Some(crumbs))
}

/// Returns the crumb of a currency with that residual, or `None` where it is more than an account can
/// take.
fn crumb_of(
    fill: Option<Decimals>,
    left: &[(Commodity, Wide)],
    currency: &Commodity,
    residual: Wide,
) -> Option<Wide>
    requires few { AreFew left.now }
    requires within { IsWithinAll residual }
    ensures some { IfSome result (λ crumb.
        IsCrumbOf fill left.now (currency.now, residual) (currency.now, crumb)) }
    ensures none { result ≡ None → (crumb : List ℕ × ℤ)
        → IsCrumbOf fill left.now (currency.now, residual) crumb → ⊥ }
{
    let crumb = crumb(fill, left, currency, residual);
    match whole_of(crumb) {
        Some(_) => Some(crumb),
        None => None,
    }
}

/// Returns the crumb of a currency with that residual, however large it is.
fn crumb(
    fill: Option<Decimals>,
    left: &[(Commodity, Wide)],
    currency: &Commodity,
    residual: Wide,
) -> Wide
    requires few { AreFew left.now }
    requires within { IsWithinAll residual }
    ensures { IsCrumb fill (stated left.now (currency.now, residual)) residual result }
{
    match fill {
        None => residual.negated(),
        Some(decimals) => {
            let stated = stated(left, currency, residual);
            plus(rounded(stated, decimals), residual.negated())
        }
    }
}

/// Returns a residual with each total in the place of what its units cost at the rate.
fn stated(left: &[(Commodity, Wide)], currency: &Commodity, residual: Wide) -> Wide
    requires few { AreFew left.now }
    requires within { IsWithinAll residual }
    ensures value { result ≡ stated left.now (currency.now, residual) }
    ensures near { IsNear residual result }
{
    let mut sum = residual;
    for amount in left {
        sum = plus(sum, part_in(currency, amount));
    }
    sum
}

/// Returns an amount where it is in a currency, else zero.
fn part_in(currency: &Commodity, amount: &(Commodity, Wide)) -> Wide
    ensures { result ≡ sum_in (amount.now ∷ []) currency.now }
{
    if *currency == amount.0 {
        amount.1
    } else {
        Wide::ZERO
    }
}
