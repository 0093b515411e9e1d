//! The transaction that takes lots and opens them again.
ghost use Rattle.std.specs.Prelude.{◌≡◌, ◌≤◌, ◌++◌, ◌∷◌, [], length, map, neg_ℤ, true, None, IfOk, IfErr, OnOk, SomeIff};
ghost use Rattle.lot_num.specs.Amount.{IsUnits};
ghost use Rattle.lot_split.specs.Lots.{AreDivided, are_above_zero, are_below_zero, can_be_taken, crumb_in, held_of, have_one_sign};
ghost use Rattle.lot_split.specs.Split.{CanBeSplit, HasFault, IsHoldingFault, IsSplit, braced, crumbs, each_lot, most_divided, openings, parts_of, postings_of, takings};
ghost use Rattle.lot_split.specs.declared.lot.HeldLot.{HeldLot};

use crate::costs::{crumb_in, currencies_of};
use crate::crumbs::push_crumb;
use crate::divide::{divided, undivided, units_in};
use crate::fault::SplitFault;
use crate::lot::{HeldLot, label_of};
use lot_base::{Account, Commodity, Day};
use lot_command::{Amount, Cost, CostSpec, Flag, Items, Method, Narration, Posting, Transaction};
use lot_cost::LotKey;
use lot_num::Units;
use lot_rounding::{Change, Ratio, lowest_ratio};
use std::alloc::{AllocError, Global};

/// The most lots that are split at once (`most_divided` of the definitions).
const MOST_DIVIDED: usize = 60;

/// The most postings of a transaction (`most_postings` of the definitions).
pub(crate) const MOST_POSTINGS: usize = 64;

/// A split as it is asked for.
pub struct Split {
    pub day: Day,
    pub narration: Option<Narration>,
    /// The account that holds the lots.
    pub account: Account,
    pub commodity: Commodity,
    /// The account that takes crumbs.
    pub rounding: Account,
    pub change: Change,
}

impl Drop for Split {
    /// It is written out, so that callers don't prove again how each part is dropped.
    fn drop(self) {
        let Split {
            day: _day,
            narration: _narration,
            account: _account,
            commodity: _commodity,
            rounding: _rounding,
            change: _change,
        } = self;
    }
}

/// Returns the transaction that splits lots. They are all lots of the commodity that the account holds, in the order of their
/// opening numbers, and the method is that of the account.
///
/// The error is the first fault in the order of `SplitFault`.
pub fn split_lots(
    alloc: Global,
    asked: &Split,
    method: Method,
    lots: &[HeldLot],
) -> Result<Transaction, SplitFault>
    ensures ok { IfOk result (IsSplit asked.now method lots.now) }
    ensures fault { IfErr result (HasFault asked.now method lots.now) }
{
    let held = held_of(method, lots)?;
    let Some(ratio) = lowest_ratio(asked.change, held) else {
        return Err(SplitFault::BadRatio);
    };
    if let Some(place) = undivided(lots, ratio) {
        return Err(SplitFault::Undivided(place));
    }
    let split = divided(alloc, lots, ratio)?;
    let postings = postings_of(alloc, asked, method, held, lots, split.as_slice())?;
    if postings.as_slice().len() > MOST_POSTINGS {
        return Err(SplitFault::TooManyPostings);
    }
    let narration = match &asked.narration {
        Some(narration) => Some(narration.copy()?),
        None => None,
    };
    Ok(Transaction {
        day: asked.day,
        flag: Flag::Complete,
        narration,
        postings,
    })
}

/// Returns the units of all lots, where they can be split. The error is the first of `NothingHeld`, `TooManyLots`, `BothSigns` and
/// `SumOutOfRange`.
fn held_of(method: Method, lots: &[HeldLot]) -> Result<Units, SplitFault>
    ensures ok { IfOk result (λ held. held ≡ held_of lots.now) }
    ensures can { IfOk result (λ _. CanBeSplit method lots.now) }
    ensures fault { IfErr result (IsHoldingFault method lots.now) }
{
    if lots.is_empty() {
        return Err(SplitFault::NothingHeld);
    }
    if lots.len() > MOST_DIVIDED {
        return Err(SplitFault::TooManyLots);
    }
    if !can_be_taken(method, lots) {
        return Err(SplitFault::BothSigns);
    }
    match units_of(lots) {
        Some(held) => Ok(held),
        None => Err(SplitFault::SumOutOfRange),
    }
}

/// Returns whether one posting can take all lots of an account with that method, or none has to.
fn can_be_taken(method: Method, lots: &[HeldLot]) -> bool
    ensures { result ≡ can_be_taken method lots.now }
{
    match method {
        Method::Strict | Method::Fifo | Method::Lifo | Method::Hifo => have_one_sign(lots),
        Method::Unmatched => true,
    }
}

/// Returns whether the units of all lots are above zero, or those of all below.
fn have_one_sign(lots: &[HeldLot]) -> bool
    ensures { result ≡ have_one_sign lots.now }
{
    are_above_zero(lots) || are_below_zero(lots)
}

/// Returns whether the units of all lots are above zero.
fn are_above_zero(lots: &[HeldLot]) -> bool
    ensures { result ≡ are_above_zero lots.now }
{
    lots.iter().all(|lot| Units::ZERO < lot.units)
}

/// Returns whether the units of all lots are below zero.
fn are_below_zero(lots: &[HeldLot]) -> bool
    ensures { result ≡ are_below_zero lots.now }
{
    lots.iter().all(|lot| lot.units < Units::ZERO)
}

/// Returns the units of all lots, or `None` where they are out of range.
fn units_of(lots: &[HeldLot]) -> Option<Units>
    ensures { SomeIff result (IsUnits (held_of lots.now)) (held_of lots.now) }
{
    let mut sum = 0i128;
    for lot in lots {
        sum += i128::from(lot.units.mantissa());
    }
    units_in(sum)
}

/// Returns the postings that take lots, open them again, and take the crumbs. The only error is out of memory.
fn postings_of(
    alloc: Global,
    asked: &Split,
    method: Method,
    held: Units,
    lots: &[HeldLot],
    split: &[HeldLot],
) -> Result<Items<Posting>, AllocError>
    requires held { held ≡ held_of lots.now }
    requires few { length lots.now ≤ most_divided }
    requires divided { AreDivided lots.now split.now }
    ensures { IfOk result (λ postings. postings ≡ postings_of asked.now method lots.now split.now) }
{
    let mut postings = Items::new(alloc);
    push_takings(&mut postings, asked, method, held, lots)?;
    push_openings(&mut postings, asked, split)?;
    push_crumbs(alloc, &mut postings, asked, lots, split)?;
    Ok(postings)
}

/// Appends the postings that take lots. The only error is out of memory.
fn push_takings(
    postings: &mut Items<Posting>,
    asked: &Split,
    method: Method,
    held: Units,
    lots: &[HeldLot],
) -> Result<(), AllocError>
    requires { held ≡ held_of lots.now }
    ensures { OnOk result (postings.new ≡ postings.old ++ takings asked.now method lots.now) }
{
    match method {
        Method::Strict | Method::Fifo | Method::Lifo | Method::Hifo => {
            push_braced(postings, asked, held.negated(), each_lot())
        }
        Method::Unmatched => push_each_taking(postings, asked, lots),
    }
}

/// Appends a posting for each lot that adds its units with the other sign. The only error is out of memory.
fn push_each_taking(
    postings: &mut Items<Posting>,
    asked: &Split,
    lots: &[HeldLot],
) -> Result<(), AllocError>
    ensures { OnOk result (postings.new ≡ postings.old
        ++ map (λ l. braced asked.now (neg_ℤ l.units) (parts_of l.key)) lots.now) }
{
    for lot in lots {
        push_braced(postings, asked, lot.units.negated(), parts_of(&lot.key)?)?;
    }
    Ok(())
}

/// Appends a posting that opens each lot. The only error is out of memory.
fn push_openings(
    postings: &mut Items<Posting>,
    asked: &Split,
    split: &[HeldLot],
) -> Result<(), AllocError>
    ensures { OnOk result (postings.new ≡ postings.old ++ openings asked.now split.now) }
{
    for lot in split {
        push_braced(postings, asked, lot.units, parts_of(&lot.key)?)?;
    }
    Ok(())
}

/// Appends the postings of the account for crumbs. The only error is out of memory.
fn push_crumbs(
    alloc: Global,
    postings: &mut Items<Posting>,
    asked: &Split,
    lots: &[HeldLot],
    split: &[HeldLot],
) -> Result<(), AllocError>
    requires few { length lots.now ≤ most_divided }
    requires divided { AreDivided lots.now split.now }
    ensures { OnOk result (postings.new ≡ postings.old ++ crumbs asked.now lots.now split.now) }
{
    let currencies = currencies_of(alloc, lots)?;
    for currency in currencies.as_slice() {
        let crumb = crumb_in(lots, split, currency);
        push_crumb(postings, &asked.rounding, currency, crumb)?;
    }
    Ok(())
}

/// Appends a posting of units to the account that is split, with braces. The only error is out of memory.
fn push_braced(
    postings: &mut Items<Posting>,
    asked: &Split,
    units: Units,
    spec: CostSpec,
) -> Result<(), AllocError>
    ensures { OnOk result (postings.new ≡ postings.old ++ braced asked.now units spec ∷ []) }
{
    let amount = Amount {
        units,
        commodity: asked.commodity.copy()?,
        cost: Some(Cost::Each(spec)),
        price: None,
    };
    postings.push(Posting {
        account: asked.account.copy()?,
        amount: Some(amount),
    })?;
    Ok(())
}

/// Returns a specification that fits each lot.
pub(crate) fn each_lot() -> CostSpec
    ensures { result ≡ each_lot }
{
    CostSpec {
        number: None,
        currency: None,
        day: None,
        label: None,
    }
}

/// Returns all parts of a lot. The only error is out of memory.
fn parts_of(key: &LotKey) -> Result<CostSpec, AllocError>
    ensures { IfOk result (λ spec. spec ≡ parts_of key.now) }
{
    Ok(CostSpec {
        number: Some(key.number),
        currency: Some(key.currency.copy()?),
        day: Some(key.day),
        label: label_of(key)?,
    })
}
