//! Completions by form.
ghost use Rattle.std.specs.Prelude.{◌≡◌, ◌↔◌, ◌++◌, None, Some, IfOk, IfSome, IsTrue, OnOk};
ghost use Rattle.std.specs.List.{list_all};
ghost use Rattle.lot_command.specs.Canonical.{canonical};
ghost use Rattle.lot_command.specs.Sayable.{IsSayable};
ghost use Rattle.lot_command.specs.declared.command.Command.TheVariants.{Transaction as AsCommand};
ghost use Rattle.lot_command.specs.declared.transaction.Transaction.{Transaction as TransactionOf};
ghost use Rattle.lot_completion.specs.Form.{IsByForm, may_be_taken, may_cost_in, may_have_products_in, may_weigh_in};
ghost use Rattle.lot_completion.specs.Formed.{IsFormed, IsFormedAt, IsFormedAtSome};
ghost use Rattle.lot_completion.specs.Turn.{StandsByForm};
ghost use Rattle.lot_rounding.specs.Asked.{with_units, with_units_at};

use crate::behind::{crumbs_behind, made_by};
use crate::completion::{weighs_at_price, with_postings};
use crate::rates::{RatedPostings, rate_all};
use lot_base::Commodity;
use lot_command::{Amount, Command, Items, Posting, Transaction, canonical, is_sayable};
use lot_cost::Cost;
use lot_num::{Units, Wide};
use lot_print::command_of;
use lot_print::laws::canonical_texts_tell_commands_apart;
use lot_rounding::{Bound, Decimals, RowCash, rounded};
use std::alloc::{AllocError, Global};

/// Returns the transaction whose canonical text this is, if it is a completion of another by form, with
/// the cash of a row at any decimals. The only error is out of memory.
pub(crate) fn standing_completion(
    alloc: Global,
    text: &str,
    cash: Option<RowCash>,
    transaction: &Transaction,
) -> Result<Option<Transaction>, AllocError>
    ensures some { IfOk result (λ found. IfSome found
        (StandsByForm (Some text.now) cash transaction.now)) }
    ensures none { IfOk result (λ found. found ≡ None → (stands : TransactionOf)
        → StandsByForm (Some text.now) cash transaction.now stands → ⊥) }
{
    canonical_texts_tell_commands_apart();
    let Some(command) = command_of(alloc, text)? else {
        return Ok(None);
    };
    let Command::Transaction(stands) = &command else {
        return Ok(None);
    };
    if is_by_form(alloc, text, cash, transaction, stands)? {
        Ok(Some(stands.copy(alloc)?))
    } else {
        Ok(None)
    }
}

/// Returns whether a transaction with that text is a completion of another by form. The only error is
/// out of memory.
fn is_by_form(
    alloc: Global,
    text: &str,
    cash: Option<RowCash>,
    transaction: &Transaction,
    stands: &Transaction,
) -> Result<bool, AllocError>
    requires says { text.now ≡ canonical (AsCommand stands.now) }
    requires sayable { IsSayable (AsCommand stands.now) }
    ensures { IfOk result (λ is. IsTrue is ↔ IsByForm cash transaction.now stands.now) }
{
    canonical_texts_tell_commands_apart();
    let count = transaction.postings.as_slice().len();
    let postings = stands.postings.as_slice();
    if postings.len() < count {
        return Ok(false);
    }
    let (first, behind) = postings.split_at(count);
    let crumbs = crumbs_behind(alloc, behind)?;
    if !may_all_be_taken(first, crumbs.as_slice()) {
        return Ok(false);
    }
    let made = made_by(alloc, behind, crumbs.as_slice())?;
    is_formed_at_some(alloc, text, cash, transaction, made.as_slice())
}

/// Returns whether a completion by form has that text, of a transaction with the cash of a row at any
/// decimals, and these postings behind. The only error is out of memory.
fn is_formed_at_some(
    alloc: Global,
    text: &str,
    cash: Option<RowCash>,
    transaction: &Transaction,
    crumbs: &[Posting],
) -> Result<bool, AllocError>
    ensures { IfOk result (λ is. IsTrue is
        ↔ IsFormedAtSome text.now cash transaction.now crumbs.now) }
{
    match cash {
        None => is_formed(alloc, text, transaction, crumbs),
        Some(cash) => is_formed_at_any(alloc, text, &cash, transaction, crumbs),
    }
}

/// Returns the same of a transaction of a row. The only error is out of memory.
fn is_formed_at_any(
    alloc: Global,
    text: &str,
    cash: &RowCash,
    transaction: &Transaction,
    crumbs: &[Posting],
) -> Result<bool, AllocError>
    ensures { IfOk result (λ is. IsTrue is
        ↔ IsFormedAtSome text.now (Some cash.now) transaction.now crumbs.now) }
{
    for count in 0..=8 {
        let Some(decimals) = Decimals::new(count) else {
            unreachable!();
        };
        if is_formed_at(alloc, text, cash, decimals, transaction, crumbs)? {
            return Ok(true);
        }
    }
    Ok(false)
}

/// Returns whether a completion by form has that text, of a transaction with the cash of a row at so
/// many decimals, and these postings behind. The only error is out of memory.
fn is_formed_at(
    alloc: Global,
    text: &str,
    cash: &RowCash,
    decimals: Decimals,
    transaction: &Transaction,
    crumbs: &[Posting],
) -> Result<bool, AllocError>
    ensures { IfOk result (λ is. IsTrue is
        ↔ IsFormedAt text.now cash.now decimals transaction.now crumbs.now) }
{
    let Some(units) = rounded(cash.exact, decimals).to_units() else {
        return Ok(false);
    };
    let _in_range = units.mantissa();
    let postings = with_units_at(alloc, cash.place, units, transaction.postings.as_slice())?;
    let written = with_postings(transaction, postings)?;
    is_formed(alloc, text, &written, crumbs)
}

/// Returns postings with other units at a place, from 0. The only error is out of memory.
fn with_units_at(
    alloc: Global,
    place: usize,
    units: Units,
    postings: &[Posting],
) -> Result<Items<Posting>, AllocError>
    ensures { IfOk result (λ changed. changed ≡ with_units_at place units postings.now) }
{
    let mut changed = Items::new(alloc);
    for (index, posting) in postings.iter().enumerate() {
        let posting = if index == place {
            with_units(units, posting)?
        } else {
            posting.copy()?
        };
        changed.push(posting)?;
    }
    Ok(changed)
}

/// Returns a posting with other units, if it has an amount. The only error is out of memory.
fn with_units(units: Units, posting: &Posting) -> Result<Posting, AllocError>
    ensures { IfOk result (λ changed. changed ≡ with_units units posting.now) }
{
    let mut posting = posting.copy()?;
    if let Some(amount) = &mut posting.amount {
        amount.units = units;
    }
    Ok(posting)
}

/// Returns whether a completion by form has that text, of a transaction, and these postings behind. The
/// only error is out of memory.
fn is_formed(
    alloc: Global,
    text: &str,
    written: &Transaction,
    crumbs: &[Posting],
) -> Result<bool, AllocError>
    ensures { IfOk result (λ is. IsTrue is ↔ IsFormed text.now written.now crumbs.now) }
{
    let Some(RatedPostings { mut postings, .. }) = rate_all(alloc, written.postings.as_slice())?
    else {
        return Ok(false);
    };
    push_all(&mut postings, crumbs)?;
    let command = Command::Transaction(with_postings(written, postings)?);
    is_sayable(&command);
    Ok(canonical::body(alloc, &command)?.as_str() == text)
}

/// Appends copies of postings. The only error is out of memory.
fn push_all(postings: &mut Items<Posting>, more: &[Posting]) -> Result<(), AllocError>
    ensures { OnOk result (postings.new ≡ postings.old ++ more.now) }
{
    for posting in more {
        postings.push(posting.copy()?)?;
    }
    Ok(())
}

/// Returns whether an account may have taken crumbs behind the first postings.
fn may_all_be_taken(first: &[Posting], crumbs: &[(Commodity, Wide)]) -> bool
    ensures { result ≡ list_all (may_be_taken first.now) crumbs.now }
{
    crumbs.iter().all(|crumb| may_be_taken(first, crumb))
}

/// Returns whether an account may have taken a crumb behind the first postings: it is at most one, in a
/// currency in which a product may weigh.
fn may_be_taken(first: &[Posting], crumb: &(Commodity, Wide)) -> bool
    ensures { result ≡ may_be_taken first.now crumb.now }
{
    Bound::greatest().allows(crumb.1) && may_have_products_in(first, &crumb.0)
}

/// Returns whether a product may weigh in a currency.
fn may_have_products_in(postings: &[Posting], currency: &Commodity) -> bool
    ensures { result ≡ may_have_products_in postings.now currency.now }
{
    postings
        .iter()
        .any(|posting| may_weigh_in(currency, &posting.amount))
}

/// Returns whether a posting with that amount may weigh in a currency by a product.
fn may_weigh_in(currency: &Commodity, amount: &Option<Amount>) -> bool
    ensures { result ≡ may_weigh_in currency.now amount.now }
{
    match amount {
        Some(written) => {
            may_cost_in(currency, &written.cost) || weighs_at_price(currency, amount)
        }
        None => false,
    }
}

/// Returns whether a cost may be in a currency: it names that, or none.
fn may_cost_in(currency: &Commodity, cost: &Option<Cost>) -> bool
    ensures { result ≡ may_cost_in currency.now cost.now }
{
    let named = match cost {
        Some(Cost::Each(spec)) => &spec.currency,
        Some(Cost::Whole(whole)) => &whole.spec().currency,
        None => return false,
    };
    match named {
        Some(named) => *currency == *named,
        None => true,
    }
}
