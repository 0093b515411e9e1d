//! Splits by form: what can be seen of a split in its text.
ghost use Rattle.std.specs.Prelude.{◌≡◌, ◌≤◌, ◌*◌, ◌↔◌, IsTrue, drop, find, length, option_copied, take, unsigned_abs};
ghost use Rattle.std.specs.List.{list_all};
ghost use Rattle.lot_num.specs.Amount.{units_limit};
ghost use Rattle.lot_split.specs.Form.{Changes, ChangesIn, IsSplitByForm, count_taking, fits_each, has_braces_for, is_empty_spec, is_of_split, is_without_braces, moves_lots, moving, units_in, units_of};
ghost use Rattle.lot_split.specs.Split.{most_postings};

use crate::divide::units_in;
use crate::transaction::{MOST_POSTINGS, Split};
use lot_base::Commodity;
use lot_command::{Amount, Cost, CostSpec, Flag, Narration, Posting, Transaction};
use lot_rounding::{Change, lowest_ratio};

/// Returns whether a transaction is a split by form, whatever the book said when it was accepted: on that day and with that
/// narration it takes lots of the commodity in the account and opens others, in that ratio or with so many units more. What
/// stands beside has no braces. A transaction of more than 64 postings is none.
pub fn is_split_by_form(asked: &Split, stands: &Transaction) -> bool
    ensures { IsTrue result ↔ IsSplitByForm asked.now stands.now }
{
    let postings = stands.postings.as_slice();
    stands.day == asked.day
        && stands.flag == Flag::Complete
        && is_same_narration(&stands.narration, &asked.narration)
        && postings.len() <= MOST_POSTINGS
        && is_alone(asked, postings)
        && is_changed(asked, postings)
}

/// Returns whether two narrations are one.
fn is_same_narration(one: &Option<Narration>, other: &Option<Narration>) -> bool
    ensures { IsTrue result ↔ (one.now ≡ other.now) }
{
    match (one, other) {
        (Some(one), Some(other)) => one.payee == other.payee && one.text == other.text,
        (None, None) => true,
        (Some(_), None) | (None, Some(_)) => false,
    }
}

/// Returns whether each posting moves lots that are split, or has no braces.
fn is_alone(asked: &Split, postings: &[Posting]) -> bool
    ensures { result ≡ list_all (is_of_split asked.now) postings.now }
{
    postings.iter().all(|posting| is_of_split(asked, posting))
}

/// Returns whether a posting moves lots that are split, or has no braces.
fn is_of_split(asked: &Split, posting: &Posting) -> bool
    ensures { result ≡ is_of_split asked.now posting.now }
{
    moves_lots(asked, posting) || is_without_braces(&posting.amount)
}

/// Returns whether a posting takes or opens lots of the commodity in the account: it has braces.
fn moves_lots(asked: &Split, posting: &Posting) -> bool
    ensures { result ≡ moves_lots asked.now posting.now }
{
    asked.account == posting.account && has_braces_for(&asked.commodity, &posting.amount)
}

/// Returns whether an amount is of the commodity and has braces.
fn has_braces_for(commodity: &Commodity, amount: &Option<Amount>) -> bool
    ensures { result ≡ has_braces_for commodity.now amount.now }
{
    match amount {
        Some(amount) => amount.cost.is_some() && *commodity == amount.commodity,
        None => false,
    }
}

/// Returns whether a posting with that amount has no braces.
fn is_without_braces(amount: &Option<Amount>) -> bool
    ensures { result ≡ is_without_braces amount.now }
{
    match amount {
        Some(amount) => amount.cost.is_none(),
        None => true,
    }
}

/// Returns whether the units that are taken become those that are opened.
fn is_changed(asked: &Split, postings: &[Posting]) -> bool
    requires { length postings.now ≤ most_postings }
    ensures { IsTrue result ↔ ChangesIn asked.now.change (moving asked.now postings.now) }
{
    let (taken, opened) = units_moved(asked, postings, count_taking(asked, postings));
    is_in_ratio(asked.change, -taken, opened)
}

/// Returns whether so many units become so many in the ratio of a change, in lowest terms.
fn is_in_ratio(change: Change, held: i128, split: i128) -> bool
    requires { unsigned_abs split ≤ most_postings * units_limit }
    ensures { IsTrue result ↔ Changes change held split }
{
    let Some(held) = units_in(held) else {
        return false;
    };
    let Some(ratio) = lowest_ratio(change, held) else {
        return false;
    };
    split * i128::from(ratio.old) == i128::from(held.mantissa()) * i128::from(ratio.new)
}

/// Returns the units of the postings that move lots: those of the first ones, and those of the others.
fn units_moved(asked: &Split, postings: &[Posting], taking: usize) -> (i128, i128)
    requires { length postings.now ≤ most_postings }
    ensures taken { result.0 ≡ units_in (take taking (moving asked.now postings.now)) }
    ensures opened { result.1 ≡ units_in (drop taking (moving asked.now postings.now)) }
    ensures few_taken { unsigned_abs result.0 ≤ most_postings * units_limit }
    ensures few_opened { unsigned_abs result.1 ≤ most_postings * units_limit }
{
    let mut taken = 0;
    let mut opened = 0;
    let mut left = taking;
    for posting in postings {
        if !moves_lots(asked, posting) {
            continue;
        }
        let units = units_of(&posting.amount);
        if left == 0 {
            opened += units;
        } else {
            taken += units;
            left -= 1;
        }
    }
    (taken, opened)
}

/// Returns the units of an amount, zero where there is none.
fn units_of(amount: &Option<Amount>) -> i128
    ensures value { result ≡ units_of amount.now }
    ensures small { unsigned_abs result ≤ units_limit }
{
    match amount {
        Some(amount) => i128::from(amount.units.mantissa()),
        None => 0,
    }
}

/// Returns how many of the postings that move lots take them: the first, where its braces fit each lot, else the first half.
fn count_taking(asked: &Split, postings: &[Posting]) -> usize
    ensures { result ≡ count_taking (moving asked.now postings.now) }
{
    match first_moving(asked, postings) {
        Some(first) if fits_each(&first.amount) => 1,
        _ => count_moving(asked, postings) / 2,
    }
}

/// Returns the first posting that moves lots, if there is one.
fn first_moving<'a>(asked: &Split, postings: &'a [Posting]) -> Option<&'a Posting>
    ensures { option_copied result ≡ find (moves_lots asked.now) postings.now }
{
    postings.iter().find(|posting| moves_lots(asked, posting))
}

/// Returns how many postings move lots.
fn count_moving(asked: &Split, postings: &[Posting]) -> usize
    ensures { result ≡ length (moving asked.now postings.now) }
{
    let moving = postings.iter().filter(|posting| moves_lots(asked, posting));
    moving.count()
}

/// Returns whether the braces of an amount fit each lot.
fn fits_each(amount: &Option<Amount>) -> bool
    ensures { result ≡ fits_each amount.now }
{
    let Some(amount) = amount else {
        return false;
    };
    match &amount.cost {
        Some(Cost::Each(spec)) => is_empty_spec(spec),
        Some(Cost::Whole(_)) | None => false,
    }
}

/// Returns whether braces have no part, so that they fit each lot.
fn is_empty_spec(spec: &CostSpec) -> bool
    ensures { result ≡ is_empty_spec spec.now }
{
    spec.number.is_none() && spec.currency.is_none() && spec.day.is_none() && spec.label.is_none()
}
