ghost use Rattle.std.specs.Prelude.{◌≡◌, [], ◌∷◌, None, Some, IfErr, IsTrue, MatchOption, MatchResult, OnOk};
ghost use Rattle.std.specs.Option.{option_or};
ghost use Rattle.lot_book.specs.Balance.{elided_postings};
ghost use Rattle.lot_book.specs.Refusals.{back_dated, bars_amount, book_full, closed, closed_before, currency_not_allowed, dates_back, holds_too_many, not_open_yet, opens_after, too_many_lots, too_many_postings, two_elided, unknown_account};
ghost use Rattle.lot_book.specs.Leg.{with_legs};
ghost use Rattle.lot_ledger.specs.Fit.{is_unfit};
ghost use Rattle.lot_posting.specs.Tally.{ListsTally};
ghost use Rattle.lot_view.specs.View.{known, known_with_openings};

use lot_base::{Account, Day};
use lot_book::{MOST_POSTINGS, Refusal};
use lot_command::Posting;
use lot_posting::Draft;
use lot_view::View;
use std::marker::Model;

/// The most lots that an account may hold of one commodity (`most_lots` of the definitions).
const MOST_LOTS: u128 = 10_000;

/// The most entries that a book may have (`most_entries` of the definitions).
const MOST_ENTRIES: u32 = 2_000_000_000;

/// Makes the checks of the accounts of postings: that each is known, is open on the day and allows the commodity. Each check
/// looks at all postings before the next does.
pub(crate) fn every_account_fits(view: &View, postings: &[Posting], day: Day) -> Result<(), Refusal>
    ensures known { OnOk result (unknown_account (known view.now) postings.now ≡ None) }
    ensures open { OnOk result (not_open_yet (known view.now) day postings.now ≡ None) }
    ensures not_closed { OnOk result (closed (known view.now) day postings.now ≡ None) }
    ensures allowed { OnOk result (currency_not_allowed (known view.now) postings.now ≡ None) }
    ensures refused { IfErr result (λ refusal.
        option_or (unknown_account (known view.now) postings.now)
        (option_or (not_open_yet (known view.now) day postings.now)
        (option_or (closed (known view.now) day postings.now)
        (currency_not_allowed (known view.now) postings.now))) ≡ Some refusal) }
{
    if none_is_unfit(view, postings, day) {
        return Ok(());
    }
    every_account_known(view, postings)?;
    every_account_open(view, postings, day)?;
    no_account_closed(view, postings, day)?;
    every_currency_allowed(view, postings)
}

/// Returns whether no posting fails a check of its account. It looks up each account once.
fn none_is_unfit(view: &View, postings: &[Posting], day: Day) -> bool
    ensures known { IsTrue result → unknown_account (known view.now) postings.now ≡ None }
    ensures open { IsTrue result → not_open_yet (known view.now) day postings.now ≡ None }
    ensures not_closed { IsTrue result → closed (known view.now) day postings.now ≡ None }
    ensures allowed { IsTrue result → currency_not_allowed (known view.now) postings.now ≡ None }
{
    postings
        .iter()
        .position(|posting| is_unfit(view, day, posting))
        .is_none()
}

/// Returns whether a posting fails a check of its account.
fn is_unfit(view: &View, day: Day, posting: &Posting) -> bool
    ensures { result ≡ is_unfit day ((known view.now).standing posting.now.account)
        posting.now.amount }
{
    let Some(standing) = view.standing(&posting.account) else {
        return true;
    };
    let barred = match &posting.amount {
        Some(amount) => !standing.allowed.allows(&amount.commodity),
        None => false,
    };
    day < standing.opened || standing.closed.is_some_and(|closed| closed < day) || barred
}

/// Returns `UnknownAccount` with the first posting to an account that was never opened, if there is one.
fn every_account_known(view: &View, postings: &[Posting]) -> Result<(), Refusal>
    ensures { MatchResult result (λ _. unknown_account (known view.now) postings.now ≡ None)
        (λ refusal. unknown_account (known view.now) postings.now ≡ Some refusal) }
{
    match postings
        .iter()
        .position(|posting| view.standing(&posting.account).is_none())
    {
        Some(index) => Err(Refusal::UnknownAccount {
            posting: Some(index + 1),
        }),
        None => Ok(()),
    }
}

/// Returns `NotOpenYet` with the first posting to an account that is opened after the day, if there is one.
fn every_account_open(view: &View, postings: &[Posting], day: Day) -> Result<(), Refusal>
    ensures { MatchResult result (λ _. not_open_yet (known view.now) day postings.now ≡ None)
        (λ refusal. not_open_yet (known view.now) day postings.now ≡ Some refusal) }
{
    match postings
        .iter()
        .position(|posting| opens_after(view, day, &posting.account))
    {
        Some(index) => Err(Refusal::NotOpenYet {
            posting: Some(index + 1),
        }),
        None => Ok(()),
    }
}

/// Returns whether the account was opened, but after the day.
fn opens_after(view: &View, day: Day, account: &Account) -> bool
    ensures { result ≡ opens_after day ((known view.now).standing account.now) }
{
    view.standing(account)
        .is_some_and(|standing| day < standing.opened)
}

/// Returns `Closed` with the first posting to an account that is closed before the day, if there is one.
fn no_account_closed(view: &View, postings: &[Posting], day: Day) -> Result<(), Refusal>
    ensures { MatchResult result (λ _. closed (known view.now) day postings.now ≡ None)
        (λ refusal. closed (known view.now) day postings.now ≡ Some refusal) }
{
    match postings
        .iter()
        .position(|posting| closed_before(view, day, &posting.account))
    {
        Some(index) => Err(Refusal::Closed {
            posting: Some(index + 1),
        }),
        None => Ok(()),
    }
}

/// Returns whether the account is closed, and before the day.
fn closed_before(view: &View, day: Day, account: &Account) -> bool
    ensures { result ≡ closed_before day ((known view.now).standing account.now) }
{
    match view.standing(account) {
        Some(standing) => standing.closed.is_some_and(|closed| closed < day),
        None => false,
    }
}

/// Returns `CurrencyNotAllowed` with the first posting whose commodity isn't among the currencies of its account's opening, if
/// there is one.
fn every_currency_allowed(view: &View, postings: &[Posting]) -> Result<(), Refusal>
    ensures { MatchResult result (λ _. currency_not_allowed (known view.now) postings.now ≡ None)
        (λ refusal. currency_not_allowed (known view.now) postings.now ≡ Some refusal) }
{
    match postings.iter().position(|posting| bars(view, posting)) {
        Some(index) => Err(Refusal::CurrencyNotAllowed { posting: index + 1 }),
        None => Ok(()),
    }
}

/// Returns whether the account of a posting was opened with other currencies than the commodity of its amount.
fn bars(view: &View, posting: &Posting) -> bool
    ensures { result
        ≡ bars_amount ((known view.now).standing posting.now.account) posting.now.amount }
{
    match (view.standing(&posting.account), &posting.amount) {
        (Some(standing), Some(amount)) => !standing.allowed.allows(&amount.commodity),
        _ => false,
    }
}

/// Returns `TooManyPostings` where there are more than `MOST_POSTINGS`.
pub(crate) fn few_postings(postings: &[Posting]) -> Result<(), Refusal>
    ensures { MatchResult result (λ _. too_many_postings postings.now ≡ None)
        (λ refusal. too_many_postings postings.now ≡ Some refusal) }
{
    if postings.len() > MOST_POSTINGS {
        return Err(Refusal::TooManyPostings);
    }
    Ok(())
}

/// An elided posting. A contract sees its place beside its account.
#[derive(Drop)]
pub(crate) struct Elided<'a> {
    /// Its place in the transaction, from 1.
    pub posting: usize,
    pub account: &'a Account,
}

impl<'a> Model for Elided<'a> {
    ghost use Rattle.std.specs.Prelude.{ℕ, List};

    ghost Value = { ℕ × List ℕ };

    ghost view = { λ e. (e.posting, e.account.now) };
}

/// Returns the elided posting, if there is one, or `TwoElided` where there are two.
pub(crate) fn only_elided(postings: &[Posting]) -> Result<Option<Elided<'_>>, Refusal>
    ensures { MatchResult result
        (λ elided. MatchOption elided (elided_postings 1 postings.now ≡ [])
        (λ elided. elided_postings 1 postings.now ≡ elided ∷ []))
        (λ refusal. two_elided (elided_postings 1 postings.now) ≡ Some refusal) }
{
    let mut elided = None;
    for (index, posting) in postings.iter().enumerate() {
        if posting.amount.is_none() {
            if elided.is_some() {
                return Err(Refusal::TwoElided);
            }
            elided = Some(Elided {
                posting: index + 1,
                account: &posting.account,
            });
        }
    }
    Ok(elided)
}

/// Returns `BackDated` with the first posting with braces before the latest such day of its account and commodity, if there
/// is one.
pub(crate) fn none_back_dated(view: &View, postings: &[Posting], day: Day) -> Result<(), Refusal>
    ensures { MatchResult result (λ _. back_dated (known view.now) day postings.now ≡ None)
        (λ refusal. back_dated (known view.now) day postings.now ≡ Some refusal) }
{
    match postings
        .iter()
        .position(|posting| dates_back(view, day, posting))
    {
        Some(index) => Err(Refusal::BackDated { posting: index + 1 }),
        None => Ok(()),
    }
}

/// Returns whether a posting has braces, and the day is before the latest such day of its account and commodity.
fn dates_back(view: &View, day: Day, posting: &Posting) -> bool
    ensures { result ≡ dates_back (known view.now) day posting.now.account posting.now.amount }
{
    match &posting.amount {
        Some(amount) if amount.cost.is_some() => view
            .latest_at_cost(&posting.account, &amount.commodity)
            .is_some_and(|latest| day < latest),
        _ => false,
    }
}

/// Returns `TooManyLots` with the first posting with braces whose account then holds too many lots of its commodity, if
/// there is one.
pub(crate) fn few_lots(view: &View, draft: &Draft, postings: &[Posting]) -> Result<(), Refusal>
    requires { ListsTally (known_with_openings view.now) draft.now.tally }
    ensures { MatchResult result
        (λ _. too_many_lots (known view.now) draft.now.tally.legs postings.now ≡ None)
        (λ refusal.
        too_many_lots (known view.now) draft.now.tally.legs postings.now ≡ Some refusal) }
{
    match postings
        .iter()
        .position(|posting| holds_too_many(view, draft, posting))
    {
        Some(index) => Err(Refusal::TooManyLots { posting: index + 1 }),
        None => Ok(()),
    }
}

/// Returns whether a posting has braces, and its account holds too many lots of its commodity after all legs.
fn holds_too_many(view: &View, draft: &Draft, posting: &Posting) -> bool
    requires { ListsTally (known_with_openings view.now) draft.now.tally }
    ensures { result ≡ holds_too_many (with_legs posting.now.account
        ((known view.now).held posting.now.account) draft.now.tally.legs) posting.now.amount }
{
    match &posting.amount {
        Some(amount) if amount.cost.is_some() => {
            let tally = &draft.tally;
            let (account, commodity) = (&posting.account, &amount.commodity);
            MOST_LOTS < tally.bound_lots(view, account, commodity)
                && MOST_LOTS < tally.count_lots(view, account, commodity)
        }
        _ => false,
    }
}

/// Returns `BookFull` where the book has as many entries as it may have.
pub(crate) fn not_full(view: &View) -> Result<(), Refusal>
    ensures { MatchResult result (λ _. book_full (known view.now) ≡ None)
        (λ refusal. book_full (known view.now) ≡ Some refusal) }
{
    if MOST_ENTRIES <= view.entries() {
        return Err(Refusal::BookFull);
    }
    Ok(())
}
