ghost use Rattle.std.specs.Prelude.{◌≡◌, ◌≤◌, ◌-◌, [], None, Some, true, false, length, IfErr, IfOk, IsErrOf, IsOk, OnOk};
ghost use Rattle.std.specs.BTreeMap.{IsEmpty};
ghost use Rattle.lot_base.specs.Text.{same_text};
ghost use Rattle.lot_ledger.specs.declared.decision.Outcome.TheVariants.{Repeat};
ghost use Rattle.lot_book.specs.declared.refusal.Refusal.TheVariants.{KeyReused};
ghost use Rattle.lot_book.specs.declared.refusal.Stop.TheVariants.{Memory};
ghost use Rattle.lot_book.specs.Balance.{AreWithin, elided_postings};
ghost use Rattle.lot_book.specs.Booking.{TieRule};
ghost use Rattle.lot_book.specs.Change.{ListsHeads, ListsOpened, ListsSums};
ghost use Rattle.lot_command.specs.declared.command.Command.TheVariants.{Opening as OpeningOf, Closing as ClosingOf, Declaring as DeclaringOf, Quoting as QuotingOf, Transaction as TransactionOf};
ghost use Rattle.lot_command.specs.declared.command.Quoting.{Quoting as QuotingParts};
ghost use Rattle.lot_ledger.specs.Decide.{Accepts, BooksNext, Comes, DraftsAll, EndMayLackMemory, FillMayLackMemory, IsElided, JudgingMayLackMemory, MayLackMemory, NextMayLackMemory, StopsBooking, StopsJudging, StopsNext, StopsStep, StoresFirst, conditions_on, legs_with_fill, residual_conditions};
ghost use Rattle.lot_book.specs.Refusals.{Stops, most_postings};
ghost use Rattle.lot_book.specs.Openings.{ties_for};
ghost use Rattle.lot_book.specs.Step.{JudgesUnder, Refuse, first_conditions, first_of};
ghost use Rattle.lot_posting.specs.Tally.{ListsTally};
ghost use Rattle.lot_view.specs.View.{known, known_with_openings};

use crate::checks::{
    Elided, every_account_fits, few_lots, few_postings, none_back_dated, not_full, only_elided,
};
use crate::fill::fill;
use crate::heads::heads_of;
use lot_base::Day;
use lot_book::{Change, Edition, Pair, Refusal, Stop};
use lot_command::{Closing, Command, Declaring, Items, Opening, Posting, Transaction, canonical};
use lot_posting::{Draft, Residuals, Site, Tally, book_posting};
use lot_view::View;
use std::alloc::Global;
use std::collections::BTreeMap;
use std::mem;

/// The outcome of a command that isn't refused.
#[derive(Drop)]
pub enum Outcome {
    /// It is accepted, with this change.
    Accept(Change),
    /// It stands already, under its key.
    Repeat,
}

/// Returns the outcome of a command on what a view knows, or why it is refused, or out of memory. The view is that of the
/// command's key: it has the text that stands under it, if there is one. The edition says how ties between lots are decided.
///
/// Memory may lack where a text stands under the key, since the command's text is made to compare with it. Where the key is
/// new, memory may lack only for a transaction. All checks before its booking have then passed, and its first posting with an
/// amount has legs. Where that posting has no braces, its legs stay in range (`MayLackMemory`).
pub fn decide(
    alloc: Global,
    edition: Edition,
    view: &View,
    command: &Command,
) -> Result<Outcome, Stop>
    ensures decided { IfOk result (λ outcome.
        Comes (ties_for edition (known_with_openings view.now))
        (known view.now) command.now outcome) }
    ensures stops { IfErr result (λ stop.
        StopsStep (ties_for edition (known_with_openings view.now))
        (known view.now) command.now stop) }
    ensures memory { IsErrOf result Memory
        → MayLackMemory (ties_for edition (known_with_openings view.now))
        (known view.now) command.now }
{
    if let Some(text) = view.text() {
        let body = canonical::body(alloc, command)?;
        return Ok(repeated(text, body.as_str())?);
    }
    let change = match command {
        Command::Opening(opening) => decide_opening(alloc, view, opening)?,
        Command::Closing(closing) => decide_closing(alloc, view, closing)?,
        Command::Declaring(declaring) => decide_declaring(alloc, view, declaring)?,
        Command::Quoting(_) => decide_quoting(alloc, view)?,
        Command::Transaction(transaction) => {
            decide_transaction(alloc, edition, view, transaction)?
        }
    };
    Ok(Outcome::Accept(change))
}

/// Returns that a command is a repeat, by its text, or `KeyReused` where another text stands under its key.
fn repeated(standing: &str, text: &str) -> Result<Outcome, Refusal>
    ensures repeat { IfOk result (λ outcome.
        (outcome ≡ Repeat) × (same_text standing.now text.now ≡ true)) }
    ensures reused { IfErr result (λ refusal.
        (refusal ≡ KeyReused) × (same_text standing.now text.now ≡ false)) }
{
    if standing == text {
        Ok(Outcome::Repeat)
    } else {
        Err(Refusal::KeyReused)
    }
}

/// Returns the change of an opening whose key is new, or why it is refused. It is the same by each edition.
fn decide_opening(alloc: Global, view: &View, opening: &Opening) -> Result<Change, Refusal>
    ensures accepted { IfOk result (λ change. (ties : TieRule)
        → Accepts ties (known view.now) (OpeningOf opening.now) change) }
    ensures refused { IfErr result (λ refusal. (ties : TieRule)
        → JudgesUnder ties (known view.now) (OpeningOf opening.now) (Refuse refusal)) }
{
    if view.standing(&opening.account).is_some() {
        return Err(Refusal::AlreadyOpen);
    }
    not_full(view)?;
    Ok(no_change(alloc))
}

/// Returns the change of a closing whose key is new, or why it is refused. It is the same by each edition.
fn decide_closing(alloc: Global, view: &View, closing: &Closing) -> Result<Change, Refusal>
    ensures accepted { IfOk result (λ change. (ties : TieRule)
        → Accepts ties (known view.now) (ClosingOf closing.now) change) }
    ensures refused { IfErr result (λ refusal. (ties : TieRule)
        → JudgesUnder ties (known view.now) (ClosingOf closing.now) (Refuse refusal)) }
{
    let Some(standing) = view.standing(&closing.account) else {
        return Err(Refusal::UnknownAccount { posting: None });
    };
    if closing.day < standing.opened {
        return Err(Refusal::NotOpenYet { posting: None });
    }
    if standing.closed.is_some() {
        return Err(Refusal::Closed { posting: None });
    }
    not_full(view)?;
    Ok(no_change(alloc))
}

/// Returns the change of a declaring whose key is new, or why it is refused. It is the same by each edition.
fn decide_declaring(alloc: Global, view: &View, declaring: &Declaring) -> Result<Change, Refusal>
    ensures accepted { IfOk result (λ change. (ties : TieRule)
        → Accepts ties (known view.now) (DeclaringOf declaring.now) change) }
    ensures refused { IfErr result (λ refusal. (ties : TieRule)
        → JudgesUnder ties (known view.now) (DeclaringOf declaring.now) (Refuse refusal)) }
{
    if view.is_declared(&declaring.commodity) {
        return Err(Refusal::AlreadyDeclared);
    }
    not_full(view)?;
    Ok(no_change(alloc))
}

/// Returns the change of a quoting whose key is new, or why it is refused. It is the same by each edition.
fn decide_quoting(alloc: Global, view: &View) -> Result<Change, Refusal>
    ensures accepted { IfOk result (λ change. (ties : TieRule) (quoting : QuotingParts)
        → Accepts ties (known view.now) (QuotingOf quoting) change) }
    ensures refused { IfErr result (λ refusal. (ties : TieRule) (quoting : QuotingParts)
        → JudgesUnder ties (known view.now) (QuotingOf quoting) (Refuse refusal)) }
{
    not_full(view)?;
    Ok(no_change(alloc))
}

/// Returns the change of a transaction whose key is new, by an edition, or why it is refused. Each step looks at all postings
/// before the next step does.
fn decide_transaction(
    alloc: Global,
    edition: Edition,
    view: &View,
    transaction: &Transaction,
) -> Result<Change, Stop>
    ensures accepted { IfOk result (λ change.
        Accepts (ties_for edition (known_with_openings view.now))
        (known view.now) (TransactionOf transaction.now) change) }
    ensures stops { IfErr result (λ stop.
        StopsJudging (ties_for edition (known_with_openings view.now))
        (known view.now) (TransactionOf transaction.now) stop) }
    ensures memory { IsErrOf result Memory
        → JudgingMayLackMemory (ties_for edition (known_with_openings view.now))
        (known view.now) (TransactionOf transaction.now) }
{
    let elided = check_first(view, transaction)?;
    let draft = book_amounts(alloc, edition, view, transaction)?;
    conclude(alloc, view, transaction, elided, draft)
}

/// Makes the checks that come before a transaction is booked, and returns its elided posting, if it has one.
fn check_first<'a>(view: &View, transaction: &'a Transaction) -> Result<Option<Elided<'a>>, Refusal>
    ensures passed { IsOk result
        → first_of (first_conditions (known view.now) transaction.now) ≡ None }
    ensures few { IsOk result → length transaction.now.postings ≤ most_postings }
    ensures elided { IfOk result (λ elided. IsElided elided transaction.now) }
    ensures refused { IfErr result
        (λ refusal. first_of (first_conditions (known view.now) transaction.now) ≡ Some refusal) }
{
    let postings = transaction.postings.as_slice();
    every_account_fits(view, postings, transaction.day)?;
    few_postings(postings)?;
    let elided = only_elided(postings)?;
    none_back_dated(view, postings, transaction.day)?;
    Ok(elided)
}

/// Makes the fill and the checks that come after the postings with amounts are booked, and returns the change.
fn conclude(
    alloc: Global,
    view: &View,
    transaction: &Transaction,
    elided: Option<Elided<'_>>,
    draft: Draft,
) -> Result<Change, Stop>
    requires few { length transaction.now.postings ≤ most_postings }
    requires elided { IsElided elided transaction.now }
    requires lists { ListsTally (known_with_openings view.now) draft.tally }
    ensures passed { IsOk result → first_of
        (conditions_on (known view.now) transaction.now draft.tally.legs draft.residuals) ≡ None }
    ensures legs { IfOk result (λ change. change.legs
        ≡ legs_with_fill (known view.now) transaction.now draft.tally.legs draft.residuals) }
    ensures sales { IfOk result (λ change. change.sales ≡ draft.sales) }
    ensures positions { IfOk result
        (λ change. ListsSums (known view.now) change.legs change.positions.entries) }
    ensures openings { IfOk result (λ change.
        ListsOpened (known view.now) change.legs change.openings) }
    ensures heads { IfOk result
        (λ change. ListsHeads (TransactionOf transaction.now) change.heads) }
    ensures stops { IfErr result (λ stop. Stops (first_of
        (conditions_on (known view.now) transaction.now draft.tally.legs draft.residuals)) stop) }
    ensures memory { IsErrOf result Memory
        → EndMayLackMemory (known view.now) transaction.now draft.tally.legs draft.residuals }
{
    let mut draft = draft;
    take_up(alloc, view, transaction, elided, &mut draft)?;
    few_lots(view, &draft, transaction.postings.as_slice())?;
    not_full(view)?;
    let heads = heads_of(alloc, transaction)?;
    Ok(change_of(draft, heads))
}

/// Adds the fill where there is an elided posting. Else it returns `NotBalanced` where a residual isn't zero. The residuals are
/// used up.
fn take_up(
    alloc: Global,
    view: &View,
    transaction: &Transaction,
    elided: Option<Elided<'_>>,
    draft: &mut Draft,
) -> Result<(), Stop>
    requires few { length transaction.now.postings ≤ most_postings }
    requires elided { IsElided elided transaction.now }
    requires lists { ListsTally (known_with_openings view.now) draft.old.tally }
    ensures passed { IsOk result → first_of (residual_conditions
        (known view.now) transaction.now draft.old.tally.legs draft.old.residuals) ≡ None }
    ensures legs { OnOk result (draft.new.tally.legs ≡ legs_with_fill
        (known view.now) transaction.now draft.old.tally.legs draft.old.residuals) }
    ensures lists { OnOk result (ListsTally (known_with_openings view.now) draft.new.tally) }
    ensures sales { OnOk result (draft.new.sales ≡ draft.old.sales) }
    ensures stops { IfErr result (λ stop. Stops (first_of (residual_conditions
        (known view.now) transaction.now draft.old.tally.legs draft.old.residuals)) stop) }
    ensures memory { IsErrOf result Memory
        → FillMayLackMemory (known view.now) (elided_postings 1 transaction.now.postings)
        draft.old.residuals }
{
    match elided {
        Some(elided) => fill(alloc, view, elided, draft),
        None => {
            let residuals = mem::replace(&mut draft.residuals, Residuals::new(alloc));
            Ok(residuals.balanced()?)
        }
    }
}

/// Books the postings with amounts, each on the legs of those before it. The error is the refusal of the first that can't
/// be booked, or out of memory.
pub fn book_amounts(
    alloc: Global,
    edition: Edition,
    view: &View,
    transaction: &Transaction,
) -> Result<Draft, Stop>
    requires { length transaction.now.postings ≤ most_postings }
    ensures drafts { IfOk result (λ draft.
        DraftsAll (ties_for edition (known_with_openings view.now))
        (known view.now) transaction.now draft) }
    ensures within { IfOk result (λ draft. AreWithin most_postings draft.residuals) }
    ensures lists { IfOk result (λ draft.
        ListsTally (known_with_openings view.now) draft.tally) }
    ensures stops { IfErr result (λ stop.
        StopsBooking (ties_for edition (known_with_openings view.now))
        (known view.now) transaction.now stop) }
    ensures memory { IsErrOf result Memory
        → StoresFirst (ties_for edition (known_with_openings view.now))
        (known view.now) transaction.now.day 1 transaction.now.postings }
{
    let mut draft = Draft::new(alloc);
    for (index, posting) in transaction.postings.as_slice().iter().enumerate() {
        book_next(
            alloc,
            edition,
            view,
            transaction.day,
            index + 1,
            posting,
            &mut draft,
        )?;
    }
    Ok(draft)
}

/// Books the posting at that place, from 1, if it has an amount.
fn book_next(
    alloc: Global,
    edition: Edition,
    view: &View,
    day: Day,
    place: usize,
    posting: &Posting,
    draft: &mut Draft,
) -> Result<(), Stop>
    requires lists { ListsTally (known_with_openings view.now) draft.old.tally }
    requires few { place ≤ most_postings }
    requires room { AreWithin (most_postings - 1) draft.old.residuals }
    ensures books { OnOk result (BooksNext (ties_for edition (known_with_openings view.now))
        (known view.now) day place posting.now.account posting.now.amount draft.old draft.new) }
    ensures lists { OnOk result (ListsTally (known_with_openings view.now) draft.new.tally) }
    ensures stops { IfErr result (λ stop.
        StopsNext (ties_for edition (known_with_openings view.now))
        (known view.now) day place posting.now.account posting.now.amount draft.old stop) }
    ensures memory { IsErrOf result Memory
        → NextMayLackMemory (ties_for edition (known_with_openings view.now))
        (known view.now) day place posting.now.account posting.now.amount draft.old }
{
    let Some(amount) = &posting.amount else {
        return Ok(());
    };
    let site = Site {
        edition,
        entry: u64::from(view.entries()) + 1,
        day,
        posting: place,
        account: &posting.account,
        amount,
    };
    book_posting(alloc, view, &site, draft)
}

/// Returns a change of nothing.
fn no_change(alloc: Global) -> Change
    ensures legs { result.legs ≡ [] }
    ensures sales { result.sales ≡ [] }
    ensures positions { IsEmpty result.positions }
    ensures openings { IsEmpty result.openings }
    ensures heads { IsEmpty result.heads }
{
    Change {
        legs: Items::new(alloc),
        sales: Items::new(alloc),
        positions: BTreeMap::new(alloc),
        openings: BTreeMap::new(alloc),
        heads: BTreeMap::new(alloc),
    }
}

/// Returns the change of what is booked.
fn change_of(draft: Draft, heads: BTreeMap<Pair, Day>) -> Change
    ensures { result ≡ record {
      legs = draft.tally.legs;
      sales = draft.sales;
      positions = draft.tally.positions;
      openings = draft.tally.openings;
      heads = heads;
    } }
{
    let Draft { tally, sales, .. } = draft;
    let Tally {
        legs,
        positions,
        openings,
        ..
    } = tally;
    Change {
        legs,
        sales,
        positions,
        openings,
        heads,
    }
}
