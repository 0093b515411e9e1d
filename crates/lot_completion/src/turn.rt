//! Which command is tried in the place of one that was handed in.
ghost use Rattle.std.specs.Prelude.{◌≡◌, IfOk, IfSome, IsNone};
ghost use Rattle.lot_book.specs.Openings.{ties_on};
ghost use Rattle.lot_book.specs.Step.{DecidesUnder, Outcome as OutcomeOf};
ghost use Rattle.lot_completion.specs.Proposal.{IsFirstBeyond, IsProposal, IsWithinOr};
ghost use Rattle.lot_completion.specs.Turn.{AreWithinBound, is_for_crumbs, may_complete};
ghost use Rattle.lot_view.specs.View.{known, known_with_openings};

use crate::completion::{Completion, complete};
use crate::form::standing_completion;
use lot_base::Commodity;
use lot_command::{Command, Transaction};
use lot_ledger::{Edition, Outcome, Refusal, Stop, View, decide};
use lot_num::Wide;
use lot_rounding::{Asked, Bound, Rounding};
use std::alloc::{AllocError, Global};

/// What is tried in the place of a command.
#[derive(Drop)]
pub enum Proposal {
    /// Nothing: it has no completion, or needs none.
    Nothing,
    /// Nothing, since a crumb of its completion is beyond the bound: that of this currency, at scale 16.
    Beyond { currency: Commodity, crumb: Wide },
    /// Its completion, which is new.
    Completion(Completion),
    /// The completion that stands under its key.
    Standing(Transaction),
}

/// Returns what is tried by edition 2 in the place of a command that was handed in, on a view that is
/// that of its key. The only error is out of memory.
pub fn propose(
    alloc: Global,
    view: &View,
    rounding: &Rounding,
    asked: &Asked,
) -> Result<Proposal, AllocError>
    ensures { IfOk result (IsProposal (ties_on (known_with_openings view.now))
        (known view.now) rounding.now asked.now) }
{
    let Command::Transaction(transaction) = &asked.command else {
        return Ok(Proposal::Nothing);
    };
    if let Some(text) = view.text() {
        return Ok(
            match standing_completion(alloc, text, asked.cash, transaction)? {
                Some(stands) => Proposal::Standing(stands),
                None => Proposal::Nothing,
            },
        );
    }
    if !may_complete(alloc, view, &asked.command)? {
        return Ok(Proposal::Nothing);
    }
    let (account, decimals) = (&rounding.account, rounding.decimals);
    match complete(alloc, Edition::Second, view, account, decimals, transaction)? {
        Some(completion) => within(completion, rounding.within),
        None => Ok(Proposal::Nothing),
    }
}

/// Returns whether a command whose key is new may be completed, as edition 2 decides it. The only error
/// is out of memory.
fn may_complete(alloc: Global, view: &View, command: &Command) -> Result<bool, AllocError>
    ensures { IfOk result (λ may. (outcome : OutcomeOf)
        × DecidesUnder (ties_on (known_with_openings view.now)) (known view.now)
        command.now outcome
        × (may ≡ may_complete outcome)) }
{
    match decide(alloc, Edition::Second, view, command) {
        Ok(Outcome::Accept(_)) => Ok(true),
        Ok(Outcome::Repeat) => Ok(false),
        Err(Stop::Refused(refusal)) => Ok(is_for_crumbs(&refusal)),
        Err(Stop::Memory) => Err(AllocError),
    }
}

/// Returns whether a refusal is for crumbs.
pub(crate) fn is_for_crumbs(refusal: &Refusal) -> bool
    ensures { result ≡ is_for_crumbs refusal.now }
{
    matches!(
        refusal,
        Refusal::InexactCost { .. } | Refusal::InexactFill { .. } | Refusal::NotBalanced { .. }
    )
}

/// Returns a completion as what is tried, or the first crumb that is beyond a bound. The only error is
/// out of memory.
fn within(completion: Completion, bound: Bound) -> Result<Proposal, AllocError>
    ensures { IfOk result (IsWithinOr bound completion) }
{
    match first_beyond(completion.crumbs.as_slice(), bound) {
        Some((currency, crumb)) => Ok(Proposal::Beyond {
            currency: currency.copy()?,
            crumb: *crumb,
        }),
        None => Ok(Proposal::Completion(completion)),
    }
}

/// Returns the first crumb that is beyond a bound.
fn first_beyond(crumbs: &[(Commodity, Wide)], bound: Bound) -> Option<&(Commodity, Wide)>
    ensures within { IsNone result → AreWithinBound bound crumbs.now }
    ensures beyond { IfSome result (λ found. IsFirstBeyond bound crumbs.now found.now) }
{
    for crumb in crumbs {
        if !bound.allows(crumb.1) {
            return Some(crumb);
        }
    }
    None
}
