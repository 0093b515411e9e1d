//! What is tried in the place of a command that was handed in: its completion, or the split that it asks for.
ghost use Rattle.std.specs.Prelude.{◌≡◌, IfOk, None, Some};
ghost use Rattle.lot_book.specs.Openings.{ties_on};
ghost use Rattle.lot_command.specs.declared.command.Command.TheVariants.{Transaction as AsCommand};
ghost use Rattle.lot_store.specs.Turned.{IsTrial, completed_by, split_by};
ghost use Rattle.lot_view.specs.View.{known, known_with_openings};

use lot_command::{Command, Transaction};
use lot_completion::{Completion, Note, Proposal, SplitProposal, propose, propose_split};
use lot_ledger::View;
use lot_rounding::{Asked, Rounding};
use std::alloc::{AllocError, Global};

/// What is tried in the place of a command.
#[derive(Drop)]
pub(crate) struct Trial {
    /// The command, if one is tried.
    pub(crate) other: Option<Command>,
    /// What there is to tell of it, or why there is none.
    pub(crate) note: Option<Note>,
}

/// Returns what is tried by edition 2 in the place of a command that was handed in, on a view that is that of its key. The only
/// error is out of memory.
pub(crate) fn trial_of(
    alloc: Global,
    view: &View,
    rounding: &Rounding,
    asked: &Asked,
) -> Result<Trial, AllocError>
    ensures { IfOk result (λ trial. IsTrial (ties_on (known_with_openings view.now))
        (known view.now) rounding.now asked.now trial.other) }
{
    match asked.split {
        None => Ok(completion(propose(alloc, view, rounding, asked)?)),
        Some(change) => {
            let proposal = propose_split(alloc, view, rounding, change, &asked.command)?;
            Ok(split(proposal))
        }
    }
}

/// Returns the completion that is tried, if one is.
fn completion(proposal: Proposal) -> Trial
    ensures { result.other ≡ completed_by proposal }
{
    match proposal {
        Proposal::Nothing => nothing(None),
        Proposal::Beyond { currency, crumb } => nothing(Some(Note::Beyond { currency, crumb })),
        Proposal::Completion(
            Completion {
                transaction,
                crumbs,
            },
        ) => tried(transaction, Some(Note::Taken(crumbs))),
        Proposal::Standing(stands) => tried(stands, None),
    }
}

/// Returns the split that is tried, if one is.
fn split(proposal: SplitProposal) -> Trial
    ensures { result.other ≡ split_by proposal }
{
    match proposal {
        SplitProposal::Nothing => nothing(None),
        SplitProposal::Impossible(fault) => nothing(Some(Note::Unsplit(fault))),
        SplitProposal::Split(
            Completion {
                transaction,
                crumbs,
            },
        ) => tried(transaction, Some(Note::Taken(crumbs))),
        SplitProposal::Standing(stands) => tried(stands, None),
    }
}

/// Returns that nothing is tried.
fn nothing(note: Option<Note>) -> Trial
    ensures { result.other ≡ None }
{
    Trial { other: None, note }
}

/// Returns that a transaction is tried.
fn tried(transaction: Transaction, note: Option<Note>) -> Trial
    ensures { result.other ≡ Some (AsCommand transaction) }
{
    Trial {
        other: Some(Command::Transaction(transaction)),
        note,
    }
}
