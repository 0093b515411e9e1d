//! Which transaction is tried in the place of a command that asks for a split.
ghost use Rattle.std.specs.Prelude.{◌≡◌, ◌++◌, IfOk, OnOk};
ghost use Rattle.lot_book.specs.Openings.{ties_on};
ghost use Rattle.lot_completion.specs.Proposal.{IsSplitProposal, SplitsOrNot, StandsOrNot, crumb_at, crumbs_in};
ghost use Rattle.lot_view.specs.View.{known, known_with_openings};

use crate::completion::Completion;
use lot_base::Commodity;
use lot_command::{Amount, Command, Items, Posting, Price, Transaction};
use lot_ledger::View;
use lot_num::{Wide, weight};
use lot_print::command_of;
use lot_print::laws::canonical_texts_tell_commands_apart;
use lot_rounding::{Change, Rounding};
use lot_split::laws::there_is_one_split_on;
use lot_split::{Split, SplitFault, asked_split, is_split_by_form, split_on};
use std::alloc::{AllocError, Global};

/// What is tried in the place of a command that asks for a split.
#[derive(Drop)]
pub enum SplitProposal {
    /// Nothing: the command names no lots, or something else stands under its key.
    Nothing,
    /// Nothing, since the lots that are held can't be split, for this.
    Impossible(SplitFault),
    /// The split of the lots that are held, which is new, with the crumbs that its account takes.
    Split(Completion),
    /// The split that stands under its key.
    Standing(Transaction),
}

/// Returns what is tried in the place of a command that asks for a split, on a view that is that of its
/// key. The only error is out of memory.
pub fn propose_split(
    alloc: Global,
    view: &View,
    rounding: &Rounding,
    change: Change,
    command: &Command,
) -> Result<SplitProposal, AllocError>
    ensures { IfOk result (IsSplitProposal (ties_on (known_with_openings view.now))
        (known view.now) rounding.now change command.now) }
{
    there_is_one_split_on();
    let Some(split) = asked_split(&rounding.account, change, command)? else {
        return Ok(SplitProposal::Nothing);
    };
    match view.text() {
        Some(text) => standing(alloc, text, &split),
        None => anew(alloc, view, &split),
    }
}

/// Returns the split that a text stands for, if it is one by form. The only error is out of memory.
fn standing(alloc: Global, text: &str, split: &Split) -> Result<SplitProposal, AllocError>
    ensures { IfOk result (StandsOrNot text.now split.now) }
{
    canonical_texts_tell_commands_apart();
    let Some(command) = command_of(alloc, text)? else {
        return Ok(SplitProposal::Nothing);
    };
    let Command::Transaction(stands) = &command else {
        return Ok(SplitProposal::Nothing);
    };
    if is_split_by_form(split, stands) {
        Ok(SplitProposal::Standing(stands.copy(alloc)?))
    } else {
        Ok(SplitProposal::Nothing)
    }
}

/// Returns the split of the lots that are held, or why there is none. The only error is out of memory.
fn anew(alloc: Global, view: &View, split: &Split) -> Result<SplitProposal, AllocError>
    ensures { IfOk result (SplitsOrNot (ties_on (known_with_openings view.now)) (known view.now)
        split.now) }
{
    match split_on(alloc, view, split) {
        Ok(transaction) => {
            let crumbs = crumbs_of(alloc, transaction.postings.as_slice())?;
            Ok(SplitProposal::Split(Completion {
                transaction,
                crumbs,
            }))
        }
        Err(SplitFault::Memory) => Err(AllocError),
        Err(fault) => Ok(SplitProposal::Impossible(fault)),
    }
}

/// Returns what the postings of a split that have no braces weigh, one after another: its crumbs, as an
/// account takes them. The only error is out of memory.
fn crumbs_of(alloc: Global, postings: &[Posting]) -> Result<Items<(Commodity, Wide)>, AllocError>
    ensures { IfOk result (λ crumbs. crumbs ≡ crumbs_in postings.now) }
{
    let mut crumbs = Items::new(alloc);
    for posting in postings {
        push_crumb(&mut crumbs, &posting.amount)?;
    }
    Ok(crumbs)
}

/// Appends what a posting with that amount weighs, unless it has braces. The only error is out of memory.
fn push_crumb(
    crumbs: &mut Items<(Commodity, Wide)>,
    amount: &Option<Amount>,
) -> Result<(), AllocError>
    ensures { OnOk result (crumbs.new ≡ crumbs.old ++ crumb_at amount.now) }
{
    let Some(
        Amount {
            units,
            commodity,
            cost: None,
            price,
        },
    ) = amount
    else {
        return Ok(());
    };
    match price {
        None => crumbs.push((commodity.copy()?, units.wide()))?,
        Some(Price::Each(price)) => crumbs.push((
            price.currency.copy()?,
            weight(*units, price.rate),
        ))?,
        // No split has such a price.
        Some(Price::Whole(_)) => {}
    }
    Ok(())
}
