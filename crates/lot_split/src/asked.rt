//! The split that a command asks for.
ghost use Rattle.std.specs.Prelude.{◌≡◌, IfOk};
ghost use Rattle.lot_split.specs.Held.{split_at, split_in, split_of};

use crate::transaction::Split;
use lot_base::Account;
use lot_command::{Command, Posting, Transaction};
use lot_rounding::Change;
use std::alloc::AllocError;

/// Returns the split that a command asks for: of the lots of the commodity in the account that its only posting names. It is
/// `None` for any other command. The only error is out of memory.
///
/// The account that takes crumbs and the change of the split stand beside the command.
pub fn asked_split(
    rounding: &Account,
    change: Change,
    command: &Command,
) -> Result<Option<Split>, AllocError>
    ensures { IfOk result (λ split. split ≡ split_of rounding.now change command.now) }
{
    match command {
        Command::Transaction(transaction) => split_in(rounding, change, transaction),
        _ => Ok(None),
    }
}

/// Returns the split that a transaction asks for, if it has one posting. The only error is out of memory.
fn split_in(
    rounding: &Account,
    change: Change,
    transaction: &Transaction,
) -> Result<Option<Split>, AllocError>
    ensures { IfOk result (λ split. split
        ≡ split_in rounding.now change transaction.now transaction.now.postings) }
{
    match transaction.postings.as_slice() {
        [posting] => split_at(rounding, change, transaction, posting),
        _ => Ok(None),
    }
}

/// Returns the split of the lots that a posting names, if it has an amount. The only error is out of memory.
fn split_at(
    rounding: &Account,
    change: Change,
    transaction: &Transaction,
    posting: &Posting,
) -> Result<Option<Split>, AllocError>
    ensures { IfOk result (λ split. split
        ≡ split_at rounding.now change transaction.now posting.now.account posting.now.amount) }
{
    let Some(amount) = &posting.amount else {
        return Ok(None);
    };
    let narration = match &transaction.narration {
        Some(narration) => Some(narration.copy()?),
        None => None,
    };
    Ok(Some(Split {
        day: transaction.day,
        narration,
        account: posting.account.copy()?,
        commodity: amount.commodity.copy()?,
        rounding: rounding.copy()?,
        change,
    }))
}
