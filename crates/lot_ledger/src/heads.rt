ghost use Rattle.std.specs.Prelude.{◌≡◌, true, IfOk, OnErr};
ghost use Rattle.std.specs.Option.{option_copied};
ghost use Rattle.lot_command.specs.declared.command.Command.TheVariants.{Transaction as TransactionOf};
ghost use Rattle.lot_ledger.specs.Decide.{amount_at_cost, has_braces};
ghost use Rattle.lot_book.specs.Change.{ListsHeads};

use lot_base::Day;
use lot_book::Pair;
use lot_command::{Amount, Posting, Transaction};
use std::alloc::{AllocError, Global};
use std::collections::BTreeMap;

/// Returns the pairs that a transaction posts to with braces, each with its day. The only error is out of memory. It comes only
/// where there is such a posting.
pub(crate) fn heads_of(
    alloc: Global,
    transaction: &Transaction,
) -> Result<BTreeMap<Pair, Day>, AllocError>
    ensures lists { IfOk result (λ heads. ListsHeads (TransactionOf transaction.now) heads) }
    ensures memory { OnErr result (has_braces transaction.now.postings ≡ true) }
{
    let mut heads = BTreeMap::new(alloc);
    for posting in transaction.postings.as_slice() {
        if let Some(amount) = at_cost(posting) {
            let pair = Pair {
                account: posting.account.copy()?,
                commodity: amount.commodity.copy()?,
            };
            heads.insert(pair, transaction.day)?;
        }
    }
    Ok(heads)
}

/// Returns the amount of a posting with braces.
fn at_cost(posting: &Posting) -> Option<&Amount>
    ensures { option_copied result ≡ amount_at_cost posting.now.amount }
{
    match &posting.amount {
        Some(amount) if amount.cost.is_some() => Some(amount),
        _ => None,
    }
}
