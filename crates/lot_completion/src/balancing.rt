//! What would balance a command that is refused for crumbs, where no account takes them.
ghost use Rattle.std.specs.Prelude.{◌≡◌, [], None, IfOk, IfSome, true};
ghost use Rattle.lot_book.specs.Openings.{ties_on};
ghost use Rattle.lot_book.specs.Refusals.{not_balanced};
ghost use Rattle.lot_completion.specs.Balancing.{IsBalanced, WouldBalance};
ghost use Rattle.lot_view.specs.View.{known, known_with_openings};

use crate::completion::{complete, has_elided};
use crate::turn::is_for_crumbs;
use crate::watch::{Note, Watch};
use lot_base::Account;
use lot_book::MOST_POSTINGS;
use lot_command::{Command, Transaction};
use lot_ledger::{Edition, Stop, Verdict, View, book_amounts};
use lot_posting::{Draft, Residuals};
use lot_rounding::Decimals;
use std::alloc::{AllocError, Global};

/// The account that stands for one that takes crumbs, in a completion that is told alone.
const PLACEHOLDER: &str = "Equity:Rounding";

/// Returns what would balance a command that came to a verdict of edition 2 on a view, if it is refused
/// for crumbs and somebody asks for that. Where memory ends there is nothing to tell.
pub fn untaken<N: Watch>(
    alloc: Global,
    view: &View,
    command: &Command,
    verdict: &Verdict,
    watch: &N,
) -> Option<Note>
    ensures { IfSome result (WouldBalance (ties_on (known_with_openings view.now))
        (known view.now) command.now verdict.now) }
{
    let (Verdict::Refused(refusal), Command::Transaction(transaction)) = (verdict, command) else {
        return None;
    };
    if !is_for_crumbs(refusal) || !watch.asks() {
        return None;
    }
    let account = Account::new(alloc, PLACEHOLDER).ok()?;
    let decimals = Decimals::of_units();
    let completion = complete(
        alloc,
        Edition::Second,
        view,
        &account,
        decimals,
        transaction,
    )
    .ok()??;
    match is_balanced(alloc, view, &completion.transaction) {
        Ok(true) => Some(Note::Untaken(completion)),
        Ok(false) | Err(AllocError) => None,
    }
}

/// Returns whether a transaction is balanced on a view, by edition 2, or an elided posting takes up the
/// rest. The only error is out of memory.
fn is_balanced(alloc: Global, view: &View, transaction: &Transaction) -> Result<bool, AllocError>
    ensures { IfOk result (λ is. is ≡ true
        → IsBalanced (ties_on (known_with_openings view.now)) (known view.now) transaction.now) }
{
    let postings = transaction.postings.as_slice();
    if postings.len() > MOST_POSTINGS {
        return Ok(false);
    }
    match book_amounts(alloc, Edition::Second, view, transaction) {
        Ok(draft) => {
            let Draft { residuals, .. } = draft;
            let is_zero = are_zero(residuals);
            Ok(has_elided(postings) || is_zero)
        }
        Err(Stop::Refused(_)) => Ok(false),
        Err(Stop::Memory) => Err(AllocError),
    }
}

/// Returns whether all residuals are zero.
fn are_zero(residuals: Residuals) -> bool
    ensures { result ≡ true → not_balanced [] residuals ≡ None }
{
    residuals.balanced().is_ok()
}
