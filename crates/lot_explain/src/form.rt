//! Whether an entry is a completion of a command by its form, so that the command repeats it where an
//! account takes crumbs.

ghost use Rattle.std.specs.Prelude.{◌≡◌, ◌↔◌, IfOk, IsTrue};
ghost use Rattle.lot_explain.specs.Crumbs.{IsByFormIn, is_standing};

use lot_base::Account;
use lot_command::{Command, Transaction};
use lot_completion::{Proposal, propose};
use lot_rounding::{Asked, Bound, Decimals, Rounding, RowCash};
use lot_view::View;
use std::alloc::{AllocError, Global};

/// Returns whether the text of an entry is that of a completion of a transaction by form, with the
/// cash of a row at any decimals. The only error is out of memory.
pub(crate) fn is_by_form(
    alloc: Global,
    text: &str,
    cash: Option<RowCash>,
    transaction: &Transaction,
) -> Result<bool, AllocError>
    ensures { IfOk result (λ is. IsTrue is ↔ IsByFormIn text.now cash transaction.now) }
{
    let mut view = View::new(alloc, 0);
    view.put_text(String::from_str(alloc, text)?);
    let rounding = some_rounding(alloc)?;
    let asked = Asked {
        command: Command::Transaction(transaction.copy(alloc)?),
        cash,
        split: None,
    };
    let proposal = propose(alloc, &view, &rounding, &asked)?;
    Ok(is_standing(&proposal))
}

/// Returns whether what is tried in the place of a command is the completion that stands.
fn is_standing(proposal: &Proposal) -> bool
    ensures { result ≡ is_standing proposal.now }
{
    matches!(proposal, Proposal::Standing(_))
}

/// Returns some account for crumbs, with a bound: what stands already doesn't go by them. The only
/// error is out of memory.
fn some_rounding(alloc: Global) -> Result<Rounding, AllocError> {
    match Account::new(alloc, "Equity:Rounding") {
        Ok(account) => Ok(Rounding {
            account,
            within: Bound::half_a_cent(),
            decimals: Decimals::of_units(),
        }),
        Err(_) => Err(AllocError),
    }
}
