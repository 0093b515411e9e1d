//! The movement of cash that a row comes to.
ghost use Rattle.std.specs.Prelude.{◌≡◌, IfOk};
ghost use Rattle.lot_roles.specs.Reading.{Gives};
ghost use Rattle.lot_deal_read.specs.Cash.{is_sign, moved, movement_of};
ghost use Rattle.lot_deal_read.specs.Signs.{HasSign};

use crate::needed::{amount_in, currency_in};
use lot_base::Commodity;
use lot_deal::Movement;
use lot_num::Units;
use lot_profile::{AccountRole, Role};
use lot_roles::{RowFault, Rules, account};
use lot_sheet::Row;
use std::alloc::Global;

/// Which sign an amount has.
#[derive(Clone, Copy)]
pub(crate) enum Sign {
    /// Any.
    Any,
    /// It is above zero.
    Above,
    /// It is below zero.
    Below,
}

/// Returns the movement of a row between the cash and another account, whose amount has that sign.
#[tactic(auto, unfolding(crate::specs::Cash::movement_of))]
pub(crate) fn movement(
    alloc: Global,
    rules: &Rules,
    row: &Row,
    sign: Sign,
    other: AccountRole,
) -> Result<Movement, RowFault>
    ensures gives { Gives result (movement_of sign other rules.now row.now) }
    ensures sign { IfOk result (λ movement. HasSign sign movement.amount) }
{
    let amount = amount_in(rules, row, Role::Amount)?;
    let currency = currency_in(alloc, rules, row, Role::Currency)?;
    if !is_sign(sign, amount) {
        return Err(RowFault::Signs);
    }
    moved(alloc, rules, row, other, (amount, &currency))
}

/// Returns whether an amount has that sign.
fn is_sign(sign: Sign, amount: Units) -> bool
    ensures { result ≡ is_sign sign amount }
{
    match sign {
        Sign::Any => true,
        Sign::Above => amount > Units::ZERO,
        Sign::Below => amount < Units::ZERO,
    }
}

/// Returns the movement of so much of a currency between the cash and another account.
#[tactic(auto, unfolding(crate::specs::Cash::moved))]
pub(crate) fn moved(
    alloc: Global,
    rules: &Rules,
    row: &Row,
    other: AccountRole,
    money: (Units, &Commodity),
) -> Result<Movement, RowFault>
    ensures gives { Gives result (moved rules.now row.now other money.entry.0 money.entry.1.now) }
    ensures amount { IfOk result (λ movement. movement.amount ≡ money.entry.0) }
{
    let (amount, currency) = money;
    let cash = account(alloc, rules, row, AccountRole::Cash, currency.as_str())?;
    let account = account(alloc, rules, row, other, currency.as_str())?;
    Ok(Movement {
        amount,
        currency: currency.copy()?,
        cash,
        account,
    })
}
