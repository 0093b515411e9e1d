//! The numbers of a row that are rounded as they are read.
ghost use Rattle.std.specs.Prelude.{◌≡◌};
ghost use Rattle.lot_deal_read.specs.Rounded.{amount_roles, reward_roles};

use lot_num::Units;
use lot_profile::{Kind, Rewards, Role};
use lot_roles::{RowFault, Rules, amount};
use lot_sheet::Row;

/// Returns the roles whose amounts and prices a row uses, by its rules. Units are never rounded, and a rate of exchange isn't
/// counted, since it is only compared.
pub(crate) fn amount_roles(rules: &Rules, row: &Row) -> &'static [Role]
    ensures { result.now ≡ amount_roles rules.now row.now rules.now.kind.now.kind }
{
    match rules.kind.kind {
        Kind::Buy | Kind::Sell | Kind::CancelBuy => &[Role::Amount, Role::Price, Role::Fee],
        Kind::Dividend | Kind::Interest => &[Role::Amount, Role::Tax, Role::Booked],
        Kind::Tax | Kind::Fee | Kind::Deposit | Kind::Withdrawal => &[Role::Amount],
        Kind::Exchange => &[Role::Amount, Role::Other, Role::Fee],
        Kind::Reward => reward_roles(
            rules.profile.basis.rewards,
            amount(rules, row, Role::Amount),
        ),
        Kind::TransferIn => &[Role::Cost],
        Kind::Price => &[Role::Price],
        Kind::CancelSell | Kind::Split | Kind::ByHand | Kind::Skip => &[],
    }
}

/// Returns the roles whose amounts a reward uses, of which the row says that amount.
fn reward_roles(rewards: Rewards, amount: Result<Option<Units>, RowFault>) -> &'static [Role]
    ensures { result.now ≡ reward_roles rewards amount }
{
    match (rewards, amount) {
        (Rewards::Zero, _) => &[],
        (Rewards::Value, Ok(None)) => &[Role::Price],
        (Rewards::Value, _) => &[Role::Amount],
    }
}
