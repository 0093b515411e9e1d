//! How the fee of a row is posted.
ghost use Rattle.std.specs.Prelude.{◌≡◌};
ghost use Rattle.lot_roles.specs.Reading.{Gives, if_any};
ghost use Rattle.lot_deal_read.specs.Money.{apart_from, within_currency};
ghost use Rattle.lot_deal_read.specs.Trade.{fee_to, paid_beside};

use crate::money::Money;
use lot_base::Commodity;
use lot_deal::{Fee, Movement};
use lot_profile::AccountRole;
use lot_roles::{RowFault, Rules, account};
use lot_sheet::Row;
use std::alloc::Global;

/// Returns the fee of a row to the account of fees, where it is in that currency.
pub(crate) fn fee_within(
    alloc: Global,
    rules: &Rules,
    row: &Row,
    currency: &Commodity,
    fee: &Option<Money>,
) -> Result<Option<Fee>, RowFault>
    ensures { Gives result (if_any (fee_to rules.now row.now)
        (within_currency currency.now fee.now)) }
{
    match fee {
        Some(fee) if fee.currency == *currency => Ok(Some(Fee {
            amount: fee.amount,
            account: account(alloc, rules, row, AccountRole::Fees, fee.currency.as_str())?,
        })),
        _ => Ok(None),
    }
}

/// Returns the fee of a row out of the cash of its currency, where it isn't in that currency.
pub(crate) fn fee_apart(
    alloc: Global,
    rules: &Rules,
    row: &Row,
    currency: &Commodity,
    fee: &Option<Money>,
) -> Result<Option<Movement>, RowFault>
    ensures { Gives result (if_any (paid_beside rules.now row.now)
        (apart_from currency.now fee.now)) }
{
    match fee {
        Some(fee) if fee.currency != *currency => Ok(Some(paid_beside(alloc, rules, row, fee)?)),
        _ => Ok(None),
    }
}

/// Returns a fee out of the cash of its currency to the account of fees.
#[tactic(auto, unfolding(crate::specs::Trade::paid_beside))]
pub(crate) fn paid_beside(
    alloc: Global,
    rules: &Rules,
    row: &Row,
    fee: &Money,
) -> Result<Movement, RowFault>
    ensures { Gives result (paid_beside rules.now row.now fee.now) }
{
    let currency = fee.currency.as_str();
    let fees = account(alloc, rules, row, AccountRole::Fees, currency)?;
    let cash = account(alloc, rules, row, AccountRole::Cash, currency)?;
    Ok(Movement {
        amount: fee.amount.negated(),
        currency: fee.currency.copy()?,
        cash,
        account: fees,
    })
}
