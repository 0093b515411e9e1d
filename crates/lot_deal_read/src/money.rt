//! An amount of a currency that a row says.
ghost use Rattle.std.specs.Prelude.{◌≡◌};
ghost use Rattle.lot_roles.specs.Reading.{Gives};
ghost use Rattle.lot_deal_read.specs.Money.{charge_of, fee_of, second_of, so_much, tax_of, within_currency};

use crate::needed::{currency_in, currency_or};
use lot_base::Commodity;
use lot_num::Units;
use lot_profile::Role;
use lot_roles::{RowFault, Rules, amount};
use lot_sheet::Row;
use std::alloc::Global;

/// An amount of a currency.
pub(crate) struct Money {
    pub amount: Units,
    pub currency: Commodity,
}

impl Drop for Money {
    /// It is written out, so that callers don't prove again how each part is dropped.
    fn drop(self) {
        let Money {
            amount: _amount,
            currency: _currency,
        } = self;
    }
}

/// Returns the fee of a row, unless it is zero; it is in that currency, where the row says no other.
pub(crate) fn fee(
    alloc: Global,
    rules: &Rules,
    row: &Row,
    currency: &Commodity,
) -> Result<Option<Money>, RowFault>
    ensures { Gives result (fee_of rules.now row.now currency.now) }
{
    charge(alloc, rules, row, (Role::Fee, Role::FeeCurrency), currency)
}

/// Returns the tax of a row, unless it is zero; it is in that currency, where the row says no other.
pub(crate) fn tax(
    alloc: Global,
    rules: &Rules,
    row: &Row,
    currency: &Commodity,
) -> Result<Option<Money>, RowFault>
    ensures { Gives result (tax_of rules.now row.now currency.now) }
{
    charge(alloc, rules, row, (Role::Tax, Role::TaxCurrency), currency)
}

/// Returns what was paid or withheld, unless it is zero, by the roles of the amount and of its currency.
#[tactic(auto, unfolding(crate::specs::Money::charge_of))]
fn charge(
    alloc: Global,
    rules: &Rules,
    row: &Row,
    roles: (Role, Role),
    currency: &Commodity,
) -> Result<Option<Money>, RowFault>
    ensures { Gives result (charge_of rules.now row.now roles.0 roles.1 currency.now) }
{
    match amount(rules, row, roles.0)? {
        Some(amount) if amount != Units::ZERO => Ok(Some(Money {
            amount,
            currency: currency_or(alloc, rules, row, roles.1, currency)?,
        })),
        _ => Ok(None),
    }
}

/// Returns so much in a currency of its own, where the row has it, by the roles of the amount and of its currency.
#[tactic(auto, unfolding(crate::specs::Money::second_of))]
pub(crate) fn second(
    alloc: Global,
    rules: &Rules,
    row: &Row,
    roles: (Role, Role),
) -> Result<Option<Money>, RowFault>
    ensures { Gives result (second_of rules.now row.now roles.0 roles.1) }
{
    match amount(rules, row, roles.0)? {
        Some(amount) => Ok(Some(Money {
            amount,
            currency: currency_in(alloc, rules, row, roles.1)?,
        })),
        None => Ok(None),
    }
}

/// Returns how much there is in a currency.
pub(crate) fn so_much_in(currency: &Commodity, money: &Option<Money>) -> Units
    ensures { result ≡ so_much (within_currency currency.now money.now) }
{
    match money {
        Some(money) if money.currency == *currency => money.amount,
        _ => Units::ZERO,
    }
}
