//! What the numbers of a trade come to, where they disagree.

use lot_base::Commodity;
use lot_num::{Rate, Units, Wide, weight};
use lot_profile::Role;
use lot_profile_text::Word;
use lot_roles::{RowFault, Rules, amount, commodity, rate};
use lot_sheet::Row;
use std::alloc::{AllocError, Global};

/// What may be wrong where they disagree.
const ADVICE: &str =
    "a column may be another, a fee have another sign, or a number be rounded, which `rounded` says";

/// The numbers of a trade that are compared.
#[derive(Clone, Copy)]
struct Figures {
    units: Units,
    price: Rate,
    amount: Units,
    /// The fee, where it is in the currency of the amount.
    fee: Units,
    /// The fee, where it is in that of the price alone.
    price_fee: Units,
    /// How much of the price's currency one of the amount's is, where they are two.
    rate: Option<Rate>,
}

/// Returns why the numbers of a row disagree: what they come to, and by how much that is apart. The only error is out of memory.
pub(crate) fn disagreement(alloc: Global, rules: &Rules, row: &Row) -> Result<String, AllocError> {
    let text = match figures_of(alloc, rules, row) {
        Ok(Some(figures)) => figures.compared(alloc)?,
        Ok(None) => None,
        Err(RowFault::Memory) => return Err(AllocError),
        Err(_) => None,
    };
    match text {
        Some(text) => {
            let text = text.as_str();
            format!(in alloc; "{text}: {ADVICE}")
        }
        None => format!(in alloc; "units, price, fee, rate and amount disagree: {ADVICE}"),
    }
}

/// Returns the numbers of a row, where it has those that are compared.
fn figures_of(alloc: Global, rules: &Rules, row: &Row) -> Result<Option<Figures>, RowFault> {
    let units = amount(rules, row, Role::Units)?;
    let price = rate(rules, row, Role::Price)?;
    let paid = amount(rules, row, Role::Amount)?;
    let (Some(units), Some(price), Some(amount)) = (units, price, paid) else {
        return Ok(None);
    };
    let fee = fee_of(rules, row)?;
    let own = commodity(alloc, rules, row, Role::Currency)?;
    let of_price = commodity(alloc, rules, row, Role::PriceCurrency)?;
    let of_fee = commodity(alloc, rules, row, Role::FeeCurrency)?;
    let is_one = is_same(&of_price, &own);
    let is_own = is_same(&of_fee, &own);
    let is_of_price = !is_own && is_other(&of_fee, &of_price);
    Ok(Some(Figures {
        units,
        price,
        amount,
        fee: if is_own { fee } else { Units::ZERO },
        price_fee: if is_of_price { fee } else { Units::ZERO },
        rate: if is_one {
            None
        } else {
            rate(rules, row, Role::Rate)?
        },
    }))
}

/// Returns the fee of a row, zero where it has none.
fn fee_of(rules: &Rules, row: &Row) -> Result<Units, RowFault> {
    Ok(amount(rules, row, Role::Fee)?.unwrap_or(Units::ZERO))
}

/// Returns whether a currency is that of the amount, which is meant where none is said.
fn is_same(currency: &Option<Commodity>, own: &Option<Commodity>) -> bool {
    match (currency, own) {
        (Some(currency), Some(own)) => currency == own,
        (Some(_), None) => false,
        (None, _) => true,
    }
}

/// Returns whether a currency is another one, which is said.
fn is_other(currency: &Option<Commodity>, other: &Option<Commodity>) -> bool {
    match (currency, other) {
        (Some(currency), Some(other)) => currency == other,
        _ => false,
    }
}

impl Figures {
    /// Returns what the numbers come to, where that can be told. The only error is out of memory.
    fn compared(self, alloc: Global) -> Result<Option<String>, AllocError> {
        match self.rate {
            None => self.compared_in_one(alloc),
            Some(rate) => self.compared_at(alloc, rate),
        }
    }

    /// Returns what the units are worth, with a fee in the currency of the price, where that is in range.
    fn worth(self) -> Option<Wide> {
        weight(self.units, self.price).checked_add(self.price_fee.wide())
    }

    /// Returns the same of numbers in one currency.
    fn compared_in_one(self, alloc: Global) -> Result<Option<String>, AllocError> {
        let (Some(come_to), amount) = (self.in_cash(), self.amount.wide()) else {
            return Ok(None);
        };
        let Some(apart) = apart(alloc, come_to.negated(), amount)? else {
            return Ok(None);
        };
        let (come_to, amount) = (come_to.text_money(alloc)?, amount.text_money(alloc)?);
        let (come_to, amount, apart) = (come_to.as_str(), amount.as_str(), apart.as_str());
        Ok(Some(format!(in alloc;
            "units x price with the fee come to {come_to}, the amount is {amount}: {apart} apart"
        )?))
    }

    /// Returns what the cash would get by units, price and fee, where that is in range.
    fn in_cash(self) -> Option<Wide> {
        Some(self.worth()?.checked_add(self.fee.wide())?.negated())
    }

    /// Returns the same of numbers in two currencies, at that rate.
    fn compared_at(self, alloc: Global, rate: Rate) -> Result<Option<String>, AllocError> {
        let (Some(worth), Some(cash)) = (self.worth(), self.amount.checked_add(self.fee)) else {
            return Ok(None);
        };
        let paid = weight(cash, rate);
        let Some(apart) = apart(alloc, worth, paid)? else {
            return Ok(None);
        };
        let (worth, paid, rate) = (
            worth.text_money(alloc)?,
            paid.negated().text_money(alloc)?,
            rate.text(alloc)?,
        );
        let (worth, paid, rate, apart) = (
            worth.as_str(),
            paid.as_str(),
            rate.as_str(),
            apart.as_str(),
        );
        Ok(Some(format!(in alloc;
            "units x price come to {worth}, the amount with its fee to {paid} at the rate {rate}, which is how much of the price's currency one of the amount's is: {apart} apart"
        )?))
    }
}

/// Returns by how much two amounts that should come to nothing together do not, without a sign, where that is in range. The only
/// error is out of memory.
fn apart(alloc: Global, one: Wide, other: Wide) -> Result<Option<String>, AllocError> {
    let Some(apart) = one.checked_add(other) else {
        return Ok(None);
    };
    let apart = if apart.mantissa() < 0 {
        apart.negated()
    } else {
        apart
    };
    Ok(Some(apart.text_money(alloc)?))
}
