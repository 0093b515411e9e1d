//! The income that a row of a dividend or of interest comes to.
ghost use Rattle.std.specs.Prelude.{◌≡◌, IfOk};
ghost use Rattle.lot_roles.specs.Reading.{Gives, if_any};
ghost use Rattle.lot_deal_read.specs.Cash.{booked_fits, got_currency, gross_of, have_one_sign, have_other_signs, income_of, income_row_of, is_taxed_alike, posted_booked, posted_income, posted_tax, taxed_apart};
ghost use Rattle.lot_deal_read.specs.Money.{apart_from};
ghost use Rattle.lot_deal_read.specs.Signs.{IsBookedWith};
ghost use Rattle.lot_base.specs.Text.{same_text};

use crate::money::{Money, second, so_much_in, tax};
use crate::needed::{amount_in, currency_in};
use lot_base::Commodity;
use lot_deal::{Booked, Income, Movement, Tax, TaxApart};
use lot_num::Units;
use lot_profile::{AccountRole, Role};
use lot_roles::{RowFault, Rules, account};
use lot_sheet::Row;
use std::alloc::{AllocError, Global};

/// What a row of a dividend or of interest says, each number with its sign.
pub(crate) struct IncomeRow {
    /// What came in, less the tax in its currency; below zero where it was taken back or paid.
    pub amount: Units,
    pub currency: Commodity,
    /// What was withheld, above zero where it was paid.
    pub tax: Option<Money>,
    /// What the cash got, where the row has it.
    pub booked: Option<Money>,
}

impl Drop for IncomeRow {
    /// It is written out, so that callers don't prove again how each part is dropped.
    fn drop(self) {
        let IncomeRow {
            amount: _amount,
            currency: _currency,
            tax: _tax,
            booked: _booked,
        } = self;
    }
}

/// Returns the income that a row comes to; that account is what it is posted to.
#[tactic(auto, unfolding(crate::specs::Cash::income_of))]
pub(crate) fn income(
    alloc: Global,
    rules: &Rules,
    row: &Row,
    from: AccountRole,
) -> Result<Income, RowFault>
    ensures gives { Gives result (income_of from rules.now row.now) }
    ensures booked { IfOk result (λ income. IsBookedWith income.movement.amount income.booked) }
{
    let said = income_row(alloc, rules, row)?;
    if !is_taxed_alike(said.amount, &said.tax) {
        return Err(RowFault::TaxSign);
    }
    booked_fits(&said)?;
    gross(&said)?;
    posted(alloc, rules, row, from, &said)
}

/// Returns what a row of a dividend or of interest says.
#[tactic(auto, unfolding(crate::specs::Cash::income_row_of))]
fn income_row(alloc: Global, rules: &Rules, row: &Row) -> Result<IncomeRow, RowFault>
    ensures { Gives result (income_row_of rules.now row.now) }
{
    let amount = amount_in(rules, row, Role::Amount)?;
    let currency = currency_in(alloc, rules, row, Role::Currency)?;
    let tax = tax(alloc, rules, row, &currency)?;
    let booked = second(alloc, rules, row, (Role::Booked, Role::BookedCurrency))?;
    Ok(IncomeRow {
        amount,
        currency,
        tax,
        booked,
    })
}

/// Returns whether a tax has no other sign than the amount.
fn is_taxed_alike(amount: Units, tax: &Option<Money>) -> bool
    ensures { result ≡ is_taxed_alike amount tax.now }
{
    match tax {
        Some(tax) => !have_other_signs(amount, tax.amount),
        None => true,
    }
}

/// Returns whether one amount is above zero and the other below.
pub(crate) fn have_other_signs(a: Units, b: Units) -> bool
    ensures { result ≡ have_other_signs a b }
{
    a > Units::ZERO && b < Units::ZERO || a < Units::ZERO && b > Units::ZERO
}

/// Tells whether what the cash got is the amount, in one currency, or has its sign, in two.
fn booked_fits(said: &IncomeRow) -> Result<(), RowFault>
    ensures { result ≡ booked_fits said.now.booked said.now }
{
    let Some(booked) = &said.booked else {
        return Ok(());
    };
    if booked.currency == said.currency {
        if booked.amount != said.amount {
            return Err(RowFault::BookedAtOdds);
        }
    } else if !have_one_sign(said.amount, booked.amount) {
        return Err(RowFault::BookedSign);
    }
    Ok(())
}

/// Returns whether both amounts are above zero, or below it, or zero.
fn have_one_sign(a: Units, b: Units) -> bool
    ensures { result ≡ have_one_sign a b }
{
    a > Units::ZERO && b > Units::ZERO
        || a < Units::ZERO && b < Units::ZERO
        || a == Units::ZERO && b == Units::ZERO
}

/// Returns the amount before the tax in its currency.
fn gross(said: &IncomeRow) -> Result<Units, RowFault>
    ensures { result ≡ gross_of said.now }
{
    match said
        .amount
        .checked_add(so_much_in(&said.currency, &said.tax))
    {
        Some(gross) => Ok(gross),
        None => Err(RowFault::TooLarge(Role::Amount)),
    }
}

/// Returns the income of a row as it is posted.
#[tactic(auto, unfolding(crate::specs::Cash::posted_income))]
fn posted(
    alloc: Global,
    rules: &Rules,
    row: &Row,
    from: AccountRole,
    said: &IncomeRow,
) -> Result<Income, RowFault>
    ensures gives { Gives result (posted_income rules.now row.now from said.now) }
    ensures amount { IfOk result (λ income. income.movement.amount ≡ said.now.amount) }
    ensures booked { IfOk result (λ income. income.booked
        ≡ posted_booked (apart_from said.now.currency said.now.booked)) }
{
    let cash = account(
        alloc,
        rules,
        row,
        AccountRole::Cash,
        got_currency(said).as_str(),
    )?;
    let account = account(alloc, rules, row, from, said.currency.as_str())?;
    let tax = match &said.tax {
        Some(tax) => Some(posted_tax(alloc, rules, row, from, (&said.currency, tax))?),
        None => None,
    };
    Ok(Income {
        movement: Movement {
            amount: said.amount,
            currency: said.currency.copy()?,
            cash,
            account,
        },
        tax,
        booked: posted_booked(said)?,
    })
}

/// Returns the currency that the cash got.
fn got_currency(said: &IncomeRow) -> &Commodity
    ensures { result.now ≡ got_currency said.now }
{
    match &said.booked {
        Some(booked) => &booked.currency,
        None => &said.currency,
    }
}

/// Returns a tax as it is posted, beside income in that currency.
#[tactic(auto, unfolding(crate::specs::Cash::posted_tax))]
fn posted_tax(
    alloc: Global,
    rules: &Rules,
    row: &Row,
    from: AccountRole,
    taxed: (&Commodity, &Money),
) -> Result<Tax, RowFault>
    ensures { Gives result (posted_tax rules.now row.now from taxed.entry.0.now taxed.entry.1.now) }
{
    let (currency, tax) = taxed;
    let account = account(alloc, rules, row, AccountRole::Tax, tax.currency.as_str())?;
    let apart = if tax.currency == *currency {
        None
    } else {
        Some(taxed_apart(alloc, rules, row, from, &tax.currency)?)
    };
    Ok(Tax {
        amount: tax.amount,
        account,
        apart,
    })
}

/// Returns the income that is taxed in a currency of its own.
fn taxed_apart(
    alloc: Global,
    rules: &Rules,
    row: &Row,
    from: AccountRole,
    currency: &Commodity,
) -> Result<TaxApart, RowFault>
    ensures { Gives result (taxed_apart rules.now row.now from currency.now) }
{
    let income = account(alloc, rules, row, from, currency.as_str())?;
    Ok(TaxApart {
        currency: currency.copy()?,
        income,
    })
}

/// Returns what the cash got in another currency. The only error is out of memory.
fn posted_booked(said: &IncomeRow) -> Result<Option<Booked>, AllocError>
    ensures { IfOk result
        (λ booked. booked ≡ posted_booked (apart_from said.now.currency said.now.booked)) }
{
    match &said.booked {
        Some(booked) if booked.currency != said.currency => Ok(Some(Booked {
            amount: booked.amount,
            currency: booked.currency.copy()?,
        })),
        _ => Ok(None),
    }
}
