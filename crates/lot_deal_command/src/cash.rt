//! The postings of movements of cash, of income and of exchanges.
ghost use Rattle.std.specs.Prelude.{◌≡◌, ◌++◌, IfOk, IfErr, OnOk, SomeIff, Err};
ghost use Rattle.lot_num.specs.Amount.{IsUnits};
ghost use Rattle.lot_deal_command.specs.declared.fault.CommandFault.TheVariants.{Memory, TooLarge};
ghost use Rattle.lot_deal_command.specs.Cash.{AreOfExchange, AreOfIncome, cash_posting, from_account, gross, moved, other_moved, paid_beside, received, taxed};
ghost use Rattle.lot_deal_command.specs.Posting.{with_fee};

use crate::fault::CommandFault;
use crate::posting::{exchanged, plain, push_fee, with_fee};
use lot_command::{Items, Posting};
use lot_deal::{Booked, Exchange, Income, Movement, Tax};
use lot_num::Units;
use std::alloc::{AllocError, Global};

/// Returns the postings of a movement.
pub(crate) fn movement(alloc: Global, movement: &Movement) -> Result<Items<Posting>, CommandFault>
    ensures ok { IfOk result (λ all. all ≡ moved movement.now) }
    ensures memory { IfErr result (λ fault. fault ≡ Memory) }
{
    let mut all = Items::new(alloc);
    push_moved(&mut all, movement)?;
    Ok(all)
}

/// Returns the postings of a dividend or of interest.
pub(crate) fn income(alloc: Global, income: &Income) -> Result<Items<Posting>, CommandFault>
    ensures ok { IfOk result (AreOfIncome income.now) }
    ensures too_large { result ≡ Err TooLarge
        → IsUnits (gross income.now.movement.amount income.now.tax) → ⊥ }
    ensures memory { result ≡ Err Memory
        → IsUnits (gross income.now.movement.amount income.now.tax) }
{
    let movement = &income.movement;
    let Some(gross) = gross(movement.amount, &income.tax) else {
        return Err(CommandFault::TooLarge);
    };
    let mut all = Items::new(alloc);
    all.push(received(movement, &income.booked)?)?;
    push_taxed(&mut all, movement, gross, &income.tax)?;
    Ok(all)
}

/// Returns the postings of an exchange.
pub(crate) fn exchange(alloc: Global, exchange: &Exchange) -> Result<Items<Posting>, CommandFault>
    ensures ok { IfOk result (AreOfExchange exchange.now) }
    ensures too_large { result ≡ Err TooLarge
        → IsUnits (with_fee exchange.now.movement.amount exchange.now.fee) → ⊥ }
    ensures memory { result ≡ Err Memory
        → IsUnits (with_fee exchange.now.movement.amount exchange.now.fee) }
{
    let movement = &exchange.movement;
    let Some(whole) = with_fee(movement.amount, &exchange.fee) else {
        return Err(CommandFault::TooLarge);
    };
    let mut all = Items::new(alloc);
    all.push(cash_posting(movement)?)?;
    push_fee(&mut all, &exchange.fee, &movement.currency)?;
    all.push(from_account(movement, whole)?)?;
    if let Some(other) = &exchange.other {
        push_moved(&mut all, other)?;
    }
    push_beside(&mut all, &exchange.beside)?;
    Ok(all)
}

/// Appends the postings of a movement.
fn push_moved(all: &mut Items<Posting>, movement: &Movement) -> Result<(), AllocError>
    ensures { OnOk result (all.new ≡ all.old ++ moved movement.now) }
{
    all.push(cash_posting(movement)?)?;
    all.push(from_account(movement, movement.amount)?)?;
    Ok(())
}

/// Appends the postings of a fee that was paid beside an amount, where there is one.
pub(crate) fn push_beside(
    all: &mut Items<Posting>,
    beside: &Option<Movement>,
) -> Result<(), AllocError>
    ensures { OnOk result (all.new ≡ all.old ++ paid_beside beside.now) }
{
    if let Some(movement) = beside {
        all.push(from_account(movement, movement.amount)?)?;
        all.push(cash_posting(movement)?)?;
    }
    Ok(())
}

/// Returns the posting of the cash that moves.
fn cash_posting(movement: &Movement) -> Result<Posting, AllocError>
    ensures { IfOk result (λ posting. posting ≡ cash_posting movement.now) }
{
    plain(&movement.cash, movement.amount, &movement.currency)
}

/// Returns the posting of so much from the account of the other side.
fn from_account(movement: &Movement, amount: Units) -> Result<Posting, AllocError>
    ensures { IfOk result (λ posting. posting ≡ from_account movement.now amount) }
{
    plain(&movement.account, amount.negated(), &movement.currency)
}

/// Returns the posting of what the cash got.
fn received(movement: &Movement, booked: &Option<Booked>) -> Result<Posting, AllocError>
    ensures { IfOk result (λ posting. posting ≡ received movement.now booked.now) }
{
    match booked {
        Some(booked) => exchanged(
            &movement.cash,
            booked.amount,
            &booked.currency,
            movement.amount,
            &movement.currency,
        ),
        None => cash_posting(movement),
    }
}

/// Returns what came in before the tax in its currency, or `None` where that isn't units.
fn gross(amount: Units, tax: &Option<Tax>) -> Option<Units>
    ensures { SomeIff result (IsUnits (gross amount tax.now)) (gross amount tax.now) }
{
    match tax {
        Some(
            Tax {
                amount: tax,
                apart: None,
                ..
            },
        ) => amount.checked_add(*tax),
        _ => Some(amount),
    }
}

/// Appends the tax, and so much of income.
fn push_taxed(
    all: &mut Items<Posting>,
    movement: &Movement,
    amount: Units,
    tax: &Option<Tax>,
) -> Result<(), AllocError>
    ensures { OnOk result (all.new ≡ all.old ++ taxed movement.now amount tax.now) }
{
    let Some(tax) = tax else {
        all.push(from_account(movement, amount)?)?;
        return Ok(());
    };
    match &tax.apart {
        None => {
            all.push(plain(&tax.account, tax.amount, &movement.currency)?)?;
            all.push(from_account(movement, amount)?)?;
        }
        Some(apart) => {
            all.push(from_account(movement, amount)?)?;
            all.push(plain(&tax.account, tax.amount, &apart.currency)?)?;
            all.push(plain(&apart.income, tax.amount.negated(), &apart.currency)?)?;
        }
    }
    Ok(())
}
