ghost use Rattle.std.specs.Prelude.{◌≡◌, ◌<◌, ◌*◌, ◌+ℤ◌, ◌*ℤ◌, pos, neg_ℤ, unsigned_abs, ◌++◌, Err, IfOk, IfErr, IfSome, IfNone, OnOk};
ghost use Rattle.lot_num.specs.Amount.{IsWide, rate_limit, units_limit};
ghost use Rattle.lot_import.specs.Deal.{HasCash, IsAskedOf, IsCash, IsCommandOf, IsKept, bought, cash_place, cash_weight, elided, exact_cash, fee_posting, plain, postings, sold};
ghost use Rattle.lot_import.specs.declared.fault.CommandFault.TheVariants.{InexactAmount};

use crate::accounts::Accounts;
use crate::fault::CommandFault;
use crate::row::{Action, Row};
use lot_base::{Account, Commodity, Label, NameFault, Note};
use lot_command::{
    Amount, Command, Cost, CostSpec, Flag, Items, Narration, Posting, Price, Transaction, UnitPrice,
};
use lot_num::{Rate, Units, Wide, weight};
use lot_rounding::{Asked, Decimals, RowCash, rounded};
use std::alloc::{AllocError, Global};

/// Returns the transaction that a row stands for, posted to the accounts (docs/FORMATS.md, Broker files). Where decimals are
/// given, the cash that it moves is rounded to so many, half to even.
///
/// The error is `InexactAmount` exactly where this cash isn't units: out of range, or without decimals not exact. This is tested
/// first. Else it is out of memory.
pub fn command(
    alloc: Global,
    row: &Row,
    accounts: &Accounts,
    decimals: Option<Decimals>,
) -> Result<Command, CommandFault>
    ensures ok { IfOk result (IsCommandOf accounts.now decimals row.now) }
    ensures inexact { IfErr result (λ fault. fault ≡ InexactAmount → HasCash decimals row.now → ⊥) }
    ensures memory { result ≡ Err CommandFault.Memory → HasCash decimals row.now }
{
    let Some(cash) = cash(row, decimals) else {
        return Err(CommandFault::InexactAmount);
    };
    let narration = Narration {
        payee: None,
        text: note(alloc, &row.name)?,
    };
    Ok(Command::Transaction(Transaction {
        day: row.day,
        flag: Flag::Complete,
        narration: Some(narration),
        postings: postings(alloc, row, accounts, cash)?,
    }))
}

/// Returns the same as it is handed in: where decimals are given, with the exact cash.
pub(crate) fn asked(
    alloc: Global,
    row: &Row,
    accounts: &Accounts,
    decimals: Option<Decimals>,
) -> Result<Asked, CommandFault>
    ensures ok { IfOk result (IsAskedOf accounts.now decimals row.now) }
    ensures inexact { IfErr result (λ fault. fault ≡ InexactAmount → HasCash decimals row.now → ⊥) }
{
    Ok(Asked {
        command: command(alloc, row, accounts, decimals)?,
        cash: exact_cash(row, decimals),
        split: None,
    })
}

/// Returns of a row whose cash is rounded what it is exactly, and its place.
fn exact_cash(row: &Row, decimals: Option<Decimals>) -> Option<RowCash>
    ensures { result ≡ exact_cash decimals row.now }
{
    match decimals {
        None => None,
        Some(_) => Some(RowCash {
            place: cash_place(row),
            exact: moved(row),
        }),
    }
}

/// Returns the place of the cash among the postings of a row: behind the fee, where there is one.
fn cash_place(row: &Row) -> usize
    ensures { result ≡ cash_place row.now }
{
    if row.fee.mantissa() == 0 { 1 } else { 2 }
}

/// Returns the cash that a row moves, rounded where decimals are given, or `None` where it isn't units.
pub(crate) fn cash(row: &Row, decimals: Option<Decimals>) -> Option<Units>
    ensures some { IfSome result (IsCash decimals row.now) }
    ensures none { IfNone result (HasCash decimals row.now → ⊥) }
{
    kept(moved(row), decimals).to_units()
}

/// Returns what an amount is kept as: itself, or where decimals are given, rounded to so many.
fn kept(amount: Wide, decimals: Option<Decimals>) -> Wide
    ensures { IsKept decimals amount result }
{
    match decimals {
        None => amount,
        Some(decimals) => rounded(amount, decimals),
    }
}

/// Returns the cash that a row moves, exactly. It is always in range.
fn moved(row: &Row) -> Wide
    ensures { result ≡ cash_weight row.now }
{
    let worth = worth(row.units, row.price);
    let fee = as_units(row.fee).wide();
    match row.action {
        Action::Buy => sum(worth, fee).negated(),
        Action::Sell => sum(worth, fee.negated()),
    }
}

/// Returns what units are worth at a price.
fn worth(units: Units, price: Rate) -> Wide
    ensures value { result ≡ units *ℤ pos price }
    ensures bound { unsigned_abs result < units_limit * rate_limit }
{
    weight(units, price)
}

/// Returns the sum of two weights that is in range.
fn sum(one: Wide, other: Wide) -> Wide
    requires { IsWide (one +ℤ other) }
    ensures { result ≡ one +ℤ other }
{
    match one.checked_add(other) {
        Some(sum) => sum,
        None => unreachable!(),
    }
}

/// Returns the rate as units. They have the same scale, and their range is wider.
fn as_units(rate: Rate) -> Units
    ensures { result ≡ pos rate }
{
    match Units::from_mantissa(rate.mantissa() as i64) {
        Some(units) => units,
        None => unreachable!(),
    }
}

/// Returns the label as a note. Each label is one. The only error is out of memory.
#[tactic(auto, using(crate::proofs::NoteLemmas::label_is_note))]
fn note(alloc: Global, label: &Label) -> Result<Note, CommandFault>
    ensures ok { IfOk result (λ note. note ≡ label.now) }
    ensures memory { IfErr result (λ fault. fault ≡ CommandFault.Memory) }
{
    match Note::new(alloc, label.as_str()) {
        Ok(note) => Ok(note),
        Err(NameFault::BadNote) => unreachable!(),
        Err(_) => Err(CommandFault::Memory),
    }
}

/// Returns the postings of a row that moves that cash.
fn postings(
    alloc: Global,
    row: &Row,
    accounts: &Accounts,
    cash: Units,
) -> Result<Items<Posting>, AllocError>
    ensures { IfOk result (λ all. all ≡ postings row.now.action accounts.now row.now cash) }
{
    let mut all = Items::new(alloc);
    match row.action {
        Action::Buy => all.push(bought(row, accounts)?)?,
        Action::Sell => all.push(sold(row, accounts)?)?,
    }
    push_fee(&mut all, row, accounts)?;
    all.push(plain(&accounts.cash, cash, &row.currency)?)?;
    if row.action == Action::Sell {
        all.push(elided(&accounts.gains)?)?;
    }
    Ok(all)
}

/// Returns the posting of what is bought, at its cost.
fn bought(row: &Row, accounts: &Accounts) -> Result<Posting, AllocError>
    ensures { IfOk result (λ posting. posting ≡ bought accounts.now row.now) }
{
    let cost = CostSpec {
        number: Some(row.price),
        currency: Some(row.currency.copy()?),
        day: None,
        label: row.copied_lot()?,
    };
    Ok(Posting {
        account: accounts.invest.copy()?,
        amount: Some(Amount {
            units: row.units,
            commodity: row.symbol.copy()?,
            cost: Some(Cost::Each(cost)),
            price: None,
        }),
    })
}

/// Returns the posting of what is sold, at its price. It takes from any lot, or from those with the label of the row where
/// there is one.
fn sold(row: &Row, accounts: &Accounts) -> Result<Posting, AllocError>
    ensures { IfOk result (λ posting. posting ≡ sold accounts.now row.now) }
{
    let cost = CostSpec {
        number: None,
        currency: None,
        day: None,
        label: row.copied_lot()?,
    };
    let price = UnitPrice {
        rate: row.price,
        currency: row.currency.copy()?,
    };
    Ok(Posting {
        account: accounts.invest.copy()?,
        amount: Some(Amount {
            units: row.units.negated(),
            commodity: row.symbol.copy()?,
            cost: Some(Cost::Each(cost)),
            price: Some(Price::Each(price)),
        }),
    })
}

/// Appends the posting of the fee, unless the fee is zero.
fn push_fee(all: &mut Items<Posting>, row: &Row, accounts: &Accounts) -> Result<(), AllocError>
    ensures { OnOk result (all.new ≡ all.old ++ fee_posting accounts.now row.now) }
{
    if row.fee.mantissa() > 0 {
        all.push(plain(&accounts.fees, as_units(row.fee), &row.currency)?)?;
    }
    Ok(())
}

/// Returns a posting of units, without braces and without a price.
fn plain(account: &Account, units: Units, commodity: &Commodity) -> Result<Posting, AllocError>
    ensures { IfOk result (λ posting. posting ≡ plain account.now units commodity.now) }
{
    Ok(Posting {
        account: account.copy()?,
        amount: Some(Amount {
            units,
            commodity: commodity.copy()?,
            cost: None,
            price: None,
        }),
    })
}

/// Returns an elided posting to the account.
fn elided(account: &Account) -> Result<Posting, AllocError>
    ensures { IfOk result (λ posting. posting ≡ elided account.now) }
{
    Ok(Posting {
        account: account.copy()?,
        amount: None,
    })
}
