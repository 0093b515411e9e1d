//! The commands of the rows of a file, each under its key, and with the number of its row.
ghost use Rattle.std.specs.Prelude.{◌≡◌, ◌≤◌, ◌↔◌, ◌⊎◌, ℕ, All, Err, IfOk, IfErr, IfSome, IfNone, IsTrue, length};
ghost use Rattle.lot_import.specs.Deal.{HasCash};
ghost use Rattle.lot_import.specs.Keyed.{AreKeyedFrom, HasInexactRow, HaveCash, IsKeyed, is_left_out, is_taken, remaining};
ghost use Rattle.lot_import.specs.declared.fault.KeyedFault.TheVariants.{InexactAmount};

use crate::accounts::Accounts;
use crate::deal::{asked, cash};
use crate::fault::{CommandFault, KeyedFault};
use crate::row::Row;
use lot_base::Label;
use lot_command::Key;
use lot_rounding::{Asked, Decimals};
use std::alloc::Global;

/// Commands with the numbers that they have in their input, as many of one as of the other.
#[derive(Drop)]
pub struct Numbered {
    pub numbers: Vec<usize>,
    pub commands: Vec<(Key, Asked)>,
}

/// Returns rows as they are handed in, each under its key in the source (docs/RULES.md, Keys and repeats), and with its number.
/// Where decimals are given, the cash of each is rounded to so many, half to even. The first row has the number 1. The rows
/// before `from` are left out, and so is each row whose `ref` is one of `except`.
///
/// The error is `InexactAmount` exactly where the cash that some row moves isn't units: out of range, or without decimals not
/// exact. It has the number of the first such row, even where this row is before `from`: all rows are tested before a command
/// is made, but those whose `ref` is one of `except`. Else it is out of memory.
pub fn keyed_commands(
    alloc: Global,
    source: &Label,
    accounts: &Accounts,
    decimals: Option<Decimals>,
    from: usize,
    except: &[Label],
    rows: &[Row],
) -> Result<Numbered, KeyedFault>
    requires { 1 ≤ from }
    ensures keyed { IfOk result (λ keyed. AreKeyedFrom
        source.now accounts.now decimals from except.now rows.now
        (keyed.numbers.items, keyed.commands.items)) }
    ensures as_many { IfOk result (λ keyed.
        length keyed.numbers.items ≡ length keyed.commands.items) }
    ensures within { IfOk result (λ keyed.
        All (λ number. number ≤ length rows.now) keyed.numbers.items) }
    ensures inexact { (number : ℕ) → result ≡ Err (InexactAmount number)
        → HasInexactRow decimals except.now rows.now number }
    ensures memory { result ≡ Err KeyedFault.Memory
        → HaveCash decimals (remaining except.now rows.now) }
{
    if let Some(row) = first_inexact(rows, except, decimals) {
        return Err(KeyedFault::InexactAmount { row });
    }
    let mut numbers = Vec::new(alloc);
    let mut commands = Vec::new(alloc);
    for (index, row) in rows.iter().enumerate() {
        let number = index + 1;
        if is_taken(from, except, number, row) {
            commands.push(keyed_command(alloc, source, accounts, decimals, row)?)?;
            numbers.push(number)?;
        }
    }
    Ok(Numbered { numbers, commands })
}

/// Returns the number, counted from 1, of the first row that isn't left out and has no cash.
fn first_inexact(rows: &[Row], except: &[Label], decimals: Option<Decimals>) -> Option<usize>
    ensures some { IfSome result (HasInexactRow decimals except.now rows.now) }
    ensures none { IfNone result (HaveCash decimals (remaining except.now rows.now)) }
{
    let index = rows.iter().position(|row| !passes(row, except, decimals))?;
    Some(index + 1)
}

/// Returns whether a row is left out, or else has cash.
fn passes(row: &Row, except: &[Label], decimals: Option<Decimals>) -> bool
    ensures { IsTrue result ↔ (IsTrue (is_left_out except.now row.now) ⊎ HasCash decimals row.now) }
{
    is_left_out(except, row) || has_cash(row, decimals)
}

/// Returns whether the row of that number gives a command.
fn is_taken(from: usize, except: &[Label], number: usize, row: &Row) -> bool
    ensures { result ≡ is_taken from except.now (number, row.now) }
{
    number >= from && !is_left_out(except, row)
}

/// Returns whether the `ref` of a row is one of `except`.
fn is_left_out(except: &[Label], row: &Row) -> bool
    ensures { result ≡ is_left_out except.now row.now }
{
    except.contains(&row.name)
}

/// Returns whether a row has cash.
fn has_cash(row: &Row, decimals: Option<Decimals>) -> bool
    ensures { IsTrue result ↔ HasCash decimals row.now }
{
    cash(row, decimals).is_some()
}

/// Returns a row as it is handed in, under its key. The only error is out of memory.
fn keyed_command(
    alloc: Global,
    source: &Label,
    accounts: &Accounts,
    decimals: Option<Decimals>,
    row: &Row,
) -> Result<(Key, Asked), KeyedFault>
    requires { HasCash decimals row.now }
    ensures ok { IfOk result (IsKeyed source.now accounts.now decimals row.now) }
    ensures memory { IfErr result (λ fault. fault ≡ KeyedFault.Memory) }
{
    let asked = match asked(alloc, row, accounts, decimals) {
        Ok(asked) => asked,
        Err(CommandFault::InexactAmount) => unreachable!(),
        Err(CommandFault::Memory) => return Err(KeyedFault::Memory),
    };
    let key = Key {
        source: source.copy()?,
        name: row.name.copy()?,
    };
    Ok((key, asked))
}
