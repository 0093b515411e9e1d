//! What an export comes to, as ledger text.
ghost use Rattle.std.specs.Prelude.{◌≡◌, ◌++◌, IfOk, OnOk};
ghost use Rattle.std.specs.Option.{option_map};
ghost use Rattle.std.specs.String.{string_bytes};
ghost use Rattle.lot_command.specs.Canonical.{canonical};
ghost use Rattle.lot_export.specs.Show.{lots_of, plain, shown_aside, shown_command, shown_given, shown_hand, shown_hands, shown_row, shown_split, shown_text, told};

use crate::export::Export;
use crate::handed_in::Given;
use crate::named::Named;
use lot_base::{Account, Commodity};
use lot_command::{Command, Key, canonical};
use lot_rounding::{Asked, Change, Ratio};
use std::alloc::{AllocError, Global};

/// Returns what an export comes to, as ledger text (docs/FORMATS.md, Profiles): each command below a comment with the number of its
/// row and the name of its key, of a split the comment alone; then a comment for each row that is posted by hand, and one that counts
/// those that are passed over. The only error is out of memory.
pub fn shown_text(alloc: Global, export: &Export) -> Result<String, AllocError>
    ensures { IfOk result (λ text. string_bytes text ≡ shown_text export.now) }
{
    let mut text = String::new(alloc);
    push_given(alloc, &mut text, &export.given)?;
    push_hands(alloc, &mut text, export.by_hand.as_slice())?;
    let skipped = export.skipped;
    let last = format!(in alloc; "; {skipped} skipped\n")?;
    text.push_str(last.as_str())?;
    Ok(text)
}

/// Appends commands, each below its row. The only error is out of memory.
fn push_given(alloc: Global, text: &mut String, given: &Given) -> Result<(), AllocError>
    ensures { OnOk result (string_bytes text.new ≡ string_bytes text.old
        ++ shown_given given.now.numbers.items given.now.commands.items) }
{
    for (number, keyed) in given.numbers.iter().zip(&given.commands) {
        push_row(alloc, text, *number, keyed)?;
    }
    Ok(())
}

/// Appends a row: its command below a comment, or the comment alone that tells a split. The only error is out of memory.
fn push_row(
    alloc: Global,
    text: &mut String,
    number: usize,
    keyed: &(Key, Asked),
) -> Result<(), AllocError>
    ensures { OnOk result
        (string_bytes text.new ≡ string_bytes text.old ++ shown_row (number, keyed.now)) }
{
    let (key, asked) = keyed;
    match lots_of(asked) {
        Some(lots) => push_split(alloc, text, number, key, &lots),
        None => push_command(alloc, text, number, key, &asked.command),
    }
}

/// Appends a command below a comment. The only error is out of memory.
fn push_command(
    alloc: Global,
    text: &mut String,
    number: usize,
    key: &Key,
    command: &Command,
) -> Result<(), AllocError>
    ensures { OnOk result (string_bytes text.new
        ≡ string_bytes text.old ++ shown_command number key.now command.now) }
{
    let name = key.name.as_str();
    let body = canonical::body(alloc, command)?;
    let row = format!(in alloc; "; row {number} key {name}\n{body}")?;
    text.push_str(row.as_str())?;
    Ok(())
}

/// Appends a comment that tells a split. The only error is out of memory.
fn push_split(
    alloc: Global,
    text: &mut String,
    number: usize,
    key: &Key,
    lots: &Lots<'_>,
) -> Result<(), AllocError>
    ensures { OnOk result (string_bytes text.new
        ≡ string_bytes text.old ++ shown_split number key.now (plain lots.now)) }
{
    let name = key.name.as_str();
    let told = told(alloc, lots)?;
    let row = format!(in alloc; "; row {number} key {name}: {told}\n")?;
    text.push_str(row.as_str())?;
    Ok(())
}

/// How lots are split, and of which commodity and account they are.
#[derive(Clone, Copy)]
struct Lots<'a> {
    change: Change,
    commodity: &'a Commodity,
    account: &'a Account,
}

/// Returns the lots of a split, if that is asked for.
fn lots_of(asked: &Asked) -> Option<Lots<'_>>
    ensures { option_map plain result ≡ lots_of asked.now }
{
    let change = asked.split?;
    let Command::Transaction(transaction) = &asked.command else {
        return None;
    };
    let posting = transaction.postings.as_slice().get(0)?;
    let amount = posting.amount.as_ref()?;
    Some(Lots {
        change,
        commodity: &amount.commodity,
        account: &posting.account,
    })
}

/// Returns how a split is told. The only error is out of memory.
fn told(alloc: Global, lots: &Lots<'_>) -> Result<String, AllocError>
    ensures { IfOk result (λ text. string_bytes text
        ≡ told lots.now.change lots.now.commodity.now lots.now.account.now) }
{
    let commodity = lots.commodity.as_str();
    let account = lots.account.as_str();
    match lots.change {
        Change::InRatio(ratio) => {
            let Ratio { new, old } = ratio;
            format!(in alloc; "split {new}:{old} of {commodity} in {account}")
        }
        Change::ByUnits(added) => {
            let units = added.text(alloc)?;
            format!(in alloc; "split, {units} units of {commodity} added in {account}")
        }
    }
}

/// Appends the rows that are posted by hand. The only error is out of memory.
fn push_hands(alloc: Global, text: &mut String, rows: &[Named]) -> Result<(), AllocError>
    ensures { OnOk result
        (string_bytes text.new ≡ string_bytes text.old ++ shown_hands rows.now) }
{
    for row in rows {
        push_hand(alloc, text, row)?;
    }
    Ok(())
}

/// Appends a row that is posted by hand. The only error is out of memory.
fn push_hand(alloc: Global, text: &mut String, row: &Named) -> Result<(), AllocError>
    ensures { OnOk result (string_bytes text.new ≡ string_bytes text.old ++ shown_hand row.now) }
{
    let number = row.number;
    let day = row.day;
    let name = row.name.as_str();
    let row = format!(in alloc; "; row {number} by hand on {day} key {name}\n")?;
    text.push_str(row.as_str())?;
    Ok(())
}
