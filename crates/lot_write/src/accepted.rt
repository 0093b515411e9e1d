ghost use Rattle.std.specs.Prelude.{◌≡◌, ◌≢◌, ◌<◌, ◌≤◌, ◌++◌, ◌∷◌, [], All, Err, IfOk, None, OnOk, length, map, option_copied};
ghost use Rattle.lot_book.specs.Facts.{standing_by};
ghost use Rattle.lot_book.specs.Refusals.{most_entries};
ghost use Rattle.lot_command.specs.Canonical.{canonical};
ghost use Rattle.lot_command.specs.Currencies.{most_currencies};
ghost use Rattle.lot_stored.specs.Rows.{account_row, allowed_rows, commodity_row, price_row};
ghost use Rattle.lot_write.specs.Write.{IsGood};
ghost use Rattle.lot_write.specs.Writes.{AreNumbered, ListsInOrder, closing_written, writes_of};
ghost use Rattle.lot_write.specs.declared.write.Write.TheVariants as write;
ghost use Rattle.lot_table.specs.declared.fault.Fault.TheVariants.{Damaged, Device};
ghost use Rattle.lot_view.specs.View.{known};

use crate::booked::push_change;
use crate::good::are_good;
use crate::number::ordinal;
use crate::write::Write;
use lot_base::{Account, Commodity};
use lot_book::{Change, Standing};
use lot_command::{Closing, Command, Declaring, Key, Opening, Quoting, canonical};
use lot_rows::account::AccountRow;
use lot_rows::allowed::AllowedRow;
use lot_rows::commodity::CommodityRow;
use lot_rows::entry::EntryRow;
use lot_rows::price::PriceRow;
use lot_table::{AnyText, Fault, Ordinal};
use lot_view::View;
use std::alloc::{AllocError, Global};

/// Returns what an accepted command writes: its entry under the next number, and the rows that it changes.
///
/// The error is out of memory, or `Device` where a number of a leg, a sale or a lot that is opened doesn't fit its column.
pub fn writes(
    alloc: Global,
    view: &View,
    key: &Key,
    command: &Command,
    change: &Change,
) -> Result<Vec<Write>, Fault>
    requires { (known view.now).entries < most_entries }
    ensures writes { IfOk result
        (λ writes. writes.items ≡ writes_of (known view.now) key.now command.now change.now) }
    ensures good { IfOk result (λ writes. All IsGood writes.items) }
    ensures ordered { IfOk result (λ _. ListsInOrder command.now change.now) }
    ensures fault { result ≢ Err Damaged }
    ensures device { result ≡ Err Device → ¬ AreNumbered change.now }
{
    let number = ordinal(u64::from(view.entries()) + 1)?;
    let mut writes = Vec::new(alloc);
    writes.push(entry_write(alloc, number, key, command)?)?;
    match command {
        Command::Opening(opening) => push_opening(&mut writes, opening)?,
        Command::Closing(closing) => {
            push_closing(&mut writes, closing, view.standing(&closing.account))?
        }
        Command::Declaring(declaring) => push_declaring(&mut writes, declaring)?,
        Command::Quoting(quoting) => push_quoting(&mut writes, quoting)?,
        Command::Transaction(_) => push_change(&mut writes, number, view, change)?,
    }
    are_good(&writes);
    Ok(writes)
}

fn entry_write(
    alloc: Global,
    number: Ordinal,
    key: &Key,
    command: &Command,
) -> Result<Write, AllocError>
    ensures { IfOk result (λ made. made ≡ write.Entry
        (record {
          number = number;
          source = key.now.source;
          name = key.now.name;
          body = canonical command.now;
        })) }
{
    Ok(Write::Entry(EntryRow {
        number,
        source: key.source.copy()?,
        name: key.name.copy()?,
        body: AnyText::new(canonical::body(alloc, command)?),
    }))
}

/// Adds the row of an account that is opened, and those of its currencies.
fn push_opening(writes: &mut Vec<Write>, opening: &Opening) -> Result<(), AllocError>
    ensures { OnOk result (writes.new.items ≡ writes.old.items
        ++ write.Account (account_row opening.now.account (standing_by None opening.now))
        ∷ map write.Allowed (allowed_rows opening.now.account 0 opening.now.currencies)) }
{
    writes.push(Write::Account(AccountRow {
        name: opening.account.copy()?,
        opened: opening.day,
        closed: None,
        method: opening.method,
    }))?;
    push_allowed(writes, &opening.account, opening.currencies.as_slice())
}

fn push_allowed(
    writes: &mut Vec<Write>,
    account: &Account,
    currencies: &[Commodity],
) -> Result<(), AllocError>
    requires { length currencies.now ≤ most_currencies }
    ensures { OnOk result (writes.new.items ≡ writes.old.items
        ++ map write.Allowed (allowed_rows account.now 0 currencies.now)) }
{
    let mut place = 0;
    for currency in currencies {
        writes.push(Write::Allowed(AllowedRow {
            account: account.copy()?,
            place,
            commodity: currency.copy()?,
        }))?;
        place += 1;
    }
    Ok(())
}

/// Adds the row of an account that is closed, with the rest of how it stands.
fn push_closing(
    writes: &mut Vec<Write>,
    closing: &Closing,
    standing: Option<&Standing>,
) -> Result<(), AllocError>
    ensures { OnOk result (writes.new.items ≡ writes.old.items
        ++ closing_written closing.now (option_copied standing.entry)) }
{
    if let Some(standing) = standing {
        writes.push(Write::Account(AccountRow {
            name: closing.account.copy()?,
            opened: standing.opened,
            closed: Some(closing.day),
            method: standing.method,
        }))?;
    }
    Ok(())
}

fn push_declaring(writes: &mut Vec<Write>, declaring: &Declaring) -> Result<(), AllocError>
    ensures { OnOk result (writes.new.items ≡ writes.old.items
        ++ write.Commodity (commodity_row declaring.now.commodity declaring.now.day) ∷ []) }
{
    writes.push(Write::Commodity(CommodityRow {
        name: declaring.commodity.copy()?,
        day: declaring.day,
    }))?;
    Ok(())
}

fn push_quoting(writes: &mut Vec<Write>, quoting: &Quoting) -> Result<(), AllocError>
    ensures { OnOk result (writes.new.items ≡ writes.old.items
        ++ write.Price
        (price_row quoting.now.base quoting.now.quote quoting.now.day quoting.now.rate) ∷ []) }
{
    writes.push(Write::Price(PriceRow {
        base: quoting.base.copy()?,
        quote: quoting.quote.copy()?,
        day: quoting.day,
        rate: quoting.rate,
    }))?;
    Ok(())
}
