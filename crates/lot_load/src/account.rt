ghost use Rattle.std.specs.Prelude.{◌≡◌, IsTrue, map, IfOk};
ghost use Rattle.lot_book.specs.Facts.{standing_of};
ghost use Rattle.lot_stored.specs.Kept.{currencies_of};
ghost use Rattle.lot_load.specs.Known.{KnowsEach, KnowsStanding};
ghost use Rattle.lot_load.specs.Tells.{Teaches, Tells};
ghost use Rattle.lot_rows.specs.declared.allowed.AllowedRow.{AllowedRow};
ghost use Rattle.lot_view.specs.View.{known_with_openings};
ghost use Rattle.sqlite.specs.State.{HasCleanDisk};

use lot_base::{Account, Commodity};
use lot_book::Standing;
use lot_command::Currencies;
use lot_rows::account::find;
use lot_rows::allowed::{AllowedRow, list_of};
use lot_table::{Fault, Queryable};
use lot_view::View;
use std::alloc::{AllocError, Global};
use std::collections::BTreeSet;

/// Puts how accounts stand.
pub(crate) fn learn_accounts<D: Queryable>(
    alloc: Global,
    conn: &mut D,
    accounts: &BTreeSet<Account>,
    view: &mut View,
) -> Result<(), Fault>
    requires { HasCleanDisk (D.shown conn.old) → IsTrue (D.shown conn.old).is_open }
    ensures same_reference { D.reference conn.new ≡ D.reference conn.old }
    ensures teaches { Teaches (KnowsEach KnowsStanding accounts.now.keys)
        (known_with_openings view.old) (known_with_openings view.new)
        (D.shown conn.old) (D.shown conn.new) result }
{
    for account in accounts {
        learn_account(alloc, conn, account, view)?;
    }
    Ok(())
}

/// Puts how an account stands, if it was opened.
fn learn_account<D: Queryable>(
    alloc: Global,
    conn: &mut D,
    account: &Account,
    view: &mut View,
) -> Result<(), Fault>
    ensures same_reference { D.reference conn.new ≡ D.reference conn.old }
    ensures teaches { Teaches (KnowsStanding account.now)
        (known_with_openings view.old) (known_with_openings view.new)
        (D.shown conn.old) (D.shown conn.new) result }
{
    if let Some(standing) = find_standing(alloc, conn, account)? {
        view.put_account(account, standing)?;
    }
    Ok(())
}

/// Returns how an account stands, if it was opened.
fn find_standing<D: Queryable>(
    alloc: Global,
    conn: &mut D,
    account: &Account,
) -> Result<Option<Standing>, Fault>
    ensures same_reference { D.reference conn.new ≡ D.reference conn.old }
    ensures tells { Tells (λ standing entries. standing ≡ standing_of entries account.now)
        (D.shown conn.old) (D.shown conn.new) result }
{
    match find(alloc, conn, account)? {
        Some(row) => Ok(Some(Standing {
            opened: row.opened,
            closed: row.closed,
            method: row.method,
            allowed: find_currencies(alloc, conn, account)?,
        })),
        None => Ok(None),
    }
}

/// Returns the currencies with which an account was opened.
fn find_currencies<D: Queryable>(
    alloc: Global,
    conn: &mut D,
    account: &Account,
) -> Result<Currencies, Fault>
    ensures same_reference { D.reference conn.new ≡ D.reference conn.old }
    ensures tells { Tells (λ currencies entries. currencies ≡ currencies_of entries account.now)
        (D.shown conn.old) (D.shown conn.new) result }
{
    let rows = list_of(alloc, conn, account)?;
    match Currencies::new(commodities(alloc, &rows)?) {
        Some(currencies) => Ok(currencies),
        // an opening has no more
        None => Err(Fault::Damaged),
    }
}

/// Returns the commodities of rows, in their order.
fn commodities(alloc: Global, rows: &[AllowedRow]) -> Result<Vec<Commodity>, AllocError>
    ensures { IfOk result
        (λ found. found.items ≡ map (λ (row : AllowedRow). row.commodity) rows.now) }
{
    let mut found = Vec::new(alloc);
    for row in rows {
        found.push(row.commodity.copy()?)?;
    }
    Ok(found)
}
