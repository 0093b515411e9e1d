//! What a book says of commands that were refused: the lookups, each in the book of a connection or of an open transaction.

ghost use Rattle.std.specs.Prelude.{◌≡◌};
ghost use Rattle.lot_call.specs.Looks.{IsLookedAt, Looks};

use lot_base::{Account, Commodity, Label};
use lot_book::Pair;
use lot_command::Key;
use lot_explain::{Entry, Known, Latest, Lot, Wanted};
use lot_rows::account::{self, AccountRow};
use lot_rows::entry::{self, EntryRow};
use lot_rows::head::{self, HeadRow};
use lot_rows::leg::{self, LegRow};
use lot_rows::lot::{self, LotRow};
use lot_rows::plain::{self, PlainRow};
use lot_table::{Cell, Fault, Queryable, find, select};
use std::alloc::Global;

/// Looks up in a book the facts that are wanted of it. Where it can't be read fewer are found; where memory ends that is noted.
pub(crate) fn look_up<D: Queryable>(alloc: Global, db: &mut D, wanted: &[Wanted], known: &mut Known)
    ensures same_reference { D.reference db.new ≡ D.reference db.old }
    ensures looked { IsLookedAt (D.shown db.old) (D.shown db.new) }
{
    'facts: for fact in wanted {
        look_for(alloc, db, fact, known);
    }
}

/// Looks up one fact, unless it was found already.
fn look_for<D: Queryable>(alloc: Global, db: &mut D, wanted: &Wanted, known: &mut Known)
    ensures same_reference { D.reference db.new ≡ D.reference db.old }
    ensures looked { IsLookedAt (D.shown db.old) (D.shown db.new) }
{
    if known.has(wanted) {
        return;
    }
    let found = find_fact(alloc, db, wanted, known);
    note_end(known, found);
}

/// Notes that memory ended, where that is why a fact wasn't found. Any other reason says nothing of the other facts.
pub(crate) fn note_end(known: &mut Known, found: Result<(), Fault>) {
    if let Err(Fault::Memory) = found {
        known.cut();
    }
}

/// Looks up one fact.
fn find_fact<D: Queryable>(
    alloc: Global,
    db: &mut D,
    wanted: &Wanted,
    known: &mut Known,
) -> Result<(), Fault>
    ensures same_reference { D.reference db.new ≡ D.reference db.old }
    ensures looks { Looks (D.shown db.old) (D.shown db.new) result }
{
    match wanted {
        Wanted::Entry(key) => {
            let entry = find_entry(alloc, db, &key.source, &key.name)?;
            add_entry(known, key, entry)
        }
        Wanted::Accounts => {
            let accounts = list_accounts(alloc, db)?;
            known.add_accounts(accounts);
            Ok(())
        }
        Wanted::Latest(pair) => {
            let latest = find_latest(alloc, db, &pair.account, &pair.commodity)?;
            add_latest(known, pair, latest)
        }
        Wanted::Lots(pair) => {
            let lots = list_lots(alloc, db, &pair.account, &pair.commodity)?;
            add_lots(known, pair, lots)
        }
        Wanted::Locked(account) => {
            let held = find_locked(alloc, db, account)?;
            add_locked(known, account, held)
        }
    }
}

/// Adds the entry under a key, if there is one. The only error is out of memory.
pub(crate) fn add_entry(known: &mut Known, key: &Key, entry: Option<Entry>) -> Result<(), Fault> {
    if let Some(entry) = entry {
        known.add_entry(key, entry)?;
    }
    Ok(())
}

/// Adds where a pair was last posted to with braces, if it was. The only error is out of memory.
pub(crate) fn add_latest(
    known: &mut Known,
    pair: &Pair,
    latest: Option<Latest>,
) -> Result<(), Fault> {
    if let Some(latest) = latest {
        known.add_latest(pair, latest)?;
    }
    Ok(())
}

/// Adds the lots of a pair. The only error is out of memory.
pub(crate) fn add_lots(known: &mut Known, pair: &Pair, lots: Vec<Lot>) -> Result<(), Fault> {
    known.add_lots(pair, lots)?;
    Ok(())
}

/// Adds a commodity that a closed account holds, if it holds one. The only error is out of memory.
pub(crate) fn add_locked(
    known: &mut Known,
    account: &Account,
    held: Option<Commodity>,
) -> Result<(), Fault> {
    if let Some(commodity) = held {
        known.add_locked(account, commodity)?;
    }
    Ok(())
}

/// Returns the entry of a source and a name, if there is one.
pub(crate) fn find_entry<D: Queryable>(
    alloc: Global,
    db: &mut D,
    source: &Label,
    name: &Label,
) -> Result<Option<Entry>, Fault>
    ensures same_reference { D.reference db.new ≡ D.reference db.old }
    ensures looks { Looks (D.shown db.old) (D.shown db.new) result }
{
    let row = entry::find(alloc, db, source, name)?;
    entry_of(alloc, row)
}

/// Returns the entry of a row, if there is one. The only error is out of memory.
fn entry_of(alloc: Global, row: Option<EntryRow>) -> Result<Option<Entry>, Fault> {
    match row {
        Some(row) => Ok(Some(Entry {
            number: row.number.number(),
            body: String::from_str(alloc, row.body.as_str())?,
        })),
        None => Ok(None),
    }
}

/// Returns the accounts that were opened.
pub(crate) fn list_accounts<D: Queryable>(alloc: Global, db: &mut D) -> Result<Vec<Account>, Fault>
    ensures same_reference { D.reference db.new ≡ D.reference db.old }
    ensures looks { Looks (D.shown db.old) (D.shown db.new) result }
{
    let rows: Vec<AccountRow> = select(alloc, db, account::LIST, &[])?;
    names_of(alloc, rows)
}

/// Returns the accounts of some rows. The only error is out of memory.
fn names_of(alloc: Global, rows: Vec<AccountRow>) -> Result<Vec<Account>, Fault> {
    let mut accounts = Vec::new(alloc);
    for row in rows {
        accounts.push(row.name)?;
    }
    Ok(accounts)
}

/// Returns where an account and a commodity were last posted to with braces.
pub(crate) fn find_latest<D: Queryable>(
    alloc: Global,
    db: &mut D,
    account: &Account,
    commodity: &Commodity,
) -> Result<Option<Latest>, Fault>
    ensures same_reference { D.reference db.new ≡ D.reference db.old }
    ensures looks { Looks (D.shown db.old) (D.shown db.new) result }
{
    let head = head::find(alloc, db, account, commodity)?;
    let leg = last_leg(alloc, db, account, commodity)?;
    Ok(latest_of(&head, &leg))
}

/// Returns the day of a head with the entry of a leg, if there are both.
fn latest_of(head: &Option<HeadRow>, leg: &Option<LegRow>) -> Option<Latest> {
    match (head, leg) {
        (Some(head), Some(leg)) => Some(Latest {
            day: head.day,
            entry: leg.entry.number(),
        }),
        _ => None,
    }
}

/// Returns the last leg of an account and a commodity that has a lot.
fn last_leg<D: Queryable>(
    alloc: Global,
    db: &mut D,
    account: &Account,
    commodity: &Commodity,
) -> Result<Option<LegRow>, Fault>
    ensures same_reference { D.reference db.new ≡ D.reference db.old }
    ensures looks { Looks (D.shown db.old) (D.shown db.new) result }
{
    find(
        alloc,
        db,
        leg::LAST_AT_COST,
        &[account.to_cell(), commodity.to_cell()],
    )
}

/// Returns the lots of a commodity that an account holds.
pub(crate) fn list_lots<D: Queryable>(
    alloc: Global,
    db: &mut D,
    account: &Account,
    commodity: &Commodity,
) -> Result<Vec<Lot>, Fault>
    ensures same_reference { D.reference db.new ≡ D.reference db.old }
    ensures looks { Looks (D.shown db.old) (D.shown db.new) result }
{
    let rows = lot::list_of(alloc, db, account, commodity)?;
    lots_of(alloc, rows)
}

/// Returns the lots of some rows. The only error is out of memory.
fn lots_of(alloc: Global, rows: Vec<LotRow>) -> Result<Vec<Lot>, Fault> {
    let mut lots = Vec::new(alloc);
    for row in rows {
        lots.push(Lot {
            key: row.lot,
            units: row.units.units(),
        })?;
    }
    Ok(lots)
}

/// Returns a commodity that an account holds though it was closed, where there is one.
pub(crate) fn find_locked<D: Queryable>(
    alloc: Global,
    db: &mut D,
    account: &Account,
) -> Result<Option<Commodity>, Fault>
    ensures same_reference { D.reference db.new ≡ D.reference db.old }
    ensures looks { Looks (D.shown db.old) (D.shown db.new) result }
{
    match account::find(alloc, db, account)? {
        Some(row) if row.closed.is_some() => find_held(alloc, db, account),
        _ => Ok(None),
    }
}

/// Returns a commodity that an account holds, one with lots before one without, where there is one.
fn find_held<D: Queryable>(
    alloc: Global,
    db: &mut D,
    account: &Account,
) -> Result<Option<Commodity>, Fault>
    ensures same_reference { D.reference db.new ≡ D.reference db.old }
    ensures looks { Looks (D.shown db.old) (D.shown db.new) result }
{
    if let Some(row) = first_lot(alloc, db, account)? {
        return Ok(Some(row.commodity));
    }
    let rows = plain::list_of(alloc, db, account)?;
    Ok(commodity_of(rows))
}

/// Returns the commodity of the first row.
fn commodity_of(rows: Vec<PlainRow>) -> Option<Commodity> {
    match rows.into_iter().next() {
        Some(row) => Some(row.commodity),
        None => None,
    }
}

/// Returns the first lot that an account holds.
fn first_lot<D: Queryable>(
    alloc: Global,
    db: &mut D,
    account: &Account,
) -> Result<Option<LotRow>, Fault>
    ensures same_reference { D.reference db.new ≡ D.reference db.old }
    ensures looks { Looks (D.shown db.old) (D.shown db.new) result }
{
    find(alloc, db, lot::FIRST_OF_ACCOUNT, &[account.to_cell()])
}
