ghost use Rattle.std.specs.List.{AllByRecursion};
ghost use Rattle.std.specs.Prelude.{◌≡◌, ◌≢◌, ◌↔◌, [], ◌∷◌, IsTrue, None, Some, option_map};
ghost use Rattle.lot_command.specs.declared.command.Command.TheVariants.{Opening as OpeningOf};
ghost use Rattle.lot_rows.specs.Allowed.{allowed_cells};
ghost use Rattle.lot_rows.specs.Tables.{account_table, commodity_table, head_table, price_table};
ghost use Rattle.lot_table.specs.Rows.{with_key};
ghost use Rattle.lot_rows.specs.declared.entry.EntryRow.{EntryRow as EntryRowOf};
ghost use Rattle.lot_stored.specs.Rows.{allowed_rows, commodity_row, name_key, pair_key, price_key, row_at};
ghost use Rattle.lot_audit.specs.Checks.{Checks};
ghost use Rattle.lot_audit.specs.Entries.{HasRows, HaveHeads, IsFirstUnder};
ghost use Rattle.lot_audit.specs.Told.{HoldingHasRows, LotHasRows, PlainHasRow};
ghost use Rattle.sqlite.specs.Held.{state};

use crate::rows::{lots_at, openings_at, price_of};
use lot_base::{Account, Commodity, Day};
use lot_book::Holding;
use lot_command::{Command, Key, Opening, Posting};
use lot_cost::LotKey;
use lot_rows::allowed::AllowedRow;
use lot_rows::commodity::CommodityRow;
use lot_rows::entry::EntryRow;
use lot_rows::{account, allowed, commodity, entry, head, plain};
use lot_table::{Fault, Ordinal};
use sqlite::{Alter, Connection};
use std::alloc::Global;

/// Returns whether the entry of a number is the first one under a key.
pub(crate) fn is_first_under<S: Alter>(
    alloc: Global,
    conn: &mut Connection<S>,
    key: &Key,
    number: Ordinal,
) -> Result<bool, Fault>
    ensures checks { Checks (λ is tables. IsTrue is ↔ IsFirstUnder key.now number tables)
        (state S.Store conn.old) (state S.Store conn.new) result }
{
    let found = entry::find(alloc, conn, &key.source, &key.name)?;
    Ok(has_number(&found, number))
}

fn has_number(found: &Option<EntryRow>, number: Ordinal) -> bool
    ensures { IsTrue result
        ↔ (option_map (λ (row : EntryRowOf). row.number) found.now ≡ Some number) }
{
    match found {
        Some(row) => row.number == number,
        None => false,
    }
}

/// Returns whether there is a row of an account.
pub(crate) fn account_is_there<S: Alter>(
    alloc: Global,
    conn: &mut Connection<S>,
    name: &Account,
) -> Result<bool, Fault>
    ensures checks { Checks
        (λ is tables. IsTrue is ↔ (row_at account_table (name_key name.now) tables ≢ None))
        (state S.Store conn.old) (state S.Store conn.new) result }
{
    let found = account::find(alloc, conn, name)?;
    Ok(found.is_some())
}

/// Returns whether a commodity is declared on a day.
pub(crate) fn is_declared_on<S: Alter>(
    alloc: Global,
    conn: &mut Connection<S>,
    name: &Commodity,
    day: Day,
) -> Result<bool, Fault>
    ensures checks { Checks
        (λ is tables. IsTrue is
        ↔ (row_at commodity_table (name_key name.now) tables ≡ Some (commodity_row name.now day)))
        (state S.Store conn.old) (state S.Store conn.new) result }
{
    let found = commodity::find(alloc, conn, name)?;
    Ok(declares(&found, name, day))
}

fn declares(found: &Option<CommodityRow>, name: &Commodity, day: Day) -> bool
    ensures { IsTrue result ↔ (found.now ≡ Some (commodity_row name.now day)) }
{
    match found {
        Some(row) => row.name == *name && row.day == day,
        None => false,
    }
}

/// Returns whether there is a price of a pair on a day.
pub(crate) fn price_is_there<S: Alter>(
    alloc: Global,
    conn: &mut Connection<S>,
    base: &Commodity,
    quote: &Commodity,
    day: Day,
) -> Result<bool, Fault>
    ensures checks { Checks (λ is tables. IsTrue is
        ↔ (row_at price_table (price_key base.now quote.now day) tables ≢ None))
        (state S.Store conn.old) (state S.Store conn.new) result }
{
    let found = price_of(alloc, conn, base, quote, day)?;
    Ok(found.is_some())
}

/// Returns whether there is a latest day at cost of an account and a commodity.
pub(crate) fn head_is_there<S: Alter>(
    alloc: Global,
    conn: &mut Connection<S>,
    account: &Account,
    commodity: &Commodity,
) -> Result<bool, Fault>
    ensures checks { Checks (λ is tables. IsTrue is
        ↔ (row_at head_table (pair_key account.now commodity.now) tables ≢ None))
        (state S.Store conn.old) (state S.Store conn.new) result }
{
    let found = head::find(alloc, conn, account, commodity)?;
    Ok(found.is_some())
}

// ---- the rows of a command

/// Returns whether the rows are there that a command has by itself.
pub(crate) fn has_rows<S: Alter>(
    alloc: Global,
    conn: &mut Connection<S>,
    command: &Command,
) -> Result<bool, Fault>
    ensures checks { Checks (λ is tables. IsTrue is ↔ HasRows command.now tables)
        (state S.Store conn.old) (state S.Store conn.new) result }
{
    match command {
        Command::Opening(opening) => is_opened(alloc, conn, opening),
        Command::Closing(_) => Ok(true),
        Command::Declaring(declaring) => {
            is_declared_on(alloc, conn, &declaring.commodity, declaring.day)
        }
        Command::Quoting(quoting) => {
            price_is_there(alloc, conn, &quoting.base, &quoting.quote, quoting.day)
        }
        Command::Transaction(transaction) => {
            have_heads(alloc, conn, transaction.postings.as_slice())
        }
    }
}

/// Returns whether an account is there, with the currencies of its opening as they are written.
fn is_opened<S: Alter>(
    alloc: Global,
    conn: &mut Connection<S>,
    opening: &Opening,
) -> Result<bool, Fault>
    ensures checks { Checks (λ is tables. IsTrue is ↔ HasRows (OpeningOf opening.now) tables)
        (state S.Store conn.old) (state S.Store conn.new) result }
{
    if !account_is_there(alloc, conn, &opening.account)? {
        return Ok(false);
    }
    allows(alloc, conn, &opening.account, opening.currencies.as_slice())
}

/// Returns whether the rows of the currencies of an account are these, in their order.
fn allows<S: Alter>(
    alloc: Global,
    conn: &mut Connection<S>,
    account: &Account,
    currencies: &[Commodity],
) -> Result<bool, Fault>
    ensures checks { Checks (λ is tables. IsTrue is
        ↔ (with_key allowed_cells 1 (name_key account.now) tables.allowed
        ≡ allowed_rows account.now 0 currencies.now))
        (state S.Store conn.old) (state S.Store conn.new) result }
{
    let rows = allowed::list_of(alloc, conn, account)?;
    Ok(are_rows_of(&rows, account, currencies))
}

fn are_rows_of(rows: &[AllowedRow], account: &Account, currencies: &[Commodity]) -> bool
    ensures { IsTrue result ↔ (rows.now ≡ allowed_rows account.now 0 currencies.now) }
{
    if rows.len() != currencies.len() {
        return false;
    }
    'rows: for place in 0..rows.len() {
        if !is_row_of(&rows[place], account, place, &currencies[place]) {
            return false;
        }
    }
    true
}

fn is_row_of(row: &AllowedRow, account: &Account, place: usize, currency: &Commodity) -> bool
    ensures { IsTrue result
        ↔ (row.now ≡ record { account = account.now; place = place; commodity = currency.now }) }
{
    row.account == *account && row.place as usize == place && row.commodity == *currency
}

/// Returns whether there is a latest day at cost for each posting with braces.
fn have_heads<S: Alter>(
    alloc: Global,
    conn: &mut Connection<S>,
    postings: &[Posting],
) -> Result<bool, Fault>
    ensures checks { Checks (λ is tables. IsTrue is ↔ HaveHeads postings.now tables)
        (state S.Store conn.old) (state S.Store conn.new) result }
{
    'postings: for posting in postings {
        if !has_head(alloc, conn, posting)? {
            return Ok(false);
        }
    }
    Ok(true)
}

fn has_head<S: Alter>(
    alloc: Global,
    conn: &mut Connection<S>,
    posting: &Posting,
) -> Result<bool, Fault>
    ensures checks { Checks (λ is tables. IsTrue is ↔ HaveHeads (posting.now ∷ []) tables)
        (state S.Store conn.old) (state S.Store conn.new) result }
{
    match &posting.amount {
        Some(amount) if amount.cost.is_some() => {
            head_is_there(alloc, conn, &posting.account, &amount.commodity)
        }
        _ => Ok(true),
    }
}

// ---- the rows of what is held

/// Returns whether each holding has its rows.
pub(crate) fn have_rows<S: Alter>(
    alloc: Global,
    conn: &mut Connection<S>,
    holdings: &[Holding],
) -> Result<bool, Fault>
    ensures checks { Checks (λ is tables. IsTrue is
        ↔ AllByRecursion (HoldingHasRows tables) holdings.now)
        (state S.Store conn.old) (state S.Store conn.new) result }
{
    'holdings: for holding in holdings {
        if !holding_has_rows(alloc, conn, holding)? {
            return Ok(false);
        }
    }
    Ok(true)
}

fn holding_has_rows<S: Alter>(
    alloc: Global,
    conn: &mut Connection<S>,
    holding: &Holding,
) -> Result<bool, Fault>
    ensures checks { Checks (λ is tables. IsTrue is ↔ HoldingHasRows tables holding.now)
        (state S.Store conn.old) (state S.Store conn.new) result }
{
    match &holding.lot {
        Some(lot) => lot_has_rows(alloc, conn, &holding.account, &holding.commodity, lot),
        None => plain_has_row(alloc, conn, &holding.account, &holding.commodity),
    }
}

fn lot_has_rows<S: Alter>(
    alloc: Global,
    conn: &mut Connection<S>,
    account: &Account,
    commodity: &Commodity,
    lot: &LotKey,
) -> Result<bool, Fault>
    ensures checks { Checks
        (λ is tables. IsTrue is ↔ LotHasRows account.now commodity.now lot.now tables)
        (state S.Store conn.old) (state S.Store conn.new) result }
{
    if lots_at(alloc, conn, account, commodity, lot)?.is_empty() {
        return Ok(false);
    }
    let openings = openings_at(alloc, conn, account, commodity, lot)?;
    Ok(!openings.is_empty())
}

fn plain_has_row<S: Alter>(
    alloc: Global,
    conn: &mut Connection<S>,
    account: &Account,
    commodity: &Commodity,
) -> Result<bool, Fault>
    ensures checks { Checks
        (λ is tables. IsTrue is ↔ PlainHasRow account.now commodity.now tables)
        (state S.Store conn.old) (state S.Store conn.new) result }
{
    let found = plain::find(alloc, conn, account, commodity)?;
    Ok(found.is_some())
}
