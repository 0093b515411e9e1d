ghost use Rattle.std.specs.Prelude.{◌≡◌, ◌∷◌, [], IsTrue};
ghost use Rattle.lot_rows.specs.Plain.{IsPlainRow, plain_cells};
ghost use Rattle.lot_rows.specs.Tables.{layout, plain_table};
ghost use Rattle.lot_table.specs.Call.{Deletes, Finds, Lists, Puts, Sets};
ghost use Rattle.lot_table.specs.Rows.{with_key};
ghost use Rattle.sqlite.specs.Held.{state};
ghost use Rattle.sqlite.specs.State.{HasCleanDisk};
ghost use Rattle.sqlite.specs.declared.types.Value.TheVariants.{Text};

use crate::columns::plain_text;
use lot_base::{Account, Commodity};
use lot_table::{Cell, Fault, Queryable, Sum, TableRow, change, column, find as find_row, select};
use sqlite::{Alter, Row, Transaction};
use std::alloc::Global;

/// The query for all rows, by their key.
pub const LIST: &str = plain_text!(list);

/// The query for what tells the row at a place.
pub const SHOW: &str = plain_text!(show of "account || ' ' || commodity");

/// A row of the table `plain`: the units of a commodity that an account has without a cost.
#[derive(Drop)]
pub struct PlainRow {
    pub account: Account,
    pub commodity: Commodity,
    pub units: Sum,
}

impl TableRow for PlainRow {
    ghost encode = { plain_cells };

    ghost IsGood = { IsPlainRow };

    fn read(alloc: Global, row: &Row) -> Result<PlainRow, Fault> {
        if row.column_count() != 3 {
            return Err(Fault::Damaged);
        }
        Ok(PlainRow {
            account: column(alloc, row, 0)?,
            commodity: column(alloc, row, 1)?,
            units: column(alloc, row, 2)?,
        })
    }
}

/// Puts a row. It replaces the row of the same key, if there is one.
pub fn put<S: Alter>(tx: &mut Transaction<'_, S>, row: &PlainRow) -> Result<(), Fault>
    requires { HasCleanDisk (state S.Store tx.old.conn.now)
        → IsTrue (state S.Store tx.old.conn.now).in_transaction }
    ensures same_reference { tx.new.conn.ghost_name ≡ tx.old.conn.ghost_name }
    ensures puts { Puts layout plain_table row.now
        (state S.Store tx.old.conn.now) (state S.Store tx.new.conn.now) result }
{
    change(
        tx,
        plain_text!(put),
        &[
            row.account.to_cell(),
            row.commodity.to_cell(),
            row.units.to_cell(),
        ],
    )
}

/// Changes the units of the row of the same key. Where there is none, nothing changes.
pub fn set<S: Alter>(tx: &mut Transaction<'_, S>, row: &PlainRow) -> Result<(), Fault>
    requires { HasCleanDisk (state S.Store tx.old.conn.now)
        → IsTrue (state S.Store tx.old.conn.now).in_transaction }
    ensures same_reference { tx.new.conn.ghost_name ≡ tx.old.conn.ghost_name }
    ensures sets { Sets layout plain_table row.now
        (state S.Store tx.old.conn.now) (state S.Store tx.new.conn.now) result }
{
    change(
        tx,
        plain_text!(set),
        &[
            row.account.to_cell(),
            row.commodity.to_cell(),
            row.units.to_cell(),
        ],
    )
}

/// Deletes the row of an account and a commodity, if there is one.
pub fn delete<S: Alter>(
    tx: &mut Transaction<'_, S>,
    account: &Account,
    commodity: &Commodity,
) -> Result<(), Fault>
    requires { HasCleanDisk (state S.Store tx.old.conn.now)
        → IsTrue (state S.Store tx.old.conn.now).in_transaction }
    ensures same_reference { tx.new.conn.ghost_name ≡ tx.old.conn.ghost_name }
    ensures deletes { Deletes layout plain_table (Text account.now ∷ Text commodity.now ∷ [])
        (state S.Store tx.old.conn.now) (state S.Store tx.new.conn.now) result }
{
    change(
        tx,
        plain_text!(delete),
        &[account.to_cell(), commodity.to_cell()],
    )
}

/// Returns the row of an account and a commodity, or `None` where there is none.
pub fn find<D: Queryable>(
    alloc: Global,
    conn: &mut D,
    account: &Account,
    commodity: &Commodity,
) -> Result<Option<PlainRow>, Fault>
    ensures same_reference { D.reference conn.new ≡ D.reference conn.old }
    ensures finds { Finds layout IsPlainRow
        (λ b. with_key plain_cells 2 (Text account.now ∷ Text commodity.now ∷ []) b.plain)
        (D.shown conn.old) (D.shown conn.new) result }
{
    find_row(
        alloc,
        conn,
        plain_text!(find),
        &[account.to_cell(), commodity.to_cell()],
    )
}

/// Returns the rows of an account, by commodity.
pub fn list_of<D: Queryable>(
    alloc: Global,
    conn: &mut D,
    account: &Account,
) -> Result<Vec<PlainRow>, Fault>
    ensures same_reference { D.reference conn.new ≡ D.reference conn.old }
    ensures lists { Lists layout IsPlainRow
        (λ b. with_key plain_cells 1 (Text account.now ∷ []) b.plain)
        (D.shown conn.old) (D.shown conn.new) result }
{
    select(
        alloc,
        conn,
        plain_text!(list of "account = ?1"),
        &[account.to_cell()],
    )
}

/// Returns all rows, by account and commodity.
pub fn list<D: Queryable>(alloc: Global, conn: &mut D) -> Result<Vec<PlainRow>, Fault>
    ensures same_reference { D.reference conn.new ≡ D.reference conn.old }
    ensures lists { Lists layout IsPlainRow
        (λ b. b.plain) (D.shown conn.old) (D.shown conn.new) result }
{
    select(alloc, conn, LIST, &[])
}
