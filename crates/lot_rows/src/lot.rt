ghost use Rattle.std.specs.Prelude.{◌≡◌, ◌∷◌, [], IsTrue};
ghost use Rattle.lot_rows.specs.Lot.{IsLotRow, lot_cells};
ghost use Rattle.lot_rows.specs.LotKey.{lot_key};
ghost use Rattle.lot_rows.specs.Tables.{layout, lot_table};
ghost use Rattle.lot_table.specs.Call.{Deletes, ListsColumns, Puts, Sets};
ghost use Rattle.lot_table.specs.Rows.{with_key};
ghost use Rattle.sqlite.specs.Held.{state};
ghost use Rattle.sqlite.specs.State.{HasCleanDisk};
ghost use Rattle.sqlite.specs.declared.types.Value.TheVariants.{Text};

use crate::columns::lot_text;
use crate::lot_key;
use lot_base::{Account, Commodity};
use lot_cost::LotKey;
use lot_table::{Cell, Fault, Queryable, Sum, TableRow, change, column, select};
use sqlite::{Alter, Row, Transaction};
use std::alloc::Global;

/// The query for all rows, by their key.
pub const LIST: &str = lot_text!(list);

/// The query for the row of a key.
pub const FIND: &str = lot_text!(find);

/// The query for the first row of an account.
pub const FIRST_OF_ACCOUNT: &str = lot_text!(first of "account = ?1");

/// The queries for the next rows from a value of one column of the key on, by how many columns before it are the same.
pub const PAGES_FROM: [&str; 5] = [
    lot_text!(page of "account >= ?2"),
    lot_text!(page of "account = ?2 AND commodity >= ?3"),
    lot_text!(page of "account = ?2 AND commodity = ?3 AND cost_day >= ?4"),
    lot_text!(page of "account = ?2 AND commodity = ?3 AND cost_day = ?4 AND cost_currency >= ?5"),
    lot_text!(page of "account = ?2 AND commodity = ?3 AND cost_day = ?4 AND cost_currency = ?5 AND cost_number >= ?6"),
];

/// The query for the next rows behind a label, of a cost, a day and a commodity in an account.
pub const PAGE_BEHIND_LABEL: &str =
    lot_text!(page of "account = ?2 AND commodity = ?3 AND cost_day = ?4 AND cost_currency = ?5 AND cost_number = ?6 AND cost_label > ?7");

/// The query for what tells the row at a place.
pub const SHOW: &str = lot_text!(show of "account || ' ' || commodity");

/// A row of the table `lot`: the units that an account has in a lot.
#[derive(Drop)]
pub struct LotRow {
    pub account: Account,
    pub commodity: Commodity,
    pub lot: LotKey,
    pub units: Sum,
}

impl TableRow for LotRow {
    ghost encode = { lot_cells };

    ghost IsGood = { IsLotRow };

    fn read(alloc: Global, row: &Row) -> Result<LotRow, Fault> {
        if row.column_count() != 7 {
            return Err(Fault::Damaged);
        }
        Ok(LotRow {
            account: column(alloc, row, 0)?,
            commodity: column(alloc, row, 1)?,
            lot: LotKey {
                day: column(alloc, row, 2)?,
                currency: column(alloc, row, 3)?,
                number: column(alloc, row, 4)?,
                label: column(alloc, row, 5)?,
            },
            units: column(alloc, row, 6)?,
        })
    }
}

/// Puts a row. It replaces the row of the same key, if there is one.
pub fn put<S: Alter>(tx: &mut Transaction<'_, S>, row: &LotRow) -> Result<(), Fault>
    requires { HasCleanDisk (state S.Store tx.old.conn.now)
        → IsTrue (state S.Store tx.old.conn.now).in_transaction }
    ensures same_reference { tx.new.conn.ghost_name ≡ tx.old.conn.ghost_name }
    ensures puts { Puts layout lot_table row.now
        (state S.Store tx.old.conn.now) (state S.Store tx.new.conn.now) result }
{
    change(
        tx,
        lot_text!(put),
        &lot_key::cells_with(&row.account, &row.commodity, &row.lot, row.units.to_cell()),
    )
}

/// Changes the units of the row of the same key. Where there is none, nothing changes.
pub fn set<S: Alter>(tx: &mut Transaction<'_, S>, row: &LotRow) -> Result<(), Fault>
    requires { HasCleanDisk (state S.Store tx.old.conn.now)
        → IsTrue (state S.Store tx.old.conn.now).in_transaction }
    ensures same_reference { tx.new.conn.ghost_name ≡ tx.old.conn.ghost_name }
    ensures sets { Sets layout lot_table row.now
        (state S.Store tx.old.conn.now) (state S.Store tx.new.conn.now) result }
{
    change(
        tx,
        lot_text!(set),
        &lot_key::cells_with(&row.account, &row.commodity, &row.lot, row.units.to_cell()),
    )
}

/// Deletes the row of a lot, if there is one.
pub fn delete<S: Alter>(
    tx: &mut Transaction<'_, S>,
    account: &Account,
    commodity: &Commodity,
    lot: &LotKey,
) -> Result<(), Fault>
    requires { HasCleanDisk (state S.Store tx.old.conn.now)
        → IsTrue (state S.Store tx.old.conn.now).in_transaction }
    ensures same_reference { tx.new.conn.ghost_name ≡ tx.old.conn.ghost_name }
    ensures deletes { Deletes layout lot_table (lot_key account.now commodity.now lot.now)
        (state S.Store tx.old.conn.now) (state S.Store tx.new.conn.now) result }
{
    change(
        tx,
        lot_text!(delete),
        &lot_key::cells(account, commodity, lot),
    )
}

/// Returns the rows of a commodity in an account, by the day, currency, number and label of the lot. A lot without a label
/// stands before those with one.
pub fn list_of<D: Queryable>(
    alloc: Global,
    conn: &mut D,
    account: &Account,
    commodity: &Commodity,
) -> Result<Vec<LotRow>, Fault>
    ensures same_reference { D.reference conn.new ≡ D.reference conn.old }
    ensures lists { ListsColumns layout lot_cells IsLotRow
        (λ b. with_key lot_cells 2 (Text account.now ∷ Text commodity.now ∷ []) b.lot)
        (D.shown conn.old) (D.shown conn.new) result }
{
    select(
        alloc,
        conn,
        lot_text!(list of "account = ?1 AND commodity = ?2"),
        &[account.to_cell(), commodity.to_cell()],
    )
}
