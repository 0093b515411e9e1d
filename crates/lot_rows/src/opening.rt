ghost use Rattle.std.specs.Prelude.{◌≡◌, ◌∷◌, [], IsTrue};
ghost use Rattle.lot_rows.specs.Opening.{IsOpeningRow, opening_cells};
ghost use Rattle.lot_rows.specs.LotKey.{lot_key};
ghost use Rattle.lot_rows.specs.Tables.{layout, opening_table};
ghost use Rattle.lot_table.specs.Call.{Deletes, ListsColumns, Puts};
ghost use Rattle.lot_table.specs.Rows.{with_key};
ghost use Rattle.sqlite.specs.Held.{state};
ghost use Rattle.sqlite.specs.State.{HasCleanDisk};
ghost use Rattle.sqlite.specs.declared.types.Value.TheVariants.{Text};

use crate::columns::opening_text;
use crate::lot_key;
use lot_base::{Account, Commodity};
use lot_cost::LotKey;
use lot_table::{Cell, Fault, OpeningNumber, Queryable, TableRow, change, column, select};
use sqlite::{Alter, Row, Transaction};
use std::alloc::Global;

/// The query for all rows, by their key.
pub const LIST: &str = opening_text!(list);

/// The query for the row of a key.
pub const FIND: &str = opening_text!(find);

/// The query for what tells the row at a place.
pub const SHOW: &str = opening_text!(show of "account || ' ' || commodity");

/// A row of the table `opening`: the opening number of a lot in which an account has units.
#[derive(Drop)]
pub struct OpeningRow {
    pub account: Account,
    pub commodity: Commodity,
    pub lot: LotKey,
    pub opening: OpeningNumber,
}

impl TableRow for OpeningRow {
    ghost encode = { opening_cells };

    ghost IsGood = { IsOpeningRow };

    fn read(alloc: Global, row: &Row) -> Result<OpeningRow, Fault> {
        if row.column_count() != 7 {
            return Err(Fault::Damaged);
        }
        Ok(OpeningRow {
            account: column(alloc, row, 0)?,
            commodity: column(alloc, row, 1)?,
            lot: LotKey {
                day: column(alloc, row, 2)?,
                currency: column(alloc, row, 3)?,
                number: column(alloc, row, 4)?,
                label: column(alloc, row, 5)?,
            },
            opening: column(alloc, row, 6)?,
        })
    }
}

/// Puts a row. It replaces the row of the same key, if there is one.
pub fn put<S: Alter>(tx: &mut Transaction<'_, S>, row: &OpeningRow) -> Result<(), Fault>
    requires { HasCleanDisk (state S.Store tx.old.conn.now)
        → IsTrue (state S.Store tx.old.conn.now).in_transaction }
    ensures same_reference { tx.new.conn.ghost_name ≡ tx.old.conn.ghost_name }
    ensures puts { Puts layout opening_table row.now
        (state S.Store tx.old.conn.now) (state S.Store tx.new.conn.now) result }
{
    change(
        tx,
        opening_text!(put),
        &lot_key::cells_with(
            &row.account,
            &row.commodity,
            &row.lot,
            row.opening.to_cell(),
        ),
    )
}

/// Deletes the row of a lot, if there is one.
pub fn delete<S: Alter>(
    tx: &mut Transaction<'_, S>,
    account: &Account,
    commodity: &Commodity,
    lot: &LotKey,
) -> Result<(), Fault>
    requires { HasCleanDisk (state S.Store tx.old.conn.now)
        → IsTrue (state S.Store tx.old.conn.now).in_transaction }
    ensures same_reference { tx.new.conn.ghost_name ≡ tx.old.conn.ghost_name }
    ensures deletes { Deletes layout opening_table (lot_key account.now commodity.now lot.now)
        (state S.Store tx.old.conn.now) (state S.Store tx.new.conn.now) result }
{
    change(
        tx,
        opening_text!(delete),
        &lot_key::cells(account, commodity, lot),
    )
}

/// Returns the rows of a commodity in an account, by the day, currency, number and label of the lot. A lot without a label
/// stands before those with one.
pub fn list_of<D: Queryable>(
    alloc: Global,
    conn: &mut D,
    account: &Account,
    commodity: &Commodity,
) -> Result<Vec<OpeningRow>, Fault>
    ensures same_reference { D.reference conn.new ≡ D.reference conn.old }
    ensures lists { ListsColumns layout opening_cells IsOpeningRow
        (λ b. with_key opening_cells 2 (Text account.now ∷ Text commodity.now ∷ []) b.opening)
        (D.shown conn.old) (D.shown conn.new) result }
{
    select(
        alloc,
        conn,
        opening_text!(list of "account = ?1 AND commodity = ?2"),
        &[account.to_cell(), commodity.to_cell()],
    )
}
