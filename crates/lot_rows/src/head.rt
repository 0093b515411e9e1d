ghost use Rattle.std.specs.Prelude.{◌≡◌, ◌∷◌, [], IsTrue};
ghost use Rattle.lot_rows.specs.Head.{IsHeadRow, head_cells};
ghost use Rattle.lot_rows.specs.Tables.{layout, head_table};
ghost use Rattle.lot_table.specs.Call.{Finds, Puts, Sets};
ghost use Rattle.lot_table.specs.Rows.{with_key};
ghost use Rattle.sqlite.specs.Held.{state};
ghost use Rattle.sqlite.specs.State.{HasCleanDisk};
ghost use Rattle.sqlite.specs.declared.types.Value.TheVariants.{Text};

use crate::columns::head_text;
use lot_base::{Account, Commodity, Day};
use lot_table::{Cell, Fault, Queryable, TableRow, change, column, find as find_row};
use sqlite::{Alter, Row, Transaction};
use std::alloc::Global;

/// The query for all rows, by their key.
pub const LIST: &str = head_text!(list);

/// The query for what tells the row at a place.
pub const SHOW: &str = head_text!(show of "account || ' ' || commodity");

/// A row of the table `head`: the latest day of a transaction that posted with braces to an account and a commodity.
#[derive(Drop)]
pub struct HeadRow {
    pub account: Account,
    pub commodity: Commodity,
    pub day: Day,
}

impl TableRow for HeadRow {
    ghost encode = { head_cells };

    ghost IsGood = { IsHeadRow };

    fn read(alloc: Global, row: &Row) -> Result<HeadRow, Fault> {
        if row.column_count() != 3 {
            return Err(Fault::Damaged);
        }
        Ok(HeadRow {
            account: column(alloc, row, 0)?,
            commodity: column(alloc, row, 1)?,
            day: column(alloc, row, 2)?,
        })
    }
}

/// Puts a row. It replaces the row of the same key, if there is one.
pub fn put<S: Alter>(tx: &mut Transaction<'_, S>, row: &HeadRow) -> Result<(), Fault>
    requires { HasCleanDisk (state S.Store tx.old.conn.now)
        → IsTrue (state S.Store tx.old.conn.now).in_transaction }
    ensures same_reference { tx.new.conn.ghost_name ≡ tx.old.conn.ghost_name }
    ensures puts { Puts layout head_table row.now
        (state S.Store tx.old.conn.now) (state S.Store tx.new.conn.now) result }
{
    change(
        tx,
        head_text!(put),
        &[
            row.account.to_cell(),
            row.commodity.to_cell(),
            row.day.to_cell(),
        ],
    )
}

/// Changes the day of the row of the same key. Where there is none, nothing changes.
pub fn set<S: Alter>(tx: &mut Transaction<'_, S>, row: &HeadRow) -> Result<(), Fault>
    requires { HasCleanDisk (state S.Store tx.old.conn.now)
        → IsTrue (state S.Store tx.old.conn.now).in_transaction }
    ensures same_reference { tx.new.conn.ghost_name ≡ tx.old.conn.ghost_name }
    ensures sets { Sets layout head_table row.now
        (state S.Store tx.old.conn.now) (state S.Store tx.new.conn.now) result }
{
    change(
        tx,
        head_text!(set),
        &[
            row.account.to_cell(),
            row.commodity.to_cell(),
            row.day.to_cell(),
        ],
    )
}

/// Returns the row of an account and a commodity, or `None` where there is none.
pub fn find<D: Queryable>(
    alloc: Global,
    conn: &mut D,
    account: &Account,
    commodity: &Commodity,
) -> Result<Option<HeadRow>, Fault>
    ensures same_reference { D.reference conn.new ≡ D.reference conn.old }
    ensures finds { Finds layout IsHeadRow
        (λ b. with_key head_cells 2 (Text account.now ∷ Text commodity.now ∷ []) b.head)
        (D.shown conn.old) (D.shown conn.new) result }
{
    find_row(
        alloc,
        conn,
        head_text!(find),
        &[account.to_cell(), commodity.to_cell()],
    )
}
