ghost use Rattle.std.specs.Prelude.{◌≡◌, ◌∷◌, [], IsTrue};
ghost use Rattle.lot_rows.specs.Allowed.{IsAllowedRow, allowed_cells};
ghost use Rattle.lot_rows.specs.Tables.{layout, allowed_table};
ghost use Rattle.lot_table.specs.Call.{Lists, Puts};
ghost use Rattle.lot_table.specs.Rows.{with_key};
ghost use Rattle.sqlite.specs.Held.{state};
ghost use Rattle.sqlite.specs.State.{HasCleanDisk};
ghost use Rattle.sqlite.specs.declared.types.Value.TheVariants.{Text};

use crate::columns::allowed_text;
use lot_base::{Account, Commodity};
use lot_table::{Cell, Fault, Queryable, TableRow, change, column, select};
use sqlite::{Alter, Row, Transaction};
use std::alloc::Global;

/// The query for all rows, by their key.
pub const LIST: &str = allowed_text!(list);

/// The query for what tells the row at a place.
pub const SHOW: &str = allowed_text!(show of "account || ' ' || commodity");

/// A row of the table `allowed`: a currency of an opening, and its place there.
#[derive(Drop)]
pub struct AllowedRow {
    pub account: Account,
    /// From 0.
    pub place: u32,
    pub commodity: Commodity,
}

impl TableRow for AllowedRow {
    ghost encode = { allowed_cells };

    ghost IsGood = { IsAllowedRow };

    fn read(alloc: Global, row: &Row) -> Result<AllowedRow, Fault> {
        if row.column_count() != 3 {
            return Err(Fault::Damaged);
        }
        Ok(AllowedRow {
            account: column(alloc, row, 0)?,
            place: column(alloc, row, 1)?,
            commodity: column(alloc, row, 2)?,
        })
    }
}

/// Puts a row. It replaces the row of the same key, if there is one.
pub fn put<S: Alter>(tx: &mut Transaction<'_, S>, row: &AllowedRow) -> Result<(), Fault>
    requires { HasCleanDisk (state S.Store tx.old.conn.now)
        → IsTrue (state S.Store tx.old.conn.now).in_transaction }
    ensures same_reference { tx.new.conn.ghost_name ≡ tx.old.conn.ghost_name }
    ensures puts { Puts layout allowed_table row.now
        (state S.Store tx.old.conn.now) (state S.Store tx.new.conn.now) result }
{
    change(
        tx,
        allowed_text!(put),
        &[
            row.account.to_cell(),
            row.place.to_cell(),
            row.commodity.to_cell(),
        ],
    )
}

/// Returns the rows of an account, by place.
pub fn list_of<D: Queryable>(
    alloc: Global,
    conn: &mut D,
    account: &Account,
) -> Result<Vec<AllowedRow>, Fault>
    ensures same_reference { D.reference conn.new ≡ D.reference conn.old }
    ensures lists { Lists layout IsAllowedRow
        (λ b. with_key allowed_cells 1 (Text account.now ∷ []) b.allowed)
        (D.shown conn.old) (D.shown conn.new) result }
{
    select(
        alloc,
        conn,
        allowed_text!(list of "account = ?1"),
        &[account.to_cell()],
    )
}
