ghost use Rattle.std.specs.Prelude.{◌≡◌, ◌∷◌, [], IsTrue};
ghost use Rattle.lot_rows.specs.Account.{IsAccountRow, account_cells};
ghost use Rattle.lot_rows.specs.Tables.{layout, account_table};
ghost use Rattle.lot_table.specs.Call.{Finds, Puts};
ghost use Rattle.lot_table.specs.Rows.{with_key};
ghost use Rattle.sqlite.specs.Held.{state};
ghost use Rattle.sqlite.specs.State.{HasCleanDisk};
ghost use Rattle.sqlite.specs.declared.types.Value.TheVariants.{Text};

use crate::columns::account_text;
use lot_base::{Account, Day};
use lot_cost::Method;
use lot_table::{Cell, Fault, Queryable, TableRow, change, column, find as find_row};
use sqlite::{Alter, Row, Transaction};
use std::alloc::Global;

/// The query for all rows, by their key.
pub const LIST: &str = account_text!(list);

/// The query for what tells the row at a place.
pub const SHOW: &str = account_text!(show of "name");

/// A row of the table `account`: an account, the days on which it was opened and closed, and its method.
#[derive(Drop)]
pub struct AccountRow {
    pub name: Account,
    pub opened: Day,
    pub closed: Option<Day>,
    pub method: Method,
}

impl TableRow for AccountRow {
    ghost encode = { account_cells };

    ghost IsGood = { IsAccountRow };

    fn read(alloc: Global, row: &Row) -> Result<AccountRow, Fault> {
        if row.column_count() != 4 {
            return Err(Fault::Damaged);
        }
        Ok(AccountRow {
            name: column(alloc, row, 0)?,
            opened: column(alloc, row, 1)?,
            closed: column(alloc, row, 2)?,
            method: column(alloc, row, 3)?,
        })
    }
}

/// Puts a row. It replaces the row of the same key, if there is one.
pub fn put<S: Alter>(tx: &mut Transaction<'_, S>, row: &AccountRow) -> Result<(), Fault>
    requires { HasCleanDisk (state S.Store tx.old.conn.now)
        → IsTrue (state S.Store tx.old.conn.now).in_transaction }
    ensures same_reference { tx.new.conn.ghost_name ≡ tx.old.conn.ghost_name }
    ensures puts { Puts layout account_table row.now
        (state S.Store tx.old.conn.now) (state S.Store tx.new.conn.now) result }
{
    change(
        tx,
        account_text!(put),
        &[
            row.name.to_cell(),
            row.opened.to_cell(),
            row.closed.to_cell(),
            row.method.to_cell(),
        ],
    )
}

/// Returns the row of an account, or `None` where there is none.
pub fn find<D: Queryable>(
    alloc: Global,
    conn: &mut D,
    name: &Account,
) -> Result<Option<AccountRow>, Fault>
    ensures same_reference { D.reference conn.new ≡ D.reference conn.old }
    ensures finds { Finds layout IsAccountRow
        (λ b. with_key account_cells 1 (Text name.now ∷ []) b.account)
        (D.shown conn.old) (D.shown conn.new) result }
{
    find_row(alloc, conn, account_text!(find), &[name.to_cell()])
}
