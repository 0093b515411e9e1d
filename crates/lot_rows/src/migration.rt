ghost use Rattle.std.specs.Prelude.{◌≡◌, IsTrue};
ghost use Rattle.lot_rows.specs.Migration.{IsMigrationRow, migration_cells};
ghost use Rattle.lot_rows.specs.Tables.{layout, migration_table};
ghost use Rattle.lot_table.specs.Call.{Deletes, Lists, Puts};
ghost use Rattle.sqlite.specs.Held.{state};
ghost use Rattle.sqlite.specs.State.{HasCleanDisk};

use crate::columns::migration_text;
use lot_table::{Cell, Fault, Queryable, TableRow, change, column, select};
use sqlite::{Alter, Row, Transaction};
use std::alloc::Global;

/// The row of the table `migration`: how many entries the migration of the book found. It is 0 for a book that was made
/// in edition 2.
#[derive(Drop)]
pub struct MigrationRow {
    pub entries: u32,
}

impl TableRow for MigrationRow {
    ghost encode = { migration_cells };

    ghost IsGood = { IsMigrationRow };

    fn read(alloc: Global, row: &Row) -> Result<MigrationRow, Fault> {
        if row.column_count() != 1 {
            return Err(Fault::Damaged);
        }
        Ok(MigrationRow {
            entries: column(alloc, row, 0)?,
        })
    }
}

/// Puts a row. It replaces the row of the same key, if there is one.
pub fn put<S: Alter>(tx: &mut Transaction<'_, S>, row: &MigrationRow) -> Result<(), Fault>
    requires { HasCleanDisk (state S.Store tx.old.conn.now)
        → IsTrue (state S.Store tx.old.conn.now).in_transaction }
    ensures same_reference { tx.new.conn.ghost_name ≡ tx.old.conn.ghost_name }
    ensures puts { Puts layout migration_table row.now
        (state S.Store tx.old.conn.now) (state S.Store tx.new.conn.now) result }
{
    change(tx, migration_text!(put), &[row.entries.to_cell()])
}

/// Deletes the row of that number of entries, if there is one.
pub fn delete<S: Alter>(tx: &mut Transaction<'_, S>, entries: u32) -> Result<(), Fault>
    requires { HasCleanDisk (state S.Store tx.old.conn.now)
        → IsTrue (state S.Store tx.old.conn.now).in_transaction }
    ensures same_reference { tx.new.conn.ghost_name ≡ tx.old.conn.ghost_name }
    ensures deletes { Deletes layout migration_table
        (migration_cells (record { entries = entries }))
        (state S.Store tx.old.conn.now) (state S.Store tx.new.conn.now) result }
{
    change(tx, migration_text!(delete), &[entries.to_cell()])
}

/// Returns all rows, by their number of entries.
pub fn list<D: Queryable>(alloc: Global, conn: &mut D) -> Result<Vec<MigrationRow>, Fault>
    ensures same_reference { D.reference conn.new ≡ D.reference conn.old }
    ensures lists { Lists layout IsMigrationRow (λ b. b.migration)
        (D.shown conn.old) (D.shown conn.new) result }
{
    select(alloc, conn, migration_text!(list), &[])
}
