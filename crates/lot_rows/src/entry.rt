ghost use Rattle.std.specs.Prelude.{◌≡◌, All, IsTrue, option_map};
ghost use Rattle.lot_rows.specs.Entry.{IsEntryRow, IsNumberRow, entry_cells, greatest_number, named, number_cells};
ghost use Rattle.lot_rows.specs.Tables.{IsNewEntry, layout, entry_table};
ghost use Rattle.lot_table.specs.Book.{always};
ghost use Rattle.lot_table.specs.Call.{Answers, Finds, PutsWhere};
ghost use Rattle.sqlite.specs.Held.{state};
ghost use Rattle.sqlite.specs.State.{HasCleanDisk};
ghost use Rattle.lot_rows.specs.declared.entry.NumberRow.{NumberRow};

use crate::columns::entry_text;
use lot_base::Label;
use lot_table::{
    AnyText, Cell, Fault, Ordinal, Queryable, TableRow, change, column, find as find_row,
};
use sqlite::{Alter, Row, Transaction};
use std::alloc::Global;

/// The query for the greatest number.
pub const GREATEST: &str = "SELECT number FROM entry ORDER BY number DESC LIMIT 1";

/// The query for the next rows from a number on.
pub const PAGE_FROM_NUMBER: &str = entry_text!(page of "number >= ?2");

/// A row of the table `entry`: an accepted command by its number and its key, with its canonical text.
#[derive(Drop)]
pub struct EntryRow {
    pub number: Ordinal,
    pub source: Label,
    pub name: Label,
    pub body: AnyText,
}

impl TableRow for EntryRow {
    ghost encode = { entry_cells };

    ghost IsGood = { IsEntryRow };

    fn read(alloc: Global, row: &Row) -> Result<EntryRow, Fault> {
        if row.column_count() != 4 {
            return Err(Fault::Damaged);
        }
        Ok(EntryRow {
            number: column(alloc, row, 0)?,
            source: column(alloc, row, 1)?,
            name: column(alloc, row, 2)?,
            body: column(alloc, row, 3)?,
        })
    }
}

/// Adds a row. No row may have its number, or its source and name: look them up before.
pub fn add<S: Alter>(tx: &mut Transaction<'_, S>, row: &EntryRow) -> Result<(), Fault>
    requires { HasCleanDisk (state S.Store tx.old.conn.now)
        → IsTrue (state S.Store tx.old.conn.now).in_transaction }
    ensures same_reference { tx.new.conn.ghost_name ≡ tx.old.conn.ghost_name }
    ensures adds { PutsWhere layout entry_table (IsNewEntry row.now) row.now
        (state S.Store tx.old.conn.now) (state S.Store tx.new.conn.now) result }
{
    change(
        tx,
        entry_text!(insert),
        &[
            row.number.to_cell(),
            row.source.to_cell(),
            row.name.to_cell(),
            row.body.to_cell(),
        ],
    )
}

/// Returns the row of a source and a name, or `None` where there is none.
pub fn find<D: Queryable>(
    alloc: Global,
    conn: &mut D,
    source: &Label,
    name: &Label,
) -> Result<Option<EntryRow>, Fault>
    ensures same_reference { D.reference conn.new ≡ D.reference conn.old }
    ensures finds { Finds layout IsEntryRow (λ b. named source.now name.now b.entry)
        (D.shown conn.old) (D.shown conn.new) result }
{
    find_row(
        alloc,
        conn,
        entry_text!(list of "source = ?1 AND name = ?2"),
        &[source.to_cell(), name.to_cell()],
    )
}

/// Returns the greatest number, which is that of the last row, or `None` where there is no row.
pub fn greatest<D: Queryable>(alloc: Global, conn: &mut D) -> Result<Option<Ordinal>, Fault>
    ensures same_reference { D.reference conn.new ≡ D.reference conn.old }
    ensures answers { Answers layout (λ number b. number ≡ greatest_number b.entry) always
        (λ b. All IsEntryRow b.entry)
        (D.shown conn.old) (D.shown conn.new) result }
{
    let row = greatest_row(alloc, conn)?;
    Ok(row.map(|row| row.number))
}

/// The number of an entry alone.
#[derive(Drop)]
struct NumberRow {
    number: Ordinal,
}

impl TableRow for NumberRow {
    ghost encode = { number_cells };

    ghost IsGood = { IsNumberRow };

    fn read(alloc: Global, row: &Row) -> Result<NumberRow, Fault> {
        if row.column_count() != 1 {
            return Err(Fault::Damaged);
        }
        Ok(NumberRow {
            number: column(alloc, row, 0)?,
        })
    }
}

/// Returns the row of the greatest number, or `None` where there is no row.
fn greatest_row<D: Queryable>(alloc: Global, conn: &mut D) -> Result<Option<NumberRow>, Fault>
    ensures same_reference { D.reference conn.new ≡ D.reference conn.old }
    ensures answers { Answers layout (λ row b. option_map (λ (n : NumberRow). n.number) row
        ≡ greatest_number b.entry) always (λ b. All IsEntryRow b.entry)
        (D.shown conn.old) (D.shown conn.new) result }
{
    find_row(alloc, conn, GREATEST, &[])
}
