ghost use Rattle.std.specs.Prelude.{◌≡◌, IsTrue};
ghost use Rattle.lot_rows.specs.Book.{IsBookRow, book_cells};
ghost use Rattle.lot_rows.specs.Tables.{layout, book_table};
ghost use Rattle.lot_table.specs.Call.{Puts};
ghost use Rattle.sqlite.specs.Held.{state};
ghost use Rattle.sqlite.specs.State.{HasCleanDisk};

use crate::columns::book_text;
use lot_table::{AnyText, Cell, Fault, TableRow, change, column};
use sqlite::{Alter, Row, Transaction};
use std::alloc::Global;

/// The query for all rows, by their key.
pub const LIST: &str = book_text!(list);

/// The query for the row of a book.
pub const MARKED: &str = book_text!(list of "mark = 'lot-book'");

/// The row of the table `book`, which marks a database as a book.
#[derive(Drop)]
pub struct BookRow {
    pub mark: AnyText,
    pub edition: i64,
}

impl TableRow for BookRow {
    ghost encode = { book_cells };

    ghost IsGood = { IsBookRow };

    fn read(alloc: Global, row: &Row) -> Result<BookRow, Fault> {
        if row.column_count() != 2 {
            return Err(Fault::Damaged);
        }
        Ok(BookRow {
            mark: column(alloc, row, 0)?,
            edition: column(alloc, row, 1)?,
        })
    }
}

/// Puts a row. It replaces the row of the same key, if there is one.
pub fn put<S: Alter>(tx: &mut Transaction<'_, S>, row: &BookRow) -> Result<(), Fault>
    requires { HasCleanDisk (state S.Store tx.old.conn.now)
        → IsTrue (state S.Store tx.old.conn.now).in_transaction }
    ensures same_reference { tx.new.conn.ghost_name ≡ tx.old.conn.ghost_name }
    ensures puts { Puts layout book_table row.now
        (state S.Store tx.old.conn.now) (state S.Store tx.new.conn.now) result }
{
    change(
        tx,
        book_text!(put),
        &[row.mark.to_cell(), row.edition.to_cell()],
    )
}
