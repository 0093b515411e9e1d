ghost use Rattle.std.specs.Prelude.{◌≡◌, ◌≢◌, [], ◌∷◌, false, Err, IfErr, IfOk, None, Ok, OnErr, OnOk};
ghost use Rattle.lot_rows.specs.Tables.{Has, Tables};
ghost use Rattle.lot_store.specs.Create.{IsHandedBack, IsTaken, TellsBook, TellsColumns, TellsOf};
ghost use Rattle.lot_table.specs.Book.{IsUndone};
ghost use Rattle.sqlite.specs.Held.{state};
ghost use Rattle.sqlite.specs.State.{HasCleanDisk, IsUnchanged, Survives};

use crate::book::{Book, Condition};
use crate::fault::{AdoptFault, HandedBack};
use lot_rows::book::{self, BookRow};
use lot_stored::EDITION;
use lot_table::{TableRow, ask};
use sqlite::{Alter, Connection, Row};
use std::alloc::Global;

/// Returns the book that is in a file, and changes nothing. The error is one of these:
///
/// - `NotABook`: there is no table `book`, or it isn't one row with the mark of a book and a whole number of at least 1 as
///   edition;
/// - `OlderEdition`: the edition is older than this program;
/// - `NewerEdition`: the edition is newer than this program;
/// - `Device`, only where the disk failed or had failed before;
/// - `Memory`: out of memory.
///
/// No other table is looked at. After an error the connection is outside a transaction, and every row is as it was.
pub fn adopt<S: Alter>(
    alloc: Global,
    conn: Connection<S>,
) -> Result<Book<S>, HandedBack<S, AdoptFault>>
    requires outside { conn.in_transaction ≡ false }
    requires unlimited { conn.step_limit ≡ None }
    ensures tells_ok { IfOk result (λ book. HasCleanDisk (state S.Store book.conn)
        → TellsOf (state S.Store conn) (state S.Store book.conn) (Ok tt)) }
    ensures tells_err { IfErr result (λ left. HasCleanDisk (state S.Store left.conn)
        → TellsOf (state S.Store conn) (state S.Store left.conn) (Err left.fault)) }
    ensures taken { IfOk result
        (λ book. HasCleanDisk (state S.Store book.conn) → IsTaken (state S.Store conn)) }
    // Of a database that has the tables of a book.
    ensures refused { IfErr result
        (λ left. HasCleanDisk (state S.Store left.conn) → left.fault ≢ AdoptFault.Device
        → (tables : Tables) → Has (state S.Store conn) tables
        → TellsBook tables.book (Err left.fault)) }
    ensures same { IfOk result (λ book. HasCleanDisk (state S.Store book.conn)
        → IsUnchanged (state S.Store conn) (state S.Store book.conn)) }
    ensures handed_back { IfErr result (λ left. HasCleanDisk (state S.Store left.conn)
        → IsHandedBack (state S.Store conn) (state S.Store left.conn)) }
    ensures undone { IfErr result (λ left. HasCleanDisk (state S.Store left.conn)
        → IsUndone (state S.Store conn) (state S.Store left.conn)) }
    ensures ready { IfOk result (λ book. book.condition ≡ Condition.Ready) }
    ensures crash_ok { IfOk result
        (λ book. Survives (state S.Store conn) (state S.Store book.conn) (λ _. ⊥)) }
    ensures crash_err { IfErr result
        (λ left. Survives (state S.Store conn) (state S.Store left.conn) (λ _. ⊥)) }
{
    let mut conn = conn;
    // Outside a transaction the tables are those of the last commit.
    let _settled = conn.is_autocommit();
    match tell(alloc, &mut conn) {
        Ok(()) => Ok(Book::ready_over(alloc, conn)),
        Err(fault) => Err(HandedBack { fault, conn }),
    }
}

/// Tells from the table `book` whether the database is a book of this edition.
fn tell<S: Alter>(alloc: Global, conn: &mut Connection<S>) -> Result<(), AdoptFault>
    requires { conn.old.step_limit ≡ None }
    ensures tells { HasCleanDisk (state S.Store conn.new)
        → TellsOf (state S.Store conn.old) (state S.Store conn.new) result }
    ensures of_book { HasCleanDisk (state S.Store conn.new) → result ≢ Err AdoptFault.Device
        → (tables : Tables) → Has (state S.Store conn.old) tables → TellsBook tables.book result }
    ensures same { HasCleanDisk (state S.Store conn.new)
        → OnOk result (IsUnchanged (state S.Store conn.old) (state S.Store conn.new)) }
    ensures taken { HasCleanDisk (state S.Store conn.new)
        → OnOk result (IsTaken (state S.Store conn.old)) }
    ensures undone { HasCleanDisk (state S.Store conn.new)
        → OnErr result (IsUndone (state S.Store conn.old) (state S.Store conn.new)) }
    ensures crash { Survives (state S.Store conn.old) (state S.Store conn.new) (λ _. ⊥) }
{
    let rows = ask(conn, book::LIST, &[])?;
    tell_rows(alloc, &rows)
}

/// Tells the same from the columns of all rows of the table.
fn tell_rows(alloc: Global, rows: &[Row]) -> Result<(), AdoptFault>
    ensures tells { TellsColumns rows.now result }
{
    let [row] = rows else {
        return Err(AdoptFault::NotABook);
    };
    let book = BookRow::read(alloc, row)?;
    tell_row(&book)
}

/// Tells the same from the one row.
fn tell_row(book: &BookRow) -> Result<(), AdoptFault>
    ensures tells { TellsBook (book.now ∷ []) result }
    ensures no_memory { result ≢ Err AdoptFault.Memory }
{
    if book.mark.as_str() != "lot-book" || book.edition < 1 {
        return Err(AdoptFault::NotABook);
    }
    if book.edition < EDITION {
        return Err(AdoptFault::OlderEdition);
    }
    if book.edition > EDITION {
        return Err(AdoptFault::NewerEdition);
    }
    Ok(())
}
