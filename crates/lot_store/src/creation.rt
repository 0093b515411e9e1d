ghost use Rattle.std.specs.Prelude.{◌≡◌, ◌≢◌, ◌↔◌, [], false, Err, IfErr, IfOk, IsTrue, None, OnErr, OnOk};
ghost use Rattle.lot_stored.specs.Rows.{this_edition};
ghost use Rattle.lot_stored.specs.StandFor.{Left, Stands};
ghost use Rattle.lot_store.specs.Create.{IsHandedBack, LeavesAfter, LeavesNew, MayBeMade, RefusedFor, StandsForNone, create_outcome};
ghost use Rattle.lot_table.specs.Shape.{schema_of};
ghost use Rattle.sqlite.specs.Held.{state};
ghost use Rattle.sqlite.specs.State.{HasCleanDisk, IsLive, KeepsCommit, Survives};
ghost use Rattle.sqlite_catalog.specs.Listing.{IsSound};

use crate::book::{Book, Condition};
use crate::fault::{CreateFault, HandedBack};
use lot_rows::book::{self, BookRow};
use lot_rows::migration::{self, MigrationRow};
use lot_rows::tables;
use lot_stored::EDITION;
use lot_table::AnyText;
use sqlite::{Alter, Connection, Error, ErrorCode, Transaction};
use sqlite_schema::schema::Schema;
use std::alloc::{AllocError, Global};

/// Makes the tables of a book of this edition in one commit, and returns the book, which is empty.
///
/// The error is `NotABook` where the database has a table already and, while it is open, nowhere else: a book stands in a file
/// of its own. After `InDoubt` the tables were made or not. After any error the connection is outside a transaction, and every
/// row is as it was. A crash during the call leaves what it could leave before; or, where the call succeeds or ends with `InDoubt`
/// or `Memory`, in a database without tables those of the empty book.
pub fn create<S: Alter>(
    alloc: Global,
    conn: Connection<S>,
) -> Result<Book<S>, HandedBack<S, CreateFault>>
    requires outside { conn.in_transaction ≡ false }
    requires unlimited { conn.step_limit ≡ None }
    ensures made { IfOk result
        (λ book. HasCleanDisk (state S.Store book.conn) → Stands (state S.Store book.conn) []) }
    ensures empty { IfOk result (λ book. (state S.Store conn).now.schema ≡ schema_of []) }
    ensures other { (state S.Store conn).now.schema ≢ schema_of []
        → IfErr result (λ left. left.fault ≡ CreateFault.NotABook) }
    ensures committed { IfOk result (λ book. HasCleanDisk (state S.Store book.conn)
        → IsTrue (state S.Store book.conn).is_open
        × ((state S.Store book.conn).committed ≡ (state S.Store book.conn).now)) }
    ensures ready { IfOk result (λ book. book.condition ≡ Condition.Ready) }
    ensures refused { IfErr result (λ left. HasCleanDisk (state S.Store left.conn)
        → RefusedFor (state S.Store conn) (state S.Store left.conn) left.fault) }
    ensures handed_back { IfErr result (λ left. HasCleanDisk (state S.Store left.conn)
        → IsHandedBack (state S.Store conn) (state S.Store left.conn)) }
    ensures kept { IfErr result (λ left. HasCleanDisk (state S.Store left.conn)
        → KeepsCommit (state S.Store conn) (state S.Store left.conn)) }
    ensures crash_ok { IfOk result (λ book.
        Survives (state S.Store conn) (state S.Store book.conn) (LeavesNew (state S.Store conn))) }
    ensures crash_err { IfErr result (λ left. Survives (state S.Store conn)
        (state S.Store left.conn) (LeavesAfter left.fault (state S.Store conn))) }
{
    let mut conn = conn;
    // Outside a transaction the tables are those of the last commit, before the call and after it.
    let _settled = conn.is_autocommit();
    if !is_empty(conn.schema()) {
        return Err(HandedBack {
            fault: CreateFault::NotABook,
            conn,
        });
    }
    match make(alloc, &mut conn) {
        Ok(()) => Ok(Book::ready_over(alloc, conn)),
        Err(fault) => {
            let _settled = conn.is_autocommit();
            Err(HandedBack { fault, conn })
        }
    }
}

/// Returns whether a database has neither tables, nor indexes, nor views.
pub fn is_empty(schema: &Schema) -> bool
    ensures { IsTrue result ↔ (schema.now ≡ schema_of []) }
{
    schema.tables.as_slice().is_empty()
        && schema.indexes.as_slice().is_empty()
        && schema.views.as_slice().is_empty()
}

/// Makes the tables on a connection that is lent. The contract is about a database that had none.
fn make<S: Alter>(alloc: Global, conn: &mut Connection<S>) -> Result<(), CreateFault>
    requires outside { conn.old.in_transaction ≡ false }
    requires unlimited { conn.old.step_limit ≡ None }
    ensures outside { conn.new.in_transaction ≡ false }
    ensures made { HasCleanDisk (state S.Store conn.new) → OnOk result
        ((state S.Store conn.old).now.schema ≡ schema_of [] → Stands (state S.Store conn.new) []) }
    ensures committed { HasCleanDisk (state S.Store conn.new) → OnOk result (IsTrue (state S.Store
        conn.new).is_open × ((state S.Store conn.new).committed ≡ (state S.Store conn.new).now)) }
    ensures refused { HasCleanDisk (state S.Store conn.new)
        → IfErr result (RefusedFor (state S.Store conn.old) (state S.Store conn.new)) }
    ensures kept { HasCleanDisk (state S.Store conn.new)
        → OnErr result (KeepsCommit (state S.Store conn.old) (state S.Store conn.new)) }
    ensures crash { Survives (state S.Store conn.old) (state S.Store conn.new)
        (λ trees. (state S.Store conn.old).now.schema ≡ schema_of [] → Left trees []) }
    ensures crash_err { IfErr result (λ fault. Survives (state S.Store conn.old)
        (state S.Store conn.new) (λ trees. MayBeMade fault
        × ((state S.Store conn.old).now.schema ≡ schema_of [] → Left trees []))) }
{
    let row = edition_row(alloc)?;
    // While the connection is open, its database is sound.
    let _sound = conn.schema();
    let mut tx = conn.transaction();
    make_tables(&mut tx, &row)?;
    after_commit(tx.commit())
}

/// Returns the row that marks a database as a book of this edition.
pub fn edition_row(alloc: Global) -> Result<BookRow, AllocError>
    ensures { IfOk result (λ row. row ≡ this_edition) }
{
    Ok(BookRow {
        mark: AnyText::new(String::from_str(alloc, "lot-book")?),
        edition: EDITION,
    })
}

/// Makes the tables in the open transaction, with the two rows of a book that is empty: that of its edition, and its place of
/// migration, 0.
pub fn make_tables<S: Alter>(tx: &mut Transaction<'_, S>, row: &BookRow) -> Result<(), CreateFault>
    requires inside { HasCleanDisk (state S.Store tx.old.conn.now)
        → IsTrue (state S.Store tx.old.conn.now).in_transaction }
    requires unlimited { tx.old.conn.now.step_limit ≡ None }
    requires row { row.now ≡ this_edition }
    ensures same_reference { tx.new.conn.ghost_name ≡ tx.old.conn.ghost_name }
    ensures inside { HasCleanDisk (state S.Store tx.new.conn.now)
        → OnOk result (IsTrue (state S.Store tx.new.conn.now).in_transaction) }
    ensures opened { HasCleanDisk (state S.Store tx.new.conn.now)
        → OnOk result (IsTrue (state S.Store tx.new.conn.now).is_open) }
    ensures made { HasCleanDisk (state S.Store tx.new.conn.now)
        → OnOk result ((state S.Store tx.old.conn.now).now.schema ≡ schema_of []
        → IsSound (schema_of []) (state S.Store tx.old.conn.now).now.trees
        → StandsForNone (state S.Store tx.new.conn.now)) }
    ensures refused { HasCleanDisk (state S.Store tx.new.conn.now)
        → IsLive (state S.Store tx.old.conn.now)
        → IfErr result
        (RefusedFor (state S.Store tx.old.conn.now) (state S.Store tx.new.conn.now)) }
    ensures kept { HasCleanDisk (state S.Store tx.new.conn.now)
        → KeepsCommit (state S.Store tx.old.conn.now) (state S.Store tx.new.conn.now) }
    ensures crash { Survives (state S.Store tx.old.conn.now) (state S.Store tx.new.conn.now)
        (λ _. ⊥) }
{
    tables::make(tx)?;
    book::put(tx, row)?;
    migration::put(tx, &MigrationRow { entries: 0 })?;
    Ok(())
}

/// Returns the outcome of a commit, as the caller is told it.
fn after_commit(outcome: Result<(), Error>) -> Result<(), CreateFault>
    ensures { result ≡ create_outcome outcome }
{
    match outcome {
        Ok(()) => Ok(()),
        Err(Error::SqliteFailure(ErrorCode::OutOfMemory)) => Err(CreateFault::Memory),
        Err(_) => Err(CreateFault::InDoubt),
    }
}
