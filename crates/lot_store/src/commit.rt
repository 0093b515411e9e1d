ghost use Rattle.std.specs.Prelude.{◌≡◌, ◌≢◌, ◌⊎◌, false, Err, IsTrue, None, OnErr, OnOk};
ghost use Rattle.lot_write.specs.Call.{Stops};
ghost use Rattle.lot_write.specs.Write.{AreFit};
ghost use Rattle.lot_rows.specs.Tables.{Has, Tables};
ghost use Rattle.lot_store.specs.Apply.{MayWrite, WritesDown, commit_outcome};
ghost use Rattle.lot_store.specs.declared.fault.StoreFault.TheVariants.{Damaged, Device, InDoubt, NeedsReopen};
ghost use Rattle.lot_table.specs.Statement.{DiskFailed};
ghost use Rattle.sqlite.specs.Held.{state};
ghost use Rattle.sqlite.specs.State.{HasCleanDisk, KeepsCommit, Survives};

use crate::fault::StoreFault;
use lot_write::{Write, write_all};
use sqlite::{Alter, Connection, Error, ErrorCode};

/// Writes rows in one commit.
///
/// Where the writes fit the tables, `Device` comes only where the disk failed, or the database has no room for a row. After
/// `InDoubt` the commit was made or not. After `Memory` it wasn't, but a crash may leave it. After any error the last commit
/// stands as long as the connection is open. Where a transaction is open already, nothing is written, and the error is `Device`.
pub(crate) fn commit<S: Alter>(conn: &mut Connection<S>, writes: &[Write]) -> Result<(), StoreFault>
    requires { HasCleanDisk (state S.Store conn.old) → conn.old.in_transaction ≡ false }
    ensures outside { HasCleanDisk (state S.Store conn.new) → conn.new.in_transaction ≡ false }
    ensures done { HasCleanDisk (state S.Store conn.new)
        → OnOk result (WritesDown writes.now (state S.Store conn.old) (state S.Store conn.new)) }
    ensures kept { HasCleanDisk (state S.Store conn.new)
        → OnErr result (KeepsCommit (state S.Store conn.old) (state S.Store conn.new)) }
    ensures settled { HasCleanDisk (state S.Store conn.new) → IsTrue (state S.Store
        conn.new).is_open → (state S.Store conn.new).now ≡ (state S.Store conn.new).committed }
    ensures damaged { HasCleanDisk (state S.Store conn.new) → result ≡ Err Damaged
        → (state S.Store conn.old).step_limit ≡ None
        → (tables : Tables) → AreFit writes.now tables → ¬ Has (state S.Store conn.old) tables }
    ensures device { HasCleanDisk (state S.Store conn.new) → result ≡ Err Device → (tables : Tables)
        → AreFit writes.now tables → Has (state S.Store conn.old) tables
        → DiskFailed (state S.Store conn.old) (state S.Store conn.new)
        ⊎ Stops writes.now tables (state S.Store conn.old).now.trees (state S.Store conn.new) }
    ensures in_doubt { HasCleanDisk (state S.Store conn.new) → result ≡ Err InDoubt
        → DiskFailed (state S.Store conn.old) (state S.Store conn.new) }
    ensures usable { result ≢ Err NeedsReopen }
    ensures open { IsTrue conn.old.in_transaction → result ≡ Err Device }
    ensures crash { Survives (state S.Store conn.old) (state S.Store conn.new)
        (MayWrite writes.now (state S.Store conn.old) result) }
{
    // A disk that has lied may have left anything, a transaction too.
    if !conn.is_autocommit() {
        return Err(StoreFault::Device);
    }
    let mut tx = conn.transaction();
    write_all(&mut tx, writes)?;
    after_commit(tx.commit())
}

/// Returns the outcome of a commit, as the caller is told it.
fn after_commit(outcome: Result<(), Error>) -> Result<(), StoreFault>
    ensures { result ≡ commit_outcome outcome }
{
    match outcome {
        Ok(()) => Ok(()),
        Err(Error::SqliteFailure(ErrorCode::OutOfMemory)) => Err(StoreFault::Memory),
        Err(_) => Err(StoreFault::InDoubt),
    }
}
