ghost use Rattle.std.specs.Prelude.{◌≡◌, false, IfErr, IfOk, IsTrue, List, None, OnErr, OnOk};
ghost use Rattle.lot_book.specs.Facts.{Entry};
ghost use Rattle.lot_migrate.specs.Fault.{migrate_outcome, refusal_of};
ghost use Rattle.lot_migrate.specs.First.{StandsFirst};
ghost use Rattle.lot_migrate.specs.Migrate.{
  IsCommitted,
  IsOfFirst,
  IsOfSecond,
  LeavesMigrated,
  LeavesTakenOver,
  Migrates,
  MigratesMarked,
  NotMigrated,
  NotTakenOver,
};
ghost use Rattle.lot_store.specs.Create.{IsHandedBack};
ghost use Rattle.lot_stored.specs.StandFor.{Stands};
ghost use Rattle.sqlite.specs.Held.{state};
ghost use Rattle.sqlite.specs.State.{HasCleanDisk, KeepsCommit, Survives};

use crate::fault::MigrateFault;
use crate::fill::fill;
use crate::progress::Progress;
use lot_store::{AdoptFault, HandedBack, adopt, edition_row};
use sqlite::{Alter, Connection, Error, ErrorCode};
use std::alloc::Global;

/// Makes a book of edition 1 one of edition 2, in one commit, and gives the connection back. A book
/// of edition 2 stays as it is.
///
/// The entries stay, and are of edition 1 from then on. Every other row stays, too, except that of
/// the edition. While the legs are read, `progress` is told how many.
///
/// On a book of edition 1 the error is one of these:
///
/// - `Device`: the disk failed, or room may lack;
/// - `InDoubt`: the disk failed in the commit, and the book was migrated or not;
/// - `Memory`: out of memory.
///
/// After any error the connection is outside a transaction and, while it is open, shows every row
/// as it was. A crash during the call leaves what it could leave before, or the book of edition 2
/// that a book of an older edition becomes.
pub fn migrate<S: Alter, P: Progress>(
    alloc: Global,
    conn: Connection<S>,
    progress: &mut P,
) -> Result<Connection<S>, HandedBack<S, MigrateFault>>
    requires outside { conn.in_transaction ≡ false }
    requires unlimited { conn.step_limit ≡ None }
    ensures migrates { IfOk result (λ new. HasCleanDisk (state S.Store new)
        → Migrates (state S.Store conn) (state S.Store new)) }
    ensures outside { IfOk result (λ new. HasCleanDisk (state S.Store new)
        → new.in_transaction ≡ false) }
    ensures refused { IfErr result (λ left. HasCleanDisk (state S.Store left.conn)
        → NotMigrated (state S.Store conn) (state S.Store left.conn) left.fault) }
    // Of books.
    ensures of_first { IfErr result (λ left. HasCleanDisk (state S.Store left.conn)
        → (entries : List Entry) → StandsFirst (state S.Store conn) entries
        → IsOfFirst left.fault) }
    ensures of_second { IfErr result (λ left. HasCleanDisk (state S.Store left.conn)
        → (entries : List Entry) → Stands (state S.Store conn) entries
        → IsOfSecond (state S.Store conn) (state S.Store left.conn) left.fault) }
    ensures handed_back { IfErr result (λ left. HasCleanDisk (state S.Store left.conn)
        → IsHandedBack (state S.Store conn) (state S.Store left.conn)) }
    ensures kept { IfErr result (λ left. HasCleanDisk (state S.Store left.conn)
        → KeepsCommit (state S.Store conn) (state S.Store left.conn)) }
    ensures crash_ok { IfOk result (λ new. Survives (state S.Store conn) (state S.Store new)
        (LeavesMigrated (state S.Store conn))) }
    ensures crash_err { IfErr result (λ left.
        Survives (state S.Store conn) (state S.Store left.conn)
        (LeavesMigrated (state S.Store conn))) }
{
    match adopt(alloc, conn) {
        Ok(book) => Ok(book.into_connection()),
        Err(HandedBack { fault, conn }) => match refusal_of(fault) {
            None => take_over(alloc, conn, progress),
            Some(fault) => Err(HandedBack { fault, conn }),
        },
    }
}

/// Returns why a database that isn't taken up isn't migrated, or `None` where it is of an older
/// edition.
fn refusal_of(fault: AdoptFault) -> Option<MigrateFault>
    ensures { result ≡ refusal_of fault }
{
    match fault {
        AdoptFault::OlderEdition => None,
        AdoptFault::NotABook => Some(MigrateFault::NotABook),
        AdoptFault::NewerEdition => Some(MigrateFault::NewerEdition),
        AdoptFault::Device => Some(MigrateFault::Device),
        AdoptFault::Memory => Some(MigrateFault::Memory),
    }
}

/// Takes over a database of an older edition.
fn take_over<S: Alter, P: Progress>(
    alloc: Global,
    conn: Connection<S>,
    progress: &mut P,
) -> Result<Connection<S>, HandedBack<S, MigrateFault>>
    requires outside { HasCleanDisk (state S.Store conn) → conn.in_transaction ≡ false }
    requires unlimited { conn.step_limit ≡ None }
    ensures taken { IfOk result (λ new. HasCleanDisk (state S.Store new)
        → MigratesMarked (state S.Store conn) (state S.Store new)
        × IsCommitted (state S.Store new)) }
    ensures outside { IfOk result (λ new. new.in_transaction ≡ false) }
    ensures refused { IfErr result (λ left. HasCleanDisk (state S.Store left.conn)
        → NotTakenOver (state S.Store conn) (state S.Store left.conn) left.fault) }
    ensures handed_back { IfErr result (λ left. HasCleanDisk (state S.Store left.conn)
        → IsHandedBack (state S.Store conn) (state S.Store left.conn)) }
    ensures kept { IfErr result (λ left. HasCleanDisk (state S.Store left.conn)
        → KeepsCommit (state S.Store conn) (state S.Store left.conn)) }
    ensures crash_ok { IfOk result (λ new. Survives (state S.Store conn) (state S.Store new)
        (LeavesTakenOver (state S.Store conn))) }
    ensures crash_err { IfErr result (λ left.
        Survives (state S.Store conn) (state S.Store left.conn)
        (LeavesTakenOver (state S.Store conn))) }
{
    let mut conn = conn;
    // A disk that has lied may have left anything, a transaction too. Outside one the tables are
    // those of the last commit, before the call and after it.
    if !conn.is_autocommit() {
        return Err(HandedBack {
            fault: MigrateFault::Device,
            conn,
        });
    }
    let turned = turn(alloc, &mut conn, progress);
    progress.end();
    match turned {
        Ok(()) => Ok(conn),
        Err(fault) => {
            let _settled = conn.is_autocommit();
            Err(HandedBack { fault, conn })
        }
    }
}

/// Makes the tables of edition 2 on a connection that is lent.
fn turn<S: Alter, P: Progress>(
    alloc: Global,
    conn: &mut Connection<S>,
    progress: &mut P,
) -> Result<(), MigrateFault>
    requires outside { conn.old.in_transaction ≡ false }
    requires unlimited { conn.old.step_limit ≡ None }
    ensures outside { conn.new.in_transaction ≡ false }
    ensures taken { HasCleanDisk (state S.Store conn.new)
        → OnOk result (MigratesMarked (state S.Store conn.old) (state S.Store conn.new)
        × IsCommitted (state S.Store conn.new)) }
    ensures refused { HasCleanDisk (state S.Store conn.new)
        → IfErr result (NotTakenOver (state S.Store conn.old) (state S.Store conn.new)) }
    ensures kept { HasCleanDisk (state S.Store conn.new)
        → OnErr result (KeepsCommit (state S.Store conn.old) (state S.Store conn.new)) }
    ensures crash { Survives (state S.Store conn.old) (state S.Store conn.new)
        (LeavesTakenOver (state S.Store conn.old)) }
{
    let row = edition_row(alloc)?;
    let mut tx = conn.transaction();
    fill(alloc, &mut tx, &row, progress)?;
    after_commit(tx.commit())
}

/// Returns the outcome of a commit, as the caller is told it.
fn after_commit(outcome: Result<(), Error>) -> Result<(), MigrateFault>
    ensures { result ≡ migrate_outcome outcome }
{
    match outcome {
        Ok(()) => Ok(()),
        Err(Error::SqliteFailure(ErrorCode::OutOfMemory)) => Err(MigrateFault::Memory),
        Err(_) => Err(MigrateFault::InDoubt),
    }
}
