//! The tables of the book that is made again, before its first entry.
ghost use Rattle.std.specs.Prelude.{◌≡◌, [], IfErr, IsTrue, None, OnOk};
ghost use Rattle.lot_load.specs.Kept.{IsOf};
ghost use Rattle.lot_restore.specs.Judge.{StandsAt};
ghost use Rattle.lot_store.specs.Create.{RefusedFor};
ghost use Rattle.lot_table.specs.Shape.{schema_of};
ghost use Rattle.sqlite.specs.Held.{state};
ghost use Rattle.sqlite.specs.State.{HasCleanDisk, IsLive, KeepsCommit, Survives};
ghost use Rattle.sqlite_catalog.specs.Listing.{IsSound};

use lot_store::{CreateFault, edition_row, make_tables};
use sqlite::{Alter, Transaction};
use std::alloc::Global;

/// Makes the tables of an empty book in the open transaction, with the place of migration 0. The contract is about a database
/// that had no table.
///
/// The error is `NotABook` only where the database has a table, `Device` where the disk failed, or out of memory. After an error
/// the last commit stands, and the caller drops the transaction.
pub(crate) fn begin<S: Alter>(alloc: Global, tx: &mut Transaction<'_, S>) -> Result<(), CreateFault>
    requires inside { HasCleanDisk (state S.Store tx.old.conn.now)
        → IsTrue (state S.Store tx.old.conn.now).in_transaction }
    requires unlimited { tx.old.conn.now.step_limit ≡ None }
    ensures same_reference { tx.new.conn.ghost_name ≡ tx.old.conn.ghost_name }
    ensures inside { HasCleanDisk (state S.Store tx.new.conn.now)
        → OnOk result (IsTrue (state S.Store tx.new.conn.now).in_transaction) }
    ensures opened { HasCleanDisk (state S.Store tx.new.conn.now)
        → OnOk result (IsTrue (state S.Store tx.new.conn.now).is_open) }
    ensures made { HasCleanDisk (state S.Store tx.new.conn.now)
        → OnOk result ((state S.Store tx.old.conn.now).now.schema ≡ schema_of []
        → IsSound (schema_of []) (state S.Store tx.old.conn.now).now.trees
        → StandsAt (IsOf None) (state S.Store tx.new.conn.now) [] 0) }
    ensures refused { HasCleanDisk (state S.Store tx.new.conn.now)
        → IsLive (state S.Store tx.old.conn.now)
        → IfErr result
        (RefusedFor (state S.Store tx.old.conn.now) (state S.Store tx.new.conn.now)) }
    ensures kept { HasCleanDisk (state S.Store tx.new.conn.now)
        → KeepsCommit (state S.Store tx.old.conn.now) (state S.Store tx.new.conn.now) }
    ensures crash { Survives (state S.Store tx.old.conn.now) (state S.Store tx.new.conn.now)
        (λ _. ⊥) }
{
    let row = edition_row(alloc)?;
    make_tables(tx, &row)
}
