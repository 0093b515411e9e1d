//! The place of migration, as entries of edition 1 come.
ghost use Rattle.std.specs.Prelude.{◌≡◌, ◌<◌, IsTrue};
ghost use Rattle.lot_book.specs.Refusals.{most_entries};
ghost use Rattle.lot_restore.specs.Judge.{PutsPlace};
ghost use Rattle.sqlite.specs.Held.{state};
ghost use Rattle.sqlite.specs.State.{HasCleanDisk};

use lot_rows::migration::{self, MigrationRow};
use lot_table::Fault;
use sqlite::{Alter, Transaction};

/// Puts the place of migration that is one behind this one, in the open transaction. The place is the key of its row, so the row
/// of this one is deleted first.
///
/// After an error the last commit stands, and the caller drops the transaction.
pub(crate) fn put_next<S: Alter>(tx: &mut Transaction<'_, S>, before: u32) -> Result<(), Fault>
    requires inside { HasCleanDisk (state S.Store tx.old.conn.now)
        → IsTrue (state S.Store tx.old.conn.now).in_transaction }
    requires room { before < most_entries }
    ensures same_reference { tx.new.conn.ghost_name ≡ tx.old.conn.ghost_name }
    ensures puts { PutsPlace before
        (state S.Store tx.old.conn.now) (state S.Store tx.new.conn.now) result }
{
    migration::delete(tx, before)?;
    migration::put(
        tx,
        &MigrationRow {
            entries: before + 1,
        },
    )
}
