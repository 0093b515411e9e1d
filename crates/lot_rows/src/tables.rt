ghost use Rattle.std.specs.Prelude.{◌≡◌, ◌≢◌, [], false, true, IsTrue, OnOk};
ghost use Rattle.lot_rows.specs.Tables.{
  Has,
  HasFirst,
  Tables,
  first_shapes,
  later_names,
  no_rows_yet,
  table_names,
};
ghost use Rattle.lot_table.specs.Make.{is_taken};
ghost use Rattle.lot_table.specs.Shape.{schema_of};
ghost use Rattle.lot_table.specs.Statement.{DiskFailed};
ghost use Rattle.sqlite.specs.Held.{state};
ghost use Rattle.sqlite.specs.State.{HasCleanDisk, KeepsCommit, Survives};
ghost use Rattle.sqlite_catalog.specs.Change.{KeepsRows};
ghost use Rattle.sqlite_catalog.specs.Listing.{IsSound};

use crate::columns::{
    account_text, allowed_text, book_text, commodity_text, entry_text, head_text, leg_text,
    lot_text, migration_text, opening_text, plain_text, price_text, sale_text,
};
use lot_table::{Fault, MakeFault, make_each};
use sqlite::{Alter, Transaction};

/// Makes the thirteen tables of a book.
///
/// The call fails where a table, an index or a view has the name of one of them, without regard to the case of ASCII letters.
/// The error is `Taken` only there. In a file without tables it is `Memory`, or `Device` where the disk failed or had failed
/// before.
///
/// After an error the last commit stands, and the caller drops the transaction, which rolls back the tables that were made.
pub fn make<S: Alter>(tx: &mut Transaction<'_, S>) -> Result<(), MakeFault>
    requires { HasCleanDisk (state S.Store tx.old.conn.now)
        → IsTrue (state S.Store tx.old.conn.now).in_transaction }
    ensures same_reference { tx.new.conn.ghost_name ≡ tx.old.conn.ghost_name }
    ensures inside { HasCleanDisk (state S.Store tx.new.conn.now)
        → OnOk result (IsTrue (state S.Store tx.new.conn.now).in_transaction) }
    ensures made { HasCleanDisk (state S.Store tx.new.conn.now)
        → OnOk result ((state S.Store tx.old.conn.now).now.schema ≡ schema_of []
        → IsSound (schema_of []) (state S.Store tx.old.conn.now).now.trees
        → Has (state S.Store tx.new.conn.now) no_rows_yet) }
    ensures free { HasCleanDisk (state S.Store tx.new.conn.now)
        → OnOk result (is_taken table_names (state S.Store tx.old.conn.now).now.schema ≡ false) }
    ensures taken { HasCleanDisk (state S.Store tx.new.conn.now) → result ≡ Err MakeFault.Taken
        → is_taken table_names (state S.Store tx.old.conn.now).now.schema ≡ true }
    ensures damaged { HasCleanDisk (state S.Store tx.new.conn.now) → result ≡ Err (MakeFault.Failed
        Fault.Damaged) → (state S.Store tx.old.conn.now).now.schema ≢ schema_of [] }
    ensures device { HasCleanDisk (state S.Store tx.new.conn.now) → result ≡ Err
        (MakeFault.Failed Fault.Device) → (state S.Store tx.old.conn.now).now.schema ≡ schema_of []
        → DiskFailed (state S.Store tx.old.conn.now) (state S.Store tx.new.conn.now) }
    ensures kept { HasCleanDisk (state S.Store tx.new.conn.now)
        → KeepsCommit (state S.Store tx.old.conn.now) (state S.Store tx.new.conn.now) }
    ensures crash { Survives (state S.Store tx.old.conn.now) (state S.Store tx.new.conn.now)
        (λ _. ⊥) }
{
    make_each(
        tx,
        &[
            book_text!(make),
            account_text!(make),
            allowed_text!(make),
            commodity_text!(make),
            price_text!(make),
            entry_text!(make),
            leg_text!(make),
            sale_text!(make),
            lot_text!(make),
            plain_text!(make),
            head_text!(make),
            opening_text!(make),
            migration_text!(make),
        ],
    )
}

/// Adds the two tables of edition 2 to the eleven of edition 1. The rows of these stay as they are, with their rowids.
///
/// A book that had the tables of edition 1 then has the schema of a book that `make` made. The call fails where a table, an
/// index or a view has the name of one of the two, without regard to the case of ASCII letters. The error is `Taken` only
/// there. In a book of edition 1 it is `Memory`, or `Device` where the disk failed or had failed before.
///
/// After an error the last commit stands, and the caller drops the transaction, which rolls back a table that was added.
pub fn add_later<S: Alter>(tx: &mut Transaction<'_, S>) -> Result<(), MakeFault>
    requires { HasCleanDisk (state S.Store tx.old.conn.now)
        → IsTrue (state S.Store tx.old.conn.now).in_transaction }
    ensures same_reference { tx.new.conn.ghost_name ≡ tx.old.conn.ghost_name }
    ensures inside { HasCleanDisk (state S.Store tx.new.conn.now)
        → OnOk result (IsTrue (state S.Store tx.new.conn.now).in_transaction) }
    ensures made { HasCleanDisk (state S.Store tx.new.conn.now)
        → OnOk result ((tables : Tables) → HasFirst (state S.Store tx.old.conn.now) tables
        → Has (state S.Store tx.new.conn.now) (record tables { opening = []; migration = [] })) }
    ensures stored { HasCleanDisk (state S.Store tx.new.conn.now)
        → OnOk result ((tables : Tables) → HasFirst (state S.Store tx.old.conn.now) tables
        → KeepsRows (schema_of first_shapes).tables (state S.Store tx.old.conn.now).now.trees
        (state S.Store tx.new.conn.now).now.trees) }
    ensures free { HasCleanDisk (state S.Store tx.new.conn.now)
        → OnOk result (is_taken later_names (state S.Store tx.old.conn.now).now.schema ≡ false) }
    ensures taken { HasCleanDisk (state S.Store tx.new.conn.now)
        → result ≡ Err MakeFault.Taken
        → is_taken later_names (state S.Store tx.old.conn.now).now.schema ≡ true }
    ensures untaken { HasCleanDisk (state S.Store tx.new.conn.now)
        → result ≡ Err MakeFault.Taken
        → (state S.Store tx.old.conn.now).now.schema ≢ schema_of first_shapes }
    ensures damaged { HasCleanDisk (state S.Store tx.new.conn.now)
        → result ≡ Err (MakeFault.Failed Fault.Damaged)
        → (state S.Store tx.old.conn.now).now.schema ≢ schema_of first_shapes }
    ensures device { HasCleanDisk (state S.Store tx.new.conn.now)
        → result ≡ Err (MakeFault.Failed Fault.Device)
        → (state S.Store tx.old.conn.now).now.schema ≡ schema_of first_shapes
        → DiskFailed (state S.Store tx.old.conn.now) (state S.Store tx.new.conn.now) }
    ensures kept { HasCleanDisk (state S.Store tx.new.conn.now)
        → KeepsCommit (state S.Store tx.old.conn.now) (state S.Store tx.new.conn.now) }
    ensures crash { Survives (state S.Store tx.old.conn.now) (state S.Store tx.new.conn.now)
        (λ _. ⊥) }
{
    make_each(tx, &[opening_text!(make), migration_text!(make)])
}
