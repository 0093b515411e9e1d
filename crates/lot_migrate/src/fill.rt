ghost use Rattle.std.specs.Prelude.{
  ◌≡◌,
  ◌≢◌,
  ◌+◌,
  All,
  Err,
  IfErr,
  IfOk,
  IsTrue,
  None,
  OnOk,
  length,
};
ghost use Rattle.lot_migrate.specs.Migrate.{MigratesMarked, NotTakenOver};
ghost use Rattle.lot_migrate.specs.Put.{
  IsFullForAll,
  IsFullForMarks,
  PutsRows,
  opening_writes,
  with_all,
  with_marks,
};
ghost use Rattle.lot_migrate.specs.Read.{
  AreNumbers,
  CanMigrate,
  IsFirstNumber,
  IsNoNumber,
  IsReading,
  Reads,
  entries_in,
};
ghost use Rattle.lot_migrate.specs.Rows.{row_of_opening};
ghost use Rattle.lot_rows.specs.Entry.{IsEntryRow};
ghost use Rattle.lot_stored.specs.Rows.{this_edition};
ghost use Rattle.lot_table.specs.Cell.{IsOpeningNumber};
ghost use Rattle.lot_write.specs.declared.write.Write.TheVariants.{Opening};
ghost use Rattle.sqlite.specs.Held.{state};
ghost use Rattle.sqlite.specs.State.{HasCleanDisk, KeepsCommit, Survives};

use crate::fault::MigrateFault;
use crate::fold::fold_legs;
use crate::opening_numbers::LotOpening;
use crate::progress::Progress;
use lot_rows::book::{self, BookRow};
use lot_rows::migration::{self, MigrationRow};
use lot_rows::opening::OpeningRow;
use lot_rows::{entry, tables};
use lot_table::{Fault, OpeningNumber, Ordinal, ask, column};
use lot_write::{Write, write_all};
use sqlite::{Alter, Row, Transaction};
use std::alloc::{AllocError, Global};

/// Makes the tables of edition 2 from those of edition 1, in the open transaction. These are the
/// opening number of each lot in which the legs leave some units, the place of migration behind all
/// entries, and the row of the edition.
///
/// After an error the last commit stands, and the caller drops the transaction, which rolls back
/// what was made.
pub(crate) fn fill<S: Alter, P: Progress>(
    alloc: Global,
    tx: &mut Transaction<'_, S>,
    row: &BookRow,
    progress: &mut P,
) -> Result<(), MigrateFault>
    requires inside { HasCleanDisk (state S.Store tx.old.conn.now)
        → IsTrue (state S.Store tx.old.conn.now).in_transaction }
    requires unlimited { tx.old.conn.now.step_limit ≡ None }
    requires row { row.now ≡ this_edition }
    ensures same_reference { tx.new.conn.ghost_name ≡ tx.old.conn.ghost_name }
    ensures inside { HasCleanDisk (state S.Store tx.new.conn.now)
        → OnOk result (IsTrue (state S.Store tx.new.conn.now).in_transaction
        × IsTrue (state S.Store tx.new.conn.now).is_open) }
    ensures made { HasCleanDisk (state S.Store tx.new.conn.now)
        → OnOk result (MigratesMarked (state S.Store tx.old.conn.now)
        (state S.Store tx.new.conn.now)) }
    ensures refused { HasCleanDisk (state S.Store tx.new.conn.now) → IfErr result
        (NotTakenOver (state S.Store tx.old.conn.now) (state S.Store tx.new.conn.now)) }
    ensures kept { HasCleanDisk (state S.Store tx.new.conn.now)
        → KeepsCommit (state S.Store tx.old.conn.now) (state S.Store tx.new.conn.now) }
    ensures crash { Survives (state S.Store tx.old.conn.now) (state S.Store tx.new.conn.now)
        (λ _. ⊥) }
{
    tables::add_later(tx)?;
    let reading = read_book(alloc, tx, progress)?;
    put_all(alloc, tx, reading, row)?;
    Ok(())
}

/// What is read of a book of edition 1: how many entries it has, and the openings of the lots that
/// are held.
#[derive(Drop)]
struct Reading {
    entries: u32,
    openings: Vec<LotOpening>,
}

/// Reads a book in the open transaction.
fn read_book<S: Alter, P: Progress>(
    alloc: Global,
    tx: &mut Transaction<'_, S>,
    progress: &mut P,
) -> Result<Reading, Fault>
    ensures same_reference { tx.new.conn.ghost_name ≡ tx.old.conn.ghost_name }
    ensures reads { Reads IsReading CanMigrate
        (state S.Store tx.old.conn.now) (state S.Store tx.new.conn.now) result }
    ensures numbers { IfOk result (λ it. AreNumbers it.openings.items) }
{
    let entries = count_entries(alloc, tx)?;
    let lots = fold_legs(alloc, tx, progress)?;
    Ok(Reading {
        entries,
        openings: lots.into_openings(alloc)?,
    })
}

/// Returns how many entries a book has: the number of the last one.
fn count_entries<S: Alter>(alloc: Global, tx: &mut Transaction<'_, S>) -> Result<u32, Fault>
    ensures same_reference { tx.new.conn.ghost_name ≡ tx.old.conn.ghost_name }
    ensures reads { Reads (λ count tables. count ≡ entries_in tables)
        (λ tables. All IsEntryRow tables.entry)
        (state S.Store tx.old.conn.now) (state S.Store tx.new.conn.now) result }
{
    let rows = ask(tx, entry::GREATEST, &[])?;
    first_number(alloc, &rows)
}

/// Returns the number in the first of the rows, or 0 where there is no row.
fn first_number(alloc: Global, rows: &[Row]) -> Result<u32, Fault>
    ensures ok { IfOk result (IsFirstNumber rows.now) }
    ensures damaged { result ≡ Err Fault.Damaged → IsNoNumber rows.now }
    ensures no_device { result ≢ Err Fault.Device }
{
    let Some(row) = rows.first() else {
        return Ok(0);
    };
    if row.column_count() != 1 {
        return Err(Fault::Damaged);
    }
    let number: Ordinal = column(alloc, row, 0)?;
    Ok(number.number())
}

/// Puts the rows of edition 2, in the open transaction.
fn put_all<S: Alter>(
    alloc: Global,
    tx: &mut Transaction<'_, S>,
    reading: Reading,
    row: &BookRow,
) -> Result<(), Fault>
    requires inside { HasCleanDisk (state S.Store tx.old.conn.now)
        → IsTrue (state S.Store tx.old.conn.now).in_transaction }
    requires row { row.now ≡ this_edition }
    requires numbers { AreNumbers reading.openings.items }
    ensures same_reference { tx.new.conn.ghost_name ≡ tx.old.conn.ghost_name }
    ensures opened { HasCleanDisk (state S.Store tx.new.conn.now)
        → OnOk result (IsTrue (state S.Store tx.new.conn.now).is_open) }
    ensures puts { PutsRows (with_all reading.openings.items reading.entries)
        (2 + length reading.openings.items) (IsFullForAll reading.openings.items reading.entries)
        (state S.Store tx.old.conn.now) (state S.Store tx.new.conn.now) result }
{
    let Reading { entries, openings } = reading;
    let writes = writes_of(alloc, openings)?;
    write_all(tx, &writes)?;
    put_marks(tx, entries, row)
}

/// Puts the place of migration and the row of the edition.
fn put_marks<S: Alter>(
    tx: &mut Transaction<'_, S>,
    entries: u32,
    row: &BookRow,
) -> Result<(), Fault>
    requires inside { HasCleanDisk (state S.Store tx.old.conn.now)
        → IsTrue (state S.Store tx.old.conn.now).in_transaction }
    requires row { row.now ≡ this_edition }
    ensures same_reference { tx.new.conn.ghost_name ≡ tx.old.conn.ghost_name }
    ensures opened { HasCleanDisk (state S.Store tx.new.conn.now)
        → OnOk result (IsTrue (state S.Store tx.new.conn.now).is_open) }
    ensures puts { PutsRows (with_marks entries) 2
        (λ tables before. IsFullForMarks entries tables before 0)
        (state S.Store tx.old.conn.now) (state S.Store tx.new.conn.now) result }
{
    migration::put(tx, &MigrationRow { entries })?;
    book::put(tx, row)
}

/// Returns the writes of the openings.
fn writes_of(alloc: Global, openings: Vec<LotOpening>) -> Result<Vec<Write>, AllocError>
    requires numbers { AreNumbers openings.items }
    ensures ok { IfOk result (λ writes. writes.items ≡ opening_writes openings.items) }
{
    let mut writes = Vec::new(alloc);
    'each: for it in openings {
        writes.push(opening_write(it))?;
    }
    Ok(writes)
}

/// Returns the write of an opening.
fn opening_write(it: LotOpening) -> Write
    requires number { IsOpeningNumber it.opening }
    ensures { result ≡ Opening (row_of_opening it) }
{
    let Some(opening) = OpeningNumber::new(it.opening) else {
        unreachable!()
    };
    Write::Opening(OpeningRow {
        account: it.account,
        commodity: it.commodity,
        lot: it.lot,
        opening,
    })
}
