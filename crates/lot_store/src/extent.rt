//! How far a book goes: two rows tell it.
ghost use Rattle.std.specs.Prelude.{◌≡◌};
ghost use Rattle.std.specs.Option.{unwrap_or};
ghost use Rattle.lot_rows.specs.Tables.{layout};
ghost use Rattle.lot_stored.specs.StandFor.{AreOfBook};
ghost use Rattle.lot_table.specs.Book.{always};
ghost use Rattle.lot_table.specs.Call.{Answers};
ghost use Rattle.lot_store.specs.Extent.{IsExtent, SaysPlace};
ghost use Rattle.sqlite.specs.Held.{state};

use lot_rows::{entry, migration};
use lot_table::{Fault, Ordinal};
use sqlite::{Alter, Connection};
use std::alloc::Global;

/// How far a book goes.
#[derive(Clone, Copy, Debug, PartialEq, Eq)]
pub struct Extent {
    /// How many entries the book has.
    pub entries: u32,
    /// Its place of migration: how many entries its migration found. It is 0 for a book that was made in edition 2.
    pub place: u32,
}

/// Returns how far a book goes. The error is `Damaged` only where the tables stand for no book.
pub(crate) fn measure<S: Alter>(alloc: Global, conn: &mut Connection<S>) -> Result<Extent, Fault>
    ensures answers { Answers layout IsExtent always AreOfBook
        (state S.Store conn.old) (state S.Store conn.new) result }
{
    let last = entry::greatest(alloc, conn)?;
    let place = place_of(alloc, conn)?;
    Ok(Extent {
        entries: count_to(last),
        place,
    })
}

/// Returns how many entries there are where this one is the last.
fn count_to(last: Option<Ordinal>) -> u32
    ensures { result ≡ unwrap_or last 0 }
{
    match last {
        Some(number) => number.number(),
        None => 0,
    }
}

/// Returns the place of migration.
fn place_of<S: Alter>(alloc: Global, conn: &mut Connection<S>) -> Result<u32, Fault>
    ensures answers { Answers layout SaysPlace always AreOfBook
        (state S.Store conn.old) (state S.Store conn.new) result }
{
    let rows = migration::list(alloc, conn)?;
    let [row] = rows.as_slice() else {
        return Err(Fault::Damaged);
    };
    Ok(row.entries)
}
