ghost use Rattle.lot_audit.specs.Checks.{Checks, ChecksWhere};
ghost use Rattle.lot_audit.specs.Judge.{AreOfThisEdition, StandByColumns};
ghost use Rattle.lot_audit.specs.Pass.{SaysPlace};
ghost use Rattle.sqlite.specs.Held.{state};

use crate::compare::agree;
use crate::pass::judge_all;
use crate::watch::{Spot, Table, Watch};
use lot_rows::migration;
use lot_table::Fault;
use sqlite::{Alter, Connection};
use std::alloc::Global;

/// Judges the tables of a database that is marked as a book of this edition, and tells what is
/// looked at. The error is `Damaged` where they stand for no book. It changes nothing.
pub fn judge_book<S: Alter, W: Watch>(
    alloc: Global,
    conn: &mut Connection<S>,
    watch: &mut W,
) -> Result<(), Fault>
    ensures judges { ChecksWhere AreOfThisEdition (λ _ tables. StandByColumns tables)
        (state S.Store conn.old) (state S.Store conn.new) result }
{
    watch.look(Spot::Table(Table::Migration));
    let place = place_of(alloc, conn)?;
    let known = judge_all(alloc, conn, watch, place)?;
    watch.look(Spot::Table(Table::Migration));
    if place > known.replay.view().entries() {
        return Err(Fault::Damaged);
    }
    if !agree(alloc, conn, watch, &known)? {
        return Err(Fault::Damaged);
    }
    Ok(())
}

/// Returns the place of migration.
fn place_of<S: Alter>(alloc: Global, conn: &mut Connection<S>) -> Result<u32, Fault>
    ensures says { Checks SaysPlace (state S.Store conn.old) (state S.Store conn.new) result }
{
    let rows = migration::list(alloc, conn)?;
    let [row] = rows.as_slice() else {
        return Err(Fault::Damaged);
    };
    Ok(row.entries)
}
