//! The commands of a dump, judged one after another in the open transaction that makes the book again.
ghost use Rattle.std.specs.Prelude.{◌≡◌, ◌<◌, IsTrue, None};
ghost use Rattle.lot_book.specs.Refusals.{most_entries};
ghost use Rattle.lot_load.specs.Kept.{IsOf};
ghost use Rattle.lot_restore.specs.Judge.{Enters, JudgesNextBy, RestoresNext};
ghost use Rattle.sqlite.specs.Held.{state};
ghost use Rattle.sqlite.specs.State.{HasCleanDisk};

use crate::place::put_next;
use crate::restorer::Restorer;
use lot_command::{Command, Key, is_sayable};
use lot_ledger::{Edition, Outcome, Stop, Verdict, decide};
use lot_load::{Kept, look_on};
use lot_table::Fault;
use lot_write::laws::{
    what_edition_1_accepts_stands_for_the_book, what_is_written_stands_for_the_book,
};
use lot_write::{Write, write_all, writes};
use sqlite::{Alter, Transaction};
use std::alloc::Global;

impl Restorer {
    /// Judges a command of the dump by the edition of its number, on what the open transaction has made of the tables. Where it
    /// is accepted, it becomes an entry there; behind one of edition 1 the place of migration is one more.
    ///
    /// On a book with that place `Device` comes where the disk failed, or where the database has no room for what the command
    /// writes. `Damaged` comes only where the tables stand for no such book, and else out of memory. After an error the last
    /// commit stands, and the caller drops the transaction.
    pub(crate) fn judge<S: Alter>(
        &mut self,
        alloc: Global,
        tx: &mut Transaction<'_, S>,
        number: u32,
        key: &Key,
        command: &Command,
    ) -> Result<Verdict, Fault>
        requires inside { HasCleanDisk (state S.Store tx.old.conn.now)
            → IsTrue (state S.Store tx.old.conn.now).in_transaction }
        requires unlimited { tx.old.conn.now.step_limit ≡ None }
        ensures same_reference { tx.new.conn.ghost_name ≡ tx.old.conn.ghost_name }
        ensures place { self.new.place ≡ self.old.place }
        ensures restores { RestoresNext self.old self.new number key.now command.now
            (state S.Store tx.old.conn.now) (state S.Store tx.new.conn.now) result }
    {
        let edition = if number <= self.place {
            Edition::First
        } else {
            Edition::Second
        };
        judge_by(alloc, tx, &mut self.kept, edition, key, command)
    }
}

/// Judges a command by an edition on what is kept of the book and on what the open transaction has made of its tables. Where it
/// is accepted, it becomes an entry there. Then it keeps what is known of the book.
///
/// After an error nothing is kept.
fn judge_by<S: Alter>(
    alloc: Global,
    tx: &mut Transaction<'_, S>,
    kept: &mut Option<Kept>,
    edition: Edition,
    key: &Key,
    command: &Command,
) -> Result<Verdict, Fault>
    requires inside { HasCleanDisk (state S.Store tx.old.conn.now)
        → IsTrue (state S.Store tx.old.conn.now).in_transaction }
    requires unlimited { tx.old.conn.now.step_limit ≡ None }
    ensures same_reference { tx.new.conn.ghost_name ≡ tx.old.conn.ghost_name }
    ensures judges { JudgesNextBy edition (IsOf kept.old) (IsOf kept.new) key.now command.now
        (state S.Store tx.old.conn.now) (state S.Store tx.new.conn.now) result }
{
    is_sayable(command);
    what_is_written_stands_for_the_book();
    what_edition_1_accepts_stands_for_the_book();
    let looked = look_on(alloc, tx, kept.take(), key, command)?;
    match decide(alloc, edition, looked.view(), command) {
        Ok(Outcome::Accept(change)) => {
            let writes = writes(alloc, looked.view(), key, command, &change)?;
            enter(tx, edition, looked.view().entries(), &writes)?;
            *kept = looked.record(command, &change).ok();
            Ok(Verdict::Accepted)
        }
        Ok(Outcome::Repeat) => {
            *kept = Some(looked);
            Ok(Verdict::Repeated)
        }
        Err(Stop::Refused(refusal)) => {
            *kept = Some(looked);
            Ok(Verdict::Refused(refusal))
        }
        Err(Stop::Memory) => Err(Fault::Memory),
    }
}

/// Makes the writes of an accepted command behind so many entries, and behind one of edition 1 puts the place of migration.
fn enter<S: Alter>(
    tx: &mut Transaction<'_, S>,
    edition: Edition,
    entries: u32,
    writes: &[Write],
) -> Result<(), Fault>
    requires inside { HasCleanDisk (state S.Store tx.old.conn.now)
        → IsTrue (state S.Store tx.old.conn.now).in_transaction }
    requires room { entries < most_entries }
    ensures same_reference { tx.new.conn.ghost_name ≡ tx.old.conn.ghost_name }
    ensures enters { Enters edition entries writes.now
        (state S.Store tx.old.conn.now) (state S.Store tx.new.conn.now) result }
{
    write_all(tx, writes)?;
    match edition {
        Edition::First => put_next(tx, entries),
        Edition::Second => Ok(()),
    }
}
