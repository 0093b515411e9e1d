//! A dump is read and judged in one transaction, and one commit makes the book.
ghost use Rattle.std.specs.Prelude.{◌≡◌, ◌≢◌, [], Err, IfErr, IfOk, IsTrue, None, OnErr, OnOk, false, flat_map, map};
ghost use Rattle.lot_dump.specs.Form.{IsHead};
ghost use Rattle.lot_parts.specs.Dump.{Dump, IsUnchanged};
ghost use Rattle.lot_parts.specs.Sum.{IsSumOf, SaysOtherwise};
ghost use Rattle.lot_io.specs.Writes.{HasFailed, NoneFailed};
ghost use Rattle.lot_report.specs.Written.{WritesLine};
ghost use Rattle.lot_restore.specs.Lines.{unmet_line};
ghost use Rattle.lot_restore.specs.Restoring.{Fails, FailsBehind, FailsInside, IsBehindAll, IsFresh, JudgesWhole, MayMake, RestoresDump, outcome_of, restored_outcome, terms_of};
ghost use Rattle.lot_restore.specs.Stopped.{ReadsIn, SaysSome, SaysSomeBehind};
ghost use Rattle.lot_table.specs.Shape.{schema_of};
ghost use Rattle.lot_store.specs.Step.{LeavesTables};
ghost use Rattle.sqlite.specs.Held.{state};
ghost use Rattle.sqlite.specs.State.{HasCleanDisk, IsLive, KeepsCommit, Survives};
ghost use Rattle.lot_io.specs.Reads.{reads_between};

use crate::fault::RestoreFault;
use crate::restoration::{Refused, Restoration};
use crate::restorer::Restorer;
use crate::said::print_unmet;
use crate::tables::begin;
use lot_dump::Head;
use lot_io::{CountedRead, CountedWrite};
use lot_parts::{DumpCommands, Next, Sum, SumFault};
use lot_report::PrintFault;
use lot_store::{CreateFault, is_empty};
use lot_without::{Strictness, Tolerance, Without};
use sqlite::{Alter, Connection, Error, ErrorCode, Transaction};
use std::alloc::{AllocError, Global};

/// How a dump is restored.
#[derive(Clone, Copy)]
pub struct Restoring<'a> {
    /// Which entries are left out.
    pub without: &'a [Without],
    pub strictness: Strictness,
    pub tolerance: Tolerance,
}

/// What came of a dump that was read to its end.
#[derive(Clone, Copy, Debug, PartialEq, Eq)]
pub enum Restored {
    /// The book is made, of all commands that aren't left out.
    Whole,
    /// The book is made, and some of these were refused.
    InPart,
    /// Nothing is made: some were refused, or an entry that was to be left out isn't there.
    NotMade,
}

/// Makes a book of a dump, in one commit, in a database without tables.
///
/// Each command is judged again under its own key, up to the place of migration by edition 1 and then by edition 2, to the end
/// of the dump. Of one that is refused a line is written, and behind all one for each option that leaves out no entry. Nothing is
/// flushed.
///
/// The error is one of these, and nothing is made then, or after `InDoubt` the book, or nothing. The lines of the first commands
/// are written then, or a part of them.
///
/// - `Book(NotABook)`: the database has tables. Nothing was read;
/// - `Book(Device)`: the disk failed, or the database has no room for what a command writes;
/// - `Book(InDoubt)`: the commit failed;
/// - `Book(Memory)`: out of memory;
/// - `Text`: the input is no dump of commands, or wasn't read;
/// - `Sum`: the dump was changed after it was written, and should not have been;
/// - `Write`: the writer failed.
pub fn restore<S: Alter, R: CountedRead, W: CountedWrite>(
    alloc: Global,
    conn: &mut Connection<S>,
    asked: &Restoring<'_>,
    reader: &mut R,
    writer: &mut W,
) -> Result<Restored, RestoreFault>
    requires outside { conn.old.in_transaction ≡ false }
    requires unlimited { conn.old.step_limit ≡ None }
    ensures outside { conn.new.in_transaction ≡ false }
    ensures empty { OnOk result ((state S.Store conn.old).now.schema ≡ schema_of []) }
    ensures other { (state S.Store conn.old).now.schema ≢ schema_of []
        → result ≡ Err (RestoreFault.Book CreateFault.NotABook) }
    ensures restores { IfOk result (RestoresDump (terms_of asked.now) (R.remaining reader.old)
        (W.contents writer.old) (W.contents writer.new)
        (state S.Store conn.old) (state S.Store conn.new)) }
    ensures unchanged { HasCleanDisk (state S.Store conn.new)
        → OnErr result (LeavesTables (state S.Store conn.old) (state S.Store conn.new)) }
    ensures fails { IfErr result (Fails (terms_of asked.now) (R.remaining reader.old)
        (state S.Store conn.old) (state S.Store conn.new) (W.calls writer.new)) }
    ensures read { ReadsIn result
        (reads_between (R.calls reader.old) (R.calls reader.new)) }
    ensures said { OnErr result (SaysSome asked.now.without.now (R.remaining reader.old)
        (W.contents writer.old) (W.contents writer.new) (state S.Store conn.new)) }
    ensures none_failed { OnOk result (NoneFailed (W.calls writer.old) (W.calls writer.new)) }
    ensures crash { Survives (state S.Store conn.old) (state S.Store conn.new)
        (MayMake (terms_of asked.now) (R.remaining reader.old) result) }
{
    // Outside a transaction the tables are those of the last commit.
    let _settled = conn.is_autocommit();
    if !is_empty(conn.schema()) {
        return Err(RestoreFault::Book(CreateFault::NotABook));
    }
    // While the connection is open, its database is sound.
    let _sound = conn.schema();
    let mut tx = conn.transaction();
    match judge_whole(alloc, &mut tx, asked, reader, writer) {
        Ok(Restored::NotMade) => {
            tx.rollback();
            Ok(Restored::NotMade)
        }
        Ok(Restored::Whole) => after_commit(tx.commit(), Restored::Whole),
        Ok(Restored::InPart) => after_commit(tx.commit(), Restored::InPart),
        Err(fault) => {
            tx.rollback();
            Err(fault)
        }
    }
}

/// Returns what came of a dump whose book was to be committed.
fn after_commit(outcome: Result<(), Error>, made: Restored) -> Result<Restored, RestoreFault>
    ensures { result ≡ restored_outcome made outcome }
{
    match outcome {
        Ok(()) => Ok(made),
        Err(Error::SqliteFailure(ErrorCode::OutOfMemory)) => {
            Err(RestoreFault::Book(CreateFault::Memory))
        }
        Err(_) => Err(RestoreFault::Book(CreateFault::InDoubt)),
    }
}

/// Makes the tables of a book in the open transaction, and judges the commands of a dump there, to its end. Returns what is to come
/// of them.
///
/// The contract is about a database that had no table. After an error the last commit stands, and the caller drops the
/// transaction.
fn judge_whole<S: Alter, R: CountedRead, W: CountedWrite>(
    alloc: Global,
    tx: &mut Transaction<'_, S>,
    asked: &Restoring<'_>,
    reader: &mut R,
    writer: &mut W,
) -> Result<Restored, RestoreFault>
    requires inside { HasCleanDisk (state S.Store tx.old.conn.now)
        → IsTrue (state S.Store tx.old.conn.now).in_transaction }
    requires unlimited { tx.old.conn.now.step_limit ≡ None }
    requires live { IsLive (state S.Store tx.old.conn.now) }
    requires fresh { IsTrue (state S.Store tx.old.conn.now).is_open
        → IsFresh (state S.Store tx.old.conn.now) }
    ensures same_reference { tx.new.conn.ghost_name ≡ tx.old.conn.ghost_name }
    ensures judges { IfOk result (JudgesWhole (terms_of asked.now)
        (R.remaining reader.old) (W.contents writer.old) (W.contents writer.new)
        (state S.Store tx.new.conn.now)) }
    ensures inside { HasCleanDisk (state S.Store tx.new.conn.now)
        → OnOk result (IsTrue (state S.Store tx.new.conn.now).in_transaction) }
    ensures kept { HasCleanDisk (state S.Store tx.new.conn.now)
        → KeepsCommit (state S.Store tx.old.conn.now) (state S.Store tx.new.conn.now) }
    ensures crash { Survives (state S.Store tx.old.conn.now) (state S.Store tx.new.conn.now)
        (λ _. ⊥) }
    ensures fails { IfErr result (FailsInside (terms_of asked.now) (R.remaining reader.old)
        (state S.Store tx.old.conn.now) (state S.Store tx.new.conn.now) (W.calls writer.new)) }
    ensures read { ReadsIn result
        (reads_between (R.calls reader.old) (R.calls reader.new)) }
    ensures said { OnErr result (SaysSome asked.now.without.now (R.remaining reader.old)
        (W.contents writer.old) (W.contents writer.new)
        (state S.Store tx.new.conn.now)) }
    ensures none_failed { OnOk result (NoneFailed (W.calls writer.old) (W.calls writer.new)) }
{
    begin(alloc, tx)?;
    let (head, mut commands) = DumpCommands::begin(alloc, reader)?;
    let mut restoration = Restoration {
        restorer: Restorer {
            kept: None,
            place: head.place,
        },
        without: asked.without,
        unmet: all_of(alloc, asked.without)?,
        refused: Refused::None,
    };
    let sum = judge_all(alloc, tx, &mut commands, reader, &mut restoration, writer)?;
    compare(asked.strictness, &sum, head)?;
    print_all_unmet(writer, &restoration.unmet)?;
    Ok(outcome(asked.tolerance, &restoration.unmet, restoration.refused))
}

/// Judges the commands that are left of a dump, one after another, in the open transaction. Returns what was found at the end.
///
/// After an error the last commit stands, and the caller drops the transaction.
fn judge_all<S: Alter, R: CountedRead, W: CountedWrite>(
    alloc: Global,
    tx: &mut Transaction<'_, S>,
    commands: &mut DumpCommands,
    reader: &mut R,
    restoration: &mut Restoration<'_>,
    writer: &mut W,
) -> Result<Sum, RestoreFault>
    requires inside { HasCleanDisk (state S.Store tx.old.conn.now)
        → IsTrue (state S.Store tx.old.conn.now).in_transaction }
    requires unlimited { tx.old.conn.now.step_limit ≡ None }
    ensures same_reference { tx.new.conn.ghost_name ≡ tx.old.conn.ghost_name }
    ensures inside { HasCleanDisk (state S.Store tx.new.conn.now)
        → OnOk result (IsTrue (state S.Store tx.new.conn.now).in_transaction) }
    ensures terms { restoration.new.without ≡ restoration.old.without }
    ensures judges { IfOk result (λ sum. IsBehindAll sum
        (record {
          known = R.remaining reader.old;
          reading = commands.old.dump;
          written = W.contents writer.old;
          made = restoration.old;
          state = state S.Store tx.old.conn.now;
        })
        (record {
          known = R.remaining reader.new;
          reading = commands.new.dump;
          written = W.contents writer.new;
          made = restoration.new;
          state = state S.Store tx.new.conn.now;
        })) }
    ensures fails { IfErr result (FailsBehind
        (record {
          known = R.remaining reader.old;
          reading = commands.old.dump;
          written = W.contents writer.old;
          made = restoration.old;
          state = state S.Store tx.old.conn.now;
        })
        (record {
          known = R.remaining reader.new;
          reading = commands.new.dump;
          written = W.contents writer.new;
          made = restoration.new;
          state = state S.Store tx.new.conn.now;
        })
        (W.calls writer.new)) }
    ensures kept { HasCleanDisk (state S.Store tx.new.conn.now)
        → KeepsCommit (state S.Store tx.old.conn.now) (state S.Store tx.new.conn.now) }
    ensures crash { Survives (state S.Store tx.old.conn.now) (state S.Store tx.new.conn.now)
        (λ _. ⊥) }
    ensures read { ReadsIn result
        (reads_between (R.calls reader.old) (R.calls reader.new)) }
    ensures said { OnErr result (SaysSomeBehind
        (record {
          known = R.remaining reader.old;
          reading = commands.old.dump;
          written = W.contents writer.old;
          made = restoration.old;
          state = state S.Store tx.old.conn.now;
        })
        (W.contents writer.new) (state S.Store tx.new.conn.now)) }
    ensures none_failed { OnOk result (NoneFailed (W.calls writer.old) (W.calls writer.new)) }
{
    'commands: for _ in 0..u64::MAX {
        match commands.next(alloc, reader)? {
            Next::Command(dumped) => restoration.take(alloc, tx, &dumped, writer)?,
            Next::End(sum) => return Ok(sum),
        }
    }
    // No dump has so many commands.
    Err(RestoreFault::Book(CreateFault::Memory))
}

/// Compares what was found of a dump with what it says, unless it may have been edited.
fn compare(strictness: Strictness, sum: &Sum, head: Head) -> Result<(), SumFault>
    ensures unchanged { OnOk result (strictness ≡ Strictness.Unchanged → (dump : Dump)
        → IsSumOf sum.now dump → dump.head ≡ head → IsHead head → IsUnchanged dump) }
    ensures fault { IfErr result (λ fault. (strictness ≡ Strictness.Unchanged)
        × ((dump : Dump) → dump.head ≡ head → SaysOtherwise dump sum.now fault)) }
{
    match strictness {
        Strictness::Unchanged => sum.compare(head),
        Strictness::Edited => Ok(()),
    }
}

/// Returns all of these, of which none has left out an entry so far.
fn all_of(alloc: Global, without: &[Without]) -> Result<Vec<&Without>, AllocError>
    ensures { IfOk result (λ all. map (λ it. it.now) all.items ≡ without.now) }
{
    Ok(without.iter().collect(alloc)?)
}

/// Writes a line for each option that leaves out no entry.
fn print_all_unmet<W: CountedWrite>(writer: &mut W, unmet: &[&Without]) -> Result<(), PrintFault>
    ensures bytes { WritesLine (W.contents writer.old) (W.contents writer.new) result
        (flat_map (λ it. unmet_line it.now) unmet.now) }
    ensures fault { IfErr result (λ fault. fault ≡ PrintFault.Write) }
    ensures cause { OnErr result (HasFailed (W.calls writer.new)) }
    ensures none_failed { OnOk result (NoneFailed (W.calls writer.old) (W.calls writer.new)) }
{
    for it in unmet.iter() {
        print_unmet(writer, it)?;
    }
    Ok(())
}

/// Returns what comes of a dump: of it this was left out by nothing, and so much refused.
fn outcome(tolerance: Tolerance, unmet: &[&Without], refused: Refused) -> Restored
    ensures { result ≡ outcome_of tolerance (map (λ it. it.now) unmet.now) refused }
{
    if !unmet.is_empty() {
        return Restored::NotMade;
    }
    match (refused, tolerance) {
        (Refused::None, _) => Restored::Whole,
        (Refused::Some, Tolerance::KeepGoing) => Restored::InPart,
        (Refused::Some, Tolerance::AllAccepted) => Restored::NotMade,
    }
}
