//! Applying commands all or none: one transaction judges them in their order, and one commit keeps
//! what it made, or nothing is kept.
ghost use Rattle.std.specs.Prelude.{
  ◌≡◌,
  ◌≤◌,
  ◌⊎◌,
  [],
  false,
  IsTrue,
  None,
  OnOk,
  Some,
  length,
  option_copied,
};
ghost use Rattle.lot_load.specs.Kept.{IsOf};
ghost use Rattle.lot_atomic.specs.AllOrNone.{
  AppliesAll,
  FailsByText,
  JudgesAllAsked,
  JudgesAsked,
  JudgesByText,
  JudgesNext,
  JudgesPairs,
  comes_to,
  ended_by,
  joined,
  verdict_in,
};
ghost use Rattle.lot_atomic.specs.declared.all_or_none.Ended.TheVariants as end;
ghost use Rattle.lot_store.specs.Apply.{commit_outcome};
ghost use Rattle.sqlite.specs.Held.{state};
ghost use Rattle.sqlite.specs.State.{HasCleanDisk};
ghost use Rattle.sqlite.specs.Tree.{Trees};

use crate::look::Look;
use lot_command::{Command, Key, is_sayable};
use lot_completion::{Note, Watch, untaken};
use lot_ledger::{Edition, Outcome, Stop, Verdict, decide};
use lot_load::{Kept, look_on};
use lot_rounding::{Asked, Rounding};
use lot_store::{StoreFault, turn_with};
use lot_table::Fault;
use lot_write::laws::what_is_written_stands_for_the_book;
use lot_write::{write_all, writes};
use sqlite::{Alter, Connection, Error, ErrorCode, Transaction};
use std::alloc::Global;

/// How commands ended that are applied all or none.
#[derive(Clone, Copy, Debug, PartialEq, Eq)]
pub enum Ended {
    /// None is refused. Those that are accepted are entries now, in one commit; the others were
    /// entries before.
    Kept,
    /// One or more are refused. Nothing is kept.
    Dropped,
    /// A fault came. Nothing is kept, as long as the connection is open. After `InDoubt`, and where
    /// a crash comes after `Memory`, all may be kept.
    Failed(StoreFault),
}

/// What came of commands that are applied all or none.
#[derive(Drop)]
pub struct AllOrNone {
    /// The verdicts on the commands in their order. At a fault they are those on the commands
    /// before it.
    pub verdicts: Vec<Verdict>,
    pub ended: Ended,
}

/// What verdicts come to together.
#[derive(Clone, Copy, Debug, PartialEq, Eq)]
pub(crate) enum Together {
    /// All are of entries that were there before.
    Repeats,
    /// None is refused, and one or more are accepted.
    Accepts,
    /// One or more are refused.
    Refuses,
}

/// Applies commands all or none. Each is judged in their order on what those before it make of the
/// book. Where one is refused, those behind it are judged all the same.
///
/// Where none is refused, one commit makes those that are accepted entries. Where all repeat
/// entries, or one is refused, nothing is committed and no row changes. A crash leaves the book
/// before the commands or the book after all of them, and after `Kept` only the second.
///
/// With an account for crumbs another command may be judged in the place of what was handed in, and
/// be the entry. `watch` is told what becomes of the crumbs as each is judged, whether the commands
/// are kept or not. Of `numbers` each command has the one in its place.
///
/// Where one is refused, `watch` looks at the book that the accepted ones would have made, before
/// that is dropped. It is called once, behind the last command, with all commands, their numbers and
/// their verdicts. It isn't called where the commands are kept, nor where a fault comes.
///
/// On a book a fault is one of these:
///
/// - `Device`: the disk failed, or the database has no room for what the next command writes;
/// - `InDoubt`: all commands were judged and none was refused, and the disk failed in the commit;
/// - `Memory`: out of memory.
///
/// `Damaged` comes only where the tables stand for no book.
pub fn apply_all<S: Alter, N: Watch + Look>(
    alloc: Global,
    conn: &mut Connection<S>,
    commands: &[(Key, Asked)],
    numbers: &[usize],
    rounding: Option<&Rounding>,
    watch: &mut N,
) -> AllOrNone
    requires outside { HasCleanDisk (state S.Store conn.old) → conn.old.in_transaction ≡ false }
    requires unlimited { conn.old.step_limit ≡ None }
    requires numbers { length numbers.now ≡ length commands.now }
    ensures outside { HasCleanDisk (state S.Store conn.new) → conn.new.in_transaction ≡ false }
    ensures applies { AppliesAll (option_copied rounding.entry) commands.now
        (state S.Store conn.old) (state S.Store conn.new) result.verdicts.items result.ended }
    ensures few { length result.verdicts.items ≤ length commands.now }
    // Unless a fault came, each command has its verdict.
    ensures each { (result.ended ≡ end.Kept) ⊎ (result.ended ≡ end.Dropped)
        → length result.verdicts.items ≡ length commands.now }
    // With the connection open a crash leaves the last commit, and nothing else.
    ensures safe { IsTrue (state S.Store conn.new).is_open
        → (trees : Trees) → (state S.Store conn.new).may_leave trees
        → trees ≡ (state S.Store conn.new).committed.trees }
{
    let mut verdicts = Vec::new(alloc);
    let ended = keep_all(
        alloc,
        conn,
        commands,
        numbers,
        rounding,
        watch,
        &mut verdicts,
    );
    AllOrNone { verdicts, ended }
}

/// Applies commands all or none, and puts the verdicts on them.
fn keep_all<S: Alter, N: Watch + Look>(
    alloc: Global,
    conn: &mut Connection<S>,
    commands: &[(Key, Asked)],
    numbers: &[usize],
    rounding: Option<&Rounding>,
    watch: &mut N,
    verdicts: &mut Vec<Verdict>,
) -> Ended
    requires outside { HasCleanDisk (state S.Store conn.old) → conn.old.in_transaction ≡ false }
    requires unlimited { conn.old.step_limit ≡ None }
    requires numbers { length numbers.now ≡ length commands.now }
    requires none { verdicts.old.items ≡ [] }
    ensures outside { HasCleanDisk (state S.Store conn.new) → conn.new.in_transaction ≡ false }
    ensures applies { AppliesAll (option_copied rounding.entry) commands.now
        (state S.Store conn.old) (state S.Store conn.new) verdicts.new.items result }
    ensures few { length verdicts.new.items ≤ length commands.now }
    ensures each { (result ≡ end.Kept) ⊎ (result ≡ end.Dropped)
        → length verdicts.new.items ≡ length commands.now }
{
    // A disk that has lied may have left anything, a transaction too. Outside one the tables are
    // those of the last commit.
    if !conn.is_autocommit() {
        return Ended::Failed(StoreFault::Device);
    }
    let mut tx = conn.transaction();
    match judge_all(alloc, &mut tx, commands, numbers, rounding, watch, verdicts) {
        Ok(Together::Accepts) => after_commit(tx.commit()),
        Ok(Together::Repeats) => {
            tx.rollback();
            Ended::Kept
        }
        Ok(Together::Refuses) => {
            watch.look(&mut tx, commands, numbers, verdicts.as_slice());
            tx.rollback();
            Ended::Dropped
        }
        Err(fault) => {
            tx.rollback();
            Ended::Failed(StoreFault::from(fault))
        }
    }
}

/// Returns how commands ended that one commit was to keep.
fn after_commit(outcome: Result<(), Error>) -> Ended
    ensures { result ≡ ended_by (commit_outcome outcome) }
{
    match outcome {
        Ok(()) => Ended::Kept,
        Err(Error::SqliteFailure(ErrorCode::OutOfMemory)) => Ended::Failed(StoreFault::Memory),
        Err(_) => Ended::Failed(StoreFault::InDoubt),
    }
}

/// Judges commands in their order in the open transaction, and makes those that are accepted
/// entries there. Puts the verdict on each, and returns what they come to together.
///
/// After an error the verdicts are those on the commands before it, and the caller drops the
/// transaction.
fn judge_all<S: Alter, N: Watch>(
    alloc: Global,
    tx: &mut Transaction<'_, S>,
    commands: &[(Key, Asked)],
    numbers: &[usize],
    rounding: Option<&Rounding>,
    watch: &mut N,
    verdicts: &mut Vec<Verdict>,
) -> Result<Together, Fault>
    requires inside { HasCleanDisk (state S.Store tx.old.conn.now)
        → IsTrue (state S.Store tx.old.conn.now).in_transaction }
    requires unlimited { tx.old.conn.now.step_limit ≡ None }
    requires numbers { length numbers.now ≡ length commands.now }
    requires none { verdicts.old.items ≡ [] }
    ensures same_reference { tx.new.conn.ghost_name ≡ tx.old.conn.ghost_name }
    ensures judges { JudgesAllAsked (option_copied rounding.entry) commands.now
        (state S.Store tx.old.conn.now) (state S.Store tx.new.conn.now) verdicts.new.items result }
    ensures few { length verdicts.new.items ≤ length commands.now }
    ensures each { OnOk result (length verdicts.new.items ≡ length commands.now) }
{
    let mut kept = None;
    let mut together = Together::Repeats;
    'commands: for (index, (key, asked)) in commands.iter().enumerate() {
        let number = numbers[index];
        let verdict = judge_asked(alloc, tx, &mut kept, rounding, number, key, asked, watch)?;
        together = together.with(&verdict);
        verdicts.push(verdict)?;
    }
    Ok(together)
}

impl Together {
    /// Returns what verdicts come to with one more.
    fn with(self, verdict: &Verdict) -> Together
        ensures { result ≡ joined self (comes_to verdict.now) }
    {
        match (self, verdict) {
            (Together::Refuses, _) | (_, Verdict::Refused(_)) => Together::Refuses,
            (Together::Accepts, _) | (_, Verdict::Accepted) => Together::Accepts,
            (Together::Repeats, Verdict::Repeated) => Together::Repeats,
        }
    }
}

/// Judges a command that was handed in, or another in its place, as `judge_next` does. `watch` is
/// told what becomes of its crumbs.
fn judge_asked<S: Alter, N: Watch>(
    alloc: Global,
    tx: &mut Transaction<'_, S>,
    kept: &mut Option<Kept>,
    rounding: Option<&Rounding>,
    number: usize,
    key: &Key,
    asked: &Asked,
    watch: &mut N,
) -> Result<Verdict, Fault>
    requires inside { HasCleanDisk (state S.Store tx.old.conn.now)
        → IsTrue (state S.Store tx.old.conn.now).in_transaction }
    requires unlimited { tx.old.conn.now.step_limit ≡ None }
    ensures same_reference { tx.new.conn.ghost_name ≡ tx.old.conn.ghost_name }
    ensures judges { JudgesAsked kept.old kept.new (option_copied rounding.entry)
        (key.now, asked.now)
        (state S.Store tx.old.conn.now) (state S.Store tx.new.conn.now) result }
{
    match rounding {
        Some(rounding) => {
            let (verdict, note) = judge_with(alloc, tx, kept, rounding, key, asked)?;
            tell(watch, number, note);
            Ok(verdict)
        }
        None => {
            let verdict = judge_next(alloc, tx, kept, key, &asked.command)?;
            let note = untaken_on(alloc, kept, &asked.command, &verdict, watch);
            tell(watch, number, note);
            Ok(verdict)
        }
    }
}

/// Returns what would balance a command that came to a verdict on what is kept, where no account takes
/// crumbs and somebody asks for that.
fn untaken_on<N: Watch>(
    alloc: Global,
    kept: &Option<Kept>,
    command: &Command,
    verdict: &Verdict,
    watch: &N,
) -> Option<Note> {
    let view = kept.as_ref()?.view();
    untaken(alloc, view, command, verdict, watch)
}

/// Tells what became of the crumbs of the command of that number, if there is something to tell.
fn tell<N: Watch>(watch: &mut N, number: usize, note: Option<Note>) {
    if let Some(note) = note {
        watch.tell(number, note);
    }
}

/// Judges a command that was handed in, or another in its place, with an account for the crumbs.
/// Returns what there is to tell of them, too.
fn judge_with<S: Alter>(
    alloc: Global,
    tx: &mut Transaction<'_, S>,
    kept: &mut Option<Kept>,
    rounding: &Rounding,
    key: &Key,
    asked: &Asked,
) -> Result<(Verdict, Option<Note>), Fault>
    requires inside { HasCleanDisk (state S.Store tx.old.conn.now)
        → IsTrue (state S.Store tx.old.conn.now).in_transaction }
    requires unlimited { tx.old.conn.now.step_limit ≡ None }
    ensures same_reference { tx.new.conn.ghost_name ≡ tx.old.conn.ghost_name }
    ensures judges { JudgesAsked kept.old kept.new (Some rounding.now)
        (key.now, asked.now) (state S.Store tx.old.conn.now) (state S.Store tx.new.conn.now)
        (verdict_in result) }
{
    let (looked, turn) = turn_with(alloc, tx, kept.take(), rounding, key, asked)?;
    *kept = Some(looked);
    let verdict = judge_next(alloc, tx, kept, key, turn.judged(asked))?;
    let note = turn.told(&verdict);
    Ok((verdict, note))
}

/// Judges a command on what is kept of the book and on what the open transaction has made of its
/// tables. Where it is accepted, it becomes an entry there. Then it keeps what is known of the
/// book.
///
/// After an error nothing is kept, and the caller drops the transaction.
fn judge_next<S: Alter>(
    alloc: Global,
    tx: &mut Transaction<'_, S>,
    kept: &mut Option<Kept>,
    key: &Key,
    command: &Command,
) -> Result<Verdict, Fault>
    requires inside { HasCleanDisk (state S.Store tx.old.conn.now)
        → IsTrue (state S.Store tx.old.conn.now).in_transaction }
    requires unlimited { tx.old.conn.now.step_limit ≡ None }
    ensures same_reference { tx.new.conn.ghost_name ≡ tx.old.conn.ghost_name }
    ensures judges { JudgesNext (IsOf kept.old) (IsOf kept.new) key.now command.now
        (state S.Store tx.old.conn.now) (state S.Store tx.new.conn.now) result }
    ensures text { JudgesByText key.now command.now
        (state S.Store tx.old.conn.now) (state S.Store tx.new.conn.now) result }
    ensures damage { FailsByText key.now
        (state S.Store tx.old.conn.now) (state S.Store tx.new.conn.now) result }
    ensures pairs { JudgesPairs kept.old kept.new command.now
        (state S.Store tx.old.conn.now) (state S.Store tx.new.conn.now) result }
{
    is_sayable(command);
    what_is_written_stands_for_the_book();
    let looked = look_on(alloc, tx, kept.take(), key, command)?;
    match decide(alloc, Edition::Second, looked.view(), command) {
        Ok(Outcome::Accept(change)) => {
            let writes = writes(alloc, looked.view(), key, command, &change)?;
            write_all(tx, &writes)?;
            *kept = looked.record(command, &change).ok();
            Ok(Verdict::Accepted)
        }
        Ok(Outcome::Repeat) => {
            *kept = Some(looked);
            Ok(Verdict::Repeated)
        }
        Err(Stop::Refused(refusal)) => {
            *kept = Some(looked);
            Ok(Verdict::Refused(refusal))
        }
        Err(Stop::Memory) => Err(Fault::Memory),
    }
}
