ghost use Rattle.std.specs.Prelude.{◌≡◌, ◌≢◌, ◌+◌, ◌<◌, ◌^◌, [], ◌∷◌, length, IsOk, IsTrue, OnErr, option_copied};
ghost use Rattle.lot_report.specs.Printed.{reply};
ghost use Rattle.lot_io.specs.Writes.{HasFailed, IsFlushed, writes_between};
ghost use Rattle.lot_store.specs.Run.{FlushesLine, IsWrittenOut, IsWrittenOutAs, RepliesTo, StopsAtOnce, StopsWith, WritesOut, count_refused, flush_outcome};
ghost use Rattle.lot_store.specs.Turned.{RunsTurned};
ghost use Rattle.lot_store.specs.declared.run.Ending.TheVariants.{Stopped};
ghost use Rattle.sqlite.specs.Held.{state};
ghost use Rattle.sqlite.specs.Tree.{Trees};

use crate::book::{Book, Condition};
use crate::fault::StoreFault;
use crate::turn::untaken_on;
use itoa::Buffer;
use lot_command::{Command, Key};
use lot_completion::Watch;
use lot_io::CountedWrite;
use lot_ledger::Verdict;
use lot_load::Kept;
use lot_report::{PrintFault, print_reply, print_texts};
use lot_rounding::{Asked, Rounding};
use sqlite::Alter;
use std::io;

/// How a run ended.
#[derive(Clone, Copy, Debug, PartialEq, Eq)]
pub enum Ending {
    /// All commands were applied and replied to.
    Complete,
    /// It stopped at a fault, whose line is written.
    Stopped(StoreFault),
    /// The writer failed at the reply to a command that was applied, or at the line of a fault.
    Output,
}

/// How far a run came, and how it ended.
#[derive(Clone, Copy, Debug, PartialEq, Eq)]
pub struct RunEnd {
    /// How many replies were written.
    pub replied: usize,
    /// How many of these say that the command was refused.
    pub refused: usize,
    pub ending: Ending,
}

impl<S: Alter> Book<S> {
    /// Applies commands in their order, each in one commit. It writes a reply to each before it begins the next one. The first
    /// command has the number `from`. Returns how many were replied to, and how the run ended.
    ///
    /// Each command is judged on what is known of the book from the commands before it, and on the further rows that it
    /// touches. The run stops at the first fault, and writes its line with the number of the command. It also stops where the
    /// writer fails. If the book needs reopening, even an empty run stops with `NeedsReopen` at `from`.
    ///
    /// With an account for crumbs another command may be judged in the place of what was handed in, and be the entry. `watch` is
    /// told what becomes of the crumbs.
    ///
    /// Where the writer failed at a reply, the command of that reply was applied.
    pub fn run<W: CountedWrite, N: Watch>(
        &mut self,
        commands: &[(Key, Asked)],
        rounding: Option<&Rounding>,
        from: usize,
        writer: &mut W,
        watch: &mut N,
    ) -> RunEnd
        requires { length commands.now + from < 2 ^ 64 }
        ensures runs { RunsTurned (option_copied rounding.entry) commands.now from
            (state S.Store self.old.conn) (state S.Store self.new.conn)
            (W.contents writer.old) (W.contents writer.new)
            self.old.condition self.new.condition result }
        // With the connection open a crash leaves the last commit, and nothing else.
        ensures safe { IsTrue (state S.Store self.new.conn).is_open → (trees : Trees)
            → (state S.Store self.new.conn).may_leave trees
            → trees ≡ (state S.Store self.new.conn).committed.trees }
        ensures spent { self.old.condition ≡ Condition.NeedsReopen
            → StopsAtOnce from result (W.contents writer.old) (W.contents writer.new)
            × (self.new ≡ self.old) }
        ensures usable { self.old.condition ≡ Condition.Ready
            → result.ending ≢ Stopped StoreFault.NeedsReopen }
        // Each line is flushed as it is written, and the output stops a run only where the writer failed. No call is made
        // again that failed, but for one that was interrupted.
        ensures output { IsFlushed (W.calls writer.old) → IsWrittenOut result.ending
            (writes_between (W.calls writer.old) (W.calls writer.new)) }
    {
        if let Err(fault) = self.ready() {
            return RunEnd {
                replied: 0,
                refused: 0,
                ending: stop(writer, from, fault),
            };
        }
        let mut kept = None;
        let mut refused = 0;
        'commands: for (index, (key, asked)) in commands.iter().enumerate() {
            let number = from + index;
            let turn = match self.turn(&mut kept, rounding, key, asked) {
                Ok(turn) => turn,
                Err(fault) => {
                    return RunEnd {
                        replied: index,
                        refused,
                        ending: stop(writer, number, fault),
                    };
                }
            };
            match self.reply(&mut kept, number, key, turn.judged(asked), writer) {
                Ok(verdict) => {
                    refused += refusals(&verdict);
                    let note = match rounding {
                        Some(_) => turn.told(&verdict),
                        None => untaken_on(
                            self.allocator(),
                            &kept,
                            &asked.command,
                            &verdict,
                            watch,
                        ),
                    };
                    if let Some(note) = note {
                        watch.tell(number, note);
                    }
                }
                Err(ending) => {
                    return RunEnd {
                        replied: index,
                        refused,
                        ending,
                    };
                }
            }
        }
        RunEnd {
            replied: commands.len(),
            refused,
            ending: Ending::Complete,
        }
    }

    /// Applies the command of that number, on what is kept of the book, and writes the reply, or the line of the fault.
    fn reply<W: CountedWrite>(
        &mut self,
        kept: &mut Option<Kept>,
        number: usize,
        key: &Key,
        command: &Command,
        writer: &mut W,
    ) -> Result<Verdict, Ending>
        requires { self.old.condition ≡ Condition.Ready }
        ensures replies { RepliesTo kept.old kept.new key.now command.now number
            (state S.Store self.old.conn) (state S.Store self.new.conn)
            (W.contents writer.old) (W.contents writer.new) self.new.condition result }
        ensures safe { IsTrue (state S.Store self.new.conn).is_open → (trees : Trees)
            → (state S.Store self.new.conn).may_leave trees
            → trees ≡ (state S.Store self.new.conn).committed.trees }
        ensures ready { IsOk result → self.new.condition ≡ Condition.Ready }
        ensures output { IsWrittenOutAs result
            (writes_between (W.calls writer.old) (W.calls writer.new)) }
    {
        match self.apply(kept, key, command) {
            Ok(verdict) => {
                write_reply(writer, number, &verdict)?;
                Ok(verdict)
            }
            Err(fault) => Err(stop(writer, number, fault)),
        }
    }
}

/// Returns 1 for a refusal, and 0 for any other verdict.
fn refusals(verdict: &Verdict) -> usize
    ensures { result ≡ count_refused (verdict.now ∷ []) }
{
    match verdict {
        Verdict::Refused(_) => 1,
        Verdict::Accepted | Verdict::Repeated => 0,
    }
}

/// Writes a reply out. The error is that the writer failed.
fn write_reply<W: CountedWrite>(
    writer: &mut W,
    number: usize,
    verdict: &Verdict,
) -> Result<(), Ending>
    ensures line { WritesOut (W.contents writer.old) (W.contents writer.new)
        (reply number verdict.now) result }
    ensures output { IsWrittenOutAs result
        (writes_between (W.calls writer.old) (W.calls writer.new)) }
{
    let printed = print_reply(writer, number, verdict);
    flush_line(writer, printed)
}

/// Writes the line of the fault at which a run stops out, and returns how it ended.
fn stop<W: CountedWrite>(writer: &mut W, number: usize, fault: StoreFault) -> Ending
    ensures line { StopsWith number fault (W.contents writer.old) (W.contents writer.new) result }
    ensures output { IsWrittenOut result
        (writes_between (W.calls writer.old) (W.calls writer.new)) }
{
    let mut digits = Buffer::new();
    let texts = [digits.format(number), " fault ", fault.name(), "\n"];
    let printed = print_texts(writer, &texts);
    match flush_line(writer, printed) {
        Ok(()) => Ending::Stopped(fault),
        Err(ending) => ending,
    }
}

/// Flushes a line that was printed.
fn flush_line<W: CountedWrite>(
    writer: &mut W,
    printed: Result<(), PrintFault>,
) -> Result<(), Ending>
    ensures line { FlushesLine printed (W.contents writer.old) (W.contents writer.new) result }
    ensures output { OnErr printed (HasFailed (W.calls writer.old))
        → IsWrittenOutAs result (writes_between (W.calls writer.old) (W.calls writer.new)) }
{
    match printed {
        Ok(()) => flushed(writer.flush_counted()),
        Err(_) => Err(Ending::Output),
    }
}

/// Returns the outcome of a flush, as the run is told it.
fn flushed(outcome: io::Result<()>) -> Result<(), Ending>
    ensures { result ≡ flush_outcome outcome }
{
    match outcome {
        Ok(()) => Ok(()),
        Err(_) => Err(Ending::Output),
    }
}
