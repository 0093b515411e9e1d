//! The replies to commands that were applied all or none, written behind their commit.
ghost use Rattle.std.specs.Prelude.{
  ◌≡◌,
  ◌≤◌,
  ◌∷◌,
  [],
  false,
  IsTrue,
  None,
  OnErr,
  OnOk,
  length,
  option_copied,
};
ghost use Rattle.lot_io.specs.Writes.{HasFailed, NoneFailed, writes_between};
ghost use Rattle.lot_report.specs.Written.{WritesLine};
ghost use Rattle.lot_atomic.specs.Replies.{
  RunsAll,
  WritesEachReply,
  WritesLast,
  WritesReplies,
  ending_of,
  last_line,
  number_at,
  replied_to,
};
ghost use Rattle.lot_store.specs.Run.{
  FlushesLine,
  IsWrittenOut,
  IsWrittenOutAs,
  count_refused,
  fault_line,
  flush_outcome,
};
ghost use Rattle.sqlite.specs.Held.{state};
ghost use Rattle.sqlite.specs.State.{HasCleanDisk};
ghost use Rattle.sqlite.specs.Tree.{Trees};

use crate::all_or_none::{AllOrNone, Ended, apply_all};
use crate::look::Look;
use itoa::Buffer;
use lot_command::Key;
use lot_completion::Watch;
use lot_io::CountedWrite;
use lot_ledger::Verdict;
use lot_report::{PrintFault, print_reply, print_texts};
use lot_rounding::{Asked, Rounding};
use lot_store::{Ending, RunEnd, StoreFault};
use sqlite::{Alter, Connection};
use std::alloc::Global;
use std::io;

/// How far replies were written.
#[derive(Drop)]
struct Replied {
    /// How many were written whole.
    replied: usize,
    /// How many of these say that the command was refused.
    refused: usize,
    printed: Result<(), PrintFault>,
}

/// Applies commands all or none, as `apply_all` does. Then it writes what came of them, as
/// `write_replies` does: nothing is written before their commit.
///
/// Where the writer failed, the commands may be kept all the same.
pub fn run_all<S: Alter, W: CountedWrite, N: Watch + Look>(
    alloc: Global,
    conn: &mut Connection<S>,
    commands: &[(Key, Asked)],
    numbers: &[usize],
    rounding: Option<&Rounding>,
    writer: &mut W,
    watch: &mut N,
) -> RunEnd
    requires outside { HasCleanDisk (state S.Store conn.old) → conn.old.in_transaction ≡ false }
    requires unlimited { conn.old.step_limit ≡ None }
    requires numbers { length numbers.now ≡ length commands.now }
    ensures outside { HasCleanDisk (state S.Store conn.new) → conn.new.in_transaction ≡ false }
    ensures runs { RunsAll (option_copied rounding.entry) commands.now numbers.now
        (state S.Store conn.old) (state S.Store conn.new)
        (W.contents writer.old) (W.contents writer.new) result }
    // With the connection open a crash leaves the last commit, and nothing else.
    ensures safe { IsTrue (state S.Store conn.new).is_open
        → (trees : Trees) → (state S.Store conn.new).may_leave trees
        → trees ≡ (state S.Store conn.new).committed.trees }
    // All that is written is flushed, and the writing ends early only where the writer failed. No
    // call is made again that failed, but for one that was interrupted.
    ensures output { IsWrittenOut result.ending
        (writes_between (W.calls writer.old) (W.calls writer.new)) }
{
    let applied = apply_all(alloc, conn, commands, numbers, rounding, watch);
    write_replies(&applied, numbers, writer)
}

/// Writes what came of commands that were applied all or none, and flushes it once, behind all of
/// it. Of `numbers` each command has the one in its place. Returns how many replies were written,
/// and how that ended.
///
/// - Kept or dropped: the reply to each command. Where one says that it was refused, nothing is
///   kept, and the others say what their commands were judged to be.
/// - A fault at a command: the replies to those that were judged before it, then its line, with its
///   number. Nothing is kept.
/// - A fault where all were judged, so of their commit: no reply, since nobody knows whether the
///   verdicts hold; its line alone, with the number of the first.
///
/// It stops where the writer fails. A prefix of all that is then written, or all of it, not
/// flushed. Only replies that were written whole are counted.
pub fn write_replies<W: CountedWrite>(
    applied: &AllOrNone,
    numbers: &[usize],
    writer: &mut W,
) -> RunEnd
    requires numbers { length applied.now.verdicts.items ≤ length numbers.now }
    ensures writes { WritesReplies numbers.now applied.now.verdicts.items applied.now.ended result
        (W.contents writer.old) (W.contents writer.new) }
    // All that is written is flushed, and the writing ends early only where the writer failed. No
    // call is made again that failed, but for one that was interrupted.
    ensures output { IsWrittenOut result.ending
        (writes_between (W.calls writer.old) (W.calls writer.new)) }
{
    let verdicts = replied_to(applied, numbers.len());
    let so_far = write_each(writer, numbers, verdicts);
    let ending = match so_far.printed {
        Ok(()) => write_last(writer, number_at(numbers, so_far.replied), applied.ended),
        Err(_) => Ending::Output,
    };
    RunEnd {
        replied: so_far.replied,
        refused: so_far.refused,
        ending,
    }
}

/// Returns the verdicts that are replied to, of so many commands.
fn replied_to(applied: &AllOrNone, count: usize) -> &[Verdict]
    ensures is { result.now
        ≡ replied_to count applied.now.ended applied.now.verdicts.items }
    ensures few { length result.now ≤ length applied.now.verdicts.items }
{
    match applied.ended {
        Ended::Failed(_) if applied.verdicts.len() == count => &[],
        Ended::Kept | Ended::Dropped | Ended::Failed(_) => applied.verdicts.as_slice(),
    }
}

/// Returns the number of the command behind so many others: that of the first behind the last one,
/// and 1 of no commands.
fn number_at(numbers: &[usize], place: usize) -> usize
    ensures { result ≡ number_at numbers.now place }
{
    match (numbers.get(place), numbers.first()) {
        (Some(number), _) | (None, Some(number)) => *number,
        (None, None) => 1,
    }
}

/// Writes the replies to verdicts, each with its number, up to a fault of the writer. Nothing is
/// flushed.
fn write_each<W: CountedWrite>(writer: &mut W, numbers: &[usize], verdicts: &[Verdict]) -> Replied
    requires numbers { length verdicts.now ≤ length numbers.now }
    ensures lines { WritesEachReply numbers.now verdicts.now
        (W.contents writer.old) (W.contents writer.new)
        result.replied result.refused result.printed }
    ensures cause { OnErr result.printed (HasFailed (W.calls writer.new)) }
    ensures none_failed { OnOk result.printed
        (NoneFailed (W.calls writer.old) (W.calls writer.new)) }
{
    let mut refused = 0;
    'verdicts: for (index, verdict) in verdicts.iter().enumerate() {
        let number = numbers[index];
        match print_reply(writer, number, verdict) {
            Ok(()) => refused += refusals(verdict),
            Err(fault) => {
                return Replied {
                    replied: index,
                    refused,
                    printed: Err(fault),
                };
            }
        }
    }
    Replied {
        replied: verdicts.len(),
        refused,
        printed: Ok(()),
    }
}

/// Returns 1 for a refusal, and 0 for any other verdict.
fn refusals(verdict: &Verdict) -> usize
    ensures { result ≡ count_refused (verdict.now ∷ []) }
{
    match verdict {
        Verdict::Refused(_) => 1,
        Verdict::Accepted | Verdict::Repeated => 0,
    }
}

/// Writes what stands behind the replies, and flushes all. Returns how that ended.
fn write_last<W: CountedWrite>(writer: &mut W, number: usize, ended: Ended) -> Ending
    ensures line { WritesLast number ended (W.contents writer.old) (W.contents writer.new) result }
    ensures output { IsWrittenOut result
        (writes_between (W.calls writer.old) (W.calls writer.new)) }
{
    let printed = print_last(writer, number, ended);
    match flush_line(writer, printed) {
        Ok(()) => ending_of(ended),
        Err(ending) => ending,
    }
}

/// Returns how a run ends of which all is written.
fn ending_of(ended: Ended) -> Ending
    ensures { result ≡ ending_of ended }
{
    match ended {
        Ended::Kept | Ended::Dropped => Ending::Complete,
        Ended::Failed(fault) => Ending::Stopped(fault),
    }
}

/// Writes what stands behind the replies: nothing, or the line of a fault.
fn print_last<W: CountedWrite>(
    writer: &mut W,
    number: usize,
    ended: Ended,
) -> Result<(), PrintFault>
    ensures bytes { WritesLine (W.contents writer.old) (W.contents writer.new) result
        (last_line number ended) }
    ensures cause { OnErr result (HasFailed (W.calls writer.new)) }
    ensures none_failed { OnOk result (NoneFailed (W.calls writer.old) (W.calls writer.new)) }
{
    match ended {
        Ended::Kept | Ended::Dropped => Ok(()),
        Ended::Failed(fault) => print_fault(writer, number, fault),
    }
}

/// Writes the line of a fault.
fn print_fault<W: CountedWrite>(
    writer: &mut W,
    number: usize,
    fault: StoreFault,
) -> Result<(), PrintFault>
    ensures bytes { WritesLine (W.contents writer.old) (W.contents writer.new) result
        (fault_line number fault) }
    ensures cause { OnErr result (HasFailed (W.calls writer.new)) }
    ensures none_failed { OnOk result (NoneFailed (W.calls writer.old) (W.calls writer.new)) }
{
    let mut digits = Buffer::new();
    let texts = [digits.format(number), " fault ", fault.name(), "\n"];
    print_texts(writer, &texts)
}

/// Flushes what was printed.
fn flush_line<W: CountedWrite>(
    writer: &mut W,
    printed: Result<(), PrintFault>,
) -> Result<(), Ending>
    ensures line { FlushesLine printed (W.contents writer.old) (W.contents writer.new) result }
    ensures output { OnErr printed (HasFailed (W.calls writer.old))
        → IsWrittenOutAs result (writes_between (W.calls writer.old) (W.calls writer.new)) }
{
    match printed {
        Ok(()) => flushed(writer.flush_counted()),
        Err(_) => Err(Ending::Output),
    }
}

/// Returns the outcome of a flush, as the run is told it.
fn flushed(outcome: io::Result<()>) -> Result<(), Ending>
    ensures { result ≡ flush_outcome outcome }
{
    match outcome {
        Ok(()) => Ok(()),
        Err(_) => Err(Ending::Output),
    }
}
