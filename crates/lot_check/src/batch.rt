//! The whole check: a text is read, its commands are judged on an empty book, and the replies and the report are written.

ghost use Rattle.std.specs.Prelude.{◌≡◌, ◌⊎◌, ◌≤◌, ℕ, List, length, IfOk, IfSome, IsErrOf, OnErr, OnOk};
ghost use Rattle.std.specs.Io.KnownBytes.{Appends};
ghost use Rattle.lot_stream.specs.Status.{IsStatus};
ghost use Rattle.lot_check.specs.Answer.{IsOutcome, JudgingMayLackMemory, status_of_verdict};
ghost use Rattle.lot_io.specs.Reads.{reads_between};
ghost use Rattle.lot_stream.specs.Input.{longest_input};
ghost use Rattle.lot_check.specs.Way.{Answers, Concludes, JudgesKnown, Reaches, Replies, RunsCommands};
ghost use Rattle.lot_io.specs.Writes.{HasFailed, NoneFailed, writes_between};
ghost use Rattle.lot_view.specs.View.{known_with_openings};

use lot_command::Command;
use lot_completion::{Watch, untaken};
use lot_io::{CountedRead, CountedWrite};
use lot_ledger::{Edition, Outcome, Stop, Verdict, View, decide};
use lot_read::read;
use lot_report::{PrintFault, print_holdings, print_reply};
use lot_stream::{Fault, Status, finish, print_fault, slurp};
use std::alloc::{AllocError, Global};

/// Judges a ledger text on an empty book, by edition 2. Writes a reply to each of its commands, then what the book holds.
///
/// The text is read to its end before the first command is judged. Where it can't be read or isn't ledger text, one line says
/// so (docs/FORMATS.md, Printed texts). Returns the status of the program:
///
/// - 0: all commands were accepted;
/// - 1: some were refused;
/// - 3: the input can't be read, is longer than 16 MiB, or isn't ledger text;
/// - 4: a total leaves its range, memory ends, or the writer fails.
///
/// Where memory ends, whole lines of the answer are written, and one more that says so. That line has the number of the command
/// at which memory ended. It has no number where memory ended while the input was read or in the report. After a fault of the
/// writer nothing more is written. No contract says when memory ends; tests alone show it.
///
/// `watch` is told what would balance a command that is refused for crumbs, once the reply is written.
pub fn check<R: CountedRead, W: CountedWrite, N: Watch>(
    alloc: Global,
    reader: &mut R,
    writer: &mut W,
    watch: &mut N,
) -> u8
    ensures status { IsStatus result }
    // Where the bytes of the reader are known: what is written, where it is known what the writer holds; and what the calls of
    // the writer came to, where that is known.
    ensures answer { IfSome (R.remaining reader.old) (λ input. (written : List ℕ)
        × Appends (W.contents writer.old) (W.contents writer.new) written
        × IsOutcome (reads_between (R.calls reader.old) (R.calls reader.new))
        (writes_between (W.calls writer.old) (W.calls writer.new)) input written result) }
{
    let outcome = answer(alloc, reader, writer, watch);
    let concluded = conclude(writer, outcome);
    finish(writer, concluded).code()
}

/// Reads, judges and writes, up to the end or the first fault. The fault isn't reported yet.
fn answer<R: CountedRead, W: CountedWrite, N: Watch>(
    alloc: Global,
    reader: &mut R,
    writer: &mut W,
    watch: &mut N,
) -> Result<Status, Fault>
    ensures answers { IfSome (R.remaining reader.old) (λ input.
        Answers (reads_between (R.calls reader.old) (R.calls reader.new)) input
        (writes_between (W.calls writer.old) (W.calls writer.new))
        (W.contents writer.old) (W.contents writer.new) result) }
    ensures cause { IsErrOf result Fault.Write → HasFailed (W.calls writer.new) }
{
    let text = slurp(alloc, reader)?;
    let answered = answer_text(alloc, &text, writer, watch);
    reader.take_back(text);
    answered
}

/// Does the same with a text that was read.
fn answer_text<W: CountedWrite, N: Watch>(
    alloc: Global,
    text: &[u8],
    writer: &mut W,
    watch: &mut N,
) -> Result<Status, Fault>
    requires { length text.now ≤ longest_input }
    ensures reaches { Reaches text.now
        (writes_between (W.calls writer.old) (W.calls writer.new))
        (W.contents writer.old) (W.contents writer.new) result }
    ensures cause { IsErrOf result Fault.Write → HasFailed (W.calls writer.new) }
{
    let commands = read(alloc, text)?;
    let (view, status) = run(alloc, commands, writer, watch)?;
    let rows = view.holdings()?;
    print_holdings(alloc, rows, writer)?;
    Ok(status)
}

/// Judges commands in their order on an empty book, and writes a reply to each. Returns what is known of the book after them.
fn run<W: CountedWrite, N: Watch>(
    alloc: Global,
    commands: Vec<Command>,
    writer: &mut W,
    watch: &mut N,
) -> Result<(View, Status), Fault>
    ensures runs { RunsCommands commands.items
        (W.contents writer.old) (W.contents writer.new) result }
    ensures cause { IsErrOf result Fault.Write → HasFailed (W.calls writer.new) }
    ensures none_failed { IsErrOf result Fault.Write
        ⊎ NoneFailed (W.calls writer.old) (W.calls writer.new) }
{
    let mut view = View::new(alloc, 0);
    let mut status = Status::Accepted;
    for (index, command) in commands.into_iter().enumerate() {
        let (next, replied) = reply(alloc, view, index + 1, &command, writer, watch)?;
        view = next;
        status = status.and(replied);
    }
    Ok((view, status))
}

/// Judges the command of that number, and writes the reply. Then it tells what would balance the command, if somebody asks.
fn reply<W: CountedWrite, N: Watch>(
    alloc: Global,
    view: View,
    number: usize,
    command: &Command,
    writer: &mut W,
    watch: &mut N,
) -> Result<(View, Status), Fault>
    ensures replies { Replies (known_with_openings view) command.now number
        (W.contents writer.old) (W.contents writer.new) result }
    ensures cause { IsErrOf result Fault.Write → HasFailed (W.calls writer.new) }
    ensures none_failed { IsErrOf result Fault.Write
        ⊎ NoneFailed (W.calls writer.old) (W.calls writer.new) }
{
    let Ok((view, verdict)) = judge(alloc, view, command) else {
        return Err(Fault::MemoryAt { number });
    };
    match print_reply(writer, number, &verdict) {
        Ok(()) => {
            if let Some(note) = untaken(alloc, &view, command, &verdict, watch) {
                watch.tell(number, note);
            }
            Ok((view, status_of_verdict(&verdict)))
        }
        Err(_) => Err(Fault::Write),
    }
}

/// Returns the status of a run of one command.
fn status_of_verdict(verdict: &Verdict) -> Status
    ensures { result ≡ status_of_verdict verdict.now }
{
    match verdict {
        Verdict::Accepted | Verdict::Repeated => Status::Accepted,
        Verdict::Refused(_) => Status::Refused,
    }
}

/// Judges a command by edition 2 on what is known of the book. Returns the verdict, and what is known after it: the entry of an
/// accepted command is recorded.
///
/// The error is out of memory, and the view is then lost. It comes only where deciding the command may lack memory, or where
/// the command is accepted. So no refusal that stores nothing is lost.
fn judge(alloc: Global, view: View, command: &Command) -> Result<(View, Verdict), AllocError>
    ensures judged { IfOk result (λ judged.
        JudgesKnown (known_with_openings view) command.now judged.1
        (known_with_openings judged.0)) }
    ensures memory { OnErr result (JudgingMayLackMemory (known_with_openings view) command.now) }
{
    match decide(alloc, Edition::Second, &view, command) {
        Ok(Outcome::Accept(change)) => Ok((view.record(command, &change)?, Verdict::Accepted)),
        Ok(Outcome::Repeat) => Ok((view, Verdict::Repeated)),
        Err(Stop::Refused(refusal)) => Ok((view, Verdict::Refused(refusal))),
        Err(Stop::Memory) => Err(AllocError),
    }
}

/// Reports a fault, if there was one. Returns the status of a run whose output is whole, or the fault of the writer.
fn conclude<W: CountedWrite>(
    writer: &mut W,
    outcome: Result<Status, Fault>,
) -> Result<Status, PrintFault>
    ensures concludes { Concludes (W.contents writer.old) (W.contents writer.new) outcome result }
    ensures cause { (IsErrOf outcome Fault.Write → HasFailed (W.calls writer.old))
        → OnErr result (HasFailed (W.calls writer.new)) }
    ensures none_failed { OnOk result (NoneFailed (W.calls writer.old) (W.calls writer.new)) }
{
    match outcome {
        Ok(status) => Ok(status),
        Err(Fault::Write) => Err(PrintFault::Write),
        Err(fault) => match print_fault(writer, fault) {
            Ok(()) => Ok(fault.status()),
            Err(cut) => Err(cut),
        },
    }
}
