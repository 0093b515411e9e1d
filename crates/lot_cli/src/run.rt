//! Running the commands of an input on the book that is there.
ghost use Rattle.std.specs.Prelude.{◌≡◌, ◌≢◌, ◌<◌, ◌≤◌, ◌+◌, IsErr, IsTrue, None, Some, false, get_or, length, option_copied, take};
ghost use Rattle.std.specs.List.{range_with_len};
ghost use Rattle.lot_input.specs.Keyed.{HaveNext};
ghost use Rattle.lot_stream.specs.Status.{IsStatus, code_of};
ghost use Rattle.lot_cli.specs.Runs.{FollowOneAnother, RunsEach, RunsOn, first_number, status_of_run};
ghost use Rattle.lot_cli.specs.Says.{EndsWithLine, Halts, told};
ghost use Rattle.lot_store.specs.declared.book.Condition.TheVariants.{Ready};
ghost use Rattle.lot_store.specs.declared.run.RunEnd.{RunEnd};
ghost use Rattle.std.specs.Io.KnownBytes.{Keeps};
ghost use Rattle.sqlite.specs.Held.{state};
ghost use Rattle.sqlite.specs.State.{HasCleanDisk};
ghost use Rattle.lot_io.specs.Writes.{writes_between};

use crate::action::Served;
use crate::halt::{Halt, print_halt};
use lot_args::Keeping;
use lot_atomic::{Look, run_all};
use lot_command::Key;
use lot_completion::Watch;
use lot_io::CountedWrite;
use lot_report::PrintFault;
use lot_rounding::{Asked, Rounding};
use lot_store::{Book, Ending, HandedBack, RunEnd, adopt};
use lot_stream::{Status, finish};
use sqlite::{Alter, Connection};
use std::alloc::Global;

/// Takes up the book that is there and runs commands on it. Of `numbers` each has the one in its place.
pub(crate) fn run<W: CountedWrite, N: Watch + Look, S: Alter>(
    alloc: Global,
    numbers: &[usize],
    commands: &[(Key, Asked)],
    rounding: Option<&Rounding>,
    keeping: Keeping,
    writer: &mut W,
    watch: &mut N,
    conn: Connection<S>,
) -> Served<S>
    requires outside { conn.in_transaction ≡ false }
    requires unlimited { conn.step_limit ≡ None }
    requires as_many { length numbers.now ≡ length commands.now }
    requires next { HaveNext numbers.now }
    ensures runs { RunsOn (option_copied rounding.entry) keeping numbers.now commands.now
        (state S.Store conn) (state S.Store result.conn)
        (W.contents writer.old) (W.contents writer.new)
        (writes_between (W.calls writer.old) (W.calls writer.new))
        (told result.status result.halt) }
    ensures outside { HasCleanDisk (state S.Store result.conn)
        → result.conn.in_transaction ≡ false }
    ensures status { IsStatus result.status }
{
    // Outside a transaction the tables are those of the last commit.
    let _settled = conn.is_autocommit();
    match adopt(alloc, conn) {
        Ok(book) => match keeping {
            Keeping::Each => {
                let mut book = book;
                let status = run_each(numbers, commands, rounding, writer, watch, &mut book);
                ended(status, book.into_connection())
            }
            Keeping::AllOrNone => {
                let mut conn = book.into_connection();
                let end = run_all(alloc, &mut conn, commands, numbers, rounding, writer, watch);
                ended(status_of_run(end), conn)
            }
        },
        Err(HandedBack { fault, conn }) => halted(writer, Halt::Adopt(fault), conn),
    }
}

/// Hands the connection on behind a run that ended with that status.
fn ended<S: Alter>(status: Status, conn: Connection<S>) -> Served<S>
    ensures status { result.status ≡ code_of status }
    ensures goes_on { result.halt ≡ None }
    ensures same { result.conn ≡ conn }
{
    Served {
        status: status.code(),
        halt: None,
        conn,
    }
}

/// Runs commands on a book, each in one commit. Returns the status of all of them.
fn run_each<W: CountedWrite, N: Watch, S: Alter>(
    numbers: &[usize],
    commands: &[(Key, Asked)],
    rounding: Option<&Rounding>,
    writer: &mut W,
    watch: &mut N,
    book: &mut Book<S>,
) -> Status
    requires ready { book.old.condition ≡ Ready }
    requires settled { HasCleanDisk (state S.Store book.old.conn)
        → IsTrue (state S.Store book.old.conn).is_open
        → (state S.Store book.old.conn).now ≡ (state S.Store book.old.conn).committed }
    requires as_many { length numbers.now ≡ length commands.now }
    requires next { HaveNext numbers.now }
    ensures runs { (end : RunEnd) × RunsEach (option_copied rounding.entry) numbers.now commands.now
        (state S.Store book.old.conn) (state S.Store book.new.conn)
        (W.contents writer.old) (W.contents writer.new)
        (writes_between (W.calls writer.old) (W.calls writer.new)) end
        × (result ≡ status_of_run end) }
{
    let from = first_number(numbers);
    if in_a_row(numbers, from) == numbers.len() {
        return status_of_run(book.run(commands, rounding, from, writer, watch));
    }
    run_stretches(numbers, commands, rounding, writer, watch, book)
}

/// Runs commands on a book whose numbers leave some out: one after another each stretch of commands whose numbers follow one
/// another, up to the end or the first that stops.
fn run_stretches<W: CountedWrite, N: Watch, S: Alter>(
    numbers: &[usize],
    commands: &[(Key, Asked)],
    rounding: Option<&Rounding>,
    writer: &mut W,
    watch: &mut N,
    book: &mut Book<S>,
) -> Status
    requires ready { book.old.condition ≡ Ready }
    requires settled { HasCleanDisk (state S.Store book.old.conn)
        → IsTrue (state S.Store book.old.conn).is_open
        → (state S.Store book.old.conn).now ≡ (state S.Store book.old.conn).committed }
    requires as_many { length numbers.now ≡ length commands.now }
    requires next { HaveNext numbers.now }
    requires apart { ¬ FollowOneAnother numbers.now }
    ensures runs { (end : RunEnd) × RunsEach (option_copied rounding.entry) numbers.now commands.now
        (state S.Store book.old.conn) (state S.Store book.new.conn)
        (W.contents writer.old) (W.contents writer.new)
        (writes_between (W.calls writer.old) (W.calls writer.new)) end
        × (result ≡ status_of_run end) }
{
    let mut done = 0;
    let mut status = Status::Accepted;
    'stretches: while done < numbers.len() {
        let from = numbers[done];
        let next = done + in_a_row(&numbers[done..], from);
        let stretch = &commands[done..next];
        let end = book.run(stretch, rounding, from, writer, watch);
        match end.ending {
            Ending::Complete => {}
            Ending::Stopped(_) | Ending::Output => return Status::Stopped,
        }
        if end.refused > 0 {
            status = Status::Refused;
        }
        done = next;
    }
    status
}

/// Returns the first number, and 1 where there is none.
fn first_number(numbers: &[usize]) -> usize
    ensures { result ≡ first_number numbers.now }
{
    match numbers {
        [first, ..] => *first,
        [] => 1,
    }
}

/// Returns how many of the first numbers follow one another from that one on.
fn in_a_row(numbers: &[usize], from: usize) -> usize
    requires { HaveNext numbers.now }
    ensures within { result ≤ length numbers.now }
    ensures follow { take result numbers.now ≡ range_with_len from result }
    ensures stops { result < length numbers.now → get_or numbers.now result 0 ≢ from + result }
{
    'numbers: for (index, number) in numbers.iter().enumerate() {
        if *number != from + index {
            return index;
        }
    }
    numbers.len()
}

/// Returns the status of a run that ended so.
pub(crate) fn status_of_run(end: RunEnd) -> Status
    ensures { result ≡ status_of_run end }
{
    match end.ending {
        Ending::Complete if end.refused == 0 => Status::Accepted,
        Ending::Complete => Status::Refused,
        Ending::Stopped(_) | Ending::Output => Status::Stopped,
    }
}

/// Reports why an action ends before its first command, and hands the connection on.
pub(crate) fn halted<W: CountedWrite, S: Alter>(
    writer: &mut W,
    halt: Halt,
    conn: Connection<S>,
) -> Served<S>
    ensures says { Halts halt
        (W.contents writer.old) (W.contents writer.new)
        (writes_between (W.calls writer.old) (W.calls writer.new))
        (told result.status result.halt) }
    ensures same { result.conn ≡ conn }
    ensures status { IsStatus result.status }
{
    Served {
        status: say_halt(writer, halt),
        halt: Some(halt),
        conn,
    }
}

/// Reports why an action ends before its first command, and returns the status of the program.
pub fn say_halt<W: CountedWrite>(writer: &mut W, halt: Halt) -> u8
    ensures says { Halts halt
        (W.contents writer.old) (W.contents writer.new)
        (writes_between (W.calls writer.old) (W.calls writer.new)) (told result (Some halt)) }
    ensures status { IsStatus result }
{
    let printed = print_halt(writer, halt);
    tell(writer, printed, halt.status())
}

/// Flushes the line that an action has printed, which ends with that status. Returns the status of the program. Where the
/// writer failed, the action is stopped.
pub(crate) fn tell<W: CountedWrite>(
    writer: &mut W,
    printed: Result<(), PrintFault>,
    status: Status,
) -> u8
    ensures kept { Keeps (W.contents writer.old) (W.contents writer.new) }
    ensures end { EndsWithLine printed status
        (writes_between (W.calls writer.old) (W.calls writer.new)) result }
    ensures unasked { IsErr printed → writer.new ≡ writer.old }
    ensures status { IsStatus result }
{
    match printed {
        Ok(()) => finish(writer, Ok(status)).code(),
        Err(_) => Status::Stopped.code(),
    }
}
