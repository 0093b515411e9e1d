//! How two books differ, written behind the answer that one of them is made.
ghost use Rattle.lot_stream.specs.Status.{IsStatus};
ghost use Rattle.lot_stream.specs.declared.status.Status.TheVariants.{Stopped};
ghost use Rattle.lot_cli.specs.Differ.{EndsCompared, TellsDifferences, compare_line};
ghost use Rattle.lot_cli.specs.Says.{Says};
ghost use Rattle.lot_io.specs.Writes.{writes_between};

use crate::run::tell;
use lot_compare::{CompareFault, compare};
use lot_io::CountedWrite;
use lot_report::print_texts;
use lot_store::Book;
use lot_stream::Status;
use sqlite::Alter;
use std::alloc::Global;

/// Writes how a new book differs from an old one: a line for each year and currency in which they gained another sum, and then
/// one for each account and commodity of which they hold another sum. What is written is flushed. Returns the status of the
/// program, of an action that had ended with that status.
///
/// Where a book stops, the line of its fault is written, and the status is 4. Nothing more is asked of a writer that failed.
pub fn tell_differences<S: Alter, T: Alter, W: CountedWrite>(
    alloc: Global,
    status: Status,
    new: &mut Book<S>,
    old: &mut Book<T>,
    writer: &mut W,
) -> u8
    ensures differ { TellsDifferences S.Store T.Store new.old new.new old.old old.new status
        (W.contents writer.old) (W.contents writer.new)
        (writes_between (W.calls writer.old) (W.calls writer.new)) result }
    ensures status { IsStatus result }
{
    let compared = compare(alloc, new, old, writer);
    conclude(writer, compared, status)
}

/// Ends a comparison: flushes it where it is whole, else reports why it isn't. Returns the status of the program.
fn conclude<W: CountedWrite>(
    writer: &mut W,
    compared: Result<(), CompareFault>,
    status: Status,
) -> u8
    ensures ends { EndsCompared compared status
        (W.contents writer.old) (W.contents writer.new)
        (writes_between (W.calls writer.old) (W.calls writer.new)) result }
    ensures status { IsStatus result }
{
    match compared {
        Ok(()) => tell(writer, Ok(()), status),
        Err(fault) if fault.is_of_writer() => Status::Stopped.code(),
        Err(fault) => stopped(writer, fault),
    }
}

/// Reports why books aren't compared to the end, and returns the status of the program.
fn stopped<W: CountedWrite>(writer: &mut W, fault: CompareFault) -> u8
    ensures says { Says (compare_line fault) Stopped
        (W.contents writer.old) (W.contents writer.new)
        (writes_between (W.calls writer.old) (W.calls writer.new)) result }
    ensures status { IsStatus result }
{
    let printed = print_texts(writer, &["fault ", fault.name(), "\n"]);
    tell(writer, printed, Status::Stopped)
}
