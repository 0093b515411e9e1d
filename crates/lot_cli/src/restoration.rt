//! A book is made of a dump.
ghost use Rattle.std.specs.Prelude.{◌≡◌, None, false};
ghost use Rattle.lot_stream.specs.Status.{IsStatus};
ghost use Rattle.lot_cli.specs.Restore.{EndsUnrestored, RestoresBook, answer_of, status_of_restored, terms_for};
ghost use Rattle.lot_cli.specs.Says.{Says, told};
ghost use Rattle.sqlite.specs.Held.{state};
ghost use Rattle.sqlite.specs.State.{HasCleanDisk};
ghost use Rattle.lot_io.specs.Reads.{reads_between};
ghost use Rattle.lot_io.specs.Writes.{writes_between};
ghost use Rattle.lot_input.specs.Input.{reading_between};

use crate::action::Served;
use crate::halt::Halt;
use crate::run::{halted, tell};
use lot_args::Restore;
use lot_io::{CountedRead, CountedWrite};
use lot_report::print_texts;
use lot_restore::{RestoreFault, Restored, Restoring};
use lot_stream::Status;
use sqlite::{Alter, Connection};
use std::alloc::Global;

/// Makes a book of the dump that the reader has, in a database without tables.
///
/// The dump is read and judged in one transaction, whatever its size, and one commit makes the book.
pub(crate) fn restore<R: CountedRead, W: CountedWrite, S: Alter>(
    alloc: Global,
    asked: &Restore,
    reader: &mut R,
    writer: &mut W,
    mut conn: Connection<S>,
) -> Served<S>
    requires outside { conn.in_transaction ≡ false }
    requires unlimited { conn.step_limit ≡ None }
    ensures restores { RestoresBook (terms_for asked.now) (reading_between (R.remaining reader.old)
        (R.remaining reader.new) (reads_between (R.calls reader.old) (R.calls reader.new)))
        (state S.Store conn) (state S.Store result.conn)
        (W.contents writer.old) (W.contents writer.new)
        (writes_between (W.calls writer.old) (W.calls writer.new))
        (told result.status result.halt) }
    ensures outside { HasCleanDisk (state S.Store result.conn)
        → result.conn.in_transaction ≡ false }
    ensures status { IsStatus result.status }
{
    let restoring = Restoring {
        without: &asked.without,
        strictness: asked.strictness,
        tolerance: asked.tolerance,
    };
    match lot_restore::restore(alloc, &mut conn, &restoring, reader, writer) {
        Ok(restored) => Served {
            status: answer(writer, restored),
            halt: None,
            conn,
        },
        Err(fault) => unrestored(writer, fault, conn),
    }
}

/// Reports why no book is made of a dump, and hands the connection on. Nothing more is asked of a writer that failed.
fn unrestored<W: CountedWrite, S: Alter>(
    writer: &mut W,
    fault: RestoreFault,
    conn: Connection<S>,
) -> Served<S>
    ensures ends { EndsUnrestored fault
        (W.contents writer.old) (W.contents writer.new)
        (writes_between (W.calls writer.old) (W.calls writer.new))
        (told result.status result.halt) }
    ensures same { result.conn ≡ conn }
    ensures status { IsStatus result.status }
{
    match fault {
        RestoreFault::Write => Served {
            status: Status::Stopped.code(),
            halt: None,
            conn,
        },
        RestoreFault::Book(_) | RestoreFault::Text(_) | RestoreFault::Sum(_) => {
            halted(writer, Halt::Restore(fault), conn)
        }
    }
}

/// Answers what came of a dump that was read to its end, and flushes what is written of it. Returns the status of the program.
fn answer<W: CountedWrite>(writer: &mut W, restored: Restored) -> u8
    ensures says { Says (answer_of restored) (status_of_restored restored)
        (W.contents writer.old) (W.contents writer.new)
        (writes_between (W.calls writer.old) (W.calls writer.new)) result }
    ensures status { IsStatus result }
{
    let printed = print_texts(writer, &[answer_of(restored)]);
    tell(writer, printed, status_of_restored(restored))
}

/// Returns what is written of a dump that came to that: that its book is made, if it is.
fn answer_of(restored: Restored) -> &'static str
    ensures { result.now ≡ answer_of restored }
{
    match restored {
        Restored::Whole | Restored::InPart => "book restored\n",
        Restored::NotMade => "",
    }
}

/// Returns how an action ends whose dump came to that.
fn status_of_restored(restored: Restored) -> Status
    ensures { result ≡ status_of_restored restored }
{
    match restored {
        Restored::Whole => Status::Accepted,
        Restored::InPart | Restored::NotMade => Status::Refused,
    }
}
