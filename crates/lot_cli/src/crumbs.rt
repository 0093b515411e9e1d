//! A check with an account that takes crumbs.
ghost use Rattle.std.specs.Prelude.{◌≡◌, [], None, IfErr, IfOk, List, false};
ghost use Rattle.lot_stored.specs.StandFor.{Stands};
ghost use Rattle.lot_stream.specs.Status.{IsStatus, code_of};
ghost use Rattle.lot_args.specs.declared.action.Format.TheVariants.{Text};
ghost use Rattle.lot_book.specs.Facts.{Entry};
ghost use Rattle.lot_cli.specs.Check.{Checks, ChecksMade, ShowsBehind, check_batch, status_behind};
ghost use Rattle.lot_cli.specs.Runs.{status_of_run};
ghost use Rattle.lot_store.specs.declared.run.Ending.TheVariants.{Complete};
ghost use Rattle.lot_input.specs.Input.{Gives, GivesNone, reading_between};
ghost use Rattle.lot_input.specs.Text.{IsFaultyText, TextMeans};
ghost use Rattle.lot_store.specs.declared.book.Condition.TheVariants.{Ready};
ghost use Rattle.sqlite.specs.Held.{state};
ghost use Rattle.sqlite.specs.State.{HasCleanDisk, Survives};
ghost use Rattle.lot_io.specs.Reads.{reads_between};
ghost use Rattle.lot_cli.specs.Says.{told};
ghost use Rattle.lot_io.specs.Writes.{writes_between};

use crate::action::{Served, not_made};
use crate::halt::Halt;
use crate::report::write_whole;
use crate::run::{say_halt, status_of_run};
use lot_args::{Batch, Format, Report};
use lot_completion::Watch;
use lot_import::Numbered;
use lot_input::{InputFault, keyed_text};
use lot_io::{CountedRead, CountedWrite};
use lot_rounding::Rounding;
use lot_store::{Book, Ending, RunEnd, create};
use sqlite::{Alter, Connection};
use std::alloc::Global;

/// The batch under which the commands of a check are posted.
const BATCH: &str = "check";

/// Judges the commands of a ledger text on an empty book, where an account takes the crumbs: it makes the book in a database
/// without tables, posts the commands to it, and writes what it holds then.
pub(crate) fn check_with<R: CountedRead, W: CountedWrite, N: Watch, S: Alter>(
    alloc: Global,
    rounding: &Rounding,
    reader: &mut R,
    writer: &mut W,
    watch: &mut N,
    conn: Connection<S>,
) -> Served<S>
    requires outside { conn.in_transaction ≡ false }
    requires unlimited { conn.step_limit ≡ None }
    ensures checks { Checks rounding.now (reading_between (R.remaining reader.old)
        (R.remaining reader.new) (reads_between (R.calls reader.old) (R.calls reader.new)))
        (state S.Store conn) (state S.Store result.conn)
        (W.contents writer.old) (W.contents writer.new)
        (writes_between (W.calls writer.old) (W.calls writer.new))
        (told result.status result.halt) }
    ensures outside { HasCleanDisk (state S.Store result.conn)
        → result.conn.in_transaction ≡ false }
    ensures status { IsStatus result.status }
{
    match create(alloc, conn) {
        Ok(mut book) => {
            let (status, halt) = check_on(alloc, rounding, reader, writer, watch, &mut book);
            Served {
                status,
                halt,
                conn: book.into_connection(),
            }
        }
        Err(left) => not_made(writer, left),
    }
}

/// Runs the commands of a ledger text on a book, and writes what it holds then. Returns the status of the program, and why it
/// ends before the first command, if it does.
fn check_on<R: CountedRead, W: CountedWrite, N: Watch, S: Alter>(
    alloc: Global,
    rounding: &Rounding,
    reader: &mut R,
    writer: &mut W,
    watch: &mut N,
    book: &mut Book<S>,
) -> (u8, Option<Halt>)
    requires ready { book.old.condition ≡ Ready }
    requires made { HasCleanDisk (state S.Store book.old.conn)
        → Stands (state S.Store book.old.conn) [] }
    ensures checks { ChecksMade rounding.now (reading_between (R.remaining reader.old)
        (R.remaining reader.new) (reads_between (R.calls reader.old) (R.calls reader.new)))
        (state S.Store book.new.conn)
        (W.contents writer.old) (W.contents writer.new)
        (writes_between (W.calls writer.old) (W.calls writer.new)) (told result.0 result.1) }
    ensures status { IsStatus result.0 }
{
    match commands_of(alloc, reader) {
        Ok(
            Numbered {
                numbers: _,
                commands,
            },
        ) => {
            let end = book.run(&commands, Some(rounding), 1, writer, watch);
            (show_behind(alloc, end, book, writer), None)
        }
        Err(fault) => {
            let halt = Halt::Input(fault);
            (say_halt(writer, halt), Some(halt))
        }
    }
}

/// Reads all that a reader has as ledger text, and returns its commands, under the batch of checks.
fn commands_of<R: CountedRead>(alloc: Global, reader: &mut R) -> Result<Numbered, InputFault>
    ensures ok { IfOk result (λ keyed. Gives (TextMeans check_batch 1)
        (reading_between (R.remaining reader.old) (R.remaining reader.new) (reads_between
        (R.calls reader.old) (R.calls reader.new))) (keyed.numbers.items, keyed.commands.items)) }
    ensures err { IfErr result (GivesNone IsFaultyText (reading_between (R.remaining reader.old)
        (R.remaining reader.new) (reads_between (R.calls reader.old) (R.calls reader.new)))) }
{
    match Batch::new(alloc, BATCH) {
        Ok(batch) => keyed_text(alloc, &batch, 1, reader),
        Err(_) => Err(InputFault::Unasked),
    }
}

/// Writes what a book holds, if the run before came to its end. Returns the status of the program.
fn show_behind<W: CountedWrite, S: Alter>(
    alloc: Global,
    end: RunEnd,
    book: &mut Book<S>,
    writer: &mut W,
) -> u8
    requires { end.ending ≡ Complete → book.old.condition ≡ Ready }
    ensures behind { HasCleanDisk (state S.Store book.new.conn) → (entries : List Entry)
        → (end.ending ≡ Complete → Stands (state S.Store book.old.conn) entries)
        → ShowsBehind end.ending entries
        (W.contents writer.old) (W.contents writer.new)
        (writes_between (W.calls writer.old) (W.calls writer.new))
        (code_of (status_of_run end)) result }
    ensures crash { Survives (state S.Store book.old.conn) (state S.Store book.new.conn) (λ _. ⊥) }
    ensures status { IsStatus result }
{
    let status = status_of_run(end).code();
    match end.ending {
        Ending::Complete => {
            let report = Report::Holdings {
                day: None,
                format: Format::Text,
            };
            status_behind(status, write_whole(alloc, &report, book, writer))
        }
        Ending::Stopped(_) => status,
        Ending::Output => status,
    }
}

/// Returns the status of commands, unless a report behind them couldn't be written.
pub(crate) fn status_behind(posted: u8, shown: u8) -> u8
    ensures { result ≡ status_behind posted shown }
{
    if shown == 0 { posted } else { shown }
}
