ghost use Rattle.std.specs.Prelude.{◌≡◌, None, false, option_copied};
ghost use Rattle.lot_stream.specs.Status.{IsStatus};
ghost use Rattle.lot_cli.specs.Runs.{Imports, ImportsBy, decimals_of};
ghost use Rattle.sqlite.specs.Held.{state};
ghost use Rattle.sqlite.specs.State.{HasCleanDisk};
ghost use Rattle.lot_io.specs.Reads.{reads_between};
ghost use Rattle.lot_cli.specs.Says.{told};
ghost use Rattle.lot_io.specs.Writes.{writes_between};
ghost use Rattle.lot_input.specs.Input.{reading_between};

use crate::action::Served;
use crate::halt::Halt;
use crate::run::{halted, run};
use lot_args::{Import, ImportBy};
use lot_atomic::Look;
use lot_completion::Watch;
use lot_export::Aside;
use lot_import::Numbered;
use lot_input::{keyed_export, keyed_rows};
use lot_io::{CountedRead, CountedWrite};
use lot_rounding::{Decimals, Rounding};
use sqlite::{Alter, Connection};
use std::alloc::Global;

/// Posts the rows of a broker file to accounts of the book that is there, from that number on and without those that are left
/// out, each under the key of the row in the batch.
///
/// All that the reader has is read, and each row is converted, before the book is taken up.
pub(crate) fn import<R: CountedRead, W: CountedWrite, N: Watch + Look, S: Alter>(
    alloc: Global,
    asked: &Import,
    reader: &mut R,
    writer: &mut W,
    watch: &mut N,
    conn: Connection<S>,
) -> Served<S>
    requires outside { conn.in_transaction ≡ false }
    requires unlimited { conn.step_limit ≡ None }
    ensures imports { Imports asked.now.batch asked.now.accounts asked.now.rounding asked.now.from
        asked.now.except.items asked.now.keeping (reading_between (R.remaining reader.old)
        (R.remaining reader.new) (reads_between (R.calls reader.old) (R.calls reader.new)))
        (state S.Store conn) (state S.Store result.conn)
        (W.contents writer.old) (W.contents writer.new)
        (writes_between (W.calls writer.old) (W.calls writer.new))
        (told result.status result.halt) }
    ensures outside { HasCleanDisk (state S.Store result.conn)
        → result.conn.in_transaction ≡ false }
    ensures status { IsStatus result.status }
{
    let first = asked.from.number() as usize;
    let rounding = asked.rounding.as_ref();
    let decimals = decimals_of(rounding);
    let given = keyed_rows(
        alloc,
        &asked.batch,
        &asked.accounts,
        decimals,
        first,
        &asked.except,
        reader,
    );
    match given {
        Ok(Numbered { numbers, commands }) => run(
            alloc,
            &numbers,
            &commands,
            rounding,
            asked.keeping,
            writer,
            watch,
            conn,
        ),
        Err(fault) => halted(writer, Halt::Input(fault), conn),
    }
}

/// Posts the rows of a broker's export to the book that is there, as a profile says and without those that are left out, each under
/// the key of its row in the batch. What the export comes to is told before its commands are run.
///
/// All that the reader has is read, and each row is understood, before the book is taken up.
pub(crate) fn import_by<R: CountedRead, W: CountedWrite, N: Watch + Look + Aside, S: Alter>(
    alloc: Global,
    asked: &ImportBy,
    reader: &mut R,
    writer: &mut W,
    watch: &mut N,
    conn: Connection<S>,
) -> Served<S>
    requires outside { conn.in_transaction ≡ false }
    requires unlimited { conn.step_limit ≡ None }
    ensures imports { ImportsBy asked.now.batch asked.now.profile asked.now.rounding
        asked.now.except.items asked.now.keeping (reading_between (R.remaining reader.old)
        (R.remaining reader.new) (reads_between (R.calls reader.old) (R.calls reader.new)))
        (state S.Store conn) (state S.Store result.conn)
        (W.contents writer.old) (W.contents writer.new)
        (writes_between (W.calls writer.old) (W.calls writer.new))
        (told result.status result.halt) }
    ensures outside { HasCleanDisk (state S.Store result.conn)
        → result.conn.in_transaction ≡ false }
    ensures status { IsStatus result.status }
{
    match keyed_export(alloc, &asked.batch, &asked.profile, &asked.except, reader) {
        Ok(export) => {
            watch.set_aside(&export);
            run(
                alloc,
                &export.given.numbers,
                &export.given.commands,
                asked.rounding.as_ref(),
                asked.keeping,
                writer,
                watch,
                conn,
            )
        }
        Err(fault) => halted(writer, Halt::Input(fault), conn),
    }
}

/// Returns how many decimals the cash of a row has, where an account takes crumbs.
fn decimals_of(rounding: Option<&Rounding>) -> Option<Decimals>
    ensures { result ≡ decimals_of (option_copied rounding.entry) }
{
    match rounding {
        Some(rounding) => Some(rounding.decimals),
        None => None,
    }
}
