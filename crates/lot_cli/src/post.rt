ghost use Rattle.std.specs.Prelude.{◌≡◌, ◌⊎◌, None, false, option_copied};
ghost use Rattle.lot_stream.specs.Status.{IsStatus};
ghost use Rattle.lot_cli.specs.Runs.{Posts, PostsRow, unfit};
ghost use Rattle.sqlite.specs.Held.{state};
ghost use Rattle.sqlite.specs.State.{HasCleanDisk};
ghost use Rattle.lot_io.specs.Reads.{reads_between};
ghost use Rattle.lot_cli.specs.Says.{told};
ghost use Rattle.lot_io.specs.Writes.{writes_between};
ghost use Rattle.lot_input.specs.Input.{reading_between};

use crate::action::Served;
use crate::halt::Halt;
use crate::run::{halted, run};
use lot_args::{Batch, Keeping, Post};
use lot_atomic::Look;
use lot_base::Label;
use lot_completion::Watch;
use lot_import::Numbered;
use lot_input::{keyed_row, keyed_text};
use lot_io::{CountedRead, CountedWrite};
use lot_rounding::Rounding;
use lot_stream::UNUSABLE;
use sqlite::{Alter, Connection};
use std::alloc::Global;

/// Posts the commands of a ledger text to the book that is there, from that number on, each under the key of its number in the
/// batch.
///
/// All that the reader has is read before the book is taken up.
pub(crate) fn post<R: CountedRead, W: CountedWrite, N: Watch + Look, S: Alter>(
    alloc: Global,
    asked: &Post,
    reader: &mut R,
    writer: &mut W,
    watch: &mut N,
    conn: Connection<S>,
) -> Served<S>
    requires outside { conn.in_transaction ≡ false }
    requires unlimited { conn.step_limit ≡ None }
    ensures posts { Posts asked.now.batch asked.now.rounding asked.now.from asked.now.keeping
        (reading_between (R.remaining reader.old) (R.remaining reader.new)
        (reads_between (R.calls reader.old) (R.calls reader.new))) (state S.Store conn)
        (state S.Store result.conn)
        (W.contents writer.old) (W.contents writer.new)
        (writes_between (W.calls writer.old) (W.calls writer.new))
        (told result.status result.halt) }
    ensures outside { HasCleanDisk (state S.Store result.conn)
        → result.conn.in_transaction ≡ false }
    ensures status { IsStatus result.status }
{
    let first = asked.from.number() as usize;
    match keyed_text(alloc, &asked.batch, first, reader) {
        Ok(Numbered { numbers, commands }) => {
            let rounding = asked.rounding.as_ref();
            run(
                alloc,
                &numbers,
                &commands,
                rounding,
                asked.keeping,
                writer,
                watch,
                conn,
            )
        }
        Err(fault) => halted(writer, Halt::Input(fault), conn),
    }
}

/// Posts the one command of a ledger text to the book that is there, under the key of the row with that `ref` in the broker
/// files of the batch.
///
/// All that the reader has is read before the book is taken up. Where the text has no command, or several, nothing is written.
pub(crate) fn post_row<R: CountedRead, W: CountedWrite, N: Watch + Look, S: Alter>(
    alloc: Global,
    batch: &Batch,
    reference: &Label,
    rounding: Option<&Rounding>,
    reader: &mut R,
    writer: &mut W,
    watch: &mut N,
    conn: Connection<S>,
) -> Served<S>
    requires outside { conn.in_transaction ≡ false }
    requires unlimited { conn.step_limit ≡ None }
    ensures posts { PostsRow batch.now reference.now (option_copied rounding.entry)
        (reading_between (R.remaining reader.old) (R.remaining reader.new) (reads_between
        (R.calls reader.old) (R.calls reader.new))) (state S.Store conn) (state S.Store result.conn)
        (W.contents writer.old) (W.contents writer.new)
        (writes_between (W.calls writer.old) (W.calls writer.new))
        (told result.status result.halt) }
    ensures outside { HasCleanDisk (state S.Store result.conn)
        → result.conn.in_transaction ≡ false }
    ensures status { IsStatus result.status ⊎ (result.status ≡ unfit) }
{
    match keyed_row(alloc, batch, reference, reader) {
        Ok(Some(keyed)) => run(
            alloc,
            &[1],
            &[keyed],
            rounding,
            Keeping::Each,
            writer,
            watch,
            conn,
        ),
        Ok(None) => Served {
            status: UNUSABLE,
            halt: None,
            conn,
        },
        Err(fault) => halted(writer, Halt::Input(fault), conn),
    }
}
