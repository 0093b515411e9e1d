ghost use Rattle.std.specs.Prelude.{◌≡◌, ◌≤◌, IfErr, IfOk, length};
ghost use Rattle.lot_input.specs.Input.{Gives, GivesNone, reading_between};
ghost use Rattle.lot_input.specs.Keyed.{HaveNext};
ghost use Rattle.lot_input.specs.Text.{IsFaultyText, RowMeans, TextMeans, only};
ghost use Rattle.lot_io.specs.Reads.{reads_between};

use crate::fault::InputFault;
use crate::keyed::{keyed, source};
use lot_args::Batch;
use lot_base::Label;
use lot_command::{Command, Key};
use lot_import::Numbered;
use lot_io::CountedRead;
use lot_read::read;
use lot_rounding::Asked;
use lot_stream::slurp;
use std::alloc::Global;

/// Reads all that a reader has as ledger text. Returns its commands from that number on, each under the key of its number in
/// the batch, and with this number. The first command of the text has the number 1.
///
/// The errors are `Unread`, `Text` and `Memory`.
pub fn keyed_text<R: CountedRead>(
    alloc: Global,
    batch: &Batch,
    from: usize,
    reader: &mut R,
) -> Result<Numbered, InputFault>
    requires { 1 ≤ from }
    ensures ok { IfOk result (λ keyed. Gives (TextMeans batch.now from)
        (reading_between (R.remaining reader.old) (R.remaining reader.new) (reads_between
        (R.calls reader.old) (R.calls reader.new))) (keyed.numbers.items, keyed.commands.items)) }
    ensures as_many { IfOk result (λ keyed.
        length keyed.numbers.items ≡ length keyed.commands.items) }
    ensures next { IfOk result (λ keyed. HaveNext keyed.numbers.items) }
    ensures err { IfErr result (GivesNone IsFaultyText (reading_between (R.remaining reader.old)
        (R.remaining reader.new) (reads_between (R.calls reader.old) (R.calls reader.new)))) }
{
    let text = slurp(alloc, reader)?;
    let keyed = commands_in(alloc, batch, from, &text);
    reader.take_back(text);
    keyed
}

/// Reads all that a reader has as ledger text. Returns its one command, under the key of the row with that `ref` in the broker
/// files of the batch. It is `None` where the text has no command, or several.
///
/// The errors are `Unread`, `Text` and `Memory`.
pub fn keyed_row<R: CountedRead>(
    alloc: Global,
    batch: &Batch,
    reference: &Label,
    reader: &mut R,
) -> Result<Option<(Key, Asked)>, InputFault>
    ensures ok { IfOk result
        (Gives (RowMeans batch.now reference.now) (reading_between (R.remaining reader.old)
        (R.remaining reader.new) (reads_between (R.calls reader.old) (R.calls reader.new)))) }
    ensures err { IfErr result (GivesNone IsFaultyText (reading_between (R.remaining reader.old)
        (R.remaining reader.new) (reads_between (R.calls reader.old) (R.calls reader.new)))) }
{
    let text = slurp(alloc, reader)?;
    let row = row_in(alloc, batch, reference, &text);
    reader.take_back(text);
    row
}

/// Does the same with a text that was read, so that there is no fault of a reader. Out of memory comes only where all of its
/// lines, or all lines up to one, say commands.
fn commands_in(
    alloc: Global,
    batch: &Batch,
    from: usize,
    text: &[u8],
) -> Result<Numbered, InputFault>
    requires { 1 ≤ from }
    ensures ok { IfOk result (λ keyed. TextMeans batch.now from text.now
        (keyed.numbers.items, keyed.commands.items)) }
    ensures as_many { IfOk result (λ keyed.
        length keyed.numbers.items ≡ length keyed.commands.items) }
    ensures next { IfOk result (λ keyed. HaveNext keyed.numbers.items) }
    ensures err { IfErr result (IsFaultyText text.now) }
{
    let commands = read(alloc, text)?;
    Ok(keyed(alloc, batch, from, commands)?)
}

/// Returns the same of the one command of a text that was read.
fn row_in(
    alloc: Global,
    batch: &Batch,
    reference: &Label,
    text: &[u8],
) -> Result<Option<(Key, Asked)>, InputFault>
    ensures ok { IfOk result (RowMeans batch.now reference.now text.now) }
    ensures err { IfErr result (IsFaultyText text.now) }
{
    match only(read(alloc, text)?) {
        Some(command) => {
            let source = source(alloc, "import", batch)?;
            let name = reference.copy()?;
            Ok(Some((Key { source, name }, Asked::plain(command))))
        }
        None => Ok(None),
    }
}

/// Returns the one command of a list; `None` where it has another number of commands.
fn only(mut commands: Vec<Command>) -> Option<Command>
    ensures { result ≡ only commands.items }
{
    let Some(command) = commands.pop() else {
        return None;
    };
    if !commands.is_empty() {
        return None;
    }
    Some(command)
}
