ghost use Rattle.std.specs.Prelude.{◌≡◌, ◌≤◌, IfErr, IfOk, length};
ghost use Rattle.lot_input.specs.Input.{Gives, GivesNone, reading_between};
ghost use Rattle.lot_input.specs.Keyed.{HaveNext};
ghost use Rattle.lot_input.specs.Rows.{FileMeans, HasRowsOf, IsFaultyFile};
ghost use Rattle.lot_io.specs.Reads.{reads_between};

use crate::fault::InputFault;
use crate::keyed::source;
use lot_args::Batch;
use lot_base::Label;
use lot_import::{Accounts, Numbered, keyed_commands, read_rows};
use lot_io::CountedRead;
use lot_rounding::Decimals;
use lot_stream::slurp;
use std::alloc::Global;

/// Reads all that a reader has as a broker file. Returns the commands of its rows from that number on, without those whose `ref`
/// is one of `except`. Each posts to the accounts, and has the key of its row in the batch and the number of its row in the file.
/// Where decimals are given, the cash of each is rounded to so many, half to even. The first row has the number 1.
///
/// The errors are `Unasked`, `Unread`, `Rows` and `Cash`. `Unasked` is out of memory for the source of the keys. The source is
/// made before anything is read, so that this is never told in place of a fault of the file.
pub fn keyed_rows<R: CountedRead>(
    alloc: Global,
    batch: &Batch,
    accounts: &Accounts,
    decimals: Option<Decimals>,
    from: usize,
    except: &[Label],
    reader: &mut R,
) -> Result<Numbered, InputFault>
    requires { 1 ≤ from }
    ensures ok { IfOk result (λ keyed. Gives
        (FileMeans batch.now accounts.now decimals from except.now)
        (reading_between (R.remaining reader.old) (R.remaining reader.new)
        (reads_between (R.calls reader.old) (R.calls reader.new)))
        (keyed.numbers.items, keyed.commands.items)) }
    ensures as_many { IfOk result (λ keyed.
        length keyed.numbers.items ≡ length keyed.commands.items) }
    ensures next { IfOk result (λ keyed. HaveNext keyed.numbers.items) }
    ensures err { IfErr result
        (GivesNone (IsFaultyFile decimals except.now) (reading_between (R.remaining reader.old)
        (R.remaining reader.new) (reads_between (R.calls reader.old) (R.calls reader.new)))) }
{
    let Ok(source) = source(alloc, "import", batch) else {
        return Err(InputFault::Unasked);
    };
    let file = slurp(alloc, reader)?;
    let keyed = commands_in(alloc, &source, accounts, decimals, from, except, &file);
    reader.take_back(file);
    keyed
}

/// Returns the same of a file that was read, which has no fault of a reader.
fn commands_in(
    alloc: Global,
    source: &Label,
    accounts: &Accounts,
    decimals: Option<Decimals>,
    from: usize,
    except: &[Label],
    file: &[u8],
) -> Result<Numbered, InputFault>
    requires { 1 ≤ from }
    ensures ok { IfOk result (λ keyed.
        HasRowsOf source.now accounts.now decimals from except.now file.now
        (keyed.numbers.items, keyed.commands.items)) }
    ensures as_many { IfOk result (λ keyed.
        length keyed.numbers.items ≡ length keyed.commands.items) }
    ensures next { IfOk result (λ keyed. HaveNext keyed.numbers.items) }
    ensures err { IfErr result (IsFaultyFile decimals except.now file.now) }
{
    let rows = read_rows(alloc, file)?;
    Ok(keyed_commands(alloc, source, accounts, decimals, from, except, &rows)?)
}
