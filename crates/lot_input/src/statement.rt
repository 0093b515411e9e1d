ghost use Rattle.std.specs.Prelude.{IfErr, IfOk};
ghost use Rattle.lot_input.specs.Input.{Gives, GivesNone, reading_between};
ghost use Rattle.lot_input.specs.Statement.{IsFaultyStatement, StatementMeans};
ghost use Rattle.lot_io.specs.Reads.{reads_between};

use crate::fault::InputFault;
use lot_io::CountedRead;
use lot_statement::{Statement, read_statement};
use lot_stream::slurp;
use std::alloc::Global;

/// Reads all that a reader has as a statement, and returns what it says.
///
/// The errors are `Unread` and `Statement`.
pub fn given_statement<R: CountedRead>(
    alloc: Global,
    reader: &mut R,
) -> Result<Statement, InputFault>
    ensures ok { IfOk result
        (Gives StatementMeans (reading_between (R.remaining reader.old) (R.remaining reader.new)
        (reads_between (R.calls reader.old) (R.calls reader.new)))) }
    ensures err { IfErr result
        (GivesNone IsFaultyStatement (reading_between (R.remaining reader.old)
        (R.remaining reader.new) (reads_between (R.calls reader.old) (R.calls reader.new)))) }
{
    let file = slurp(alloc, reader)?;
    let said = said_in(alloc, &file);
    reader.take_back(file);
    said
}

/// Returns the same of a file that was read, which has no fault of a reader.
fn said_in(alloc: Global, file: &[u8]) -> Result<Statement, InputFault>
    ensures ok { IfOk result (StatementMeans file.now) }
    ensures err { IfErr result (IsFaultyStatement file.now) }
{
    match read_statement(alloc, file) {
        Ok(said) => Ok(said),
        Err(fault) => Err(InputFault::Statement(fault)),
    }
}
