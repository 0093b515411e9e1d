ghost use Rattle.std.specs.Prelude.{◌≡◌, IfErr, IfOk, length};
ghost use Rattle.lot_export.specs.Export.{IsExport};
ghost use Rattle.lot_input.specs.Exported.{IsFaultyExport};
ghost use Rattle.lot_input.specs.Input.{Gives, GivesNone, reading_between};
ghost use Rattle.lot_input.specs.Keyed.{HaveNext, import_source};
ghost use Rattle.lot_io.specs.Reads.{reads_between};

use crate::fault::InputFault;
use crate::keyed::source;
use lot_args::Batch;
use lot_base::Label;
use lot_export::{Export, read_export};
use lot_io::CountedRead;
use lot_profile::Profile;
use lot_stream::slurp;
use std::alloc::Global;

/// Reads all that a reader has as a broker's export. Returns what its rows come to by a profile, without those whose names are
/// among `except`: each command has the key of its row in the batch, and the number of its row in the file.
///
/// The errors are `Unasked`, `Unread` and `Export`. `Unasked` is out of memory for the source of the keys. The source is made
/// before anything is read, so that this is never told in place of a fault of the file.
pub fn keyed_export<R: CountedRead>(
    alloc: Global,
    batch: &Batch,
    profile: &Profile,
    except: &[Label],
    reader: &mut R,
) -> Result<Export, InputFault>
    ensures ok { IfOk result (Gives (IsExport (import_source batch.now) profile.now except.now)
        (reading_between (R.remaining reader.old) (R.remaining reader.new)
        (reads_between (R.calls reader.old) (R.calls reader.new)))) }
    ensures as_many { IfOk result (λ export.
        length export.given.numbers.items ≡ length export.given.commands.items) }
    ensures next { IfOk result (λ export. HaveNext export.given.numbers.items) }
    ensures err { IfErr result
        (GivesNone (IsFaultyExport profile.now except.now) (reading_between (R.remaining reader.old)
        (R.remaining reader.new) (reads_between (R.calls reader.old) (R.calls reader.new)))) }
{
    let Ok(source) = source(alloc, "import", batch) else {
        return Err(InputFault::Unasked);
    };
    let file = slurp(alloc, reader)?;
    let export = export_in(alloc, &source, profile, except, &file);
    reader.take_back(file);
    export
}

/// Returns the same of a file that was read, which has no fault of a reader.
fn export_in(
    alloc: Global,
    source: &Label,
    profile: &Profile,
    except: &[Label],
    file: &[u8],
) -> Result<Export, InputFault>
    ensures ok { IfOk result (IsExport source.now profile.now except.now file.now) }
    ensures as_many { IfOk result (λ export.
        length export.given.numbers.items ≡ length export.given.commands.items) }
    ensures next { IfOk result (λ export. HaveNext export.given.numbers.items) }
    ensures err { IfErr result (IsFaultyExport profile.now except.now file.now) }
{
    match read_export(alloc, source, profile, except, file) {
        Ok(export) => Ok(export),
        Err(fault) => Err(InputFault::Export(fault)),
    }
}
