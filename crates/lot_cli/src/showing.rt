ghost use Rattle.std.specs.Prelude.{IfErr, IfOk, None, Some};
ghost use Rattle.std.specs.String.{string_bytes};
ghost use Rattle.lot_input.specs.Input.{Gives, reading_between};
ghost use Rattle.lot_stream.specs.Status.{IsStatus};
ghost use Rattle.lot_cli.specs.Shows.{ShownAs, ShowsExport, ShowsNone};
ghost use Rattle.lot_io.specs.Reads.{reads_between};
ghost use Rattle.lot_cli.specs.Says.{told};
ghost use Rattle.lot_io.specs.Writes.{writes_between};

use crate::halt::Halt;
use crate::run::{say_halt, tell};
use lot_args::Batch;
use lot_export::shown_text;
use lot_input::{InputFault, keyed_export};
use lot_io::{CountedRead, CountedWrite};
use lot_profile::Profile;
use lot_report::print_texts;
use lot_stream::Status;
use std::alloc::Global;

/// The outcome of showing an export.
#[derive(Clone, Copy)]
pub struct Shown {
    /// The status of the program.
    pub status: u8,
    /// Why nothing is shown, or `None` where it is.
    pub halt: Option<Halt>,
}

/// Writes the ledger text that a broker's export comes to by a profile. All that the reader has is read, and each row is understood,
/// before anything is written; no book is opened.
pub fn show<R: CountedRead, W: CountedWrite>(
    alloc: Global,
    profile: &Profile,
    reader: &mut R,
    writer: &mut W,
) -> Shown
    ensures shows { ShowsExport profile.now (reading_between (R.remaining reader.old)
        (R.remaining reader.new) (reads_between (R.calls reader.old) (R.calls reader.new)))
        (W.contents writer.old) (W.contents writer.new) (writes_between (W.calls writer.old)
        (W.calls writer.new)) (told result.status result.halt) }
    ensures status { IsStatus result.status }
{
    match text_for(alloc, profile, reader) {
        Ok(text) => {
            let printed = print_texts(writer, &[text.as_str()]);
            Shown {
                status: tell(writer, printed, Status::Accepted),
                halt: None,
            }
        }
        Err(fault) => Shown {
            status: say_halt(writer, Halt::Input(fault)),
            halt: Some(Halt::Input(fault)),
        },
    }
}

/// Returns the ledger text that all that a reader has comes to by a profile, or why it comes to none.
fn text_for<R: CountedRead>(
    alloc: Global,
    profile: &Profile,
    reader: &mut R,
) -> Result<String, InputFault>
    ensures ok { IfOk result (λ text. Gives (ShownAs profile.now)
        (reading_between (R.remaining reader.old) (R.remaining reader.new)
        (reads_between (R.calls reader.old) (R.calls reader.new))) (string_bytes text)) }
    ensures fault { IfErr result (ShowsNone profile.now (reading_between (R.remaining reader.old)
        (R.remaining reader.new) (reads_between (R.calls reader.old) (R.calls reader.new)))) }
{
    let Ok(batch) = Batch::new(alloc, "show") else {
        return Err(InputFault::Memory);
    };
    let export = match keyed_export(alloc, &batch, profile, &[], reader) {
        Ok(export) => export,
        Err(fault) => return Err(fault),
    };
    match shown_text(alloc, &export) {
        Ok(text) => Ok(text),
        Err(_) => Err(InputFault::Memory),
    }
}
