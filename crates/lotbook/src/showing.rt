//! What a broker's export comes to by a profile, on standard output. No book is opened.

ghost use Rattle.std.specs.Io.Buffered.{writer_contents};
ghost use Rattle.lotbook.specs.Shown.{IsExportShown, ShowsTo};

use crate::keeper::{Keep, Keeper};
use crate::system::buffered;
use lot_call::{say_cut_short, say_export_fault, status_behind};
use lot_cli::{CountedWriter, Halt, InputFault, Notes, show};
use lot_output::{Ended, Heard, Output, Record, Witness};
use lot_profile::Profile;
use std::io::{Read, Write};

/// Writes the ledger text that standard input comes to by a profile, says on standard error what is wrong with it, and returns the
/// status of the program.
pub fn show_on(rt: &HostRuntime, profile: &Profile, notes: Notes) -> u8
    ensures { IsExportShown profile.now result }
{
    let (status, _stdout) = show_to(rt, profile, notes, rt.reader(), buffered(rt));
    status
}

/// Writes to an output the ledger text that an input comes to by a profile, and says on standard error what is wrong with it.
/// Returns the status of the program, and what the output was written to.
fn show_to<R: Read + Drop, W: Write + Drop>(
    rt: &HostRuntime,
    profile: &Profile,
    notes: Notes,
    input: R,
    output: Output<'_, W>,
) -> (u8, W)
    ensures { ShowsTo profile.now (R.remaining input)
        (writer_contents W.contents output.entry.buffer) (W.contents result.1) result.0 }
{
    let alloc = rt.alloc();
    let keep = match notes {
        Notes::Quiet => Keep::Nothing,
        Notes::Ten | Notes::All => Keep::TakenBack,
    };
    let mut reader = Keeper::new(alloc, input, keep);
    let mut writer = CountedWriter::new(Witness::new(alloc, output, 0));
    let shown = show(alloc, profile, &mut reader, &mut writer);
    reader.free_room();
    let (output, heard) = writer.into_writer().into_parts();
    let Ended { writer, is_whole } = output.end();
    say_fault(rt, profile, shown.halt, &reader.kept);
    say_failure(rt, notes, &heard);
    (status_behind(shown.status, is_whole), writer)
}

/// Says what is wrong with an export that was read, where that is why nothing is shown.
fn say_fault(rt: &HostRuntime, profile: &Profile, halt: Option<Halt>, read: &Record) {
    if let (Some(Halt::Input(InputFault::Export(fault))), Some(bytes)) = (halt, &read.bytes) {
        say_export_fault(rt, profile, fault, bytes.as_slice());
    }
}

/// Says why the output couldn't be written, where it couldn't and something is to be said.
fn say_failure(rt: &HostRuntime, notes: Notes, heard: &Heard) {
    if let Some(error) = heard.failure
        && !matches!(notes, Notes::Quiet)
    {
        say_cut_short(rt, error);
    }
}
