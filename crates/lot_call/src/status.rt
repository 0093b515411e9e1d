//! How a call ends, and what it writes straight to standard output.

ghost use Rattle.std.specs.Prelude.{◌≡◌, OnOk, if◌then◌else◌};
ghost use Rattle.std.specs.Io.KnownBytes.{Appends};
ghost use Rattle.lot_host.specs.Answers.{stopped};
ghost use Rattle.lot_call.specs.Status.{line_of};

use lot_stream::STOPPED;
use std::io::{self, Write};

/// A fault that has no code (docs/RULES.md, All codes).
#[derive(Clone, Copy)]
pub enum PlainFault {
    /// Out of memory.
    Memory,
    /// The file of the book can't be opened.
    Open,
}

/// Reports on standard output that memory ended, and returns the status.
pub fn out_of_memory(rt: &HostRuntime) -> u8
    ensures { result ≡ stopped }
{
    let _ = write_fault(&mut rt.stdout(), PlainFault::Memory);
    STOPPED
}

/// Returns the status of a call that ended with this one, by whether all that it wrote was handed to
/// the writer.
pub fn status_behind(status: u8, is_whole: bool) -> u8
    ensures { result ≡ (if is_whole then status else stopped) }
{
    if is_whole { status } else { STOPPED }
}

/// Writes the line of a fault. It takes no memory.
pub fn write_fault<W: Write>(writer: &mut W, fault: PlainFault) -> io::Result<()>
    ensures { OnOk result (Appends (W.contents writer.old) (W.contents writer.new)
        (line_of fault)) }
{
    match fault {
        PlainFault::Memory => writer.write_all(b"fault Memory\n"),
        PlainFault::Open => writer.write_all(b"fault open\n"),
    }
}
