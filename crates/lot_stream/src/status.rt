ghost use Rattle.std.specs.Prelude.{◌≡◌, IsErr};
ghost use Rattle.std.specs.Io.KnownBytes.{Keeps};
ghost use Rattle.lot_stream.specs.Status.{Ends, EndsIfFailed, IsStatus, after_flush, code_of, status_after};
ghost use Rattle.lot_io.specs.Writes.{writes_between};

use lot_io::CountedWrite;
use lot_report::PrintFault;
use std::io;

/// The status of a call that did what was asked for, or showed it.
pub const DONE: u8 = 0;

/// The status of an action that ran to its end, where some of its commands were refused. That of a fault is greater.
pub const REFUSED: u8 = 1;

/// The status of arguments that can't be used.
pub const UNUSABLE: u8 = 2;

/// The status of an input that can't be read, or isn't what it should be.
pub const BAD_INPUT: u8 = 3;

/// The status where memory ends, a file can't be opened, a book is damaged or the output can't be written.
pub const STOPPED: u8 = 4;

/// How a run ended.
#[derive(Clone, Copy, Debug, PartialEq, Eq)]
pub enum Status {
    /// Every command was accepted or repeated.
    Accepted,
    /// Some command was refused.
    Refused,
    /// The input can't be read, or isn't ledger text.
    BadInput,
    /// The report, the output or memory stopped it.
    Stopped,
}

impl Status {
    /// Returns the status of two runs, one after the other. Neither of them met a fault.
    pub fn and(self, next: Status) -> Status
        ensures { result ≡ status_after self next }
    {
        if self == Status::Accepted { next } else { self }
    }

    /// Returns the number with which the program ends.
    pub fn code(self) -> u8
        ensures value { result ≡ code_of self }
        ensures status { IsStatus result }
    {
        match self {
            Status::Accepted => DONE,
            Status::Refused => REFUSED,
            Status::BadInput => BAD_INPUT,
            Status::Stopped => STOPPED,
        }
    }
}

/// Ends the output of a run. Where all was written, it flushes it, and returns the status, or that of a stopped run
/// where the flush fails. Where not all was written, it asks nothing more of the writer.
pub fn finish<W: CountedWrite>(writer: &mut W, concluded: Result<Status, PrintFault>) -> Status
    ensures kept { Keeps (W.contents writer.old) (W.contents writer.new) }
    ensures end { Ends concluded (W.calls writer.new) result }
    ensures none_failed { EndsIfFailed
        (writes_between (W.calls writer.old) (W.calls writer.new)) result }
    ensures unasked { IsErr concluded → writer.new ≡ writer.old }
{
    match concluded {
        Ok(status) => after_flush(status, writer.flush_counted()),
        Err(_) => Status::Stopped,
    }
}

/// Returns the status of a run after the call of `flush`. A flush that fails stops the run.
fn after_flush(status: Status, outcome: io::Result<()>) -> Status
    ensures { result ≡ after_flush status outcome }
{
    match outcome {
        Ok(()) => status,
        Err(_) => Status::Stopped,
    }
}
