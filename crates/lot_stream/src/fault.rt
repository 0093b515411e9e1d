ghost use Rattle.std.specs.Prelude.{◌≡◌, IfErr, OnErr, OnOk};
ghost use Rattle.lot_stream.specs.FaultLine.{fault_line, name_text};
ghost use Rattle.lot_stream.specs.Status.{status_of};
ghost use Rattle.lot_io.specs.Writes.{HasFailed, NoneFailed};
ghost use Rattle.lot_report.specs.Written.{WritesLine};

use crate::input::SlurpFault;
use crate::status::Status;
use itoa::Buffer;
use lot_io::CountedWrite;
use lot_read::{LineFault, TextFault};
use lot_report::{PrintFault, ReportFault, print_texts};
use std::alloc::AllocError;
use thiserror::Error;

/// Why a run ended before its end.
#[derive(Clone, Copy, Debug, PartialEq, Eq, Error)]
pub enum Fault {
    /// The reader failed.
    #[error("the input can't be read")]
    Read,
    /// The input is too long.
    #[error("the input is longer than 16 MiB")]
    TooLong,
    /// A line, counted from 1, isn't ledger text.
    #[error("line {line}: {fault}")]
    Text { line: u64, fault: LineFault },
    /// A total leaves the range of weights.
    #[error("a total is too large")]
    Range,
    /// The writer failed.
    #[error("the output can't be written")]
    Write,
    /// Out of memory before the first command or after the last.
    #[error("out of memory")]
    Memory,
    /// Out of memory while the command of that number was judged or replied to.
    #[error("out of memory at command {number}")]
    MemoryAt { number: usize },
}

impl From<SlurpFault> for Fault {
    ghost use Rattle.std.specs.Prelude.{◌≡◌};
    ghost use Rattle.lot_stream.specs.Status.{fault_of_input};

    ghost from_gives = { λ fault e. e ≡ fault_of_input fault };

    fn from(fault: SlurpFault) -> Fault {
        match fault {
            SlurpFault::Read => Fault::Read,
            SlurpFault::TooLong => Fault::TooLong,
            SlurpFault::Memory => Fault::Memory,
        }
    }
}

impl From<AllocError> for Fault {
    ghost use Rattle.std.specs.Prelude.{◌≡◌};
    ghost use Rattle.lot_stream.specs.declared.fault.Fault.TheVariants.{Memory};

    ghost from_gives = { λ _ e. e ≡ Memory };

    fn from(_error: AllocError) -> Fault {
        Fault::Memory
    }
}

impl From<TextFault> for Fault {
    ghost use Rattle.std.specs.Prelude.{◌≡◌};
    ghost use Rattle.lot_stream.specs.Status.{fault_of_text};

    ghost from_gives = { λ fault e. e ≡ fault_of_text fault };

    fn from(fault: TextFault) -> Fault {
        match fault {
            TextFault::Line { line, fault } => Fault::Text { line, fault },
            TextFault::Memory { .. } => Fault::Memory,
        }
    }
}

impl From<ReportFault> for Fault {
    ghost use Rattle.std.specs.Prelude.{◌≡◌};
    ghost use Rattle.lot_stream.specs.Status.{fault_of_report};

    ghost from_gives = { λ fault e. e ≡ fault_of_report fault };

    fn from(fault: ReportFault) -> Fault {
        match fault {
            ReportFault::Range => Fault::Range,
            ReportFault::Write => Fault::Write,
            ReportFault::Memory => Fault::Memory,
        }
    }
}

impl Fault {
    /// Returns how a run with this fault ends.
    pub fn status(self) -> Status
        ensures { result ≡ status_of self }
    {
        match self {
            Fault::Read | Fault::TooLong | Fault::Text { .. } => Status::BadInput,
            _ => Status::Stopped,
        }
    }
}

/// Writes the line that reports a fault. A fault of the writer has no line. It takes no memory, which may have ended. The only
/// fault is that of the writer.
pub fn print_fault<W: CountedWrite>(writer: &mut W, fault: Fault) -> Result<(), PrintFault>
    ensures bytes { WritesLine (W.contents writer.old) (W.contents writer.new) result
        (fault_line fault) }
    ensures fault { IfErr result (λ fault. fault ≡ PrintFault.Write) }
    ensures cause { OnErr result (HasFailed (W.calls writer.new)) }
    ensures none_failed { OnOk result (NoneFailed (W.calls writer.old) (W.calls writer.new)) }
{
    let mut digits = Buffer::new();
    match fault {
        Fault::Read => print_texts(writer, &["fault K1 Read\n"]),
        Fault::TooLong => print_texts(writer, &["fault K2 TooLong\n"]),
        Fault::Text { line, fault } => {
            let texts = ["fault line ", digits.format(line), " ", name(fault), "\n"];
            print_texts(writer, &texts)
        }
        Fault::Range => print_texts(writer, &["fault P1 Range\n"]),
        Fault::Write => Ok(()),
        Fault::Memory => print_texts(writer, &["fault Memory\n"]),
        Fault::MemoryAt { number } => {
            print_texts(writer, &[digits.format(number), " fault Memory\n"])
        }
    }
}

/// Returns the code and the name of a fault of ledger text.
fn name(fault: LineFault) -> &'static str
    ensures { result.now ≡ name_text fault }
{
    match fault {
        LineFault::NotUtf8 => "X1 NotUtf8",
        LineFault::Syntax => "X2 Syntax",
        LineFault::UnknownDirective => "X3 UnknownDirective",
        LineFault::BadNumber => "X4 BadNumber",
        LineFault::BadName => "X5 BadName",
        LineFault::BadDay => "X6 BadDay",
        LineFault::TooLong => "X7 LineTooLong",
    }
}
