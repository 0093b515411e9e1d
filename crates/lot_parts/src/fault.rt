use lot_dump::{HeadFault, LineFault};
use std::alloc::AllocError;
use thiserror::Error;

/// Why the next part of a dump wasn't read.
#[derive(Clone, Copy, Debug, PartialEq, Eq, Error)]
pub enum DumpFault {
    /// The text is no dump: this is the number, from 1, of the first line that isn't what it has to be.
    ///
    /// That is a first line that is no head, a line that begins as a head, a heading or an end but has another form, a heading
    /// whose number falls, and a line behind the end. It is the line behind the last one where the end is missing, and the last
    /// one where its line end is.
    #[error("line {line}: this is not a dump")]
    NotADump { line: u64 },
    /// The dump is of a later format, or of a book of a later edition.
    #[error("this dump needs a newer program")]
    NewerFormat,
    /// The reader failed, or 20,000,000 calls gave no whole line.
    #[error("the input can't be read")]
    Read,
    /// A line has more than 1,048,576 bytes, or the text of an entry more than 16,777,216.
    #[error("a line or an entry is too long")]
    TooLong,
    /// There was no memory for a line or an entry.
    #[error("out of memory")]
    Memory,
}

impl From<AllocError> for DumpFault {
    ghost use Rattle.std.specs.Prelude.{◌≡◌};
    ghost use Rattle.lot_parts.specs.declared.fault.DumpFault.TheVariants.{Memory};

    ghost from_gives = { λ _ e. e ≡ Memory };

    fn from(_error: AllocError) -> DumpFault {
        DumpFault::Memory
    }
}

impl From<LineFault> for DumpFault {
    ghost use Rattle.std.specs.Prelude.{◌≡◌};
    ghost use Rattle.lot_parts.specs.Fault.{fault_of_line};

    ghost from_gives = { λ fault e. e ≡ fault_of_line fault };

    fn from(fault: LineFault) -> DumpFault {
        match fault {
            LineFault::Read => DumpFault::Read,
            LineFault::TooLong => DumpFault::TooLong,
            LineFault::Memory => DumpFault::Memory,
        }
    }
}

impl From<HeadFault> for DumpFault {
    ghost use Rattle.std.specs.Prelude.{◌≡◌};
    ghost use Rattle.lot_parts.specs.Fault.{fault_of_head};

    ghost from_gives = { λ fault e. e ≡ fault_of_head fault };

    /// The head is the first line.
    fn from(fault: HeadFault) -> DumpFault {
        match fault {
            HeadFault::NotADump => DumpFault::NotADump { line: 1 },
            HeadFault::NewerFormat => DumpFault::NewerFormat,
        }
    }
}
