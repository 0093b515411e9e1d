ghost use Rattle.std.specs.Prelude.{◌≡◌};

use lot_base::NameFault;
use sqlite::{Error, ErrorCode};
use std::alloc::{AllocError, AllocFailed};
use thiserror::Error as FaultError;

/// Why a call on the tables failed.
#[derive(Clone, Copy, Debug, PartialEq, Eq, FaultError)]
pub enum Fault {
    /// The disk or a limit of the database's size refused.
    #[error("the disk or a limit of its size refused")]
    Device,
    /// No book has the row, or a statement was refused for another cause than memory, disk or size.
    #[error("the tables of the book are damaged")]
    Damaged,
    /// Out of memory.
    #[error("out of memory")]
    Memory,
}

impl From<Error> for Fault {
    ghost use Rattle.lot_table.specs.Fault.{fault_of};

    ghost from_gives = { λ error fault. fault ≡ fault_of error };

    fn from(error: Error) -> Fault {
        match error {
            Error::SqliteFailure(ErrorCode::OutOfMemory) => Fault::Memory,
            Error::SqliteFailure(
                ErrorCode::SystemIoFailure
                | ErrorCode::DatabaseCorrupt
                | ErrorCode::DiskFull
                | ErrorCode::TooBig
                | ErrorCode::SchemaTooBig
                | ErrorCode::NoRowid
                | ErrorCode::Closed,
            ) => Fault::Device,
            _ => Fault::Damaged,
        }
    }
}

impl From<NameFault> for Fault {
    ghost use Rattle.lot_table.specs.Fault.{name_fault};

    ghost from_gives = { λ error fault. fault ≡ name_fault error };

    fn from(error: NameFault) -> Fault {
        match error {
            NameFault::Memory => Fault::Memory,
            _ => Fault::Damaged,
        }
    }
}

impl<T: Drop> From<AllocFailed<T>> for Fault {
    ghost use Rattle.lot_table.specs.declared.fault.Fault.TheVariants.{Memory};

    ghost from_gives = { λ _ fault. fault ≡ Memory };

    fn from(_error: AllocFailed<T>) -> Fault {
        Fault::Memory
    }
}

impl From<AllocError> for Fault {
    ghost use Rattle.lot_table.specs.declared.fault.Fault.TheVariants.{Memory};

    ghost from_gives = { λ _ fault. fault ≡ Memory };

    fn from(_error: AllocError) -> Fault {
        Fault::Memory
    }
}
