use lot_table::{Fault, MakeFault};
use std::alloc::AllocError;
use thiserror::Error;

/// Why a book isn't migrated.
#[derive(Clone, Copy, Debug, PartialEq, Eq, Error)]
pub enum MigrateFault {
    /// The table `book` isn't one row with the mark of a book and an edition, or a table that
    /// edition 2 adds has a name that is taken.
    #[error("the database is no book")]
    NotABook,
    /// The edition of the book is newer than this program.
    #[error("the book is of a newer edition")]
    NewerEdition,
    /// The disk or a limit of the database's size refused; nothing was committed.
    #[error("the disk or a limit of its size refused")]
    Device,
    /// The commit failed. The book was migrated or not.
    #[error("the commit failed: it was made or not")]
    InDoubt,
    /// A row was read that no book has, or a statement was refused for another cause. Nothing
    /// changed.
    #[error("the tables of the book are damaged")]
    Damaged,
    /// Out of memory.
    #[error("out of memory")]
    Memory,
}

impl From<Fault> for MigrateFault {
    ghost use Rattle.std.specs.Prelude.{◌≡◌};
    ghost use Rattle.lot_migrate.specs.Fault.{migrate_fault_of};

    ghost from_gives = { λ fault e. e ≡ migrate_fault_of fault };

    fn from(fault: Fault) -> MigrateFault {
        match fault {
            Fault::Device => MigrateFault::Device,
            Fault::Damaged => MigrateFault::Damaged,
            Fault::Memory => MigrateFault::Memory,
        }
    }
}

impl From<MakeFault> for MigrateFault {
    ghost use Rattle.std.specs.Prelude.{◌≡◌};
    ghost use Rattle.lot_migrate.specs.Fault.{add_fault_of};

    ghost from_gives = { λ fault e. e ≡ add_fault_of fault };

    fn from(fault: MakeFault) -> MigrateFault {
        match fault {
            MakeFault::Taken => MigrateFault::NotABook,
            MakeFault::Failed(fault) => MigrateFault::from(fault),
        }
    }
}

impl From<AllocError> for MigrateFault {
    ghost use Rattle.std.specs.Prelude.{◌≡◌};
    ghost use Rattle.lot_migrate.specs.declared.fault.MigrateFault.TheVariants.{Memory};

    ghost from_gives = { λ _ e. e ≡ Memory };

    fn from(_error: AllocError) -> MigrateFault {
        MigrateFault::Memory
    }
}
