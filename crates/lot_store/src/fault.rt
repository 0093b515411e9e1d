use lot_table::{Fault, MakeFault};
use sqlite::{Alter, Connection};
use std::alloc::AllocError;
use thiserror::Error;

/// Why the book in a file stops (docs/RULES.md, All codes).
#[derive(Clone, Copy, Debug, PartialEq, Eq, Error)]
pub enum StoreFault {
    /// The disk or a limit of the database's size refused; nothing was committed.
    #[error("the disk or a limit of its size refused")]
    Device,
    /// The commit failed. It was made or not.
    #[error("the commit failed: it was made or not")]
    InDoubt,
    /// An earlier call had `Device` or `InDoubt`. The book has to be opened again.
    #[error("the book has to be opened anew")]
    NeedsReopen,
    /// A row was read that no book has, or a statement was refused for another cause. Nothing changed.
    #[error("the tables of the book are damaged")]
    Damaged,
    /// Out of memory.
    #[error("out of memory")]
    Memory,
}

impl StoreFault {
    ghost use Rattle.std.specs.Prelude.{◌≡◌};
    ghost use Rattle.lot_store.specs.Run.{fault_name};

    /// Returns the code and the name of the fault (docs/RULES.md, All codes).
    pub fn name(self) -> &'static str
        ensures { result.now ≡ fault_name self }
    {
        match self {
            StoreFault::Device => "S4 Device",
            StoreFault::InDoubt => "S5 InDoubt",
            StoreFault::NeedsReopen => "S6 NeedsReopen",
            StoreFault::Damaged => "S7 Damaged",
            StoreFault::Memory => "Memory",
        }
    }
}

impl From<Fault> for StoreFault {
    ghost use Rattle.std.specs.Prelude.{◌≡◌};
    ghost use Rattle.lot_store.specs.Apply.{store_fault_of};

    ghost from_gives = { λ fault e. e ≡ store_fault_of fault };

    fn from(fault: Fault) -> StoreFault {
        match fault {
            Fault::Device => StoreFault::Device,
            Fault::Damaged => StoreFault::Damaged,
            Fault::Memory => StoreFault::Memory,
        }
    }
}

/// Why a book isn't made.
#[derive(Clone, Copy, Debug, PartialEq, Eq, Error)]
pub enum CreateFault {
    /// The name of a table is taken, or the database refuses the tables of a book for another cause.
    #[error("a table of the database has the name of one of a book")]
    NotABook,
    /// The disk or a limit of the database's size refused; nothing was committed.
    #[error("the disk or a limit of its size refused")]
    Device,
    /// The commit failed. The book was made or not.
    #[error("the commit failed: it was made or not")]
    InDoubt,
    /// Out of memory.
    #[error("out of memory")]
    Memory,
}

impl From<Fault> for CreateFault {
    ghost use Rattle.std.specs.Prelude.{◌≡◌};
    ghost use Rattle.lot_store.specs.Create.{create_fault_of};

    ghost from_gives = { λ fault e. e ≡ create_fault_of fault };

    fn from(fault: Fault) -> CreateFault {
        match fault {
            Fault::Device => CreateFault::Device,
            Fault::Damaged => CreateFault::NotABook,
            Fault::Memory => CreateFault::Memory,
        }
    }
}

impl From<MakeFault> for CreateFault {
    ghost use Rattle.std.specs.Prelude.{◌≡◌};
    ghost use Rattle.lot_store.specs.Create.{make_fault_of};

    ghost from_gives = { λ fault e. e ≡ make_fault_of fault };

    fn from(fault: MakeFault) -> CreateFault {
        match fault {
            MakeFault::Taken => CreateFault::NotABook,
            MakeFault::Failed(fault) => CreateFault::from(fault),
        }
    }
}

impl From<AllocError> for CreateFault {
    ghost use Rattle.std.specs.Prelude.{◌≡◌};
    ghost use Rattle.lot_store.specs.declared.fault.CreateFault.TheVariants.{Memory};

    ghost from_gives = { λ _ e. e ≡ Memory };

    fn from(_error: AllocError) -> CreateFault {
        CreateFault::Memory
    }
}

/// Why a book isn't taken up.
#[derive(Clone, Copy, Debug, PartialEq, Eq, Error)]
pub enum AdoptFault {
    /// The table `book` isn't one row with the mark of a book and an edition.
    #[error("the database is no book")]
    NotABook,
    /// The edition of the book is older than this program, and the book wasn't migrated.
    #[error("the book is of an older edition")]
    OlderEdition,
    /// The edition of the book is newer than this program.
    #[error("the book is of a newer edition")]
    NewerEdition,
    /// The disk or a limit of the database's size refused.
    #[error("the disk or a limit of its size refused")]
    Device,
    /// Out of memory.
    #[error("out of memory")]
    Memory,
}

impl From<Fault> for AdoptFault {
    ghost use Rattle.std.specs.Prelude.{◌≡◌};
    ghost use Rattle.lot_store.specs.Create.{adopt_fault_of};

    ghost from_gives = { λ fault e. e ≡ adopt_fault_of fault };

    fn from(fault: Fault) -> AdoptFault {
        match fault {
            Fault::Device => AdoptFault::Device,
            Fault::Damaged => AdoptFault::NotABook,
            Fault::Memory => AdoptFault::Memory,
        }
    }
}

/// A connection that is handed back, with the fault.
pub struct HandedBack<S: Alter, F> {
    pub fault: F,
    pub conn: Connection<S>,
}
