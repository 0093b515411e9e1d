use lot_parts::{CommandFault, SumFault};
use lot_report::PrintFault;
use lot_store::CreateFault;
use lot_table::Fault;
use std::alloc::AllocError;
use thiserror::Error;

/// Why a dump wasn't restored.
#[derive(Clone, Copy, Debug, PartialEq, Eq, Error)]
pub enum RestoreFault {
    /// No book can be made in the database, or its commit failed, or out of memory.
    #[error("{0}")]
    Book(CreateFault),
    /// The text is no dump of commands, or wasn't read.
    #[error("{0}")]
    Text(CommandFault),
    /// The dump was changed after it was written.
    #[error("{0}")]
    Sum(SumFault),
    /// The writer failed.
    #[error("the output can't be written")]
    Write,
}

impl From<CreateFault> for RestoreFault {
    ghost use Rattle.std.specs.Prelude.{◌≡◌};
    ghost use Rattle.lot_restore.specs.declared.fault.RestoreFault.TheVariants.{Book};

    ghost from_gives = { λ fault e. e ≡ Book fault };

    fn from(fault: CreateFault) -> RestoreFault {
        RestoreFault::Book(fault)
    }
}

impl From<CommandFault> for RestoreFault {
    ghost use Rattle.std.specs.Prelude.{◌≡◌};
    ghost use Rattle.lot_restore.specs.declared.fault.RestoreFault.TheVariants.{Text};

    ghost from_gives = { λ fault e. e ≡ Text fault };

    fn from(fault: CommandFault) -> RestoreFault {
        RestoreFault::Text(fault)
    }
}

impl From<SumFault> for RestoreFault {
    ghost use Rattle.std.specs.Prelude.{◌≡◌};
    ghost use Rattle.lot_restore.specs.declared.fault.RestoreFault.TheVariants.{Sum};

    ghost from_gives = { λ fault e. e ≡ Sum fault };

    fn from(fault: SumFault) -> RestoreFault {
        RestoreFault::Sum(fault)
    }
}

impl From<PrintFault> for RestoreFault {
    ghost use Rattle.std.specs.Prelude.{◌≡◌};
    ghost use Rattle.lot_restore.specs.Fault.{fault_of_print};

    ghost from_gives = { λ fault e. e ≡ fault_of_print fault };

    fn from(fault: PrintFault) -> RestoreFault {
        match fault {
            PrintFault::Write => RestoreFault::Write,
            PrintFault::Memory => RestoreFault::Book(CreateFault::Memory),
        }
    }
}

impl From<Fault> for RestoreFault {
    ghost use Rattle.std.specs.Prelude.{◌≡◌};
    ghost use Rattle.lot_restore.specs.Fault.{fault_of_table};

    ghost from_gives = { λ fault e. e ≡ fault_of_table fault };

    /// Tables that are damaged stand for no book.
    fn from(fault: Fault) -> RestoreFault {
        match fault {
            Fault::Device => RestoreFault::Book(CreateFault::Device),
            Fault::Damaged => RestoreFault::Book(CreateFault::NotABook),
            Fault::Memory => RestoreFault::Book(CreateFault::Memory),
        }
    }
}

impl From<AllocError> for RestoreFault {
    ghost use Rattle.std.specs.Prelude.{◌≡◌};
    ghost use Rattle.lot_restore.specs.declared.fault.RestoreFault.TheVariants.{Book};
    ghost use Rattle.lot_store.specs.declared.fault.CreateFault.TheVariants.{Memory};

    ghost from_gives = { λ _ e. e ≡ Book Memory };

    fn from(_error: AllocError) -> RestoreFault {
        RestoreFault::Book(CreateFault::Memory)
    }
}
