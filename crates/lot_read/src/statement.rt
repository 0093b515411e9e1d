use crate::fault::{LineFault, MeaningFault, ValueFault};
use lot_command::{Command, Posting};
use lot_syntax::{FormFault, Uncut};
use std::alloc::AllocFailed;

/// What a line says that isn't skipped.
#[derive(Drop)]
pub(crate) enum Statement {
    /// A line that isn't indented: a command, of a transaction without its postings.
    Begins(Command),
    /// An indented line: the next posting of the transaction before it.
    Posts(Posting),
}

/// Why nothing is added for a line.
#[derive(Clone, Copy)]
pub(crate) enum StatementFault {
    /// The line is faulty.
    Line(LineFault),
    /// Out of memory. The line isn't faulty.
    Memory,
}

impl From<LineFault> for StatementFault {
    ghost use Rattle.std.specs.Prelude.{◌≡◌};
    ghost use Rattle.lot_read.specs.declared.statement.StatementFault.TheVariants.{Line};

    ghost from_gives = { λ fault e. e ≡ Line fault };

    fn from(fault: LineFault) -> StatementFault {
        StatementFault::Line(fault)
    }
}

impl From<Uncut> for StatementFault {
    ghost use Rattle.std.specs.Prelude.{◌≡◌};
    ghost use Rattle.lot_read.specs.declared.fault.LineFault.TheVariants.{Syntax};
    ghost use Rattle.lot_read.specs.declared.statement.StatementFault.TheVariants.{Line};

    ghost from_gives = { λ _ e. e ≡ Line Syntax };

    fn from(_uncut: Uncut) -> StatementFault {
        StatementFault::Line(LineFault::Syntax)
    }
}

impl From<FormFault> for StatementFault {
    ghost use Rattle.std.specs.Prelude.{◌≡◌};
    ghost use Rattle.lot_read.specs.Reading.{of_form};

    ghost from_gives = { λ fault e. e ≡ of_form fault };

    fn from(fault: FormFault) -> StatementFault {
        StatementFault::Line(match fault {
            FormFault::UnknownDirective => LineFault::UnknownDirective,
            FormFault::Syntax => LineFault::Syntax,
        })
    }
}

impl From<MeaningFault> for StatementFault {
    ghost use Rattle.std.specs.Prelude.{◌≡◌};
    ghost use Rattle.lot_read.specs.Reading.{of_meaning};

    ghost from_gives = { λ fault e. e ≡ of_meaning fault };

    fn from(fault: MeaningFault) -> StatementFault {
        match fault {
            MeaningFault::Outside(ValueFault::BadNumber) => StatementFault::Line(
                LineFault::BadNumber,
            ),
            MeaningFault::Outside(ValueFault::BadName) => StatementFault::Line(LineFault::BadName),
            MeaningFault::Outside(ValueFault::BadDay) => StatementFault::Line(LineFault::BadDay),
            MeaningFault::Memory => StatementFault::Memory,
        }
    }
}

impl<T: Drop> From<AllocFailed<T>> for StatementFault {
    ghost use Rattle.std.specs.Prelude.{◌≡◌};
    ghost use Rattle.lot_read.specs.declared.statement.StatementFault.TheVariants.{Memory};

    ghost from_gives = { λ _ e. e ≡ Memory };

    fn from(_failed: AllocFailed<T>) -> StatementFault {
        StatementFault::Memory
    }
}
