use std::alloc::AllocError;
use thiserror::Error;

/// Why a text says no commands.
#[derive(Clone, Copy, Debug, PartialEq, Eq, Error)]
pub enum TextFault {
    /// The first faulty line, counted from 1, and what is wrong with it.
    #[error("line {line}: {fault}")]
    Line { line: u64, fault: LineFault },
    /// Out of memory at that line, counted from 1. The lines up to it, and the line itself, say commands.
    #[error("out of memory at line {line}")]
    Memory { line: u64 },
}

/// What is wrong with a line (docs/FORMATS.md, Order of faults).
#[derive(Clone, Copy, Debug, PartialEq, Eq, Error)]
pub enum LineFault {
    /// `X1`: the line isn't UTF-8.
    #[error("not UTF-8")]
    NotUtf8,
    /// `X2`: the line can't be cut into tokens, has none of the forms, or is a posting without a transaction.
    #[error("not a line of any form")]
    Syntax,
    /// `X3`: a line that isn't indented doesn't begin with a date, or what follows is no directive.
    #[error("not a directive")]
    UnknownDirective,
    /// `X4`: a number is outside its kind.
    #[error("a number is outside its kind")]
    BadNumber,
    /// `X5`: an account, a commodity, a method, a label or a note is outside its rule.
    #[error("a name is outside its rule")]
    BadName,
    /// `X6`: a day isn't in the calendar of the years 1 to 9999.
    #[error("not a day of the years 1 to 9999")]
    BadDay,
    /// `X7`: the line has more than 4,096 bytes.
    #[error("longer than 4,096 bytes")]
    TooLong,
}

/// Why the parts of a line that has a form say nothing.
#[derive(Clone, Copy)]
pub enum ValueFault {
    /// A number is outside its kind.
    BadNumber,
    /// An account, a commodity, a method, a label or a note is outside its rule.
    BadName,
    /// A day isn't in the calendar of the years 1 to 9999.
    BadDay,
}

/// Why the parts of a line that has a form give neither a command nor a posting.
#[derive(Clone, Copy)]
pub enum MeaningFault {
    /// A part is outside its rule. It is the fault of the first such part.
    Outside(ValueFault),
    /// Out of memory. All parts are within their rules.
    Memory,
}

impl From<ValueFault> for MeaningFault {
    ghost use Rattle.std.specs.Prelude.{◌≡◌};
    ghost use Rattle.lot_read.specs.declared.fault.MeaningFault.TheVariants.{Outside};

    ghost from_gives = { λ fault e. e ≡ Outside fault };

    fn from(fault: ValueFault) -> MeaningFault {
        MeaningFault::Outside(fault)
    }
}

impl From<AllocError> for MeaningFault {
    ghost use Rattle.std.specs.Prelude.{◌≡◌};
    ghost use Rattle.lot_read.specs.declared.fault.MeaningFault.TheVariants.{Memory};

    ghost from_gives = { λ _ e. e ≡ Memory };

    fn from(_error: AllocError) -> MeaningFault {
        MeaningFault::Memory
    }
}
