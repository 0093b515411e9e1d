use std::alloc::AllocFailed;
use thiserror::Error;

/// Why a file is no statement. Of several faulty rows, it is the first.
#[derive(Clone, Copy, Debug, PartialEq, Eq, Error)]
pub enum StatementFault {
    /// The first record isn't the header, or there is none.
    #[error("not the header of a statement")]
    BadHeader,
    /// A row is faulty: its number, from 1, and the cause.
    #[error("row {row}: {cause}")]
    BadRow { row: usize, cause: LineCause },
    /// Out of memory.
    #[error("out of memory")]
    Memory,
}

/// Why a row is faulty. Of several causes, the first in this order is reported.
#[derive(Clone, Copy, Debug, PartialEq, Eq, Error)]
pub enum LineCause {
    /// The record hasn't two fields.
    #[error("another number of fields than the header")]
    Length,
    /// `commodity` isn't a commodity.
    #[error("commodity isn't a commodity")]
    Commodity,
    /// `units` isn't a number of units.
    #[error("units isn't a number of units")]
    Units,
    /// A row above has the commodity.
    #[error("the commodity stands in a row above")]
    Repeated,
}

/// Why the line of a record isn't kept.
#[derive(Clone, Copy)]
pub(crate) enum LineFault {
    /// It is faulty.
    Bad(LineCause),
    /// Out of memory.
    Memory,
}

impl<T: Drop> From<AllocFailed<T>> for LineFault {
    ghost use Rattle.std.specs.Prelude.{◌≡◌};
    ghost use Rattle.lot_statement.specs.declared.fault.LineFault.TheVariants.{Memory};

    ghost from_gives = { λ _ e. e ≡ Memory };

    fn from(_failed: AllocFailed<T>) -> LineFault {
        LineFault::Memory
    }
}
