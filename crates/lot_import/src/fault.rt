use std::alloc::{AllocError, AllocFailed};
use thiserror::Error;

/// Why a file has no rows. Of several faults, the first in this order is reported. Of several faulty rows, it is the first.
#[derive(Clone, Copy, Debug, PartialEq, Eq, Error)]
pub enum RowsFault {
    /// There is no header, or it is the header of no version.
    #[error("not the header of a broker file")]
    BadHeader,
    /// A row is faulty: its number, from 1, and the cause.
    #[error("row {row}: {cause}")]
    BadRow { row: usize, cause: Cause },
    /// There are more than 100,000 rows.
    #[error("more than 100,000 rows")]
    TooManyRows,
    /// Out of memory.
    #[error("out of memory")]
    Memory,
}

/// Why a row is faulty: the first column that is outside its rule. Of several such columns, the first in this order is
/// reported.
#[derive(Clone, Copy, Debug, PartialEq, Eq, Error)]
pub enum Cause {
    /// The record hasn't as many fields as the header.
    #[error("another number of fields than the header")]
    Length,
    /// `ref` isn't a label.
    #[error("ref isn't a label")]
    Ref,
    /// `date` isn't a day.
    #[error("date isn't a day")]
    Date,
    /// `action` is neither `BUY` nor `SELL`.
    #[error("action is neither BUY nor SELL")]
    Action,
    /// `symbol` isn't a commodity.
    #[error("symbol isn't a commodity")]
    Symbol,
    /// `units` isn't units, or is below zero.
    #[error("units isn't a number of units, or is below zero")]
    Units,
    /// `price` isn't a rate.
    #[error("price isn't a rate")]
    Price,
    /// `currency` isn't a commodity.
    #[error("currency isn't a commodity")]
    Currency,
    /// `fee` is neither empty nor a rate.
    #[error("fee is neither empty nor a rate")]
    Fee,
    /// `lot` is neither empty nor a label. Of a purchase, it is neither empty nor its `ref`.
    #[error("lot isn't the label of a lot")]
    Lot,
}

impl<T: Drop> From<AllocFailed<T>> for RowsFault {
    ghost use Rattle.std.specs.Prelude.{◌≡◌};
    ghost use Rattle.lot_import.specs.declared.fault.RowsFault.TheVariants.{Memory};

    ghost from_gives = { λ _ e. e ≡ Memory };

    fn from(_failed: AllocFailed<T>) -> RowsFault {
        RowsFault::Memory
    }
}

/// Why a row has no command.
#[derive(Clone, Copy, Debug, PartialEq, Eq, Error)]
pub enum CommandFault {
    /// The cash that the row moves isn't units: it is out of range, or it isn't rounded and has a decimal past the eighth.
    #[error("the cash amount isn't exact at eight decimals, or too large")]
    InexactAmount,
    /// Out of memory.
    #[error("out of memory")]
    Memory,
}

impl From<AllocError> for CommandFault {
    ghost use Rattle.std.specs.Prelude.{◌≡◌};
    ghost use Rattle.lot_import.specs.declared.fault.CommandFault.TheVariants.{Memory};

    ghost from_gives = { λ _ e. e ≡ Memory };

    fn from(_error: AllocError) -> CommandFault {
        CommandFault::Memory
    }
}

/// Why the rows of a file have no commands under their keys.
#[derive(Clone, Copy, Debug, PartialEq, Eq, Error)]
pub enum KeyedFault {
    /// The cash that a row moves isn't units. `row` is the number of the first such row, from 1.
    #[error("row {row}: the cash amount isn't exact at eight decimals, or too large")]
    InexactAmount { row: usize },
    /// Out of memory.
    #[error("out of memory")]
    Memory,
}

impl From<AllocError> for KeyedFault {
    ghost use Rattle.std.specs.Prelude.{◌≡◌};
    ghost use Rattle.lot_import.specs.declared.fault.KeyedFault.TheVariants.{Memory};

    ghost from_gives = { λ _ e. e ≡ Memory };

    fn from(_error: AllocError) -> KeyedFault {
        KeyedFault::Memory
    }
}

impl<T: Drop> From<AllocFailed<T>> for KeyedFault {
    ghost use Rattle.std.specs.Prelude.{◌≡◌};
    ghost use Rattle.lot_import.specs.declared.fault.KeyedFault.TheVariants.{Memory};

    ghost from_gives = { λ _ e. e ≡ Memory };

    fn from(_failed: AllocFailed<T>) -> KeyedFault {
        KeyedFault::Memory
    }
}
