use lot_roles::RowFault;
use lot_sheet::{NameCause, RowCause, SheetFault};
use std::alloc::{AllocError, AllocFailed};
use thiserror::Error;

/// Why an export gives no commands. Rows are named by their numbers in the file, counted from 1.
///
/// Of several faults the first in this order is reported, where those up to `TooManyRows` are one place of the order, and so are
/// `NothingLeft` and `TooLarge`. Of several rows with the same fault, it is the first in the file; but of those of `NothingLeft` and
/// `TooLarge` it is the one that is judged first.
#[derive(Clone, Copy, Debug, PartialEq, Eq, Error)]
pub enum ExportFault {
    /// A line isn't UTF-8. It has the number of the line, counted from 1 among the lines that aren't blank.
    #[error("line {line} isn't UTF-8")]
    NotText { line: usize },
    /// No table begins: no line is a header, and each table has one.
    #[error("there is no header")]
    NoHeader,
    /// Something is wrong with a name that a table uses, in the header of that line.
    #[error("a column is missing in the header, or stands there twice")]
    BadHeader { line: usize, cause: NameCause },
    /// A line has to be a row, and is faulty.
    #[error("row {row} isn't a row of one table")]
    BadRow { row: usize, cause: RowCause },
    /// There are more than 100,000 rows.
    #[error("more than 100,000 rows")]
    TooManyRows,
    /// A row says nothing that can be posted.
    #[error("row {row}: {fault}")]
    Row { row: usize, fault: RowFault },
    /// The day of a row stands against the order of its table.
    #[error("the day of row {row} stands against the order")]
    Order { row: usize },
    /// A row takes back a purchase that isn't there, or that is left out.
    #[error("row {row} takes back a purchase that isn't there")]
    NothingLeft { row: usize },
    /// A sum that would be posted for a row is too large.
    #[error("a sum of row {row} is too large")]
    TooLarge { row: usize },
    /// Out of memory.
    #[error("out of memory")]
    Memory,
}

impl From<SheetFault> for ExportFault {
    ghost use Rattle.std.specs.Prelude.{◌≡◌};
    ghost use Rattle.lot_export.specs.Faults.{of_sheet};

    ghost from_gives = { λ fault e. e ≡ of_sheet fault };

    fn from(fault: SheetFault) -> ExportFault {
        match &fault {
            SheetFault::NotText { line } => ExportFault::NotText { line: *line },
            SheetFault::NoHeader => ExportFault::NoHeader,
            SheetFault::BadHeader { line, cause, .. } => ExportFault::BadHeader {
                line: *line,
                cause: *cause,
            },
            SheetFault::BadRow { row, cause } => ExportFault::BadRow {
                row: *row,
                cause: *cause,
            },
            SheetFault::TooManyRows => ExportFault::TooManyRows,
            SheetFault::Memory => ExportFault::Memory,
        }
    }
}

impl From<AllocError> for ExportFault {
    ghost use Rattle.std.specs.Prelude.{◌≡◌};
    ghost use Rattle.lot_export.specs.declared.fault.ExportFault.TheVariants.{Memory};

    ghost from_gives = { λ _ e. e ≡ Memory };

    fn from(_error: AllocError) -> ExportFault {
        ExportFault::Memory
    }
}

impl<T: Drop> From<AllocFailed<T>> for ExportFault {
    ghost use Rattle.std.specs.Prelude.{◌≡◌};
    ghost use Rattle.lot_export.specs.declared.fault.ExportFault.TheVariants.{Memory};

    ghost from_gives = { λ _ e. e ≡ Memory };

    fn from(_failed: AllocFailed<T>) -> ExportFault {
        ExportFault::Memory
    }
}
