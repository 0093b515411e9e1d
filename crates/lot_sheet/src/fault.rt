use lot_field::Text;
use std::alloc::{AllocError, AllocFailed};

/// Why a file has no rows: the first fault in the order of its lines.
pub enum SheetFault {
    /// A line isn't UTF-8. It has the number of the line, counted from 1 among the lines that aren't blank.
    NotText {
        line: usize,
    },
    /// No table begins: no line is a header, and each table has one.
    NoHeader,
    /// Something is wrong with a column that a table uses: the number of the header's line, and the first such column, by its name
    /// or by its number.
    BadHeader {
        line: usize,
        name: Text,
        cause: NameCause,
    },
    /// A line has to be a row, and is faulty: its number, counted from 1 over the rows of all tables.
    BadRow {
        row: usize,
        cause: RowCause,
    },
    /// There are more than 100,000 rows.
    TooManyRows,
    /// Out of memory.
    Memory,
}

impl Drop for SheetFault {
    /// It is written out, so that callers don't prove again how each part is dropped.
    fn drop(self) {
        match self {
            SheetFault::NotText { line: _line } => {}
            SheetFault::NoHeader => {}
            SheetFault::BadHeader {
                line: _line,
                name: _name,
                cause: _cause,
            } => {}
            SheetFault::BadRow {
                row: _row,
                cause: _cause,
            } => {}
            SheetFault::TooManyRows => {}
            SheetFault::Memory => {}
        }
    }
}

/// What is wrong with a column that a table uses.
#[derive(Clone, Copy, Debug, PartialEq, Eq)]
pub enum NameCause {
    /// The header hasn't its name, or has fewer fields than its number, and it isn't one of the columns that some files lack.
    Missing,
    /// The header has its name twice or more.
    Twice,
}

/// Why a row is faulty.
#[derive(Clone, Copy, Debug, PartialEq, Eq)]
pub enum RowCause {
    /// It is a row of no table.
    NoTable,
    /// It is a row of more than one table: the places of the first two, counted from 0.
    TwoTables { first: usize, second: usize },
    /// Something stands behind the fields of its header.
    Longer,
}

impl From<AllocError> for SheetFault {
    ghost use Rattle.std.specs.Prelude.{◌≡◌};
    ghost use Rattle.lot_sheet.specs.declared.fault.SheetFault.TheVariants.{Memory};

    ghost from_gives = { λ _ e. e ≡ Memory };

    fn from(_error: AllocError) -> SheetFault {
        SheetFault::Memory
    }
}

impl<T: Drop> From<AllocFailed<T>> for SheetFault {
    ghost use Rattle.std.specs.Prelude.{◌≡◌};
    ghost use Rattle.lot_sheet.specs.declared.fault.SheetFault.TheVariants.{Memory};

    ghost from_gives = { λ _ e. e ≡ Memory };

    fn from(_failed: AllocFailed<T>) -> SheetFault {
        SheetFault::Memory
    }
}
