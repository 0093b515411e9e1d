//! The rows of an export that was imported by a profile, read once more for what is said of them.

use crate::export::first_fields;
use lot_args::{Action, ImportBy};
use lot_base::{Label, NameFault};
use lot_command::{Items, Key};
use lot_explain::{ExportRow, ExportRows};
use lot_export::{Export, ExportFault, Named, named_rows, read_export};
use lot_rounding::Asked;
use lot_sheet::{Row, SheetFault, read_sheet};
use std::alloc::{AllocError, Global};
use std::collections::BTreeMap;

/// An export that was read once more.
#[derive(Drop)]
pub(crate) struct Exported {
    sheet: Vec<Row>,
    export: Export,
    /// All rows that have a day, where some are to be left out, else none.
    named: Items<Named>,
}

impl Exported {
    /// Reads an export again where there is something to say of its rows: behind these lines, or of those to be left out. Of any
    /// other action, and where the export is faulty, it returns none. The only error is out of memory.
    pub(crate) fn of(
        alloc: Global,
        action: &Action,
        bytes: &[u8],
        lines: &[u8],
    ) -> Result<Option<Exported>, AllocError> {
        match action {
            Action::ImportBy(import) if !lines.is_empty() || !import.except.is_empty() => {
                read_again(alloc, import, bytes)
            }
            _ => Ok(None),
        }
    }

    /// Returns its rows that have a day, each with the place of its command. Where none is to be left out, it returns those alone
    /// that are run. The only error is out of memory.
    pub(crate) fn rows(&self, alloc: Global) -> Result<ExportRows, AllocError> {
        let mut rows = BTreeMap::new(alloc);
        for named in self.named.as_slice() {
            let row = self.row(alloc, named.number, &named.name, None)?;
            rows.insert(named.number, row)?;
        }
        let given = &self.export.given;
        for (place, (number, keyed)) in given.numbers.iter().zip(&given.commands).enumerate() {
            let (key, _asked) = keyed;
            let row = self.row(alloc, *number, &key.name, Some(place))?;
            rows.insert(*number, row)?;
        }
        Ok(rows)
    }

    /// Returns the row of that number. The only error is out of memory.
    fn row(
        &self,
        alloc: Global,
        number: usize,
        name: &Label,
        place: Option<usize>,
    ) -> Result<ExportRow, AllocError> {
        let fields = match self.sheet.get(number.saturating_sub(1)) {
            Some(row) => first_fields(alloc, row)?,
            None => String::new(alloc),
        };
        Ok(ExportRow {
            name: name.copy()?,
            fields,
            place,
        })
    }

    /// Returns its commands as they are handed in, each under its key.
    pub(crate) fn commands(&self) -> &[(Key, Asked)] {
        self.export.given.commands.as_slice()
    }
}

/// Reads an export again, or returns none where it is faulty. The only error is out of memory.
fn read_again(
    alloc: Global,
    import: &ImportBy,
    bytes: &[u8],
) -> Result<Option<Exported>, AllocError> {
    let (profile, except) = (&import.profile, import.except.as_slice());
    let Some(source) = source_of(alloc, import.batch.as_str())? else {
        return Ok(None);
    };
    let Some(export) = sound(read_export(alloc, &source, profile, except, bytes))? else {
        return Ok(None);
    };
    let named = if except.is_empty() {
        Some(Items::new(alloc))
    } else {
        sound(named_rows(alloc, profile, bytes))?
    };
    let sheet = match read_sheet(alloc, &profile.file, &profile.tables, bytes) {
        Ok(sheet) => sheet,
        Err(fault) if matches!(&fault, SheetFault::Memory) => return Err(AllocError),
        Err(_) => return Ok(None),
    };
    match named {
        Some(named) => Ok(Some(Exported {
            sheet,
            export,
            named,
        })),
        None => Ok(None),
    }
}

/// Returns what was read, or none where there is a fault. The only error is out of memory.
fn sound<T: Drop>(read: Result<T, ExportFault>) -> Result<Option<T>, AllocError> {
    match read {
        Ok(read) => Ok(Some(read)),
        Err(ExportFault::Memory) => Err(AllocError),
        Err(_) => Ok(None),
    }
}

/// Returns the source of the keys of a batch's rows, where that is a label. The only error is out of memory.
fn source_of(alloc: Global, batch: &str) -> Result<Option<Label>, AllocError> {
    let source = format!(in alloc; "import:{batch}")?;
    match Label::new(alloc, source.as_str()) {
        Ok(source) => Ok(Some(source)),
        Err(NameFault::Memory) => Err(AllocError),
        Err(_) => Ok(None),
    }
}
