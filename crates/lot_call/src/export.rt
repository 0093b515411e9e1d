//! What is said of an export that is imported by a profile.

use crate::call::Call;
use crate::row_fault::{plain, why};
use lot_args::Action;
use lot_explain::{LongOption, Shown, line_at};
use lot_export::{Export, ExportFault};
use lot_profile::Profile;
use lot_roles::RowFault;
use lot_sheet::{NameCause, Row, RowCause, SheetFault, read_sheet};
use std::alloc::{AllocError, Global};

/// How many fields of a row are shown.
const SHOWN_FIELDS: usize = 4;

/// How lines are counted.
const COUNTED: &str = "blank lines not counted";

/// Says which rows of an export are posted by hand, each with its key, how many are passed over, and how many numbers were rounded as
/// they were read.
pub fn say_aside(call: &Call<'_>, export: &Export) {
    if call.is_quiet() {
        return;
    }
    let rt = call.rt;
    let batch = LongOption {
        name: "row-of",
        value: match call.action {
            Action::ImportBy(import) => import.batch.as_str(),
            _ => "",
        },
    };
    for named in export.by_hand.as_slice() {
        let row = named.number;
        let key = LongOption {
            name: "ref",
            value: named.name.as_str(),
        };
        let _ = eprintln!(rt; "lotbook: row {row} is by hand: {batch} {key}");
    }
    let skipped = export.skipped;
    if skipped > 0 {
        let end = if skipped == 1 { "" } else { "s" };
        let _ = eprintln!(rt; "lotbook: {skipped} row{end} skipped");
    }
    let rounded = export.rounded;
    if rounded > 0 {
        let end = if rounded == 1 { " was" } else { "s were" };
        let _ = eprintln!(rt; "lotbook: {rounded} number{end} rounded to eight decimals");
    }
}

/// Says what is wrong with an export, of which these are the bytes. Where memory ends, less is said.
pub fn say_export_fault(rt: &HostRuntime, profile: &Profile, fault: ExportFault, bytes: &[u8]) {
    if let Ok(said) = said_of(rt.alloc(), profile, fault, bytes) {
        let _ = eprintln!(rt; "lotbook: {said}");
    }
}

/// Returns what is said of a fault. The only error is out of memory.
fn said_of(
    alloc: Global,
    profile: &Profile,
    fault: ExportFault,
    bytes: &[u8],
) -> Result<String, AllocError> {
    match fault {
        ExportFault::NotText { line } => {
            format!(in alloc;
                "line {line}, {COUNTED}, isn't UTF-8: try encoding = \"latin-1\" in [file]"
            )
        }
        ExportFault::NoHeader => String::from_str(
            alloc,
            "no line is the header that the profile names: it has to begin as `header` says",
        ),
        ExportFault::BadHeader { line, cause } => {
            let name = bad_name(alloc, profile, bytes)?;
            let (name, header) = (Shown(name.as_bytes()), line_at(bytes, line));
            let what = match cause {
                NameCause::Missing => "isn't in the header",
                NameCause::Twice => "stands twice in the header",
            };
            match header {
                Some(header) => {
                    let header = Shown(header);
                    format!(in alloc;
                        "line {line}, {COUNTED}: the column `{name}` {what}: `{header}`"
                    )
                }
                None => format!(in alloc; "line {line}, {COUNTED}: the column `{name}` {what}"),
            }
        }
        ExportFault::BadRow { row, cause } => {
            let why = plain(alloc, name_of(cause))?;
            let why = why.as_str();
            format!(in alloc; "row {row}: {why}")
        }
        ExportFault::TooManyRows => String::from_str(
            alloc,
            "there are more than 100,000 rows: import parts of the file under the same batch",
        ),
        ExportFault::Row { row, fault } => said_of_row(alloc, profile, row, fault, bytes),
        ExportFault::Order { row } => {
            shown_row(
                alloc,
                profile,
                row,
                bytes,
                "its day stands against the order of the profile: `order` is \"newest-first\" or \"oldest-first\" as the file is sorted, \"by-day\" only where it isn't sorted by day",
            )
        }
        ExportFault::NothingLeft { row } => shown_row(
            alloc,
            profile,
            row,
            bytes,
            "no purchase above has its symbol, price, currency and the opposite units and amount: export from an earlier day, or make its kind by-hand",
        ),
        ExportFault::TooLarge { row } => {
            shown_row(
                alloc,
                profile,
                row,
                bytes,
                "a sum that it posts is too large",
            )
        }
        ExportFault::Memory => String::from_str(alloc, "out of memory"),
    }
}

/// Returns the name of the cause for which a line is no row.
fn name_of(cause: RowCause) -> &'static str {
    match cause {
        RowCause::NoTable => "NoTable",
        RowCause::TwoTables { .. } => "TwoTables",
        RowCause::Longer => "Length",
    }
}

/// Returns the first name that is wrong in a header, or nothing. The only error is out of memory.
fn bad_name(alloc: Global, profile: &Profile, bytes: &[u8]) -> Result<String, AllocError> {
    match read_sheet(alloc, &profile.file, &profile.tables, bytes) {
        Err(fault) => match &fault {
            SheetFault::BadHeader { name, .. } => String::from_str(alloc, name.as_str()),
            SheetFault::Memory => Err(AllocError),
            _ => Ok(String::new(alloc)),
        },
        Ok(_rows) => Ok(String::new(alloc)),
    }
}

/// Returns what is said of a row that says nothing that can be posted. The only error is out of memory.
fn said_of_row(
    alloc: Global,
    profile: &Profile,
    number: usize,
    fault: RowFault,
    bytes: &[u8],
) -> Result<String, AllocError> {
    let Ok(rows) = read_sheet(alloc, &profile.file, &profile.tables, bytes) else {
        return Err(AllocError);
    };
    let Some(row) = rows.get(number.saturating_sub(1)) else {
        return Err(AllocError);
    };
    let why = why(alloc, profile, row, fault)?;
    shown_with(alloc, Some(row), number, why.as_str())
}

/// Returns the first fields of a row, and what is said of it. The only error is out of memory.
fn shown_row(
    alloc: Global,
    profile: &Profile,
    number: usize,
    bytes: &[u8],
    why: &str,
) -> Result<String, AllocError> {
    let Ok(rows) = read_sheet(alloc, &profile.file, &profile.tables, bytes) else {
        return Err(AllocError);
    };
    shown_with(alloc, rows.get(number.saturating_sub(1)), number, why)
}

/// Returns the number of a row, its first fields where it is there, and what is said of it. The only error is out of memory.
fn shown_with(
    alloc: Global,
    row: Option<&Row>,
    number: usize,
    why: &str,
) -> Result<String, AllocError> {
    let mut said = format!(in alloc; "row {number}")?;
    if let Some(row) = row {
        let fields = first_fields(alloc, row)?;
        let fields = Shown(fields.as_bytes());
        said.push_str(format!(in alloc; " ({fields})")?.as_str())?;
    }
    said.push_str(": ")?;
    said.push_str(why)?;
    Ok(said)
}

/// Returns the first fields of a row, without those that are empty. The only error is out of memory.
pub(crate) fn first_fields(alloc: Global, row: &Row) -> Result<String, AllocError> {
    let mut fields = String::new(alloc);
    for place in 0..SHOWN_FIELDS {
        let field = row.at(place);
        if !field.is_empty() {
            if !fields.is_empty() {
                fields.push_str(" ")?;
            }
            fields.push_str(field)?;
        }
    }
    Ok(fields)
}
