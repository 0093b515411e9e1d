//! The rows of a broker file or an export that a call leaves out, and those that it should leave out and that aren't there.

use crate::export::ExportRows;
use crate::notebook::Notebook;
use crate::place::InputPlace;
use crate::reading::place_in;
use crate::records::Records;
use crate::shown::Shown;
use crate::transcript::Transcript;
use lot_base::Label;
use lot_import::Row;
use std::alloc::Global;
use std::io::{self, Write};

/// Notes each row that is left out, of those from the first on that was to run, and each `ref` to be left out that no row has.
/// Of a faulty file, and of one without rows, it says nothing.
pub(crate) fn note_left_out<W: Write>(
    alloc: Global,
    writer: &mut W,
    transcript: &Transcript<'_>,
    rows: &[Row],
    most: u64,
) -> io::Result<()> {
    if transcript.except.is_empty() || rows.is_empty() {
        return Ok(());
    }
    let mut notes = Notebook::new(alloc, writer, most);
    note_rows(alloc, &mut notes, transcript, rows)?;
    notes.end()?;
    let mut notes = Notebook::new(alloc, writer, u64::MAX);
    for name in transcript.except {
        if !has_row(rows, name) {
            let name = Shown(name.as_str().as_bytes());
            notes.note(InputPlace::Whole, format_args!("no row has the ref {name}"))?;
        }
    }
    notes.end()
}

/// Notes the same of the rows of an export, which are left out by the names of their keys.
pub(crate) fn note_left_out_by_name<W: Write>(
    alloc: Global,
    writer: &mut W,
    transcript: &Transcript<'_>,
    rows: &ExportRows,
    most: u64,
) -> io::Result<()> {
    if transcript.except.is_empty() || rows.is_empty() {
        return Ok(());
    }
    let mut notes = Notebook::new(alloc, writer, most);
    for (number, row) in rows {
        if transcript.except.contains(&row.name) {
            notes.note(place_in(rows, *number), "left out")?;
        }
    }
    notes.end()?;
    let mut notes = Notebook::new(alloc, writer, u64::MAX);
    for name in transcript.except {
        if !has_name(rows, name) {
            let name = Shown(name.as_str().as_bytes());
            notes.note(
                InputPlace::Whole,
                format_args!("no row has a key with the name {name}"),
            )?;
        }
    }
    notes.end()
}

/// Notes each row that is left out.
fn note_rows<W: Write>(
    alloc: Global,
    notes: &mut Notebook<'_, W>,
    transcript: &Transcript<'_>,
    rows: &[Row],
) -> io::Result<()> {
    let mut records = Records::new(alloc, transcript.input)?;
    for row in rows {
        records.next_row()?;
        if records.row >= transcript.from as usize && transcript.leaves_out(row) {
            notes.note(records.place(), "left out")?;
        }
    }
    Ok(())
}

/// Returns whether some row has that `ref`.
fn has_row(rows: &[Row], name: &Label) -> bool {
    rows.iter().any(|row| row.name == *name)
}

/// Returns whether the key of some row of an export has that name.
fn has_name(rows: &ExportRows, name: &Label) -> bool {
    for (_number, row) in rows {
        if row.name == *name {
            return true;
        }
    }
    false
}

/// Returns whether one row alone has that `ref`.
pub(crate) fn is_only(rows: &[Row], name: &Label) -> bool {
    let mut count = 0usize;
    for row in rows {
        if row.name == *name {
            count = count.saturating_add(1);
        }
    }
    count == 1
}
