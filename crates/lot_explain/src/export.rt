//! The rows of a broker's export that was imported by a profile, and its lines.

use lot_base::Label;
use lot_syntax::Lines;
use std::collections::BTreeMap;

/// A row of an export that has a day.
#[derive(Drop)]
pub struct ExportRow {
    /// The name of its key.
    pub name: Label,
    /// Its first fields, as they are shown.
    pub fields: String,
    /// The place of its command among those that were run, from 0, where it was run.
    pub place: Option<usize>,
}

/// Rows of an export by their numbers, from 1.
pub type ExportRows = BTreeMap<usize, ExportRow>;

/// Returns the row of that number.
pub(crate) fn row_at(rows: &ExportRows, number: usize) -> Option<&ExportRow> {
    rows.get(&number)
}

/// Returns the line of that number of an export, from 1 among those that aren't blank, without blanks around it; none where a line
/// above may end within a field.
pub fn line_at(file: &[u8], number: usize) -> Option<&[u8]> {
    let mut count = 0usize;
    for line in Lines::new(file) {
        let line = line.trim_ascii();
        count = count.saturating_add(usize::from(!line.is_empty()));
        if count == number {
            return Some(line);
        }
        if line.iter().filter(|byte| **byte == b'"').count() % 2 == 1 {
            return None;
        }
    }
    None
}
