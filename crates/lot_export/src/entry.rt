//! The rows of a file, each with what it says.
ghost use Rattle.std.specs.Prelude.{◌≡◌, IfErr, IfOk};
ghost use Rattle.std.specs.Option.{option_copied};
ghost use Rattle.lot_export.specs.Entries.{AreEntries, FailsAmong, IsEntry, IsRowFault, dated_at, is_skipped_by, rounded_in, skipped_in};

use crate::fault::ExportFault;
use lot_command::Items;
use lot_deal_read::{Dated, RowSays, read_row, rounded_numbers};
use lot_profile::Profile;
use lot_roles::RowFault;
use lot_sheet::Row;
use std::alloc::Global;

/// A row of a file, with what it says.
pub(crate) struct Entry {
    /// Its number in the file, counted from 1.
    pub(crate) number: usize,
    /// The place of its table, counted from 0.
    pub(crate) table: usize,
    pub(crate) says: RowSays,
    /// How many of its amounts and prices were rounded to eight decimals as they were read.
    pub(crate) rounded: usize,
}

impl Drop for Entry {
    /// It is written out, so that callers don't prove again how each part is dropped.
    fn drop(self) {
        let Entry {
            number: _number,
            table: _table,
            says: _says,
            rounded: _rounded,
        } = self;
    }
}

/// Returns rows with what each says, in their order, or the first fault of one.
pub(crate) fn entries(
    alloc: Global,
    profile: &Profile,
    rows: &[Row],
) -> Result<Items<Entry>, ExportFault>
    ensures ok { IfOk result (AreEntries profile.now rows.now) }
    ensures fault { IfErr result (FailsAmong profile.now rows.now) }
{
    let mut entries = Items::new(alloc);
    for row in rows {
        let entry = match entry_at(alloc, profile, row) {
            Ok(entry) => entry,
            Err(fault) => return Err(fault),
        };
        entries.push(entry)?;
    }
    Ok(entries)
}

/// Returns a row with what it says, or its fault.
fn entry_at(alloc: Global, profile: &Profile, row: &Row) -> Result<Entry, ExportFault>
    ensures ok { IfOk result (IsEntry profile.now row.now) }
    ensures fault { IfErr result (IsRowFault profile.now row.now) }
{
    match read_row(alloc, profile, row) {
        Ok(says) => Ok(Entry {
            number: row.number(),
            table: row.table(),
            says,
            rounded: rounded_numbers(profile, row),
        }),
        Err(RowFault::Memory) => Err(ExportFault::Memory),
        Err(fault) => Err(ExportFault::Row {
            row: row.number(),
            fault,
        }),
    }
}

/// Returns the row of that number, counted from 1, if it has a day.
pub(crate) fn dated_at(entries: &[Entry], number: usize) -> Option<&Dated>
    ensures { option_copied result ≡ dated_at entries.now number }
{
    match &entries.get(number.saturating_sub(1))?.says {
        RowSays::Dated(dated) => Some(dated),
        RowSays::Skipped => None,
    }
}

/// Returns how many amounts and prices of rows were rounded as they were read, at most `usize::MAX`.
pub(crate) fn rounded(entries: &[Entry]) -> usize
    ensures { result ≡ rounded_in entries.now }
{
    let mut count = 0usize;
    for entry in entries {
        count = count.saturating_add(entry.rounded);
    }
    count
}

/// Returns how many rows are passed over by a rule.
pub(crate) fn skipped(entries: &[Entry]) -> usize
    ensures { result ≡ skipped_in entries.now }
{
    let mut count = 0;
    for entry in entries {
        if is_skipped(&entry.says) {
            count += 1;
        }
    }
    count
}

/// Returns whether a row is passed over by a rule.
fn is_skipped(says: &RowSays) -> bool
    ensures { result ≡ is_skipped_by says.now }
{
    matches!(says, RowSays::Skipped)
}
