//! What is wrong with the columns of a header.
ghost use Rattle.std.specs.Prelude.{◌≡◌, ◌∷◌, [], IfOk, count_by, decimal, option_map};
ghost use Rattle.std.specs.List.{flat_map, list_any};
ghost use Rattle.csv.specs.Records.{fields_of};
ghost use Rattle.lot_sheet.specs.Column.{column_name, is_same};
ghost use Rattle.lot_sheet.specs.Part.{asked_columns, column_fault, columns_under, first_bad, header_columns, kind_columns, lacking, name_fault, role_columns, source_columns, table_columns};

use crate::fault::NameCause;
use crate::header::Standing;
use csv::StringRecord;
use itoa::Buffer;
use lot_command::Items;
use lot_field::Text;
use lot_profile::{Column, Condition, Delimiter, KindRule, Source, Sources, Table};
use std::alloc::{AllocError, Global};

/// The names of a header, and those that it may lack.
#[derive(Clone, Copy)]
pub(crate) struct Given<'a> {
    pub(crate) header: &'a Items<Text>,
    pub(crate) optional: &'a Items<Text>,
}

/// A column with which something is wrong, and what that is.
pub(crate) struct BadColumn<'n> {
    pub(crate) column: &'n Column,
    pub(crate) cause: NameCause,
}

impl Drop for BadColumn<'_> {
    /// It is written out, so that callers don't prove again how each part is dropped.
    fn drop(self) {
        let BadColumn {
            column: _column,
            cause: _cause,
        } = self;
    }
}

impl Given<'_> {
    /// Returns the first bad column of those that the tables use of which the line of that number is a header.
    pub(crate) fn in_tables<'n>(
        self,
        delimiter: Delimiter,
        number: usize,
        line: &StringRecord,
        tables: &[Standing<'n>],
    ) -> Option<BadColumn<'n>>
        ensures { option_map (λ bad. (column_name bad.column.now, bad.cause)) result
            ≡ first_bad self.entry.optional.now self.entry.header.now
            (header_columns delimiter number (fields_of line.now) tables.now) }
    {
        for table in tables {
            if let Some(bad) = self.under(delimiter, number, line, table) {
                return Some(bad);
            }
        }
        None
    }

    /// Returns the first bad column of those that a table uses, if the line is its header.
    fn under<'n>(
        self,
        delimiter: Delimiter,
        number: usize,
        line: &StringRecord,
        table: &Standing<'n>,
    ) -> Option<BadColumn<'n>>
        ensures { option_map (λ bad. (column_name bad.column.now, bad.cause)) result
            ≡ first_bad self.entry.optional.now self.entry.header.now
            (columns_under delimiter number (fields_of line.now) table.now) }
    {
        if table.is_header(delimiter, number, line) {
            self.in_table(table.table())
        } else {
            None
        }
    }

    /// Returns the first bad column of those that a table uses.
    fn in_table<'n>(self, table: &'n Table) -> Option<BadColumn<'n>>
        ensures { option_map (λ bad. (column_name bad.column.now, bad.cause)) result
            ≡ first_bad self.entry.optional.now self.entry.header.now (table_columns table.now) }
    {
        if let Some(bad) = self.in_roles(table.columns.as_slice()) {
            return Some(bad);
        }
        if let Some(bad) = self.in_conditions(table.rows.as_slice()) {
            return Some(bad);
        }
        self.in_kinds(table.kinds.as_slice())
    }

    /// Returns the first bad column of those that kinds use.
    fn in_kinds<'n>(self, kinds: &'n [KindRule]) -> Option<BadColumn<'n>>
        ensures { option_map (λ bad. (column_name bad.column.now, bad.cause)) result
            ≡ first_bad self.entry.optional.now self.entry.header.now
            (flat_map kind_columns kinds.now) }
    {
        for kind in kinds {
            if let Some(bad) = self.in_roles(kind.columns.as_slice()) {
                return Some(bad);
            }
            if let Some(bad) = self.in_conditions(kind.when.as_slice()) {
                return Some(bad);
            }
        }
        None
    }

    /// Returns the first bad column of those where roles are found.
    fn in_roles<'n>(self, roles: &'n [Sources]) -> Option<BadColumn<'n>>
        ensures { option_map (λ bad. (column_name bad.column.now, bad.cause)) result
            ≡ first_bad self.entry.optional.now self.entry.header.now (role_columns roles.now) }
    {
        for sources in roles {
            if let Some(bad) = self.in_sources(sources.from.as_slice()) {
                return Some(bad);
            }
        }
        None
    }

    /// Returns the first bad column of those of sources.
    fn in_sources<'n>(self, sources: &'n [Source]) -> Option<BadColumn<'n>>
        ensures { option_map (λ bad. (column_name bad.column.now, bad.cause)) result
            ≡ first_bad self.entry.optional.now self.entry.header.now
            (flat_map source_columns sources.now) }
    {
        for source in sources {
            let bad = match source {
                Source::Column(column) => self.in_column(column),
                Source::Constant(_) => None,
                Source::Until { column, .. } => self.in_column(column),
            };
            if let Some(bad) = bad {
                return Some(bad);
            }
        }
        None
    }

    /// Returns the first bad column of those of conditions.
    fn in_conditions<'n>(self, conditions: &'n [Condition]) -> Option<BadColumn<'n>>
        ensures { option_map (λ bad. (column_name bad.column.now, bad.cause)) result
            ≡ first_bad self.entry.optional.now self.entry.header.now
            (asked_columns conditions.now) }
    {
        for condition in conditions {
            if let Some(bad) = self.in_column(&condition.column) {
                return Some(bad);
            }
        }
        None
    }

    /// Returns a column, if it is bad.
    fn in_column<'n>(self, column: &'n Column) -> Option<BadColumn<'n>>
        ensures { option_map (λ bad. (column_name bad.column.now, bad.cause)) result
            ≡ first_bad self.entry.optional.now self.entry.header.now (column.now ∷ []) }
    {
        match self.fault_of(column) {
            Some(cause) => Some(BadColumn { column, cause }),
            None => None,
        }
    }

    /// Returns what is wrong with a column.
    fn fault_of(self, column: &Column) -> Option<NameCause>
        ensures { result
            ≡ column_fault self.entry.optional.now self.entry.header.now column.now }
    {
        match column {
            Column::Number(number) if *number <= self.header.as_slice().len() => None,
            Column::Number(number) => self.lacking(Buffer::new().format(*number)),
            Column::Named(name) => self.fault_of_name(name),
        }
    }

    /// Returns what is wrong with a name.
    fn fault_of_name(self, name: &Text) -> Option<NameCause>
        ensures { result ≡ name_fault self.entry.optional.now self.entry.header.now name.now }
    {
        let standing = count(self.header, name);
        if standing == 1 {
            None
        } else if standing == 0 {
            self.lacking(name.as_str())
        } else {
            Some(NameCause::Twice)
        }
    }

    /// Returns what is wrong where the header hasn't the column of that name.
    fn lacking(self, name: &str) -> Option<NameCause>
        ensures { result ≡ lacking self.entry.optional.now name.now }
    {
        if is_among(self.optional, name) {
            None
        } else {
            Some(NameCause::Missing)
        }
    }
}

/// Returns how a fault names a column: by its name, or by its number. The only error is out of memory.
pub(crate) fn name_of(alloc: Global, column: &Column) -> Result<Text, AllocError>
    ensures { IfOk result (λ name. name ≡ column_name column.now) }
{
    match column {
        Column::Number(number) => Text::new(alloc, Buffer::new().format(*number)),
        Column::Named(name) => name.copy(),
    }
}

/// Returns whether the column of that number, counted from 1, is named among some names, by the digits of its number.
pub fn is_number_among(names: &Items<Text>, number: usize) -> bool
    ensures { result ≡ list_any (is_same (decimal number)) names.now }
{
    is_among(names, Buffer::new().format(number))
}

/// Returns whether a name stands among others.
fn is_among(names: &Items<Text>, name: &str) -> bool
    ensures { result ≡ list_any (is_same name.now) names.now }
{
    names.as_slice().iter().any(|other| other.as_str() == name)
}

/// Returns how often a name stands among others.
fn count(names: &Items<Text>, name: &Text) -> usize
    ensures { result ≡ count_by (is_same name.now) names.now }
{
    names
        .as_slice()
        .iter()
        .filter(|other| other.as_str() == name.as_str())
        .count()
}
