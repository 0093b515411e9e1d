//! The commands of a ledger text, and those of a broker file, with their places.

use crate::export::{ExportRows, row_at};
use crate::place::InputPlace;
use crate::records::Records;
use crate::site::Sites;
use crate::transcript::{Source, Transcript};
use lot_command::{Command, Key};
use lot_import::{Accounts, Row, RowsFault, read_rows};
use lot_read::{TextFault, read};
use lot_rounding::Asked;
use std::alloc::{AllocError, Global};

/// What an input says, none of it where it is faulty or wasn't read to its end; and how far it was
/// gone through.
#[derive(Drop)]
pub(crate) enum Reading<'a> {
    Text {
        commands: Vec<Command>,
        sites: Sites<'a>,
    },
    Rows {
        rows: Vec<Row>,
        accounts: &'a Accounts,
        records: Records<'a>,
    },
    /// A broker's export, which is read by a profile.
    Export {
        rows: &'a ExportRows,
        commands: &'a [(Key, Asked)],
    },
    /// A statement, which says no command.
    Statement,
    /// A dump, of which nothing is kept.
    Dump,
}

impl<'a> Reading<'a> {
    /// Reads what a call was given. The only error is out of memory.
    pub(crate) fn of(
        alloc: Global,
        transcript: &Transcript<'a>,
    ) -> Result<Reading<'a>, AllocError> {
        Ok(match transcript.source {
            Source::Text { .. } | Source::Row { .. } => Reading::Text {
                commands: commands_of(alloc, transcript)?,
                sites: Sites::new(transcript.input),
            },
            Source::Rows { accounts, .. } => Reading::Rows {
                rows: match read_rows(alloc, transcript.input) {
                    Err(RowsFault::Memory) => return Err(AllocError),
                    Err(_) => Vec::new(alloc),
                    Ok(rows) => rows,
                },
                accounts,
                records: Records::new(alloc, transcript.input)?,
            },
            Source::Export { rows, commands, .. } => Reading::Export { rows, commands },
            Source::Statement => Reading::Statement,
            Source::Dump => Reading::Dump,
        })
    }

    /// Returns the first record of a broker file as it stands there, without blanks around it.
    pub(crate) fn header(&self) -> &[u8] {
        match self {
            Reading::Text { .. } | Reading::Export { .. } | Reading::Statement | Reading::Dump =>
                b"",
            Reading::Rows { records, .. } => records.header.trim_ascii(),
        }
    }

    /// Goes on to the command or row of that number, to a posting of that command by its place, or
    /// to the line of that number of a dump, and returns its place; all count from 1. The only error
    /// is out of memory.
    pub(crate) fn go_to(
        &mut self,
        number: usize,
        posting: Option<usize>,
    ) -> Result<InputPlace<'_>, AllocError> {
        match self {
            Reading::Text { sites, .. } => Ok(match sites.find(number, posting) {
                Some(site) => InputPlace::Command {
                    number: site.number,
                    command: number,
                    line: site.line,
                },
                None => InputPlace::Number(number),
            }),
            Reading::Rows { records, .. } => records.go_to(number),
            Reading::Export { rows, .. } => Ok(place_in(rows, number)),
            Reading::Statement => Ok(InputPlace::RowNumber(number)),
            Reading::Dump => Ok(InputPlace::Unkept(number)),
        }
    }
}

/// Returns the place of the row of that number of an export.
pub(crate) fn place_in(rows: &ExportRows, number: usize) -> InputPlace<'_> {
    match row_at(rows, number) {
        Some(row) => InputPlace::Row {
            row: number,
            name: row.name.as_str().as_bytes(),
            line: row.fields.as_bytes(),
        },
        None => InputPlace::RowNumber(number),
    }
}

/// Returns the commands of a text: none where it is faulty, or where nothing was said of it, so that
/// no text is read again for nothing. The only error is out of memory.
fn commands_of(alloc: Global, transcript: &Transcript<'_>) -> Result<Vec<Command>, AllocError> {
    if transcript.lines.is_empty() {
        return Ok(Vec::new(alloc));
    }
    match read(alloc, transcript.input) {
        Err(TextFault::Memory { .. }) => Err(AllocError),
        Err(TextFault::Line { .. }) => Ok(Vec::new(alloc)),
        Ok(commands) => Ok(commands),
    }
}
