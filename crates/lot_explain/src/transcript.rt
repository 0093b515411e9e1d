//! What there is to say of the refusals and the faults of a call.

use crate::export::ExportRows;
use crate::finding::Findings;
use crate::known::{Known, Wanted};
use crate::left_out::{note_left_out, note_left_out_by_name};
use crate::notebook::Notebook;
use crate::reading::Reading;
use crate::refused::note_lines;
use crate::wanted::wanted;
use crate::warning::{warn_of_rows, warn_of_statement, warn_of_text};
use lot_base::Label;
use lot_command::Key as CommandKey;
use lot_import::{Accounts, Row};
use lot_rounding::{Asked, Decimals, Rounding};
use std::alloc::{AllocError, Global};
use std::io::{self, Write};

/// The input of a call, and its batch.
#[derive(Clone, Copy)]
pub enum Source<'a> {
    /// Ledger text.
    Text {
        batch: &'a str,
    },
    /// Ledger text of one command, in place of the row with that `ref`.
    Row {
        batch: &'a str,
        reference: &'a str,
    },
    /// A broker file, whose rows are posted to these accounts.
    Rows {
        batch: &'a str,
        accounts: &'a Accounts,
    },
    /// A broker's export, whose rows are posted by a profile: those that have a day, and what was run; none where it is faulty.
    Export {
        batch: &'a str,
        rows: &'a ExportRows,
        commands: &'a [(CommandKey, Asked)],
    },
    /// A statement of what an account holds.
    Statement,
    /// A dump, which isn't kept.
    Dump,
}

/// What names the account that takes crumbs.
#[derive(Clone, Copy)]
pub(crate) enum Naming {
    /// Options of the call.
    Options,
    /// Its profile.
    Profile,
}

/// The key of a command.
#[derive(Clone, Copy)]
pub(crate) struct Key<'a> {
    /// The word that sent it, which its source begins with; behind it stands the batch.
    pub(crate) word: &'static str,
    pub(crate) batch: &'a str,
    pub(crate) name: &'a str,
}

/// What a call read, and what it said of it.
#[derive(Clone, Copy)]
pub struct Transcript<'a> {
    pub source: Source<'a>,
    /// All that was read.
    pub input: &'a [u8],
    /// The number of the first command or row that was to run, from 1.
    pub from: u32,
    /// The `ref` of each row that is left out, of an export the name of its key.
    pub except: &'a [Label],
    /// The lines that say that a command was refused or that there was a fault, as they were
    /// written.
    pub lines: &'a [u8],
    /// How many more commands were refused than `lines` says.
    pub left_out: u64,
    /// Why the system refused a call of the book's files, where it did.
    pub cause: Option<&'a str>,
    /// What helps where the book is damaged, unless something else says that.
    pub help: Option<&'a str>,
    /// The account that takes crumbs, where one does.
    pub rounding: Option<&'a Rounding>,
    /// What was found of the crumbs of refused commands.
    pub findings: &'a Findings,
}

impl<'a> Transcript<'a> {
    /// Returns the key of a command. Its name is the number of the command or, in a broker file,
    /// the `ref`. Those of a dump aren't known, and a statement has none.
    pub(crate) fn key(&self, name: &'a str) -> Key<'a> {
        let (word, batch, name) = match self.source {
            Source::Text { batch } => ("post", batch, name),
            Source::Row { batch, reference } => ("import", batch, reference),
            Source::Rows { batch, .. } | Source::Export { batch, .. } => ("import", batch, name),
            Source::Statement | Source::Dump => ("", "", name),
        };
        Key { word, batch, name }
    }

    /// Returns what names the account that takes crumbs.
    pub(crate) fn naming(&self) -> Naming {
        match self.source {
            Source::Export { .. } => Naming::Profile,
            _ => Naming::Options,
        }
    }

    /// Returns whether a row is left out.
    pub(crate) fn leaves_out(&self, row: &Row) -> bool {
        self.except.contains(&row.name)
    }

    /// Returns to how many decimals the cash of a row was rounded, where it was.
    pub(crate) fn decimals(&self) -> Option<Decimals> {
        match self.rounding {
            Some(rounding) => Some(rounding.decimals),
            None => None,
        }
    }
}

/// What a call read and said, which was read once more to be explained.
#[derive(Drop)]
pub struct Explanation<'a> {
    transcript: &'a Transcript<'a>,
    reading: Reading<'a>,
}

impl<'a> Explanation<'a> {
    /// Reads again what a call read. The only error is out of memory.
    pub fn of(
        alloc: Global,
        transcript: &'a Transcript<'a>,
    ) -> Result<Explanation<'a>, AllocError> {
        let reading = Reading::of(alloc, transcript)?;
        Ok(Explanation {
            transcript,
            reading,
        })
    }

    /// Returns which facts of the book are wanted for it. The only error is out of memory.
    pub fn wanted(&self, alloc: Global) -> Result<Vec<Wanted>, AllocError> {
        wanted(alloc, self.transcript, &self.reading)
    }

    /// Writes a line for each refusal and each fault of the call, as many as are wanted. A line says
    /// where it stands in the input, its code and rule, and what is known of it from the input and from
    /// the book.
    ///
    /// Then it writes as many lines of rows that are left out, and one for each `ref` or name to be left out that
    /// no row has; and as many warnings, each of a place that may have been meant otherwise. Where memory
    /// ends, nothing more is written.
    pub fn write<W: Write>(
        self,
        alloc: Global,
        writer: &mut W,
        known: &Known,
        most: u64,
    ) -> io::Result<()> {
        let Explanation {
            transcript,
            reading,
        } = self;
        let mut reading = reading;
        let mut notes = Notebook::new(alloc, writer, most);
        note_lines(alloc, &mut notes, known, transcript, &mut reading)?;
        notes.end()?;
        match &reading {
            Reading::Rows { rows, .. } => note_left_out(alloc, writer, transcript, rows, most)?,
            Reading::Export { rows, .. } => note_left_out_by_name(
                alloc, writer, transcript, *rows, most,
            )?,
            Reading::Text { .. } | Reading::Statement | Reading::Dump => {}
        }
        let mut warnings = Notebook::new(alloc, writer, most);
        match &reading {
            Reading::Text { .. } => warn_of_text(alloc, &mut warnings, known, transcript)?,
            Reading::Rows { rows, .. } => warn_of_rows(alloc, &mut warnings, transcript, rows)?,
            Reading::Statement => warn_of_statement(alloc, &mut warnings, transcript)?,
            Reading::Export { .. } | Reading::Dump => {}
        }
        warnings.end()
    }
}
