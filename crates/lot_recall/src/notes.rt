ghost use Rattle.std.specs.Prelude.{◌≡◌, ◌≢◌, [], Err, find, option_copied};
ghost use Rattle.lot_recall.specs.Recall.{LooksUpEntry, Notes, ReadsEntries, TakesEntries, is_entry_at};
ghost use Rattle.sqlite.specs.Held.{state};

use crate::said::LastNote;
use lot_base::Note;
use lot_rows::entry::{self, EntryRow};
use lot_table::{Cell, Fault, Ordinal, ask, read_all};
use sqlite::{Alter, Connection, Row};
use std::alloc::Global;

/// How many entries are read at a time, from the one on that is looked up.
const FEW_ENTRIES: u32 = 8;

/// The rows of the entries from the one on that was looked up last.
#[derive(Drop)]
pub(crate) struct EntryNotes {
    rows: Vec<EntryRow>,
}

impl EntryNotes {
    /// Returns no rows, before an entry is looked up. It takes no memory.
    pub fn new(alloc: Global) -> EntryNotes
        ensures { result.rows.items ≡ [] }
    {
        EntryNotes {
            rows: Vec::new(alloc),
        }
    }

    /// Reads some rows of entries from a number on, unless that one is among those that were read
    /// last.
    ///
    /// The error is `Damaged` only where not all rows of the table are those that a book can have, or
    /// the number is 0.
    pub fn read_entry<S: Alter>(
        &mut self,
        alloc: Global,
        conn: &mut Connection<S>,
        number: u32,
    ) -> Result<(), Fault>
        ensures looks { LooksUpEntry number self.old.rows.items self.new.rows.items
            (state S.Store conn.old) (state S.Store conn.new) result }
    {
        if self.at(number).is_some() {
            return Ok(());
        }
        let Some(first) = Ordinal::new(number) else {
            return Err(Fault::Damaged);
        };
        self.rows = entries_from(alloc, conn, first)?;
        Ok(())
    }

    /// Returns the narration of the entry of a number, whose row was looked up. The text that was read
    /// last isn't read again.
    ///
    /// The error is `Damaged` where its row isn't among these, or its text is that of no command; or
    /// `Memory`.
    pub fn narration(
        &self,
        alloc: Global,
        number: u32,
        last: &mut LastNote,
    ) -> Result<Option<Note>, Fault>
        ensures notes { Notes number self.now.rows.items result }
        ensures no_device { result ≢ Err Fault.Device }
    {
        match self.at(number) {
            Some(row) => last.narration(alloc, row.body.as_str()),
            None => Err(Fault::Damaged),
        }
    }

    /// Returns the row of a number, if it is among these.
    fn at(&self, number: u32) -> Option<&EntryRow>
        ensures { option_copied result ≡ find (is_entry_at number) self.now.rows.items }
    {
        self.rows.iter().find(|row| is_entry_at(row, number))
    }
}

/// Returns whether a row has a number.
fn is_entry_at(row: &EntryRow, number: u32) -> bool
    ensures { result ≡ is_entry_at number row.now }
{
    row.number.number() == number
}

/// Returns the first rows of entries from a number on.
fn entries_from<S: Alter>(
    alloc: Global,
    conn: &mut Connection<S>,
    first: Ordinal,
) -> Result<Vec<EntryRow>, Fault>
    ensures reads { ReadsEntries first (state S.Store conn.old) (state S.Store conn.new) result }
{
    let rows = page_from(conn, first)?;
    read_all(alloc, &rows)
}

/// Returns the columns of the first rows of entries from a number on.
fn page_from<S: Alter>(conn: &mut Connection<S>, first: Ordinal) -> Result<Vec<Row>, Fault>
    ensures takes { TakesEntries first (state S.Store conn.old) (state S.Store conn.new) result }
{
    ask(
        conn,
        entry::PAGE_FROM_NUMBER,
        &[FEW_ENTRIES.to_cell(), first.to_cell()],
    )
}
