ghost use Rattle.std.specs.Prelude.{◌≡◌, ◌≢◌, IfOk};
ghost use Rattle.lot_command.specs.Canonical.{canonical};
ghost use Rattle.lot_command.specs.declared.command.Command.{Command as CommandOf};
ghost use Rattle.lot_command.specs.Sayable.{IsSayable};
ghost use Rattle.lot_rows.specs.declared.entry.EntryRow.{EntryRow as EntryRowOf};
ghost use Rattle.lot_walk.specs.Journal.{AreAllEntryRows, AreEntries, HasCanonicalText, IsBehindEntries, IsBehindEntryRows, IsCanonical, said};
ghost use Rattle.lot_walk.specs.Step.{HasGivenNoRows, HasGivenNone};

use crate::place::Place;
use lot_command::Key;
use lot_page::EntryCursor;
use lot_print::is_canonical;
use lot_print::laws::canonical_text_reads_as_its_command;
use lot_report::Entry;
use lot_rows::entry::EntryRow;
use lot_table::Fault;
use sqlite::{Alter, Connection};
use std::alloc::Global;

/// The place of a walk over the entries of a book, in their order. Each has the canonical text of its command.
#[derive(Drop)]
pub struct JournalPlace {
    cursor: EntryCursor,
}

impl JournalPlace {
    /// Returns the place before the first entry. It takes no memory.
    pub fn new(alloc: Global) -> JournalPlace
        ensures begun { HasGivenNone AreEntries IsBehindEntries result tt }
        ensures rows { HasGivenNoRows IsBehindEntryRows result tt }
    {
        JournalPlace {
            cursor: EntryCursor::new(alloc),
        }
    }
}

impl Place for JournalPlace {
    type Row = Entry;

    ghost Asked = { Unit {0} };

    ghost Shown = { EntryRowOf };

    ghost shown = { said };

    ghost IsGood = { HasCanonicalText };

    ghost AreAll = { AreEntries };

    ghost IsBehind = { IsBehindEntries };

    ghost AreAllRows = { AreAllEntryRows };

    ghost IsBehindRows = { IsBehindEntryRows };

    fn next<S: Alter>(
        &mut self,
        alloc: Global,
        conn: &mut Connection<S>,
    ) -> Result<Option<Entry>, Fault> {
        let Some(row) = self.cursor.next(conn)? else {
            return Ok(None);
        };
        Ok(Some(entry_of(alloc, row)?))
    }
}

/// Returns the entry that a row says.
///
/// The error is `Damaged` where the text isn't the canonical text of one command, or `Memory`.
fn entry_of(alloc: Global, row: EntryRow) -> Result<Entry, Fault>
    ensures ok { IfOk result (λ entry. said entry ≡ row) }
    ensures good { IfOk result HasCanonicalText }
    ensures damaged { result ≡ Err Fault.Damaged → (command : CommandOf) → IsSayable command
        → row.body ≢ canonical command }
    ensures no_device { result ≢ Err Fault.Device }
{
    let body = String::from_str(alloc, row.body.as_str())?;
    check_canonical(alloc, &body)?;
    Ok(Entry {
        number: row.number.number(),
        key: Key {
            source: row.source,
            name: row.name,
        },
        body,
    })
}

/// Checks that a text is the canonical text of one command.
///
/// The error is `Damaged` where it isn't, or `Memory`.
fn check_canonical(alloc: Global, text: &str) -> Result<(), Fault>
    ensures ok { IfOk result (λ _. IsCanonical text.now) }
    ensures damaged { result ≡ Err Fault.Damaged → (command : CommandOf) → IsSayable command
        → text.now ≢ canonical command }
    ensures no_device { result ≢ Err Fault.Device }
{
    canonical_text_reads_as_its_command();
    if is_canonical(alloc, text)? {
        Ok(())
    } else {
        Err(Fault::Damaged)
    }
}
