ghost use Rattle.std.specs.Prelude.{IfOk, MatchOption};
ghost use Rattle.lot_command.specs.declared.command.Command.{Command as CommandOf};
ghost use Rattle.lot_command.specs.declared.key.Key.{Key as KeyOf};
ghost use Rattle.lot_audit.specs.Entries.{IsEntryOf};

use lot_command::{Command, Key};
use lot_print::command_of;
use lot_rows::entry::EntryRow;
use std::alloc::{AllocError, Global};

/// What the row of an entry says: its key and its command.
#[derive(Drop)]
pub(crate) struct Said {
    pub(crate) key: Key,
    pub(crate) command: Command,
}

/// Returns what the row of the next entry behind so many says, or `None` where it has another
/// number or its text is the canonical text of no command. The only error is out of memory.
pub(crate) fn entry_said(
    alloc: Global,
    before: u32,
    row: EntryRow,
) -> Result<Option<Said>, AllocError>
    ensures { IfOk result (λ found. MatchOption found
        ((key : KeyOf) (command : CommandOf) → ¬ IsEntryOf before row key command)
        (λ said. IsEntryOf before row said.key said.command)) }
{
    if u64::from(row.number.number()) != u64::from(before) + 1 {
        return Ok(None);
    }
    let Some(command) = command_of(alloc, row.body.as_str())? else {
        return Ok(None);
    };
    let key = Key {
        source: row.source,
        name: row.name,
    };
    Ok(Some(Said { key, command }))
}
