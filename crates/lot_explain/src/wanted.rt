//! Which facts of a book are wanted to say more of a call.

use crate::export::row_at;
use crate::known::{Wanted, label, pair_at};
use crate::reading::Reading;
use crate::refused::{command_of, item};
use crate::said::{Said, heard};
use crate::transcript::{Key, Transcript};
use crate::warning::may_close;
use lot_base::Account;
use lot_command::{Command, Key as CommandKey};
use lot_import::{CommandFault, command};
use lot_read::{TextFault, read};
use lot_syntax::Lines;
use std::alloc::{AllocError, Global};

/// Returns the facts that are wanted of the commands that were refused, and of the closings of a ledger text. The only error is out
/// of memory.
pub(crate) fn wanted(
    alloc: Global,
    transcript: &Transcript<'_>,
    reading: &Reading<'_>,
) -> Result<Vec<Wanted>, AllocError> {
    let mut wanted = Vec::new(alloc);
    for line in Lines::new(transcript.lines) {
        if let Some(said) = heard(line)
            && let Some(number) = said.number
            && let Some(fact) = of_number(alloc, &*transcript, &*reading, number, &said)?
        {
            wanted.push(fact)?;
        }
    }
    if let Reading::Text { .. } = reading {
        of_closings(alloc, transcript.input, &mut wanted)?;
    }
    Ok(wanted)
}

/// Returns the fact that is wanted of the command or row of that number, where one is.
fn of_number<'a>(
    alloc: Global,
    transcript: &'a Transcript<'a>,
    reading: &'a Reading<'_>,
    number: usize,
    said: &'a Said<'a>,
) -> Result<Option<Wanted>, AllocError> {
    match reading {
        Reading::Text { commands, .. } => match item(commands, number) {
            Some(command) => {
                let name = format!(in alloc; "{number}")?;
                of_command(alloc, transcript.key(name.as_str()), command, said)
            }
            None => Ok(None),
        },
        Reading::Rows { rows, accounts, .. } => match item(rows, number) {
            Some(row) => match command(alloc, row, accounts, transcript.decimals()) {
                Ok(command) => of_command(alloc, transcript.key(row.name.as_str()), &command, said),
                Err(CommandFault::InexactAmount) => Ok(None),
                Err(CommandFault::Memory) => Err(AllocError),
            },
            None => Ok(None),
        },
        Reading::Export { rows, commands } => {
            let Some(row) = row_at(rows, number) else {
                return Ok(None);
            };
            match command_of(row, commands) {
                Some((_, asked)) => of_command(
                    alloc,
                    transcript.key(row.name.as_str()),
                    &asked.command,
                    said,
                ),
                None => Ok(None),
            }
        }
        Reading::Statement | Reading::Dump => Ok(None),
    }
}

/// Returns the fact that is wanted of a command under that key, by what was said of it.
fn of_command(
    alloc: Global,
    key: Key<'_>,
    command: &Command,
    said: &Said<'_>,
) -> Result<Option<Wanted>, AllocError> {
    match (said.code, said.posting) {
        ("L1", _) => under(alloc, key),
        ("L3", _) => Ok(Some(Wanted::Accounts)),
        ("L10", Some(place)) => match pair_at(command, place)? {
            Some(pair) => Ok(Some(Wanted::Latest(pair))),
            None => Ok(None),
        },
        ("B2" | "B3", Some(place)) => match pair_at(command, place)? {
            Some(pair) => Ok(Some(Wanted::Lots(pair))),
            None => Ok(None),
        },
        _ => Ok(None),
    }
}

/// Returns the entry under a key as what is wanted, where it is a key.
fn under(alloc: Global, key: Key<'_>) -> Result<Option<Wanted>, AllocError> {
    let (word, batch) = (key.word, key.batch);
    let source = format!(in alloc; "{word}:{batch}")?;
    match (label(alloc, source.as_str())?, label(alloc, key.name)?) {
        (Some(source), Some(name)) => Ok(Some(Wanted::Entry(CommandKey { source, name }))),
        _ => Ok(None),
    }
}

/// Adds what is wanted of each closing of a ledger text: whether its account still holds something.
fn of_closings(alloc: Global, input: &[u8], wanted: &mut Vec<Wanted>) -> Result<(), AllocError> {
    for line in Lines::new(input) {
        if may_close(line)
            && let Some(account) = closed_by(alloc, line)?
        {
            wanted.push(Wanted::Locked(account))?;
        }
    }
    Ok(())
}

/// Returns the account that a line closes, if it is a closing. The only error is out of memory.
fn closed_by(alloc: Global, line: &[u8]) -> Result<Option<Account>, AllocError> {
    let commands = match read(alloc, line) {
        Ok(commands) => commands,
        Err(TextFault::Line { .. }) => return Ok(None),
        Err(TextFault::Memory { .. }) => return Err(AllocError),
    };
    match commands.first() {
        Some(Command::Closing(closing)) => Ok(Some(closing.account.copy()?)),
        _ => Ok(None),
    }
}
