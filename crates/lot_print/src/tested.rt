ghost use Rattle.std.specs.Prelude.{◌≡◌, ◌↔◌, ℕ, IfErr, IfOk, IsTrue, MatchOption, slice_get};
ghost use Rattle.lot_command.specs.Canonical.{canonical};
ghost use Rattle.lot_command.specs.Sayable.{IsSayable};
ghost use Rattle.lot_print.specs.Canonical.{IsCanonical};
ghost use Rattle.lot_read.specs.Text.{RunsOutAt};

use crate::laws::canonical_text_reads_as_its_command;
use crate::printed::print;
use lot_command::{Command, is_sayable};
use lot_read::laws::a_text_says_one_thing;
use lot_read::{TextFault, read};
use std::alloc::{AllocError, Global};

/// Returns whether a text is canonical: it says one command, and is the canonical text of that command
/// (docs/FORMATS.md, Canonical text).
///
/// The error is out of memory. It comes only where the first lines of the text, or all of them, say commands.
pub fn is_canonical(alloc: Global, text: &str) -> Result<bool, AllocError>
    ensures value { IfOk result (λ is. IsTrue is ↔ IsCanonical text.now) }
    ensures memory { IfErr result (λ _. (number : ℕ) × RunsOutAt text.now number) }
{
    Ok(command_of(alloc, text)?.is_some())
}

/// Returns the command whose canonical text this is, or `None` where it is that of no command.
///
/// The error is out of memory. It comes only where the first lines of the text, or all of them, say commands.
pub fn command_of(alloc: Global, text: &str) -> Result<Option<Command>, AllocError>
    ensures value { IfOk result (λ found. MatchOption found (¬ IsCanonical text.now)
        (λ command. IsSayable command × (text.now ≡ canonical command))) }
    ensures memory { IfErr result (λ _. (number : ℕ) × RunsOutAt text.now number) }
{
    canonical_text_reads_as_its_command();
    a_text_says_one_thing();
    let commands = match read(alloc, text.as_bytes()) {
        Ok(commands) => commands,
        Err(TextFault::Line { .. }) => return Ok(None),
        Err(TextFault::Memory { .. }) => return Err(AllocError),
    };
    let Some(command) = first(commands) else {
        return Ok(None);
    };
    is_sayable(&command);
    let canonical = print(alloc, &command)?;
    if canonical.as_str() == text {
        Ok(Some(command))
    } else {
        Ok(None)
    }
}

/// Returns the first of the commands.
fn first(commands: Vec<Command>) -> Option<Command>
    ensures { result ≡ slice_get commands.items 0 }
{
    commands.into_iter().next()
}
