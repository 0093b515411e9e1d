ghost use Rattle.std.specs.Prelude.{◌≡◌, ◌≢◌, ◌++◌, Err, IfOk, codes, option_map};
ghost use Rattle.std.specs.String.{string_bytes};
ghost use Rattle.lot_command.specs.Canonical.{canonical};
ghost use Rattle.lot_command.specs.Sayable.{IsSayable};
ghost use Rattle.lot_command.specs.declared.command.Command.{Command as CommandOf};
ghost use Rattle.lot_command.specs.declared.transaction.Narration.{Narration as NarrationOf};
ghost use Rattle.lot_noted.specs.Book.{Narrates, narration_of};

use lot_base::Note;
use lot_command::{Command, Narration};
use lot_print::command_of;
use lot_table::Fault;
use std::alloc::{AllocError, Global};

/// Returns the narration of the command whose canonical text this is. It reads the first line alone.
///
/// The error is `Damaged` where the first line is that of no command, or `Memory`.
pub fn narration_in(alloc: Global, text: &str) -> Result<Option<Note>, Fault>
    ensures says { IfOk result (Narrates text.now) }
    ensures damaged { result ≡ Err Fault.Damaged → (command : CommandOf) → IsSayable command
        → text.now ≢ canonical command }
    ensures no_device { result ≢ Err Fault.Device }
{
    let Some((line, _behind)) = text.split_once('\n') else {
        return Err(Fault::Damaged);
    };
    let whole = with_end(alloc, line)?;
    let Some(command) = command_of(alloc, whole.as_str())? else {
        return Err(Fault::Damaged);
    };
    Ok(narration_of(&command)?)
}

/// Returns a line with its end. The only error is out of memory.
fn with_end(alloc: Global, line: &str) -> Result<String, AllocError>
    ensures { IfOk result (λ whole. string_bytes whole ≡ line.now ++ codes "\n") }
{
    let mut whole = String::from_str(alloc, line)?;
    whole.push_str("\n")?;
    Ok(whole)
}

/// Returns the narration of a command: only a transaction has one. The only error is out of memory.
fn narration_of(command: &Command) -> Result<Option<Note>, AllocError>
    ensures { IfOk result (λ narration. narration ≡ narration_of command.now) }
{
    match command {
        Command::Opening(_) => Ok(None),
        Command::Closing(_) => Ok(None),
        Command::Declaring(_) => Ok(None),
        Command::Quoting(_) => Ok(None),
        Command::Transaction(transaction) => text_of(&transaction.narration),
    }
}

/// Returns a narration without the payee. The only error is out of memory.
fn text_of(narration: &Option<Narration>) -> Result<Option<Note>, AllocError>
    ensures { IfOk result (λ text. text ≡ option_map (λ (n : NarrationOf). n.text) narration.now) }
{
    match narration {
        Some(narration) => Ok(Some(narration.text.copy()?)),
        None => Ok(None),
    }
}
