ghost use Rattle.std.specs.Prelude.{◌≡◌, ◌≢◌, Err, IfOk};
ghost use Rattle.lot_base.specs.Text.{same_text};
ghost use Rattle.lot_command.specs.Canonical.{canonical};
ghost use Rattle.lot_command.specs.Sayable.{IsSayable};
ghost use Rattle.lot_command.specs.declared.command.Command.{Command as CommandOf};
ghost use Rattle.lot_noted.specs.Book.{Narrates};

use lot_base::Note;
use lot_noted::narration_in;
use lot_table::Fault;
use std::alloc::{AllocError, Global};
use std::marker::Model;

/// A text that was read, with the narration that its first line has. A contract sees the text.
#[derive(Drop)]
pub(crate) struct SaidNote {
    text: String,
    narration: Option<Note>,
}

impl Model for SaidNote {
    ghost use Rattle.std.specs.Prelude.{ℕ, List};
    ghost use Rattle.std.specs.String.{string_bytes};
    ghost use Rattle.lot_noted.specs.Book.{Narrates};

    ghost Value = { List ℕ };

    ghost view = { λ s. string_bytes s.text };

    ghost invariant = { λ s. Narrates (string_bytes s.text) s.narration };
}

impl SaidNote {
    /// Reads a text.
    ///
    /// The error is `Damaged` where its first line is that of no command, or `Memory`.
    pub fn read(alloc: Global, text: &str) -> Result<SaidNote, Fault>
        ensures text { IfOk result (λ said. said ≡ text.now) }
        ensures damaged { result ≡ Err Fault.Damaged → (command : CommandOf) → IsSayable command
            → text.now ≢ canonical command }
        ensures no_device { result ≢ Err Fault.Device }
    {
        let narration = narration_in(alloc, text)?;
        let text = String::from_str(alloc, text)?;
        Ok(SaidNote { text, narration })
    }

    /// Returns whether it is that text.
    pub fn is_of(&self, text: &str) -> bool
        ensures { result ≡ same_text self.now text.now }
    {
        self.text.as_str() == text
    }

    /// Returns the narration. The only error is out of memory.
    pub fn narration(&self) -> Result<Option<Note>, AllocError>
        ensures { IfOk result (Narrates self.now) }
    {
        copy_of(&self.narration)
    }
}

/// The text that was read last, if one was.
#[derive(Drop)]
pub(crate) struct LastNote {
    said: Option<SaidNote>,
}

impl LastNote {
    /// No text was read yet.
    pub fn new() -> LastNote {
        LastNote { said: None }
    }

    /// Returns the narration of a text. The one that was read last isn't read again.
    ///
    /// The error is `Damaged` where its first line is that of no command, or `Memory`.
    pub fn narration(&mut self, alloc: Global, text: &str) -> Result<Option<Note>, Fault>
        ensures says { IfOk result (Narrates text.now) }
        ensures damaged { result ≡ Err Fault.Damaged → (command : CommandOf) → IsSayable command
            → text.now ≢ canonical command }
        ensures no_device { result ≢ Err Fault.Device }
    {
        if let Some(said) = &self.said {
            if said.is_of(text) {
                return Ok(said.narration()?);
            }
        }
        let said = SaidNote::read(alloc, text)?;
        let narration = said.narration()?;
        self.said = Some(said);
        Ok(narration)
    }
}

/// Returns a copy of a narration. The only error is out of memory.
pub(crate) fn copy_of(narration: &Option<Note>) -> Result<Option<Note>, AllocError>
    ensures { IfOk result (λ copy. copy ≡ narration.now) }
{
    match narration {
        Some(narration) => Ok(Some(narration.copy()?)),
        None => Ok(None),
    }
}
