//! Laws of the canonical text of a command. Each is the contract of a function that does nothing.
ghost use Rattle.std.specs.Prelude.{◌≡◌, ◌≤◌, ℕ, [], ◌∷◌, List, flat_map, length};
ghost use Rattle.std.specs.List.{AllByRecursion};
ghost use Rattle.lot_command.specs.Canonical.{canonical};
ghost use Rattle.lot_command.specs.declared.command.Command.{Command};
ghost use Rattle.lot_syntax.specs.Line.{AreLines};
ghost use Rattle.lot_read.specs.Line.{longest_line};
ghost use Rattle.lot_read.specs.Text.{Reads};
ghost use Rattle.lot_print.specs.Length.{longest_printed};
ghost use Rattle.lot_command.specs.Sayable.{IsSayable};

/// The canonical text of a command reads as that command.
pub fn canonical_text_reads_as_its_command()
    ensures { (command : Command) → IsSayable command → Reads (canonical command) (command ∷ []) }
{}

/// Canonical texts, one after another, read as their commands.
pub fn canonical_texts_read_as_their_commands()
    ensures { (commands : List Command) → AllByRecursion IsSayable commands
        → Reads (flat_map canonical commands) commands }
{}

/// Canonical texts tell commands apart. Commands with one text are one command, and lists of commands with one text are one
/// list.
pub fn canonical_texts_tell_commands_apart()
    ensures one { (a b : Command) → IsSayable a → IsSayable b → canonical a ≡ canonical b → a ≡ b }
    ensures list { (a b : List Command) → AllByRecursion IsSayable a → AllByRecursion IsSayable b
        → flat_map canonical a ≡ flat_map canonical b → a ≡ b }
{}

/// The lines of canonical texts have at most 4,018 bytes, and one line has that many. A line of that length may be read.
pub fn canonical_lines_are_short()
    ensures most { (command : Command) (lines : List (List ℕ)) → IsSayable command
        → AreLines lines (canonical command)
        → AllByRecursion (λ line. length line ≤ longest_printed) lines }
    ensures reached { (command : Command) × (line : List ℕ) × IsSayable command
        × AreLines (line ∷ []) (canonical command)
        × (length line ≡ longest_printed) }
    ensures within { longest_printed ≤ longest_line }
{}
