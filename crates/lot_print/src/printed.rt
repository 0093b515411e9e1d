ghost use Rattle.std.specs.Prelude.{◌≡◌, [], ◌∷◌, IfOk};
ghost use Rattle.std.specs.String.{string_bytes};
ghost use Rattle.lot_command.specs.Canonical.{canonical};
ghost use Rattle.lot_read.specs.Text.{Reads};

use lot_command::{Command, canonical, is_sayable};
use std::alloc::{AllocError, Global};

/// Returns the canonical text of a command (docs/FORMATS.md, Canonical text). It reads as that command. The only error is out
/// of memory.
pub fn print(alloc: Global, command: &Command) -> Result<String, AllocError>
    ensures value { IfOk result (λ text. string_bytes text ≡ canonical command.now) }
    ensures reads_back { IfOk result (λ text. Reads (string_bytes text) (command.now ∷ [])) }
{
    is_sayable(command);
    canonical::body(alloc, command)
}
