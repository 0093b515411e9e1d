//! Writers in which bytes may wait.

ghost use Rattle.std.specs.Prelude.{OnOk};
ghost use Rattle.std.specs.Io.KnownBytes.{Keeps};

use std::io::{self, Write};

/// A writer in which bytes may wait, and whose flush says that none does.
pub trait WriteOut: Write {
    // No byte waits in the writer.
    ghost is_written_out: { Self → Type 0 };

    /// Writes out what waits, as a flush does.
    fn write_out(&mut self) -> io::Result<()>
        ensures bytes { Keeps (Self.contents self.old) (Self.contents self.new) }
        ensures written_out { OnOk result (is_written_out self.new) };
}
