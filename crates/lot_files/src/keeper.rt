//! Where it is kept why a call of a file failed.

ghost use Rattle.std.specs.Prelude.{Option};
ghost use Rattle.std.specs.declared.io.Error.{Error as ErrorOf};

use std::io;

/// Where it is kept why a call failed. No clause knows what a cell holds, so the ghost members say it.
pub(crate) trait Keeper {
    // It keeps that error in the first state, and that leaves the second.
    ghost keeps: { Self → ErrorOf → Self → Type 0 };

    // The error that it was given last, where it was given one.
    ghost holds: { Self → Option ErrorOf → Type 0 };

    /// Keeps an error, in the place of the one before.
    fn keep(&mut self, error: io::Error)
        ensures { keeps self.old error self.new };

    /// Returns the error that it was given last, where it was given one.
    fn kept(&self) -> Option<io::Error>
        ensures { holds self.now result };
}
