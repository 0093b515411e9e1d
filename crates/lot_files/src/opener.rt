//! What opens the databases of books.

ghost use Rattle.std.specs.Prelude.{ℕ, Bool, List, IfOk, Result};
ghost use Rattle.lot_files.specs.declared.cause.Cause.{Cause as CauseOf};

use crate::cause::Cause;

/// What opens the databases of books.
pub(crate) trait Opener {
    /// A database that is opened.
    type Database: Drop;

    // Opening the file of that path comes to that.
    ghost opens: { Self → List ℕ → Result Self.Database CauseOf → Type 0 };

    // Opening a copy of it comes to that.
    ghost copies: { Self → List ℕ → Result Self.Database CauseOf → Type 0 };

    // Whether it is empty.
    ghost shows_empty: { Self → List ℕ → Bool → Type 0 };

    // The database is the one in the file of that path.
    ghost is_in: { List ℕ → Self.Database → Type 0 };

    // It is a copy of that.
    ghost is_copy: { List ℕ → Self.Database → Type 0 };

    // It can be used.
    ghost is_ready: { Self.Database → Type 0 };

    /// Opens the database in the file of that path. Nothing is promised of the opener then: what leaves it as it was opens none.
    fn open(&mut self, path: &str) -> Result<Self::Database, Cause>
        ensures opens { opens self.old path.now result }
        ensures file { IfOk result (is_in path.now) }
        ensures ready { IfOk result is_ready };

    /// Opens a copy of it.
    fn copy(&self, path: &str) -> Result<Self::Database, Cause>
        ensures copies { copies self.now path.now result }
        ensures copy { IfOk result (is_copy path.now) }
        ensures ready { IfOk result is_ready };

    /// Returns whether there is an empty file of that path.
    fn has_empty(&self, path: &str) -> bool
        ensures { shows_empty self.now path.now result };
}
