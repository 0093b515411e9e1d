//! What opens files to be written, and makes those that are missing.

ghost use Rattle.std.specs.Prelude.{ℕ, List, Result};
ghost use Rattle.std.specs.declared.fs.options.OpenOptions.{OpenOptions as OptionsOf};
ghost use Rattle.std.specs.declared.io.Error.{Error as ErrorOf};

use crate::file_system::FileSystem;
use std::fs::OpenOptions;
use std::io;

/// A file system in which files are opened to be written, and made.
pub(crate) trait FileMaker: FileSystem {
    // A file of that path is opened so.
    ghost opens: { Self → OptionsOf → List ℕ → Result Unit ErrorOf → Type 0 };

    /// Opens a file, and closes it again.
    fn open(&self, how: &OpenOptions, path: &str) -> io::Result<()>
        ensures { opens self.now how.now path.now result };
}

/// The system. No contract of its calls says which files they open.
impl FileMaker for HostRuntime {
    ghost use Rattle.lot_files.specs.System.{system_makes};

    ghost opens = { system_makes };

    fn open(&self, how: &OpenOptions, path: &str) -> io::Result<()> {
        let _file = how.open(self, path)?;
        Ok(())
    }
}
