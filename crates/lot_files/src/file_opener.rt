//! What opens the files of books.

ghost use Rattle.std.specs.Prelude.{ℕ, IfOk, IsTrue, List, Option, Result};
ghost use Rattle.sqlite_disk.specs.declared.files.Files.{Files as FilesOf};
ghost use Rattle.sqlite_std_file.specs.declared.pair.OpenError.{OpenError as OpenErrorOf};

use sqlite::{File, Files, Unknown};
use sqlite_disk::Disk;
use sqlite_std_file::OpenError;
use std::hash::{BuildHasher, RandomState};

/// What opens the files of books.
///
/// Each ghost member says what the system may answer.
pub(crate) trait FileOpener {
    /// A file of a book.
    type File: Disk + Drop;

    // The log and the file of the book at that path, which are opened, or why they aren't.
    ghost gives: { Self → List ℕ → Result (FilesOf Self.File) OpenErrorOf → Type 0 };

    // A number drawn at random, where one could be.
    ghost draws: { Self → Option ℕ → Type 0 };

    /// Opens the files of the book at that path for this program alone, and makes those that are missing.
    fn open_files(&self, path: &str) -> Result<Files<Self::File>, OpenError>
        ensures gives { gives self.now path.now result }
        ensures log { IfOk result (λ files. IsTrue (Self.File.is_usable files.log)) }
        ensures db { IfOk result (λ files. IsTrue (Self.File.is_usable files.db)) };

    /// Draws a number at random, for the marks in a log.
    fn seed(&self) -> Option<u64>
        ensures { draws self.now result };
}

/// The system. No contract of its calls says which files they open.
impl FileOpener for HostRuntime {
    ghost use Rattle.lot_files.specs.System.{system_draws, system_gives};

    type File = File;

    ghost gives = { system_gives.gives };

    ghost draws = { system_draws };

    fn open_files(&self, path: &str) -> Result<Files<File>, OpenError> {
        sqlite_std_file::open(self, path, Unknown)
    }

    fn seed(&self) -> Option<u64> {
        match RandomState::new(self) {
            Ok(state) => Some(state.hash_one(&0u8)),
            Err(_) => None,
        }
    }
}
