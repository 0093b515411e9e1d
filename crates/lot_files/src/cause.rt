//! Why the book in a file can't be opened.

ghost use Rattle.std.specs.Prelude.{◌≡◌};
ghost use Rattle.lot_files.specs.Cause.{cause_or, copy_cause, library_cause};

use sqlite::{Error, ErrorCode};
use std::alloc::AllocError;
use std::fmt;
use std::io::{self, ErrorKind};

/// Why the book in a file can't be opened.
#[derive(Clone, Copy)]
pub enum Cause {
    /// Memory ended.
    Memory,
    /// The name of the file has more bytes than that of a book may have.
    LongName,
    /// The file holds one byte, which isn't zero.
    OneByte,
    /// The folder in which the file would be isn't there.
    NoFolder,
    /// The path leads to no file.
    NoFile,
    /// The path is that of a folder.
    Folder,
    /// The path is that of a pipe, a device or the like.
    Irregular,
    /// The file has another name beside this one.
    SecondName,
    /// Another program left a journal beside the file, which isn't played back.
    Journal,
    /// The file or its log may not be opened so.
    NoPermission,
    /// The file is on a file system that can't be written.
    ReadOnly,
    /// Another program has the file open.
    InUse,
    /// The file is no database.
    NotADatabase,
    /// The file is a database that is damaged, or a part of one.
    Damaged,
    /// Another error of the library of the database.
    Library(ErrorCode),
    /// Another error of the system.
    System(io::Error),
}

impl Cause {
    /// Returns what an error of the library says by itself.
    pub(crate) fn of_library(error: Error) -> Cause
        ensures { result ≡ library_cause error }
    {
        match error {
            Error::SqliteFailure(ErrorCode::OutOfMemory) => Cause::Memory,
            Error::SqliteFailure(ErrorCode::DatabaseBusy) => Cause::InUse,
            Error::SqliteFailure(ErrorCode::NotADatabase) => Cause::NotADatabase,
            Error::SqliteFailure(ErrorCode::DatabaseCorrupt) => Cause::Damaged,
            Error::SqliteFailure(code) => Cause::Library(code),
            _ => Cause::Library(ErrorCode::CannotOpen),
        }
    }

    /// Returns what an error of the library says where the files are in memory: such a file fails
    /// where memory ends, and for nothing else.
    pub(crate) fn of_copy(error: Error) -> Cause
        ensures { result ≡ copy_cause error }
    {
        match error {
            Error::SqliteFailure(ErrorCode::SystemIoFailure) => Cause::Memory,
            _ => Cause::of_library(error),
        }
    }

    /// Returns it, or why the system refused, where it says no more than that the disk did.
    pub(crate) fn or_of(self, refusal: Option<Cause>) -> Cause
        ensures { result ≡ cause_or self refusal }
    {
        match self {
            Cause::Library(ErrorCode::SystemIoFailure | ErrorCode::DiskFull) => {
                refusal.unwrap_or(self)
            }
            _ => self,
        }
    }
}

impl From<AllocError> for Cause {
    ghost use Rattle.std.specs.Prelude.{◌≡◌};
    ghost use Rattle.lot_files.specs.declared.cause.Cause.TheVariants.{Memory};

    ghost from_gives = { λ _ cause. cause ≡ Memory };

    fn from(_error: AllocError) -> Cause {
        Cause::Memory
    }
}

impl From<io::Error> for Cause {
    ghost use Rattle.std.specs.Prelude.{◌≡◌};
    ghost use Rattle.lot_files.specs.Cause.{system_cause};

    ghost from_gives = { λ error cause. cause ≡ system_cause error };

    fn from(error: io::Error) -> Cause {
        match error.kind() {
            ErrorKind::OutOfMemory => Cause::Memory,
            ErrorKind::NotFound => Cause::NoFile,
            ErrorKind::PermissionDenied => Cause::NoPermission,
            ErrorKind::ReadOnlyFilesystem => Cause::ReadOnly,
            ErrorKind::NotADirectory => Cause::NoFolder,
            ErrorKind::IsADirectory => Cause::Folder,
            _ => Cause::System(error),
        }
    }
}

impl fmt::Display for Cause {
    fn fmt<W: fmt::Write>(&self, f: &mut fmt::Formatter<W>) -> fmt::Result {
        f.write_str(match self {
            Cause::Memory => "out of memory",
            Cause::LongName => "its name has more than 247 bytes",
            Cause::OneByte => "one byte is no database",
            Cause::NoFolder => "there is no such folder",
            Cause::NoFile => "there is no such file",
            Cause::Folder => "it is a folder",
            Cause::Irregular => "it is a pipe, a device or the like",
            Cause::SecondName => "the file has a second name",
            Cause::Journal => "another program left a journal beside it: open it there first",
            Cause::NoPermission => "no permission",
            Cause::ReadOnly => "the file system is read-only",
            Cause::InUse => "another program has it open",
            Cause::NotADatabase => "it is no database",
            Cause::Damaged => "it is a damaged database, or a part of one",
            Cause::Library(code) => return write!(f, "{code}"),
            Cause::System(error) => return write!(f, "{error}"),
        })
    }
}
