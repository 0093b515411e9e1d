//! What a file system shows of paths.

ghost use Rattle.std.specs.Prelude.{◌≡◌, ◌↔◌, ℕ, List, IsTrue, Option, Result};
ghost use Rattle.std.specs.Fs.{IsDir, IsFile, file_type, metadata_len};
ghost use Rattle.std.specs.declared.io.Error.{Error as ErrorOf};
ghost use Rattle.lot_files.specs.Entry.{bytes_in, is_absent, is_file, is_file_of, is_folder};
ghost use Rattle.lot_files.specs.Entry.{of_file, of_folder, says_absent, text_in};
ghost use Rattle.lot_files.specs.declared.file_system.Entry.{Entry as EntryOf};

use std::fs;
use std::io::{self, ErrorKind, Read};
use std::os::unix::fs::MetadataExt;

/// How many bytes at the head of a log say from when on it is written.
pub const HEAD: usize = 32;

/// What there is at a path.
#[derive(Clone, Copy)]
pub struct Entry {
    pub kind: Kind,
    pub len: u64,
    /// How many names it has.
    pub names: u64,
    /// Its number on its disk.
    pub number: u64,
    /// When it was changed last: a second, and a part of it.
    pub second: i64,
    pub nanosecond: i64,
}

/// What kind of thing there is.
#[derive(Clone, Copy)]
pub enum Kind {
    File,
    Folder,
    /// A pipe, a device, a link or the like.
    Other,
}

impl Entry {
    /// Returns what the system says of it.
    fn of(found: &fs::Metadata) -> Entry
        ensures len { result.len ≡ metadata_len found.now }
        ensures file { IsTrue (of_file result.kind) ↔ IsFile (file_type found.now) }
        ensures folder { IsTrue (of_folder result.kind) ↔ IsDir (file_type found.now) }
    {
        let kind = if found.is_dir() {
            Kind::Folder
        } else if found.is_file() {
            Kind::File
        } else {
            Kind::Other
        };
        Entry {
            kind,
            len: found.len(),
            names: found.nlink(),
            number: found.ino(),
            second: found.mtime(),
            nanosecond: found.mtime_nsec(),
        }
    }
}

/// Returns whether there is a file, as a call says.
pub(crate) fn is_file(found: &io::Result<Entry>) -> bool
    ensures { result ≡ is_file found.now }
{
    matches!(
        found,
        Ok(Entry {
            kind: Kind::File,
            ..
        })
    )
}

/// Returns whether there is a file of so many bytes.
pub(crate) fn is_file_of(found: &io::Result<Entry>, count: u64) -> bool
    ensures { result ≡ is_file_of found.now count }
{
    match found {
        Ok(entry) => matches!(entry.kind, Kind::File) && entry.len == count,
        Err(_) => false,
    }
}

/// Returns whether there is a folder.
pub(crate) fn is_folder(found: &io::Result<Entry>) -> bool
    ensures { result ≡ is_folder found.now }
{
    matches!(
        found,
        Ok(Entry {
            kind: Kind::Folder,
            ..
        })
    )
}

/// Returns whether there is nothing.
pub(crate) fn is_absent(found: &io::Result<Entry>) -> bool
    ensures { result ≡ is_absent found.now }
{
    match found {
        Ok(_) => false,
        Err(error) => says_absent(error),
    }
}

/// Returns whether an error says that there is nothing.
pub(crate) fn says_absent(error: &io::Error) -> bool
    ensures { result ≡ says_absent error.now }
{
    error.kind() == ErrorKind::NotFound
}

/// A file system: what it shows of paths, which others may change from one call to the next. What only looks at one can't
/// open a file to be written, nor make one.
///
/// Each ghost member says what the system may answer of a path.
pub trait FileSystem {
    // What the path leads to, through links.
    ghost leads_to: { Self → List ℕ → Result EntryOf ErrorOf → Type 0 };

    // What has the path, which may be a link.
    ghost has: { Self → List ℕ → Result EntryOf ErrorOf → Type 0 };

    // The path to the same without a link in it.
    ghost is_really: { Self → List ℕ → Result (List ℕ) ErrorOf → Type 0 };

    // The first byte of the file to which it leads, where that has one.
    ghost begins: { Self → List ℕ → Result (Option ℕ) ErrorOf → Type 0 };

    // The first bytes of that file, as many as the head of a log has.
    ghost heads: { Self → List ℕ → Result (List ℕ) ErrorOf → Type 0 };

    // All its bytes.
    ghost holds: { Self → List ℕ → Result (List ℕ) ErrorOf → Type 0 };

    /// Returns what the path leads to, through links.
    fn metadata(&self, path: &str) -> io::Result<Entry>
        ensures { leads_to self.now path.now result };

    /// Returns what has the path, which may be a link.
    fn symlink_metadata(&self, path: &str) -> io::Result<Entry>
        ensures { has self.now path.now result };

    /// Returns the path to the same without a link in it.
    fn canonicalize(&self, path: &str) -> io::Result<String>
        ensures { is_really self.now path.now (text_in result) };

    /// Reads the first byte of the file to which the path leads, where that has one.
    fn first_byte(&self, path: &str) -> io::Result<Option<u8>>
        ensures { begins self.now path.now result };

    /// Reads the head of a log. The error is also that the file has fewer bytes.
    fn log_head(&self, path: &str) -> io::Result<[u8; HEAD]>
        ensures { heads self.now path.now result };

    /// Reads the file to which the path leads.
    fn read(&self, path: &str) -> io::Result<Vec<u8>>
        ensures { holds self.now path.now (bytes_in result) };
}

/// The system. No contract of its calls says what there is at a path.
impl FileSystem for HostRuntime {
    ghost use Rattle.lot_files.specs.System.{system_shows};

    ghost leads_to = { system_shows.leads_to };

    ghost has = { system_shows.has };

    ghost is_really = { system_shows.is_really };

    ghost begins = { system_shows.begins };

    ghost heads = { system_shows.heads };

    ghost holds = { system_shows.holds };

    fn metadata(&self, path: &str) -> io::Result<Entry> {
        Ok(Entry::of(&fs::metadata(self, path)?))
    }

    fn symlink_metadata(&self, path: &str) -> io::Result<Entry> {
        Ok(Entry::of(&fs::symlink_metadata(self, path)?))
    }

    fn canonicalize(&self, path: &str) -> io::Result<String> {
        Ok(fs::canonicalize(self, path)?.into_string())
    }

    fn first_byte(&self, path: &str) -> io::Result<Option<u8>> {
        let mut first = [0];
        let count = fs::File::open(self, path)?.read(&mut first)?;
        Ok(if count == 0 { None } else { Some(first[0]) })
    }

    fn log_head(&self, path: &str) -> io::Result<[u8; HEAD]> {
        let mut head = [0; HEAD];
        fs::File::open(self, path)?.read_exact(&mut head)?;
        Ok(head)
    }

    fn read(&self, path: &str) -> io::Result<Vec<u8>> {
        fs::read(self, path)
    }
}
