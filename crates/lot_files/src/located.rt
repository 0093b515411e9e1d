//! The files of the book to which a path leads.

ghost use Rattle.std.specs.Prelude.{◌≡◌, ◌++◌, IfOk};
ghost use Rattle.std.specs.String.{string_bytes};
ghost use Rattle.lot_files.specs.Entry.{cold, fit, no_file};
ghost use Rattle.lot_files.specs.Shown.{AreNamed, AreOfAlone, IsAlone, IsBookAt, IsUnresolved};
ghost use Rattle.lot_files.specs.Shown.{LeadsToBook, ShowsNoJournal};

use crate::cause::Cause;
use crate::file_system::{Entry, FileSystem, Kind, is_file, says_absent};
use crate::files::has_folder;
use std::alloc::{AllocError, Global};
use std::io;

/// The files of a book, by paths without a link in them.
#[derive(Drop)]
pub(crate) struct Located {
    pub(crate) book: String,
    pub(crate) log: String,
}

/// Finds the files of the book to which that path leads. The error is why they can't be those of a
/// book, whatever they hold.
pub(crate) fn locate<F: FileSystem>(fs: &F, alloc: Global, path: &str) -> Result<Located, Cause>
    ensures { LeadsToBook F.FileSystem fs.now path.now result }
{
    match fs.canonicalize(path) {
        Ok(book) => book_at(fs, alloc, book),
        Err(error) => Err(unresolved(fs, path, error)),
    }
}

/// Returns why there is no real path of that path.
fn unresolved<F: FileSystem>(fs: &F, path: &str, error: io::Error) -> Cause
    ensures { IsUnresolved F.FileSystem fs.now path.now error result }
{
    if !says_absent(&error) {
        return error.into();
    }
    if has_folder(fs, path) {
        Cause::NoFile
    } else {
        Cause::NoFolder
    }
}

/// Finds the files of the book at that real path.
fn book_at<F: FileSystem>(fs: &F, alloc: Global, book: String) -> Result<Located, Cause>
    ensures { IsBookAt F.FileSystem fs.now (string_bytes book) result }
{
    ensure_fit(fs.metadata(book.as_str()))?;
    alone_at(fs, alloc, book)
}

/// Finds them where no journal of another program is beside the book, to be played back.
fn alone_at<F: FileSystem>(fs: &F, alloc: Global, book: String) -> Result<Located, Cause>
    ensures { AreOfAlone F.FileSystem fs.now (string_bytes book) result }
{
    ensure_alone(fs, alloc, book.as_str())?;
    named(alloc, book)
}

/// Returns the files of the book of that path: its own, and its log beside it.
fn named(alloc: Global, book: String) -> Result<Located, Cause>
    ensures { AreNamed (string_bytes book) result }
{
    let log = beside(alloc, book.as_str(), "-wal")?;
    Ok(Located { book, log })
}

/// Tests that what a real path leads to can be the file of a book: a file with no second name.
fn ensure_fit(found: io::Result<Entry>) -> Result<(), Cause>
    ensures { result ≡ fit found }
{
    match found {
        Ok(entry) => match entry.kind {
            Kind::Folder => Err(Cause::Folder),
            Kind::Other => Err(Cause::Irregular),
            Kind::File if entry.names != 1 => Err(Cause::SecondName),
            Kind::File => Ok(()),
        },
        Err(error) => Err(error.into()),
    }
}

/// Tests that no journal of another program is beside the file of a book, to be played back.
fn ensure_alone<F: FileSystem>(fs: &F, alloc: Global, book: &str) -> Result<(), Cause>
    ensures { IsAlone F.FileSystem fs.now book.now result }
{
    let journal = beside(alloc, book, "-journal")?;
    ensure_no_journal(fs, journal.as_str())
}

/// Tests that nothing has that path other than a journal with nothing to play back.
fn ensure_no_journal<F: FileSystem>(fs: &F, path: &str) -> Result<(), Cause>
    ensures { ShowsNoJournal F.FileSystem fs.now path.now result }
{
    let found = fs.symlink_metadata(path);
    if is_file(&found) {
        return ensure_cold(fs.first_byte(path));
    }
    ensure_no_file(found)
}

/// Tests that nothing is in the place of a journal, where no file is.
fn ensure_no_file(found: io::Result<Entry>) -> Result<(), Cause>
    ensures { result ≡ no_file found }
{
    match found {
        Ok(_) => Err(Cause::Journal),
        Err(error) if says_absent(&error) => Ok(()),
        Err(error) => Err(error.into()),
    }
}

/// Tests that a journal has nothing to play back, by its first byte.
fn ensure_cold(first: io::Result<Option<u8>>) -> Result<(), Cause>
    ensures { result ≡ cold first }
{
    match first {
        Ok(Some(byte)) if byte != 0 => Err(Cause::Journal),
        Ok(_) => Ok(()),
        Err(error) => Err(error.into()),
    }
}

/// Returns the path of a file beside that of a book, whose name ends so.
fn beside(alloc: Global, book: &str, end: &str) -> Result<String, AllocError>
    ensures { IfOk result (λ text. string_bytes text ≡ book.now ++ end.now) }
{
    let mut text = String::from_str(alloc, book)?;
    text.push_str(end)?;
    Ok(text)
}
