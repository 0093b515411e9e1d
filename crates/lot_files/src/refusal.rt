//! Why the files of a book aren't opened: what the library of the database says, or why the system refuses
//! them.

ghost use Rattle.std.specs.Prelude.{◌≡◌};
ghost use Rattle.lot_files.specs.Refusal.{IsRefusal, IsWhy, IsWhyOver, TriesBook, TriesFile};
ghost use Rattle.lot_files.specs.Refusal.{TriesFiles, TriesLocated, TriesMissing};
ghost use Rattle.lot_files.specs.Refusal.{says_no_more, to_make, to_write};

use crate::cause::Cause;
use crate::file_maker::FileMaker;
use crate::files::is_missing;
use crate::keeper::Keeper;
use crate::located::{Located, locate};
use crate::noted::cause_kept;
use sqlite::{Error, ErrorCode};
use std::alloc::Global;
use std::fs::OpenOptions;

/// Returns why the library opened no database in files that were opened, and that keep there why a
/// call of them failed.
pub(crate) fn why_over<F: FileMaker, K: Keeper>(
    fs: &F,
    alloc: Global,
    path: &str,
    error: Error,
    keeper: &K,
) -> Cause
    ensures { IsWhyOver F.FileSystem F.FileMaker.opens K.Keeper
        fs.now keeper.now path.now error result }
{
    why(fs, alloc, path, error).or_of(cause_kept(keeper))
}

/// Returns why the library didn't open the book in the file of that path. Where it doesn't say so
/// itself, the system is asked again what it was asked.
pub(crate) fn why<F: FileMaker>(fs: &F, alloc: Global, path: &str, error: Error) -> Cause
    ensures { IsWhy F.FileSystem F.FileMaker.opens fs.now path.now error result }
{
    let cause = Cause::of_library(error);
    if !says_no_more(cause) {
        return cause;
    }
    refusal(fs, alloc, path)
}

/// Returns whether it says no more than that a file can't be opened.
fn says_no_more(cause: Cause) -> bool
    ensures { result ≡ says_no_more cause }
{
    matches!(cause, Cause::Library(ErrorCode::CannotOpen))
}

/// Returns why the system refuses the files of the book to which that path leads, or no more than that
/// the library does.
fn refusal<F: FileMaker>(fs: &F, alloc: Global, path: &str) -> Cause
    ensures { IsRefusal F.FileSystem F.FileMaker.opens fs.now path.now result }
{
    match try_book(fs, alloc, path) {
        Ok(()) => Cause::Library(ErrorCode::CannotOpen),
        Err(cause) => cause,
    }
}

/// Opens the files of the book to which that path leads, as the library does. One that is missing is
/// made. The error is why the system refuses the first of them that it does.
fn try_book<F: FileMaker>(fs: &F, alloc: Global, path: &str) -> Result<(), Cause>
    ensures { TriesBook F.FileSystem F.FileMaker.opens fs.now path.now result }
{
    try_missing(fs, path)?;
    try_located(fs, alloc, path)
}

/// Makes the file of that path, where it is missing.
fn try_missing<F: FileMaker>(fs: &F, path: &str) -> Result<(), Cause>
    ensures { TriesMissing F.FileSystem F.FileMaker.opens fs.now path.now result }
{
    if !is_missing(fs, path) {
        return Ok(());
    }
    try_file(fs, path)
}

/// Opens the files of the book to which that path leads.
fn try_located<F: FileMaker>(fs: &F, alloc: Global, path: &str) -> Result<(), Cause>
    ensures { TriesLocated F.FileSystem F.FileMaker.opens fs.now path.now result }
{
    let files = locate(fs, alloc, path)?;
    try_files(fs, &files)
}

/// Opens the file of a book, and then its log.
fn try_files<F: FileMaker>(fs: &F, files: &Located) -> Result<(), Cause>
    ensures { TriesFiles F.FileSystem F.FileMaker.opens fs.now files.now result }
{
    try_file(fs, files.book.as_str())?;
    try_file(fs, files.log.as_str())
}

/// Opens a file, or makes it where nothing has the path.
fn try_file<F: FileMaker>(fs: &F, path: &str) -> Result<(), Cause>
    ensures { TriesFile F.FileSystem F.FileMaker.opens fs.now path.now result }
{
    if fs.symlink_metadata(path).is_err() {
        return Ok(fs.open(&to_make(), path)?);
    }
    Ok(fs.open(&to_write(), path)?)
}

/// Returns how a file of a book is opened: to be read and written, with nothing of it cut off.
fn to_write() -> OpenOptions
    ensures { result ≡ to_write }
{
    let mut how = OpenOptions::new();
    how.read(true).write(true);
    how
}

/// Returns how one is made.
fn to_make() -> OpenOptions
    ensures { result ≡ to_make }
{
    let mut how = to_write();
    how.create_new(true);
    how
}
