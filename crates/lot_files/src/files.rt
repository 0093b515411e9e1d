//! The files of a book: its own, and its log beside it; and what a path of one leads to.

ghost use Rattle.std.specs.Prelude.{◌≡◌, false, IfErr, IfOk, IsOk, IsTrue, option_copied};
ghost use Rattle.std.specs.String.{string_bytes};
ghost use Rattle.sqlite.specs.Files.{FailsToOpenFiles, Finds, IsCleanLeft, file_state};
ghost use Rattle.sqlite.specs.Held.{IsNew};
ghost use Rattle.sqlite.specs.State.{HasCleanDisk};
ghost use Rattle.lot_files.specs.Cause.{opening_error};
ghost use Rattle.lot_files.specs.Entry.{zero_byte};
ghost use Rattle.lot_files.specs.Noted.{AreNoted};
ghost use Rattle.lot_files.specs.Opened.{IsMarkedBy, IsOverSystem, IsReady};
ghost use Rattle.lot_files.specs.Opening.{OpensAt, OpensGiven, OpensNoted};
ghost use Rattle.lot_files.specs.Path.{folder_of, has_long_name, library_path, names_file};
ghost use Rattle.lot_files.specs.Path.{names_no_file};
ghost use Rattle.lot_files.specs.Shown.{AllowsBook, AllowsFile, ShowsEmpty, ShowsFolder};
ghost use Rattle.lot_files.specs.Shown.{ShowsMissing};
ghost use Rattle.lot_files.specs.declared.opened.Database.{Database as DatabaseOf};

use crate::cause::Cause;
use crate::file_maker::FileMaker;
use crate::file_opener::FileOpener;
use crate::file_system::{FileSystem, is_absent, is_file_of, is_folder};
use crate::medium::Medium;
use crate::noted::{Failure, Noted};
use crate::opened::{BookFile, Database};
use crate::refusal::{why, why_over};
use sqlite::{Connection, Error, ErrorCode, File, FileStore, Files, Leftover, Options};
use sqlite_disk::Disk;
use sqlite_std_file::OpenError;
use std::alloc::{AllocError, Global};
use std::io::{self, ErrorKind};
use std::path::Path;

/// How many pages that were read are kept in memory.
const CACHE_PAGES: usize = 1_000;

/// How many pages that were written are kept in memory before they go to the log: a large transaction takes no more.
const SPILL_PAGES: usize = 500;

/// The most bytes that the name of a book's file may have. Its log stands beside it, and a journal of another program
/// may. Their names have up to eight bytes more, and no file's name has more than 255.
const LONGEST_NAME: usize = 247;

const NO_MEMORY: Error = Error::SqliteFailure(ErrorCode::OutOfMemory);

const CANNOT_OPEN: Error = Error::SqliteFailure(ErrorCode::CannotOpen);

/// Opens the database in the file of that path, and makes one where there is none. The files keep
/// there why a call of them failed.
pub(crate) fn open<'a, S: FileMaker + FileOpener<File = File>>(
    system: &S,
    alloc: Global,
    path: &str,
    failure: &'a Failure,
) -> Result<Database<'a>, Cause>
    ensures ready { IfOk result (λ database. IsReady database.conn) }
    ensures over { IfOk result (λ database. IsOverSystem database.conn) }
    ensures opens { OpensAt (λ (database : DatabaseOf). database.conn)
        S.FileSystem S.FileMaker.opens S.FileOpener system.now path.now result }
{
    match system.open_files(path) {
        Ok(files) => open_given(system, alloc, path, files, failure),
        Err(error) => Err(why(system, alloc, path, opening_error(error))),
    }
}

/// Opens the database in the files of that path, which are open. They keep there why a call of them
/// failed.
fn open_given<'a, S: FileMaker + FileOpener<File = File>>(
    system: &S,
    alloc: Global,
    path: &str,
    files: Files<File>,
    failure: &'a Failure,
) -> Result<Database<'a>, Cause>
    requires log { IsTrue (⟦<File as Disk>⟧.is_usable files.log) }
    requires db { IsTrue (⟦<File as Disk>⟧.is_usable files.db) }
    ensures ready { IfOk result (λ database. IsReady database.conn) }
    ensures over { IfOk result (λ database. IsOverSystem database.conn) }
    ensures opens { OpensGiven (λ (database : DatabaseOf). database.conn)
        S.FileSystem S.FileMaker.opens S.FileOpener system.now path.now files result }
{
    match system.seed() {
        Some(number) => open_noted(system, alloc, path, files, number, failure),
        None => Err(why(system, alloc, path, CANNOT_OPEN)),
    }
}

/// Opens the database in them. The marks in the log begin with that number.
fn open_noted<'a, F: FileMaker>(
    fs: &F,
    alloc: Global,
    path: &str,
    files: Files<File>,
    number: u64,
    failure: &'a Failure,
) -> Result<Database<'a>, Cause>
    requires log { IsTrue (⟦<File as Disk>⟧.is_usable files.log) }
    requires db { IsTrue (⟦<File as Disk>⟧.is_usable files.db) }
    ensures ready { IfOk result (λ database. IsReady database.conn) }
    ensures over { IfOk result (λ database. IsOverSystem database.conn) }
    ensures opens { OpensNoted (λ (database : DatabaseOf). database.conn)
        F.FileSystem F.FileMaker.opens fs.now path.now files number result }
{
    match open_marked(alloc, noted(files, failure), options_of(number)) {
        Ok(conn) => Ok(Database { conn }),
        Err((error, _left)) => Err(why_over(fs, alloc, path, error, &failure)),
    }
}

/// Opens the database in these files, with these options.
fn open_marked<'a>(
    alloc: Global,
    files: Files<BookFile<'a>>,
    options: Options,
) -> Result<Connection<FileStore<BookFile<'a>>>, (Error, Leftover<BookFile<'a>>)>
    requires log { IsTrue (⟦<BookFile<'a> as Disk>⟧.is_usable files.log) }
    requires db { IsTrue (⟦<BookFile<'a> as Disk>⟧.is_usable files.db) }
    ensures fresh { IfOk result IsNew }
    ensures found { IfOk result (λ conn. HasCleanDisk (file_state conn) → Finds files.entry conn) }
    ensures fails { IfErr result (λ e. IsCleanLeft e.1 → FailsToOpenFiles files.entry e.1 e.0) }
    ensures marked { IfOk result (λ conn. IsMarkedBy options.seed conn) }
{
    Connection::open_files(alloc, files, options)
}

/// Returns how the files of a book are used. The marks in the log begin with that number, and a log of 1,000 frames is copied into
/// the file.
fn options_of(number: u64) -> Options
    ensures seed { result.seed ≡ number }
    ensures log { result.checkpoint_frames ≡ 1000 }
{
    Options {
        cache_pages: CACHE_PAGES,
        spill_pages: SPILL_PAGES,
        ..Options::new(number)
    }
}

/// Returns these files, which keep there why a call of them failed.
fn noted<'a>(files: Files<File>, failure: &'a Failure) -> Files<BookFile<'a>>
    requires log { IsTrue (⟦<File as Disk>⟧.is_usable files.log) }
    requires db { IsTrue (⟦<File as Disk>⟧.is_usable files.db) }
    ensures same { AreNoted files result }
    ensures log { IsTrue (⟦<BookFile<'a> as Disk>⟧.is_usable result.log) }
    ensures db { IsTrue (⟦<BookFile<'a> as Disk>⟧.is_usable result.db) }
{
    let Files { log, db } = files;
    Files {
        log: Medium::System(Noted::new(log, failure)),
        db: Medium::System(Noted::new(db, failure)),
    }
}

/// Returns the error of the library for files that it couldn't open.
fn opening_error(error: OpenError) -> Error
    ensures { result ≡ opening_error error }
{
    match error {
        OpenError::OutOfMemory => NO_MEMORY,
        OpenError::Busy => Error::SqliteFailure(ErrorCode::DatabaseBusy),
        OpenError::Io(error) if error.kind() == ErrorKind::OutOfMemory => NO_MEMORY,
        OpenError::Io(_) | OpenError::HotJournal => CANNOT_OPEN,
    }
}

/// Returns whether there is no file of that path in a folder that is there.
pub fn is_missing<F: FileSystem>(fs: &F, path: &str) -> bool
    ensures { ShowsMissing F.FileSystem fs.now path.now result }
{
    if !is_absent(&fs.metadata(path)) {
        return false;
    }
    has_folder(fs, path)
}

/// Returns whether the folder of that path is there.
pub(crate) fn has_folder<F: FileSystem>(fs: &F, path: &str) -> bool
    ensures { ShowsFolder F.FileSystem fs.now path.now result }
{
    match folder_of(path) {
        Some(folder) => is_folder(&fs.metadata(folder)),
        // A name alone is one in the folder in which the program runs.
        None => !path.is_empty(),
    }
}

/// Returns the folder that stands in front of the name in a path, where one does.
fn folder_of(path: &str) -> Option<&str>
    ensures { option_copied result ≡ folder_of path.now }
{
    match Path::new(path).parent() {
        Some(folder) if !folder.as_str().is_empty() => Some(folder.as_str()),
        _ => None,
    }
}

/// Returns whether there is an empty file of that path.
pub(crate) fn is_empty<F: FileSystem>(fs: &F, path: &str) -> bool
    ensures { ShowsEmpty F.FileSystem fs.now path.now result }
{
    is_file_of(&fs.metadata(path), 0)
}

/// Tests that the file of that path, if there is one, may be opened as that of a book. The error is
/// that its name is too long, or that it is one byte, which isn't zero.
pub fn ensure_openable<F: FileSystem>(fs: &F, path: &str) -> Result<(), Cause>
    ensures allows { AllowsBook F.FileSystem fs.now path.now result }
    ensures short { IsOk result → has_long_name path.now ≡ false }
{
    if has_long_name(path) {
        return Err(Cause::LongName);
    }
    ensure_no_byte(fs, path)
}

/// Tests that the file of that path, if there is one, isn't one byte, which isn't zero.
fn ensure_no_byte<F: FileSystem>(fs: &F, path: &str) -> Result<(), Cause>
    ensures { AllowsFile F.FileSystem fs.now path.now result }
{
    if !is_file_of(&fs.metadata(path), 1) {
        return Ok(());
    }
    ensure_zero(fs.first_byte(path))
}

/// Tests that the one byte of a file is zero.
fn ensure_zero(first: io::Result<Option<u8>>) -> Result<(), Cause>
    ensures { result ≡ zero_byte first }
{
    match first {
        Ok(Some(byte)) if byte == 0 => Ok(()),
        _ => Err(Cause::OneByte),
    }
}

/// Returns whether the name of the file of that path is too long for that of a book.
fn has_long_name(path: &str) -> bool
    ensures { result ≡ has_long_name path.now }
{
    match Path::new(path).file_name() {
        Some(name) => name.len() > LONGEST_NAME,
        None => false,
    }
}

/// Tests that a path may be that of a file which isn't there yet. The error is why none can be made
/// there.
pub(crate) fn ensure_names_file(path: &str) -> Result<(), Cause>
    ensures { result ≡ names_file path.now }
{
    let path = path.as_bytes();
    if path.ends_with(b"/.") || path.ends_with(b"/./") {
        return Err(Cause::NoFile);
    }
    if path.ends_with(b"/") {
        return Err(Cause::Folder);
    }
    Ok(())
}

/// Returns the path by which the library of the database opens the file of that path. A name that it
/// takes for that of a database in memory, or for a URI, stands behind `./`: the file of that name is
/// in the folder in which the program runs. The only error is out of memory.
pub fn library_path(alloc: Global, path: &str) -> Result<String, AllocError>
    ensures { IfOk result (λ text. string_bytes text ≡ library_path path.now) }
{
    let mut text = String::new(alloc);
    if names_no_file(path) {
        text.push_str("./")?;
    }
    text.push_str(path)?;
    Ok(text)
}

/// Returns whether the library of the database takes the path for something else than that of a
/// file: for a database in memory, or for a URI.
fn names_no_file(path: &str) -> bool
    ensures { result ≡ names_no_file path.now }
{
    path == ":memory:" || path.as_bytes().starts_with(b"file:")
}
