//! A copy in memory of a book: of its file and its log, which are opened for reading alone.

ghost use Rattle.std.specs.Prelude.{◌≡◌, IfErr, IfOk};
ghost use Rattle.lot_files.specs.Copy.{IsCopied, IsUncopied};
ghost use Rattle.lot_files.specs.Image.{HoldNothing, copy_of, held_by};
ghost use Rattle.lot_files.specs.Opened.{IsOverMemory, IsReady};
ghost use Rattle.lot_files.specs.Opening.{OpensCopied, OpensCopyAt, OpensCopyOf, OpensImages};
ghost use Rattle.lot_files.specs.Opening.{OpensNothing};
ghost use Rattle.lot_files.specs.Shown.{IsOriginal, ShowsNothing};
ghost use Rattle.lot_files.specs.declared.opened.Database.{Database as DatabaseOf};

use crate::cause::Cause;
use crate::file_system::FileSystem;
use crate::files::{ensure_names_file, is_missing};
use crate::image::Image;
use crate::located::{Located, locate};
use crate::medium::Medium;
use crate::opened::Database;
use crate::source::{BookFiles, Source};
use sqlite::{Connection, Files, Options};
use std::alloc::Global;
use std::io::{self, ErrorKind};

/// How often files that change meanwhile are read.
const TRIES: usize = 100;

/// What the marks in the log of a copy begin with, which nobody reads.
const SEED: u64 = 0;

/// How many pages of an empty database are kept in memory. At most the tables of a new book are
/// written to it.
const FEW: usize = 16;

/// Opens a copy of the database in the file of that path. A file that isn't there is copied as an
/// empty one. Nothing is written but the copy, which is in memory.
pub(crate) fn open_copy<'a, F: FileSystem>(
    fs: &F,
    alloc: Global,
    path: &str,
) -> Result<Database<'a>, Cause>
    ensures ready { IfOk result (λ database. IsReady database.conn) }
    ensures over { IfOk result (λ database. IsOverMemory database.conn) }
    ensures opens { OpensCopyAt (λ (database : DatabaseOf). database.conn) F.FileSystem
        fs.now path.now result }
{
    match original(fs, alloc, path)? {
        Some(located) => open_copy_of(fs, alloc, &located),
        None => open_nothing(alloc),
    }
}

/// Opens a copy of the database in these files.
fn open_copy_of<'a, F: FileSystem>(
    fs: &F,
    alloc: Global,
    located: &Located,
) -> Result<Database<'a>, Cause>
    ensures ready { IfOk result (λ database. IsReady database.conn) }
    ensures over { IfOk result (λ database. IsOverMemory database.conn) }
    ensures opens { OpensCopyOf (λ (database : DatabaseOf). database.conn) F.FileSystem
        fs.now located.now result }
{
    open_copied(alloc, &mut BookFiles { fs, located })
}

/// Opens a copy of the database whose files are read there.
fn open_copied<'a, S: Source>(alloc: Global, source: &mut S) -> Result<Database<'a>, Cause>
    ensures ready { IfOk result (λ database. IsReady database.conn) }
    ensures over { IfOk result (λ database. IsOverMemory database.conn) }
    ensures opens { OpensCopied (λ (database : DatabaseOf). database.conn) S.Source
        source.old result source.new }
{
    let files = copied(alloc, source)?;
    open_images(alloc, files, Options::new(SEED))
}

/// Returns the files that a copy is made of: those of the book to which the path leads, and none
/// where nothing is there.
fn original<F: FileSystem>(fs: &F, alloc: Global, path: &str) -> Result<Option<Located>, Cause>
    ensures { IsOriginal F.FileSystem fs.now path.now result }
{
    if has_nothing(fs, path) {
        return match ensure_names_file(path) {
            Ok(()) => Ok(None),
            Err(cause) => Err(cause),
        };
    }
    match locate(fs, alloc, path) {
        Ok(located) => Ok(Some(located)),
        Err(cause) => Err(cause),
    }
}

/// Returns whether nothing is at that path, not even a link, in a folder that is there.
fn has_nothing<F: FileSystem>(fs: &F, path: &str) -> bool
    ensures { ShowsNothing F.FileSystem fs.now path.now result }
{
    if !is_missing(fs, path) {
        return false;
    }
    fs.symlink_metadata(path).is_err()
}

/// Opens an empty database in memory.
pub fn open_nothing<'a>(alloc: Global) -> Result<Database<'a>, Cause>
    ensures ready { IfOk result (λ database. IsReady database.conn) }
    ensures over { IfOk result (λ database. IsOverMemory database.conn) }
    ensures opens { OpensNothing (λ (database : DatabaseOf). database.conn) result }
{
    let options = Options {
        cache_pages: FEW,
        spill_pages: FEW,
        ..Options::new(SEED)
    };
    open_images(alloc, no_bytes(alloc), options)
}

/// Returns two files in memory that hold nothing.
fn no_bytes(alloc: Global) -> Files<Image>
    ensures { HoldNothing result }
{
    Files {
        log: Image::new(Vec::new(alloc)),
        db: Image::new(Vec::new(alloc)),
    }
}

/// Opens the database in files in memory.
fn open_images<'a>(
    alloc: Global,
    files: Files<Image>,
    options: Options,
) -> Result<Database<'a>, Cause>
    ensures ready { IfOk result (λ database. IsReady database.conn) }
    ensures opens { OpensImages (λ (database : DatabaseOf). database.conn) files result }
{
    let files = Files {
        log: Medium::Memory(files.log),
        db: Medium::Memory(files.db),
    };
    match Connection::open_files(alloc, files, options) {
        Ok(conn) => Ok(Database { conn }),
        Err((error, _left)) => Err(Cause::of_copy(error)),
    }
}

/// Reads the files of a book into memory, as they were at one moment. The error is that they changed meanwhile each
/// time, or why they can't be read.
fn copied<S: Source>(alloc: Global, source: &mut S) -> Result<Files<Image>, Cause>
    ensures copy { IfOk result (λ files. IsCopied S.Source source.old files source.new) }
    ensures cause { IfErr result (λ cause. IsUncopied S.Source 100 source.old cause source.new) }
{
    for _try in 0..TRIES {
        let before = source.stamp()?;
        let db = image_of(alloc, source.read_book())?;
        let log = image_of(alloc, source.read_log())?;
        if before.is_same(&source.stamp()?) {
            return Ok(Files { log, db });
        }
    }
    Err(Cause::InUse)
}

/// Returns a file in memory of what was read of a file; one that isn't there is empty.
fn image_of(alloc: Global, read: io::Result<Vec<u8>>) -> Result<Image, Cause>
    ensures { held_by result ≡ copy_of read }
{
    match read {
        Ok(bytes) => Ok(Image::new(bytes)),
        Err(error) if error.kind() == ErrorKind::NotFound => Ok(Image::new(Vec::new(alloc))),
        Err(error) => Err(error.into()),
    }
}
