//! A database that is opened: that of a file, or a copy of it.

ghost use Rattle.std.specs.Prelude.{◌≡◌, IfOk};
ghost use Rattle.lot_files.specs.Opened.{IsOpenedFor, IsReady, IsSo};
ghost use Rattle.lot_files.specs.Opener.{OpensCopy, OpensFor, OpensFull, OpensToRead};
ghost use Rattle.lot_files.specs.Opener.{is_for_copy};
ghost use Rattle.lot_files.specs.Opening.{IsCopyAt, IsInFile, opener_over};
ghost use Rattle.lot_files.specs.System.{system_gives, system_makes};
ghost use Rattle.lot_files.specs.declared.opened.Database.{Database as DatabaseOf};

use crate::cause::Cause;
use crate::copy::open_copy;
use crate::file_maker::FileMaker;
use crate::file_opener::FileOpener;
use crate::file_system::FileSystem;
use crate::files::{is_empty, open};
use crate::image::Image;
use crate::medium::Medium;
use crate::noted::{Failure, Noted};
use crate::opener::Opener;
use sqlite::{Connection, File, FileStore};
use std::alloc::Global;

/// A file of a book: of the system, or of a copy in memory.
pub type BookFile<'a> = Medium<Noted<'a, File>, Image>;

/// What a book is opened for.
#[derive(Clone, Copy)]
pub enum Access {
    /// To be written.
    Write,
    /// To be read: its file; or a copy where that is empty, or can't be opened for writing.
    Read,
    /// To be tried on: a copy, of which nothing stays.
    Copy,
}

/// A database that is opened.
#[derive(Drop)]
pub enum Opened<D> {
    /// That of a file. What is committed stays there.
    File(D),
    /// A copy, of which nothing stays.
    Copy(D),
}

/// The database of a book: over a file of the system and its log, or over two in memory.
#[derive(Drop)]
pub struct Database<'a> {
    pub conn: Connection<FileStore<BookFile<'a>>>,
}

/// A system as what opens the databases of books, whose files keep there why a call of them failed.
struct SystemOpener<'a, 'b, S> {
    system: &'b S,
    alloc: Global,
    failure: &'a Failure,
}

impl<S> Drop for SystemOpener<'_, '_, S> {
    /// It is written out, so that a system need not be one that can be dropped.
    fn drop(self) {
        let SystemOpener {
            system: _,
            alloc: _,
            failure: _,
        } = self;
    }
}

impl<'a, S: FileMaker + FileOpener<File = File>> Opener for SystemOpener<'a, '_, S> {
    ghost use Rattle.lot_files.specs.Opening.{IsCopyAt, IsInFile, OpensAt, OpensCopyAt};
    ghost use Rattle.lot_files.specs.Opened.{IsReady};
    ghost use Rattle.lot_files.specs.Shown.{ShowsEmpty};
    ghost use Rattle.lot_files.specs.declared.opened.Database.{Database as DatabaseOf};

    type Database = Database<'a>;

    ghost opens = { λ opener path result. OpensAt (λ (database : DatabaseOf). database.conn)
        S.FileSystem S.FileMaker.opens S.FileOpener opener.system.now path result };

    ghost copies = { λ opener path result. OpensCopyAt (λ (database : DatabaseOf). database.conn)
        S.FileSystem opener.system.now path result };

    ghost shows_empty = { λ opener path empty.
        ShowsEmpty S.FileSystem opener.system.now path empty };

    ghost is_in = { IsInFile (λ (database : DatabaseOf). database.conn)
        S.FileSystem S.FileMaker.opens S.FileOpener };

    ghost is_copy = { IsCopyAt (λ (database : DatabaseOf). database.conn) S.FileSystem };

    ghost is_ready = { λ database. IsReady database.conn };

    fn open(&mut self, path: &str) -> Result<Self::Database, Cause> {
        open(self.system, self.alloc, path, self.failure)
    }

    fn copy(&self, path: &str) -> Result<Self::Database, Cause> {
        open_copy(self.system, self.alloc, path)
    }

    fn has_empty(&self, path: &str) -> bool {
        is_empty(self.system, path)
    }
}

/// Opens the book in the file of that path, which keeps there why a call of it failed.
pub fn open_book<'a>(
    rt: &HostRuntime,
    path: &str,
    access: Access,
    failure: &'a Failure,
) -> Result<Opened<Database<'a>>, Cause>
    ensures opens { OpensFor (opener_over (λ (database : DatabaseOf). database.conn)
        ⟦<HostRuntime as FileSystem>⟧ system_makes system_gives) rt.now access path.now result }
    ensures opened { IfOk result (IsOpenedFor
        (IsInFile (λ (database : DatabaseOf). database.conn) ⟦<HostRuntime as FileSystem>⟧
        system_makes system_gives)
        (IsCopyAt (λ (database : DatabaseOf). database.conn) ⟦<HostRuntime as FileSystem>⟧)
        access path.now) }
    ensures ready { IfOk result (IsSo (λ database. IsReady database.conn)) }
{
    open_of(rt, rt.alloc(), path, access, failure)
}

/// Opens the book in the file of that path of a system.
fn open_of<'a, S: FileMaker + FileOpener<File = File>>(
    system: &S,
    alloc: Global,
    path: &str,
    access: Access,
    failure: &'a Failure,
) -> Result<Opened<Database<'a>>, Cause>
    ensures opens { OpensFor (opener_over (λ (database : DatabaseOf). database.conn) S.FileSystem
        S.FileMaker.opens S.FileOpener) system.now access path.now result }
    ensures opened { IfOk result (IsOpenedFor
        (IsInFile (λ (database : DatabaseOf). database.conn)
        S.FileSystem S.FileMaker.opens S.FileOpener)
        (IsCopyAt (λ (database : DatabaseOf). database.conn) S.FileSystem)
        access path.now) }
    ensures ready { IfOk result (IsSo (λ database. IsReady database.conn)) }
{
    let mut opener = SystemOpener {
        system,
        alloc,
        failure,
    };
    open_for(&mut opener, path, access)
}

/// Opens it by what it is opened for. To be tried on no file is opened, but a copy.
fn open_for<O: Opener>(
    opener: &mut O,
    path: &str,
    access: Access,
) -> Result<Opened<O::Database>, Cause>
    ensures opens { OpensFor O.Opener opener.old access path.now result }
    ensures opened { IfOk result (IsOpenedFor O.is_in O.is_copy access path.now) }
    ensures ready { IfOk result (IsSo O.is_ready) }
    ensures looked { access ≡ Access.Copy → opener.new ≡ opener.old }
{
    match access {
        Access::Write => Ok(Opened::File(opener.open(path)?)),
        Access::Copy => copy_of(opener, path),
        Access::Read => open_to_read(opener, path),
    }
}

/// Opens a copy of it, to be tried on or read.
fn copy_of<O: Opener>(opener: &O, path: &str) -> Result<Opened<O::Database>, Cause>
    ensures opens { OpensCopy O.Opener opener.now path.now result }
    ensures tried { IfOk result (IsOpenedFor O.is_in O.is_copy Access.Copy path.now) }
    ensures read { IfOk result (IsOpenedFor O.is_in O.is_copy Access.Read path.now) }
    ensures ready { IfOk result (IsSo O.is_ready) }
{
    Ok(Opened::Copy(opener.copy(path)?))
}

/// Opens it to be read.
fn open_to_read<O: Opener>(opener: &mut O, path: &str) -> Result<Opened<O::Database>, Cause>
    ensures opens { OpensToRead O.Opener opener.old path.now result }
    ensures opened { IfOk result (IsOpenedFor O.is_in O.is_copy Access.Read path.now) }
    ensures ready { IfOk result (IsSo O.is_ready) }
{
    if opener.has_empty(path) {
        return copy_of(opener, path);
    }
    full_of(opener, path)
}

/// Opens one that isn't empty to be read: its file, or a copy where that can't be opened to be
/// written.
fn full_of<O: Opener>(opener: &mut O, path: &str) -> Result<Opened<O::Database>, Cause>
    ensures opens { OpensFull O.Opener opener.old path.now result }
    ensures opened { IfOk result (IsOpenedFor O.is_in O.is_copy Access.Read path.now) }
    ensures ready { IfOk result (IsSo O.is_ready) }
{
    match opener.open(path) {
        Ok(file) => Ok(Opened::File(file)),
        Err(cause) if is_for_copy(cause) => copy_of(opener, path),
        Err(cause) => Err(cause),
    }
}

/// Returns whether a book that can't be opened for that cause can be copied.
fn is_for_copy(cause: Cause) -> bool
    ensures { result ≡ is_for_copy cause }
{
    matches!(cause, Cause::NoPermission | Cause::ReadOnly | Cause::InUse)
}
