//! A stop, and what is found when the files are opened again.

ghost use Rattle.std.specs.Prelude.{IfOk, List};
ghost use Rattle.lot_book.specs.Facts.{Entry};
ghost use Rattle.lot_cli.specs.Sessions.{Sent, SessionLeaves};
ghost use Rattle.lot_cli.specs.Reopen.{LeavesOneOf, StandsForOneOf};
ghost use Rattle.sqlite.specs.Files.{file_state};
ghost use Rattle.sqlite.specs.State.{HasCleanDisk};

use sqlite::{Connection, Error, FileStore, Leftover, Options};
use sqlite_disk::Crash;
use std::alloc::Global;

/// Stops a connection as a machine that stops does, and opens its two files again.
///
/// Let all that a crash may leave of the connection be books that a stop of a session leaves. Then the new connection, on a
/// clean disk, shows one of these books. A disk is clean where it returned what was written. It may lose what wasn't synced.
///
/// The error is that of opening the files: no memory, or a disk that fails.
pub fn stop_and_open<D: Crash + Drop>(
    alloc: Global,
    conn: Connection<FileStore<D>>,
    options: Options,
) -> Result<Connection<FileStore<D>>, (Error, Leftover<D>)>
    ensures found { IfOk result (λ again. HasCleanDisk (file_state again)
        → (before : List Entry) (sent : Sent)
        → LeavesOneOf (SessionLeaves before sent) (file_state conn).may_leave
        → StandsForOneOf (SessionLeaves before sent) (file_state again)) }
{
    let mut files = conn.into_store().close();
    files.log.crash();
    files.db.crash();
    Connection::open_files(alloc, files, options)
}
