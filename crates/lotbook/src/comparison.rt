//! The old book beside which a new one is made of a dump, and how they differ.

ghost use Rattle.std.specs.Prelude.{◌≡◌, ◌≤◌, IfErr, IfOk, None, false};
ghost use Rattle.std.specs.Io.Buffered.{writer_contents};
ghost use Rattle.sqlite.specs.Files.{over_files};
ghost use Rattle.sqlite.specs.Held.{state};
ghost use Rattle.lot_call.specs.Looks.{IsLookedAt};
ghost use Rattle.lot_host.specs.Answers.{stopped};
ghost use Rattle.lot_stream.specs.Status.{code_of};
ghost use Rattle.lotbook.specs.Compared.{IsCompared, IsNoneTold, IsOnlyRead, IsReadBeside};
ghost use Rattle.lotbook.specs.Compared.{IsRefused, IsReported, MayBeRead};
ghost use Rattle.lotbook.specs.Compared.{IsTakenUp, IsToldBeside, Reports, ShowsNone, TellsBeside, WritesBeside};
ghost use Rattle.lotbook.specs.Compared.{unlimited};
ghost use Rattle.lotbook.specs.Statuses.{IsStatusBeside};

use crate::answer::advise;
use crate::system::buffered;
use lot_call::{Call, Fate, say_unwritten, status_behind};
use lot_cli::{AdoptFault, CountedWriter, Halt, Status, say_halt, tell_differences};
use lot_files::{Database, is_missing};
use lot_host::old_of;
use lot_output::{Ended, Output, Witness};
use lot_store::{Book, HandedBack, adopt};
use lot_stream::DONE;
use sqlite::{Alter, Connection};
use std::io::Write;

/// Takes up the book in a database, that of the path, to be read. Where that can't be done a line on standard output says so, and
/// one on standard error why; the error is the status of the program, with the connection.
pub fn take_up<S: Alter>(
    call: &Call<'_>,
    path: &str,
    conn: Connection<S>,
) -> Result<Connection<S>, (u8, Connection<S>)>
    ensures taken { IfOk result (IsTakenUp S.Store (unlimited conn)) }
    ensures refused { IfErr result (λ left. IsRefused S.Store conn left.0) }
    ensures looked { IfOk result (λ left.
        IsLookedAt (state S.Store (unlimited conn)) (state S.Store left)) }
    ensures handed_back { IfErr result (λ left.
        IsLookedAt (state S.Store (unlimited conn)) (state S.Store left.1)) }
{
    match book_in(call, conn) {
        Ok(book) => Ok(book.into_connection()),
        Err(HandedBack { fault, mut conn }) => {
            let status = refuse(call, path, fault, &mut conn);
            Err((status, conn))
        }
    }
}

/// Returns the book that a connection shows. One that is in a transaction shows none.
fn book_in<S: Alter>(
    call: &Call<'_>,
    conn: Connection<S>,
) -> Result<Book<S>, HandedBack<S, AdoptFault>>
    ensures taken { IfOk result (λ book. IsTakenUp S.Store (unlimited conn) book.conn) }
    ensures none { IfErr result (λ left. ShowsNone S.Store conn left.conn left.fault) }
    ensures looked { IfOk result (λ book.
        IsLookedAt (state S.Store (unlimited conn)) (state S.Store book.conn)) }
    ensures handed_back { IfErr result (λ left.
        IsLookedAt (state S.Store (unlimited conn)) (state S.Store left.conn)) }
{
    let mut conn = conn;
    conn.set_step_limit(None);
    if !conn.is_autocommit() {
        return Err(HandedBack {
            fault: AdoptFault::NotABook,
            conn,
        });
    }
    adopt(call.rt.alloc(), conn)
}

/// Reports why the book of that path isn't taken up, and returns the status.
fn refuse<S: Alter>(call: &Call<'_>, path: &str, fault: AdoptFault, conn: &mut Connection<S>) -> u8
    ensures reported { IsReported fault result }
    ensures stops { result ≡ stopped }
    ensures looked { IsLookedAt (state S.Store conn.old) (state S.Store conn.new) }
{
    let status = say_refusal(call.rt, fault);
    if call.is_quiet() {
        return status;
    }
    if is_missing(call.rt, path) {
        let _ = eprintln!(call.rt; "lotbook: {path}: there is no such file");
    } else {
        advise(call, path, Halt::Adopt(fault), conn);
    }
    status
}

/// Reports on standard output why a book isn't taken up, and returns the status.
fn say_refusal(rt: &HostRuntime, fault: AdoptFault) -> u8
    ensures reported { IsReported fault result }
    ensures stops { result ≡ stopped }
{
    let (status, _left) = write_refusal(buffered(rt), fault);
    status
}

/// Writes to an output why a book isn't taken up. Returns the status, and what is left of the output.
fn write_refusal<W: Write + Drop>(output: Output<'_, W>, fault: AdoptFault) -> (u8, Ended<W>)
    ensures reported { Reports fault (writer_contents W.contents output.entry.buffer)
        (W.contents result.1.writer) result.1.is_whole result.0 }
    ensures stops { result.0 ≡ stopped }
{
    let mut writer = CountedWriter::new(output);
    let status = say_halt(&mut writer, Halt::Adopt(fault));
    (status, writer.into_writer().end())
}

/// Writes how the book that was made of a dump differs from an old one, and nothing where none was made. Returns the
/// status of the program, which was that before, the connection, and the database of the old one.
pub fn show_differences<'a, S: Alter>(
    call: &Call<'_>,
    status: u8,
    conn: Connection<S>,
    old: Database<'a>,
) -> (u8, Connection<S>, Database<'a>)
    requires { status ≤ 1 }
    ensures told { IsCompared S.Store over_files conn old.entry.conn status result.0 }
    ensures ends { IsStatusBeside status result.0 }
    ensures left { IsReadBeside S.Store conn result.1 }
    ensures old_left { MayBeRead over_files old.entry.conn result.2.conn }
{
    match book_in(call, conn) {
        Ok(mut new) => {
            let (status, old) = show_beside(call, status, &mut new, old);
            (status, new.into_connection(), old)
        }
        Err(left) => {
            let (status, conn) = show_none(call, status, left);
            (status, conn, old)
        }
    }
}

/// Reports why there is no new book, unless none was made. Returns the status, and the connection.
fn show_none<S: Alter>(
    call: &Call<'_>,
    status: u8,
    left: HandedBack<S, AdoptFault>,
) -> (u8, Connection<S>)
    requires { status ≤ 1 }
    ensures told { IsNoneTold left.fault status result.0 }
    ensures ends { IsStatusBeside status result.0 }
    ensures looked { IsLookedAt (state S.Store left.conn) (state S.Store result.1) }
{
    let HandedBack { fault, conn } = left;
    match fault {
        AdoptFault::NotABook => (status, conn),
        _ => {
            let mut conn = conn;
            let status = refuse(call, call.path, fault, &mut conn);
            (status, conn)
        }
    }
}

/// Writes how a new book differs from an old one. Returns the status, and the database of the old one.
fn show_beside<'a, S: Alter>(
    call: &Call<'_>,
    status: u8,
    new: &mut Book<S>,
    old: Database<'a>,
) -> (u8, Database<'a>)
    requires { status ≤ 1 }
    ensures told { IsToldBeside S.Store over_files new.old old.entry.conn status result.0 }
    ensures ends { IsStatusBeside status result.0 }
    ensures new_left { IsOnlyRead (state S.Store new.old.conn) (state S.Store new.new.conn) }
    ensures old_left { IsReadBeside over_files old.entry.conn result.1.conn }
{
    let path = old_of(call.action).unwrap_or("");
    match book_in(call, old.conn) {
        Ok(mut old) => {
            let status = write_differences(call, status, new, &mut old);
            let conn = old.into_connection();
            (status, Database { conn })
        }
        Err(HandedBack { fault, mut conn }) => {
            let status = refuse(call, path, fault, &mut conn);
            (status, Database { conn })
        }
    }
}

/// Writes the differences to standard output, and says where that can't be done.
fn write_differences<S: Alter, T: Alter>(
    call: &Call<'_>,
    status: u8,
    new: &mut Book<S>,
    old: &mut Book<T>,
) -> u8
    requires { status ≤ 1 }
    ensures told { TellsBeside S.Store T.Store new.old old.old status result }
    ensures ends { IsStatusBeside status result }
    ensures new_left { IsOnlyRead (state S.Store new.old.conn) (state S.Store new.new.conn) }
    ensures old_left { IsOnlyRead (state T.Store old.old.conn) (state T.Store old.new.conn) }
{
    let (status, _stdout) = write_beside(call, status, new, old, buffered(call.rt));
    status
}

/// Writes the differences to an output, and says where that can't be done. Returns the status, and what the output was written to.
fn write_beside<S: Alter, T: Alter, W: Write + Drop>(
    call: &Call<'_>,
    status: u8,
    new: &mut Book<S>,
    old: &mut Book<T>,
    output: Output<'_, W>,
) -> (u8, W)
    requires { status ≤ 1 }
    ensures told { WritesBeside S.Store T.Store new.old old.old
        (writer_contents W.contents output.entry.buffer) (W.contents result.1) status result.0 }
    ensures ends { IsStatusBeside status result.0 }
    ensures new_left { IsOnlyRead (state S.Store new.old.conn) (state S.Store new.new.conn) }
    ensures old_left { IsOnlyRead (state T.Store old.old.conn) (state T.Store old.new.conn) }
{
    let alloc = call.rt.alloc();
    let mut writer = CountedWriter::new(Witness::new(alloc, output, call.most()));
    let end = tell_differences(alloc, status_of(status), new, old, &mut writer);
    let (output, heard) = writer.into_writer().into_parts();
    let Ended { writer, is_whole } = output.end();
    say_unwritten(call, &heard, Fate::Kept);
    (status_behind(end, is_whole), writer)
}

/// Returns how an action ended that met no fault, by its status.
fn status_of(code: u8) -> Status
    requires { code ≤ 1 }
    ensures { code_of result ≡ code }
{
    if code == DONE {
        Status::Accepted
    } else {
        Status::Refused
    }
}
