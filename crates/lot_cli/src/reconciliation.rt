//! What differs between a statement and the book that is there.
ghost use Rattle.std.specs.Prelude.{◌≡◌, [], Bool, List, None, false};
ghost use Rattle.lot_activity.specs.Scope.{asked_in};
ghost use Rattle.lot_cli.specs.Reconcile.{Reconciles, differences_writing, legs_asked, status_of_agreement, terms_asked};
ghost use Rattle.lot_cli.specs.Reports.{Reports, ShowsBook};
ghost use Rattle.lot_cli.specs.Says.{told};
ghost use Rattle.lot_input.specs.Input.{reading_between};
ghost use Rattle.lot_io.specs.Reads.{reads_between};
ghost use Rattle.lot_io.specs.Writes.{writes_between};
ghost use Rattle.lot_reconcile.specs.Table.{IsTable, Terms};
ghost use Rattle.lot_statement.specs.Line.{Line};
ghost use Rattle.lot_statement.specs.Statement.{HasSaid};
ghost use Rattle.lot_store.specs.declared.book.Condition.TheVariants.{Ready};
ghost use Rattle.lot_stream.specs.Status.{IsStatus};
ghost use Rattle.sqlite.specs.Held.{state};
ghost use Rattle.sqlite.specs.State.{HasCleanDisk};

use crate::action::Served;
use crate::halt::Halt;
use crate::report::{conclude, form_of};
use crate::run::halted;
use lot_activity::Scope;
use lot_args::Reconcile;
use lot_book_report::ShowFault;
use lot_input::given_statement;
use lot_io::{CountedRead, CountedWrite};
use lot_reconcile::Reconciliation;
use lot_report::RowFault;
use lot_statement::Statement;
use lot_store::{Book, HandedBack, adopt};
use lot_stream::Status;
use lot_sums::show_reconciliation;
use sqlite::{Alter, Connection};
use std::alloc::Global;

/// Writes what differs between a statement and the book that is there. All that the reader has is read before the book is taken up.
pub(crate) fn reconcile<R: CountedRead, W: CountedWrite, S: Alter>(
    alloc: Global,
    asked: &Reconcile,
    reader: &mut R,
    writer: &mut W,
    conn: Connection<S>,
) -> Served<S>
    requires outside { conn.in_transaction ≡ false }
    requires unlimited { conn.step_limit ≡ None }
    ensures reconciles { Reconciles asked.now (reading_between (R.remaining reader.old)
        (R.remaining reader.new) (reads_between (R.calls reader.old) (R.calls reader.new)))
        (state S.Store conn) (state S.Store result.conn)
        (W.contents writer.old) (W.contents writer.new)
        (writes_between (W.calls writer.old) (W.calls writer.new))
        (told result.status result.halt) }
    ensures outside { HasCleanDisk (state S.Store result.conn)
        → result.conn.in_transaction ≡ false }
    ensures status { IsStatus result.status }
{
    match given_statement(alloc, reader) {
        Ok(said) => reconcile_with(alloc, asked, said, writer, conn),
        Err(fault) => halted(writer, Halt::Input(fault), conn),
    }
}

/// Writes what differs between what is said and the book that is there.
fn reconcile_with<W: CountedWrite, S: Alter>(
    alloc: Global,
    asked: &Reconcile,
    said: Statement,
    writer: &mut W,
    conn: Connection<S>,
) -> Served<S>
    requires outside { conn.in_transaction ≡ false }
    requires unlimited { conn.step_limit ≡ None }
    requires said { (lines : List Line) × HasSaid lines said }
    ensures reports { (lines : List Line) → HasSaid lines said → (agrees : Bool)
        × Reports (differences_writing (terms_asked lines asked.now) agrees)
        (state S.Store conn) (state S.Store result.conn)
        (W.contents writer.old) (W.contents writer.new)
        (writes_between (W.calls writer.old) (W.calls writer.new))
        (told result.status result.halt) }
    ensures outside { HasCleanDisk (state S.Store result.conn)
        → result.conn.in_transaction ≡ false }
    ensures status { IsStatus result.status }
{
    match adopt(alloc, conn) {
        Ok(book) => reconcile_book(alloc, asked, said, writer, book),
        Err(HandedBack { fault, conn }) => halted(writer, Halt::Adopt(fault), conn),
    }
}

/// Writes what differs between what is said and a book that can be used.
fn reconcile_book<W: CountedWrite, S: Alter>(
    alloc: Global,
    asked: &Reconcile,
    said: Statement,
    writer: &mut W,
    book: Book<S>,
) -> Served<S>
    requires ready { book.condition ≡ Ready }
    requires said { (lines : List Line) × HasSaid lines said }
    ensures shows { (lines : List Line) → HasSaid lines said → (agrees : Bool)
        × ShowsBook (differences_writing (terms_asked lines asked.now) agrees)
        (state S.Store book.conn) (state S.Store result.conn)
        (W.contents writer.old) (W.contents writer.new)
        (writes_between (W.calls writer.old) (W.calls writer.new)) result.status }
    ensures goes_on { result.halt ≡ None }
    ensures outside { HasCleanDisk (state S.Store result.conn)
        → result.conn.in_transaction ≡ false }
    ensures status { IsStatus result.status }
{
    let mut book = book;
    let status = write_differences(alloc, asked, said, writer, &mut book);
    Served {
        status,
        halt: None,
        conn: book.into_connection(),
    }
}

/// Writes the same, and returns the status of the program.
fn write_differences<W: CountedWrite, S: Alter>(
    alloc: Global,
    asked: &Reconcile,
    said: Statement,
    writer: &mut W,
    book: &mut Book<S>,
) -> u8
    requires ready { book.old.condition ≡ Ready }
    requires said { (lines : List Line) × HasSaid lines said }
    ensures shows { (lines : List Line) → HasSaid lines said → (agrees : Bool)
        × ShowsBook (differences_writing (terms_asked lines asked.now) agrees)
        (state S.Store book.old.conn) (state S.Store book.new.conn)
        (W.contents writer.old) (W.contents writer.new)
        (writes_between (W.calls writer.old) (W.calls writer.new)) result }
    ensures status { IsStatus result }
{
    let scope = scope_of(asked);
    match Reconciliation::new(alloc, said, &scope, form_of(asked.format)) {
        Ok(table) => write_table(table, writer, book),
        Err(fault) => {
            let stopped = Err(ShowFault::Row(RowFault::Report(fault)));
            conclude(writer, stopped, Status::Accepted)
        }
    }
}

/// Writes what differs by a table that has taken no leg, and returns the status of the program.
fn write_table<W: CountedWrite, S: Alter>(
    mut table: Reconciliation<'_>,
    writer: &mut W,
    book: &mut Book<S>,
) -> u8
    requires ready { book.old.condition ≡ Ready }
    requires fresh { (terms : Terms) × IsTable terms [] table }
    ensures shows { (terms : Terms) → IsTable terms [] table.entry → (agrees : Bool)
        × ShowsBook (differences_writing terms agrees)
        (state S.Store book.old.conn) (state S.Store book.new.conn)
        (W.contents writer.old) (W.contents writer.new)
        (writes_between (W.calls writer.old) (W.calls writer.new)) result }
    ensures status { IsStatus result }
{
    let shown = show_reconciliation(book, &mut table, writer);
    conclude(writer, shown, status_of_agreement(table.agrees()))
}

/// Returns which legs are counted.
fn scope_of(asked: &Reconcile) -> Scope<'_>
    ensures { asked_in result ≡ legs_asked asked.now }
{
    Scope {
        account: Some(asked.account.as_str()),
        first: None,
        last: asked.day,
    }
}

/// Returns how a call ends where it is known whether nothing differs.
fn status_of_agreement(agrees: bool) -> Status
    ensures { result ≡ status_of_agreement agrees }
{
    if agrees {
        Status::Accepted
    } else {
        Status::Refused
    }
}
