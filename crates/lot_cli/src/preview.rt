//! What is told of the book that a dry run would leave, behind its answer.
ghost use Rattle.std.specs.Prelude.{◌≡◌, ◌⊎◌, IfErr, IfOk, IsTrue, None, false, nat_lt};
ghost use Rattle.lot_args.specs.declared.action.Format.TheVariants.{Text};
ghost use Rattle.lot_args.specs.declared.action.Report.TheVariants.{Holdings};
ghost use Rattle.lot_cli.specs.Check.{status_behind};
ghost use Rattle.lot_cli.specs.Preview.{Counts, ServesWithGains, ServesWithPreview, TellsGains, TellsReport, outcome};
ghost use Rattle.lot_cli.specs.Reports.{written_for};
ghost use Rattle.lot_cli.specs.Says.{told};
ghost use Rattle.lot_cli.specs.Serve.{EndsWith, ReadsNothing};
ghost use Rattle.lot_input.specs.Input.{reading_between};
ghost use Rattle.lot_io.specs.Reads.{reads_between};
ghost use Rattle.lot_stream.specs.Status.{IsStatus};
ghost use Rattle.sqlite.specs.Held.{state};
ghost use Rattle.sqlite.specs.State.{HasCleanDisk};

use crate::action::{Served, serve};
use crate::crumbs::status_behind;
use crate::halt::Halt;
use crate::report::{stopped, write_report};
use crate::run::halted;
use lot_args::{Action, Format, Preview, Report};
use lot_atomic::Look;
use lot_book_report::ShowFault;
use lot_completion::Watch;
use lot_export::Aside;
use lot_io::{CountedRead, CountedWrite};
use lot_migrate::Progress;
use lot_rows::entry;
use lot_store::{AdoptFault, StoreFault};
use lot_stream::REFUSED;
use sqlite::{Alter, Connection};
use std::alloc::Global;

/// Does what an action asks for, as `serve` does, and tells behind its answer of the book that it leaves: what the sales gained that
/// it added, and what the book holds, in the form of the reports.
///
/// These sales are those of the entries behind as many as there were before. Where the action met a fault, nothing is told. The
/// status is that of the action, unless a report meets a fault. Nothing follows such a report.
pub fn serve_with_preview<
    R: CountedRead,
    W: CountedWrite,
    P: Progress + Watch + Look + Aside,
    S: Alter,
>(
    alloc: Global,
    action: &Action,
    preview: Preview,
    reader: &mut R,
    writer: &mut W,
    progress: &mut P,
    conn: Connection<S>,
) -> Served<S>
    requires outside { conn.in_transaction ≡ false }
    requires unlimited { conn.step_limit ≡ None }
    ensures serves { ServesWithPreview (state S.Store) action.now
        (reading_between (R.remaining reader.old) (R.remaining reader.new)
        (reads_between (R.calls reader.old) (R.calls reader.new)))
        preview conn (W.contents writer.old) (W.calls writer.old)
        (outcome result.conn (W.contents writer.new) (W.calls writer.new)
        (told result.status result.halt)) }
    ensures outside { HasCleanDisk (state S.Store result.conn)
        → result.conn.in_transaction ≡ false }
    ensures status { EndsWith action.now result.status }
    ensures unread { ReadsNothing action.now → reader.new ≡ reader.old }
{
    match preview {
        Preview::Nothing => serve(alloc, action, reader, writer, progress, conn),
        Preview::Gains => serve_with_gains(alloc, action, reader, writer, progress, conn),
        Preview::Holdings => {
            let served = serve(alloc, action, reader, writer, progress, conn);
            tell_holdings(alloc, writer, served)
        }
        Preview::GainsAndHoldings => {
            let served = serve_with_gains(alloc, action, reader, writer, progress, conn);
            tell_holdings(alloc, writer, served)
        }
    }
}

/// Does what an action asks for, and tells behind its answer what the sales gained that it added.
fn serve_with_gains<R: CountedRead, W: CountedWrite, P: Progress + Watch + Look + Aside, S: Alter>(
    alloc: Global,
    action: &Action,
    reader: &mut R,
    writer: &mut W,
    progress: &mut P,
    conn: Connection<S>,
) -> Served<S>
    requires outside { conn.in_transaction ≡ false }
    requires unlimited { conn.step_limit ≡ None }
    ensures serves { ServesWithGains (state S.Store) action.now
        (reading_between (R.remaining reader.old) (R.remaining reader.new)
        (reads_between (R.calls reader.old) (R.calls reader.new)))
        conn (W.contents writer.old) (W.calls writer.old)
        (outcome result.conn (W.contents writer.new) (W.calls writer.new)
        (told result.status result.halt)) }
    ensures outside { HasCleanDisk (state S.Store result.conn)
        → result.conn.in_transaction ≡ false }
    ensures status { EndsWith action.now result.status }
    ensures unread { ReadsNothing action.now → reader.new ≡ reader.old }
{
    let mut conn = conn;
    let before = count_entries(alloc, &mut conn);
    match make_ready(conn) {
        Ok(conn) => {
            let served = serve(alloc, action, reader, writer, progress, conn);
            tell_gains(alloc, before, writer, served)
        }
        Err(conn) => halted(writer, Halt::Adopt(AdoptFault::Device), conn),
    }
}

/// Returns how many entries the book has that a connection shows. It changes nothing.
///
/// The error is `Damaged` only where the tables stand for no book.
fn count_entries<S: Alter>(alloc: Global, conn: &mut Connection<S>) -> Result<u32, StoreFault>
    requires { conn.old.step_limit ≡ None }
    ensures { Counts (state S.Store conn.old) (state S.Store conn.new) result }
{
    match entry::greatest(alloc, conn) {
        Ok(Some(last)) => Ok(last.number()),
        Ok(None) => Ok(0),
        Err(fault) => Err(StoreFault::from(fault)),
    }
}

/// Returns a connection as an action wants it: outside a transaction, and with no limit on the steps of its statements. The error is
/// the connection where it is in a transaction.
fn make_ready<S: Alter>(conn: Connection<S>) -> Result<Connection<S>, Connection<S>>
    ensures outside { IfOk result (λ ready. ready.in_transaction ≡ false) }
    ensures unlimited { IfOk result (λ ready. ready.step_limit ≡ None) }
    ensures same { IfOk result (λ ready. ready ≡ record conn { step_limit = None }) }
    ensures inside { IfErr result (λ left. (left ≡ conn) × IsTrue left.in_transaction) }
{
    if !conn.is_autocommit() {
        return Err(conn);
    }
    let mut conn = conn;
    conn.set_step_limit(None);
    Ok(conn)
}

/// Tells behind an answer what the sales gained of the entries behind that many, or why these weren't counted.
fn tell_gains<W: CountedWrite, S: Alter>(
    alloc: Global,
    before: Result<u32, StoreFault>,
    writer: &mut W,
    answered: Served<S>,
) -> Served<S>
    requires outside { HasCleanDisk (state S.Store answered.conn)
        → answered.conn.in_transaction ≡ false }
    ensures tells { TellsGains (state S.Store) before
        (outcome answered.conn (W.contents writer.old) (W.calls writer.old)
        (told answered.status answered.halt))
        (outcome result.conn (W.contents writer.new) (W.calls writer.new)
        (told result.status result.halt)) }
    ensures outside { HasCleanDisk (state S.Store result.conn)
        → result.conn.in_transaction ≡ false }
    ensures status { (result.status ≡ answered.status) ⊎ IsStatus result.status }
{
    match before {
        Ok(behind) => {
            let report = Report::AddedGains { behind };
            tell_report(alloc, &report, writer, answered)
        }
        Err(fault) => {
            if met_fault(answered.status) {
                return answered;
            }
            let Served {
                status: _,
                halt: _,
                conn,
            } = answered;
            Served {
                status: stopped(writer, ShowFault::from(fault)),
                halt: None,
                conn,
            }
        }
    }
}

/// Tells behind an answer what the book holds.
fn tell_holdings<W: CountedWrite, S: Alter>(
    alloc: Global,
    writer: &mut W,
    answered: Served<S>,
) -> Served<S>
    requires outside { HasCleanDisk (state S.Store answered.conn)
        → answered.conn.in_transaction ≡ false }
    ensures tells { TellsReport (state S.Store) (written_for (Holdings None Text))
        (outcome answered.conn (W.contents writer.old) (W.calls writer.old)
        (told answered.status answered.halt))
        (outcome result.conn (W.contents writer.new) (W.calls writer.new)
        (told result.status result.halt)) }
    ensures outside { HasCleanDisk (state S.Store result.conn)
        → result.conn.in_transaction ≡ false }
    ensures status { (result.status ≡ answered.status) ⊎ IsStatus result.status }
{
    let report = Report::Holdings {
        day: None,
        format: Format::Text,
    };
    tell_report(alloc, &report, writer, answered)
}

/// Writes a report behind an answer, unless that met a fault. Returns the outcome of both.
fn tell_report<W: CountedWrite, S: Alter>(
    alloc: Global,
    report: &Report,
    writer: &mut W,
    answered: Served<S>,
) -> Served<S>
    requires outside { HasCleanDisk (state S.Store answered.conn)
        → answered.conn.in_transaction ≡ false }
    ensures tells { TellsReport (state S.Store) (written_for report.now)
        (outcome answered.conn (W.contents writer.old) (W.calls writer.old)
        (told answered.status answered.halt))
        (outcome result.conn (W.contents writer.new) (W.calls writer.new)
        (told result.status result.halt)) }
    ensures outside { HasCleanDisk (state S.Store result.conn)
        → result.conn.in_transaction ≡ false }
    ensures status { (result.status ≡ answered.status) ⊎ IsStatus result.status }
{
    if met_fault(answered.status) {
        return answered;
    }
    let Served {
        status: posted,
        halt: _,
        conn,
    } = answered;
    match make_ready(conn) {
        Ok(conn) => {
            let Served { status, halt, conn } = write_report(alloc, report, writer, conn);
            Served {
                status: status_behind(posted, status),
                halt,
                conn,
            }
        }
        Err(conn) => halted(writer, Halt::Adopt(AdoptFault::Device), conn),
    }
}

/// Returns whether an action met a fault that ended with that status.
fn met_fault(status: u8) -> bool
    ensures { result ≡ nat_lt 1 status }
{
    status > REFUSED
}
