//! Reports of the book that is there.
ghost use Rattle.std.specs.Prelude.{◌≡◌, None, Option, false, option_map};
ghost use Rattle.lot_activity.specs.Scope.{asked_in};
ghost use Rattle.lot_noted.specs.Book.{asked_in as legs_in};
ghost use Rattle.lot_page_report.specs.Parts.{page_in};
ghost use Rattle.lot_io.specs.Writes.{WriteCalls, writes_between};
ghost use Rattle.lot_stream.specs.Status.{IsStatus};
ghost use Rattle.lot_stream.specs.declared.status.Status.TheVariants.{Stopped};
ghost use Rattle.lot_cli.specs.Reports.{Concludes, Reports, ShowsReport, ShowsAllRows, ShowsSome, asked_for, form_of, legs_for, page_for, report_line};
ghost use Rattle.lot_cli.specs.Reports.{ShowsAllGainsAs, ShowsAllHoldingsAs, ShowsGainsAs, ShowsHoldingsAs, ShowsSomeGainsAs, ShowsSomeHoldingsAs};
ghost use Rattle.lot_cli.specs.Reports.{ShowsBook, ShowsDigest, ShowsDigestOfTables, ShowsSomeDigest, digest_writing, written_for};
ghost use Rattle.lot_cli.specs.Says.{Says, told};
ghost use Rattle.lot_book_report.specs.Dump.{HoldsOfPlacedBook, digest_of};
ghost use Rattle.lot_book_report.specs.Fault.{HasCause};
ghost use Rattle.lot_book_report.specs.Show.{HoldsOfBook, HoldsOfTables, ReadsBook};
ghost use Rattle.lot_store.specs.Extent.{extent_of};
ghost use Rattle.lot_store.specs.declared.book.Condition.TheVariants.{Ready};
ghost use Rattle.lot_stored.specs.Rows.{entry_rows};
ghost use Rattle.sqlite.specs.Held.{state};
ghost use Rattle.sqlite.specs.State.{HasCleanDisk};

use crate::action::Served;
use crate::halt::Halt;
use crate::run::{halted, tell};
use lot_activity::Scope;
use lot_added_report::show_added_gains;
use lot_args::{Format, Report, Saying};
use lot_base::{Commodity, Day};
use lot_book_report::{
    ShowFault, digest_book, show_dump, show_gains, show_gains_csv, show_holdings,
    show_holdings_csv, show_journal,
};
use lot_io::CountedWrite;
use lot_noted::RegisterScope;
use lot_page_report::{Heading, PageScope, show_page};
use lot_register_report::show_register;
use lot_report::print_texts;
use lot_store::{Book, HandedBack, adopt};
use lot_stream::Status;
use lot_sums::{show_activity, show_gains_by, show_holdings_on};
use lot_tally::TableForm;
use sqlite::{Alter, Connection};
use std::alloc::Global;

/// Writes a report of the book that is there.
pub(crate) fn write_report<W: CountedWrite, S: Alter>(
    alloc: Global,
    report: &Report,
    writer: &mut W,
    conn: Connection<S>,
) -> Served<S>
    requires outside { conn.in_transaction ≡ false }
    requires unlimited { conn.step_limit ≡ None }
    ensures reports { Reports (written_for report.now)
        (state S.Store conn) (state S.Store result.conn)
        (W.contents writer.old) (W.contents writer.new)
        (writes_between (W.calls writer.old) (W.calls writer.new))
        (told result.status result.halt) }
    ensures outside { HasCleanDisk (state S.Store result.conn)
        → result.conn.in_transaction ≡ false }
    ensures status { IsStatus result.status }
{
    match adopt(alloc, conn) {
        Ok(book) => write_report_of(alloc, report, writer, book),
        Err(HandedBack { fault, conn }) => halted(writer, Halt::Adopt(fault), conn),
    }
}

/// Writes a report of a book that can be used.
pub(crate) fn write_report_of<W: CountedWrite, S: Alter>(
    alloc: Global,
    report: &Report,
    writer: &mut W,
    book: Book<S>,
) -> Served<S>
    requires ready { book.condition ≡ Ready }
    ensures shows { ShowsBook (written_for report.now)
        (state S.Store book.conn) (state S.Store result.conn)
        (W.contents writer.old) (W.contents writer.new)
        (writes_between (W.calls writer.old) (W.calls writer.new)) result.status }
    ensures goes_on { result.halt ≡ None }
    ensures outside { HasCleanDisk (state S.Store result.conn)
        → result.conn.in_transaction ≡ false }
    ensures status { IsStatus result.status }
{
    let mut book = book;
    let status = write_whole(alloc, report, &mut book, writer);
    Served {
        status,
        halt: None,
        conn: book.into_connection(),
    }
}

/// Writes a report of a book that can be used, with what stands behind it, and returns the status of the program.
pub(crate) fn write_whole<W: CountedWrite, S: Alter>(
    alloc: Global,
    report: &Report,
    book: &mut Book<S>,
    writer: &mut W,
) -> u8
    requires ready { book.old.condition ≡ Ready }
    ensures shows { ShowsBook (written_for report.now)
        (state S.Store book.old.conn) (state S.Store book.new.conn)
        (W.contents writer.old) (W.contents writer.new)
        (writes_between (W.calls writer.old) (W.calls writer.new)) result }
    ensures status { IsStatus result }
{
    let shown = show(alloc, report, book, writer);
    conclude(writer, shown, Status::Accepted)
}

/// Writes a report of a book, as far as its fault lets it. Nothing is flushed.
fn show<W: CountedWrite, S: Alter>(
    alloc: Global,
    report: &Report,
    book: &mut Book<S>,
    writer: &mut W,
) -> Result<(), ShowFault>
    ensures shows { HoldsOfPlacedBook S.Store book.old book.new (λ place entries.
        ShowsReport report.now place entries (W.contents writer.old) (W.contents writer.new) result) }
    ensures some { ShowsSome report.now (W.contents writer.old) (W.contents writer.new) result }
    ensures rows { HoldsOfTables S.Store book.old book.new
        (λ tables.
        ShowsAllRows report.now tables (W.contents writer.old) (W.contents writer.new) result) }
    ensures reads { ReadsBook S.Store book.old book.new result }
    ensures cause { HasCause result (writes_between (W.calls writer.old) (W.calls writer.new)) }
{
    match report {
        Report::Holdings { day, format } => holdings(alloc, *day, *format, book, writer),
        Report::HoldingsOn { on, day, format } => {
            show_holdings_on(alloc, book, *on, *day, form_of(*format), writer)
        }
        Report::Gains {
            first,
            last,
            format,
        } => gains(alloc, *first, *last, *format, book, writer),
        Report::GainsBy {
            first,
            last,
            by,
            format,
        } => show_gains_by(alloc, book, *first, *last, by, form_of(*format), writer),
        Report::AddedGains { behind } => show_added_gains(alloc, book, *behind, writer),
        Report::Register {
            account,
            commodity,
            first,
            last,
            format,
        } => {
            let scope = legs_of(account, commodity, *last);
            show_register(alloc, book, &scope, *first, form_of(*format), writer)
        }
        Report::Activity {
            account,
            length,
            first,
            last,
            format,
        } => {
            let scope = scope_of(account, *first, *last);
            show_activity(alloc, book, *length, &scope, form_of(*format), writer)
        }
        Report::Journal => show_journal(book, writer),
        Report::Page {
            name,
            first,
            last,
            day,
            saying,
        } => {
            let scope = page_of(name, *first, *last, *day, *saying);
            show_page(alloc, book, &scope, writer)
        }
        Report::Dump => show_dump(book, writer),
    }
}

/// Writes what a book holds, in that format.
fn holdings<W: CountedWrite, S: Alter>(
    alloc: Global,
    day: Option<Day>,
    format: Format,
    book: &mut Book<S>,
    writer: &mut W,
) -> Result<(), ShowFault>
    ensures shows { HoldsOfBook S.Store book.old book.new (λ entries.
        ShowsHoldingsAs format day entries
        (W.contents writer.old) (W.contents writer.new) result) }
    ensures some { ShowsSomeHoldingsAs format day
        (W.contents writer.old) (W.contents writer.new) result }
    ensures rows { HoldsOfTables S.Store book.old book.new (λ tables.
        ShowsAllHoldingsAs format day tables
        (W.contents writer.old) (W.contents writer.new) result) }
    ensures reads { ReadsBook S.Store book.old book.new result }
    ensures cause { HasCause result (writes_between (W.calls writer.old) (W.calls writer.new)) }
{
    match format {
        Format::Text => show_holdings(alloc, book, day, writer),
        Format::Csv => show_holdings_csv(alloc, book, day, writer),
    }
}

/// Writes what the sales of a book gained, in that format.
fn gains<W: CountedWrite, S: Alter>(
    alloc: Global,
    first: Option<Day>,
    last: Option<Day>,
    format: Format,
    book: &mut Book<S>,
    writer: &mut W,
) -> Result<(), ShowFault>
    ensures shows { HoldsOfBook S.Store book.old book.new (λ entries.
        ShowsGainsAs format (first, last) entries
        (W.contents writer.old) (W.contents writer.new) result) }
    ensures some { ShowsSomeGainsAs format
        (W.contents writer.old) (W.contents writer.new) result }
    ensures rows { HoldsOfTables S.Store book.old book.new (λ tables.
        ShowsAllGainsAs format (first, last) tables
        (W.contents writer.old) (W.contents writer.new) result) }
    ensures reads { ReadsBook S.Store book.old book.new result }
    ensures cause { HasCause result (writes_between (W.calls writer.old) (W.calls writer.new)) }
{
    match format {
        Format::Text => show_gains(alloc, book, first, last, writer),
        Format::Csv => show_gains_csv(alloc, book, first, last, writer),
    }
}

/// Returns which legs a register is over.
fn legs_of<'a>(
    account: &'a String,
    commodity: &'a Option<Commodity>,
    last: Option<Day>,
) -> RegisterScope<'a>
    ensures { legs_in result ≡ legs_for account.now commodity.now last }
{
    RegisterScope {
        account: account.as_str(),
        commodity: text_of(commodity),
        last,
    }
}

/// Returns the text of a commodity, where there is one.
fn text_of(commodity: &Option<Commodity>) -> Option<&str>
    ensures { option_map (λ text. text.now) result ≡ commodity.now }
{
    match commodity {
        Some(commodity) => Some(commodity.as_str()),
        None => None,
    }
}

/// Returns what a page is of.
fn page_of<'a>(
    name: &'a String,
    first: Option<Day>,
    last: Option<Day>,
    day: Option<Day>,
    saying: Saying,
) -> PageScope<'a>
    ensures { page_in result ≡ page_for name.now first last day saying }
{
    PageScope {
        name: name.as_str(),
        first,
        last,
        day,
        heading: match saying {
            Saying::Verified => Heading::Entries,
            Saying::Digest => Heading::Digest,
        },
    }
}

/// Returns which legs a report of activity is over.
fn scope_of(account: &Option<String>, first: Option<Day>, last: Option<Day>) -> Scope<'_>
    ensures { asked_in result ≡ asked_for account.now first last }
{
    Scope {
        account: account.as_deref(),
        first,
        last,
    }
}

/// Returns the form of a table in that format.
pub(crate) fn form_of(format: Format) -> TableForm
    ensures { result ≡ form_of format }
{
    match format {
        Format::Text => TableForm::Text,
        Format::Csv => TableForm::Csv,
    }
}

/// Writes that a book is verified, with what the last line of its dump says. The book can be used.
pub(crate) fn write_digest<W: CountedWrite, S: Alter>(writer: &mut W, book: Book<S>) -> Served<S>
    requires ready { book.condition ≡ Ready }
    ensures shows { ShowsBook digest_writing (state S.Store book.conn) (state S.Store result.conn)
        (W.contents writer.old) (W.contents writer.new)
        (writes_between (W.calls writer.old) (W.calls writer.new)) result.status }
    ensures goes_on { result.halt ≡ None }
    ensures outside { HasCleanDisk (state S.Store result.conn)
        → result.conn.in_transaction ≡ false }
    ensures status { IsStatus result.status }
{
    let mut book = book;
    let shown = show_digest(&mut book, writer);
    Served {
        status: conclude(writer, shown, Status::Accepted),
        halt: None,
        conn: book.into_connection(),
    }
}

/// Writes that a book is verified, and behind it what the last line of its dump says. Where the book stops, nothing is written.
fn show_digest<W: CountedWrite, S: Alter>(
    book: &mut Book<S>,
    writer: &mut W,
) -> Result<(), ShowFault>
    ensures shows { HoldsOfPlacedBook S.Store book.old book.new (λ place entries.
        ShowsDigest (digest_of (extent_of place entries) (entry_rows 1 entries))
        (W.contents writer.old) (W.contents writer.new) result) }
    ensures some { ShowsSomeDigest (W.contents writer.old) (W.contents writer.new) result }
    ensures rows { HoldsOfTables S.Store book.old book.new (λ tables.
        ShowsDigestOfTables tables (W.contents writer.old) (W.contents writer.new) result) }
    ensures reads { ReadsBook S.Store book.old book.new result }
    ensures cause { HasCause result (writes_between (W.calls writer.old) (W.calls writer.new)) }
{
    let digest = digest_book(book)?;
    Ok(digest.print_behind("book verified\n", writer)?)
}

/// Ends a report: flushes it where it is whole, which ends so, else reports why it isn't. Nothing more is asked of a writer that
/// failed. Returns the status of the program.
pub(crate) fn conclude<W: CountedWrite>(
    writer: &mut W,
    shown: Result<(), ShowFault>,
    whole: Status,
) -> u8
    ensures concludes { (before : Option WriteCalls) → HasCause shown (record {
      before = before;
      after = W.calls writer.old;
    }) → Concludes whole shown (W.contents writer.old) (W.contents writer.new) (writes_between
        (W.calls writer.old) (W.calls writer.new)) result }
    ensures status { IsStatus result }
{
    match shown {
        Ok(()) => tell(writer, Ok(()), whole),
        Err(fault) if fault.is_of_writer() => Status::Stopped.code(),
        Err(fault) => stopped(writer, fault),
    }
}

/// Reports why a report ends before its end, and returns the status of the program.
pub(crate) fn stopped<W: CountedWrite>(writer: &mut W, fault: ShowFault) -> u8
    ensures says { Says (report_line fault) Stopped
        (W.contents writer.old) (W.contents writer.new)
        (writes_between (W.calls writer.old) (W.calls writer.new)) result }
    ensures status { IsStatus result }
{
    let printed = print_texts(writer, &["fault ", fault.name(), "\n"]);
    tell(writer, printed, Status::Stopped)
}
