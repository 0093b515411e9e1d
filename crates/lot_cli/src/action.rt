ghost use Rattle.std.specs.Prelude.{◌≡◌, IsTrue, None, false};
ghost use Rattle.lot_stream.specs.Status.{IsStatus};
ghost use Rattle.lot_cli.specs.Init.{Makes};
ghost use Rattle.lot_cli.specs.Serve.{EndsWith, ReadsNothing, Serves};
ghost use Rattle.sqlite.specs.Held.{state};
ghost use Rattle.sqlite.specs.State.{HasCleanDisk};
ghost use Rattle.sqlite.specs.Tree.{Trees};
ghost use Rattle.lot_io.specs.Reads.{reads_between};
ghost use Rattle.lot_cli.specs.Says.{Halts, told};
ghost use Rattle.lot_cli.specs.declared.halt.Halt.TheVariants.{Create};
ghost use Rattle.lot_io.specs.Writes.{writes_between};
ghost use Rattle.lot_input.specs.Input.{reading_between};

use crate::crumbs::check_with;
use crate::halt::Halt;
use crate::import::{import, import_by};
use crate::migration::migrate;
use crate::post::{post, post_row};
use crate::reconciliation::reconcile;
use crate::report::write_report;
use crate::restoration::restore;
use crate::run::{halted, tell};
use crate::verification::verify;
use lot_args::Action;
use lot_atomic::Look;
use lot_check::check;
use lot_completion::Watch;
use lot_export::Aside;
use lot_io::{CountedRead, CountedWrite};
use lot_migrate::Progress;
use lot_report::print_texts;
use lot_store::{CreateFault, HandedBack, create};
use lot_stream::Status;
use sqlite::{Alter, Connection};
use std::alloc::Global;

/// The outcome of an action.
pub struct Served<S: Alter> {
    /// The status of the program.
    pub status: u8,
    /// Why it ended before its first command, or `None` where it didn't.
    pub halt: Option<Halt>,
    /// The connection to the book, with every row as the action left it.
    pub conn: Connection<S>,
}

/// Does what an action asks for on the book that the connection leads to.
///
/// - `init` makes a book in a database without tables, and writes `book ready`. It reads nothing.
/// - `migrate` makes a book of edition 1 one of edition 2, in one commit, and writes `book migrated`. A book of edition 2 stays
///   as it is. It reads nothing.
/// - `post` reads all that the reader has as ledger text, `import` as a broker file, or by a profile as a broker's export. Then the book is taken up, and the
///   commands, or those of the rows, are applied from the given number on, without the rows that are left out. Each is applied
///   in one commit, with a reply to each. Or all are, in one commit, or none where one is refused; the replies are written
///   behind that. A fault of the input changes nothing.
/// - `post` in place of a row of a broker file applies the one command of a ledger text under the key of the row. Where the
///   text has no command, or several, nothing is written and nothing changes.
/// - `holdings`, `gains`, `register`, `activity`, `journal` and `dump` take the book up and write the report, each row as it is read,
///   or what is summed once all is read. The first four write text or CSV. They read no input and change nothing. Where a report ends
///   before its end, one line with the fault follows, unless the writer failed.
/// - `page` takes the book up and writes it as one page of HTML, of which the same holds.
/// - `reconcile` reads all that the reader has as a statement. Then the book is taken up, and it writes what differs between the two.
///   A fault of the input goes before one of the book. It changes nothing.
/// - `restore` makes a book of the dump that the reader has, in a database without tables. Each command is judged again, and one
///   commit makes the book; it writes what was refused, what left out no entry, and `book restored`.
/// - `verify` judges the book again from its entries, compares every table, and writes `book verified`, and where that is asked
///   for, what the last line of its dump says. It reads no input and changes nothing.
/// - Without a subcommand a check is done. It leaves the book alone. With an account for crumbs it makes a book in a database
///   without tables, posts the commands to it, and writes what it holds.
///
/// `post`, `import` and a check may have an account that takes crumbs. Then another command may be judged in the place of one that
/// was handed in, and be the entry. A fault is one line (docs/FORMATS.md, Faults). `progress` is told how far a migration is, what
/// becomes of crumbs, and, without such an account, what would balance a command that is refused for crumbs. It looks at the book
/// that commands would have made of which none is kept, and is told what an export comes to. Returns the status of the program:
///
/// - 0: all commands were accepted or repeated, the book was made, migrated or verified, the report is whole, or nothing differs;
/// - 1: some commands were refused, or something differs;
/// - 2: the text for a row isn't one command;
/// - 3: a fault of the input;
/// - 4: a fault of the book, of the output or of memory. It goes before 1.
pub fn serve<R: CountedRead, W: CountedWrite, P: Progress + Watch + Look + Aside, S: Alter>(
    alloc: Global,
    action: &Action,
    reader: &mut R,
    writer: &mut W,
    progress: &mut P,
    conn: Connection<S>,
) -> Served<S>
    requires outside { conn.in_transaction ≡ false }
    requires unlimited { conn.step_limit ≡ None }
    ensures serves { Serves action.now (record {
      input = reading_between (R.remaining reader.old) (R.remaining reader.new)
          (reads_between (R.calls reader.old) (R.calls reader.new));
      old = state S.Store conn;
      new = state S.Store result.conn;
      before = W.contents writer.old;
      written = W.contents writer.new;
      calls = writes_between (W.calls writer.old) (W.calls writer.new);
      told = told result.status result.halt;
    }) }
    // With the connection open a crash leaves the last commit, and nothing else.
    ensures safe { IsTrue (state S.Store result.conn).is_open → (trees : Trees)
        → (state S.Store result.conn).may_leave trees
        → trees ≡ (state S.Store result.conn).committed.trees }
    ensures unread { ReadsNothing action.now → reader.new ≡ reader.old }
    ensures outside { HasCleanDisk (state S.Store result.conn)
        → result.conn.in_transaction ≡ false }
    ensures status { EndsWith action.now result.status }
{
    match action {
        Action::Check { rounding: None } => Served {
            status: check(alloc, reader, writer, progress),
            halt: None,
            conn,
        },
        Action::Check {
            rounding: Some(rounding),
        } => check_with(alloc, rounding, reader, writer, progress, conn),
        Action::Init { .. } => init(alloc, writer, conn),
        Action::Migrate { .. } => migrate(alloc, writer, progress, conn),
        Action::Post(asked) => post(alloc, asked, reader, writer, progress, conn),
        Action::PostRow {
            batch,
            reference,
            rounding,
            ..
        } => {
            let rounding = rounding.as_ref();
            post_row(
                alloc, batch, reference, rounding, reader, writer, progress, conn,
            )
        }
        Action::Import(asked) => import(alloc, asked, reader, writer, progress, conn),
        Action::ImportBy(asked) => import_by(alloc, asked, reader, writer, progress, conn),
        Action::Report { report, .. } => write_report(alloc, report, writer, conn),
        Action::Reconcile(asked) => reconcile(alloc, asked, reader, writer, conn),
        Action::Restore(asked) => restore(alloc, asked, reader, writer, conn),
        Action::Verify { saying, .. } => verify(alloc, *saying, writer, conn),
    }
}

/// Makes a book.
fn init<W: CountedWrite, S: Alter>(alloc: Global, writer: &mut W, conn: Connection<S>) -> Served<S>
    requires outside { conn.in_transaction ≡ false }
    requires unlimited { conn.step_limit ≡ None }
    ensures makes { Makes (state S.Store conn) (state S.Store result.conn)
        (W.contents writer.old) (W.contents writer.new)
        (writes_between (W.calls writer.old) (W.calls writer.new))
        (told result.status result.halt) }
    ensures outside { HasCleanDisk (state S.Store result.conn)
        → result.conn.in_transaction ≡ false }
    ensures status { IsStatus result.status }
{
    match create(alloc, conn) {
        Ok(book) => {
            let printed = print_texts(writer, &["book ready\n"]);
            Served {
                status: tell(writer, printed, Status::Accepted),
                halt: None,
                conn: book.into_connection(),
            }
        }
        Err(left) => not_made(writer, left),
    }
}

/// Reports the very fault for which no book was made, and hands the connection on.
pub(crate) fn not_made<W: CountedWrite, S: Alter>(
    writer: &mut W,
    left: HandedBack<S, CreateFault>,
) -> Served<S>
    ensures says { Halts (Create left.fault)
        (W.contents writer.old) (W.contents writer.new)
        (writes_between (W.calls writer.old) (W.calls writer.new))
        (told result.status result.halt) }
    ensures same { result.conn ≡ left.conn }
    ensures status { IsStatus result.status }
{
    let HandedBack { fault, conn } = left;
    halted(writer, Halt::Create(fault), conn)
}
