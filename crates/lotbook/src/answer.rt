//! A call of the program answered: its action is served, and standard error says what there is to say of it.

ghost use Rattle.std.specs.Prelude.{◌≡◌, None, false};
ghost use Rattle.std.specs.Io.Buffered.{writer_contents};
ghost use Rattle.sqlite.specs.Held.{state};
ghost use Rattle.lot_io.specs.Reads.{reads_between};
ghost use Rattle.lot_io.specs.Writes.{writes_between};
ghost use Rattle.lot_args.specs.Preview.{preview_of};
ghost use Rattle.lot_call.specs.Looks.{IsLookedAt};
ghost use Rattle.lotbook.specs.Answered.{AnswersOnSome, IsAnswered, IsServed};

use crate::keeper::{Keep, Keeper};
use lot_book::Verdict;
use lot_call::{
    Appraiser, Call, Crumbs, Fate, FileKind, Forewarner, Watched, explain, say_aside,
    say_export_fault, say_fate, say_statement_fault, say_taken, say_unwritten, status_behind,
    sum_up,
};
use lot_cli::{
    Action, AdoptFault, Aside, CommandFault, CountedWriter, CreateFault, DumpFault, Export,
    ExportFault, Halt, InputFault, Look, MigrateFault, Progress, RestoreFault, Served, VerifyFault,
    serve_with_preview,
};
use lot_command::Key;
use lot_completion::{Note, Watch};
use lot_io::{CountedRead, CountedWrite};
use lot_output::{Ended, Heard, Meter, Output, Pace, Record, Witness};
use lot_rounding::Asked;
use lot_table::Queryable;
use lot_verify::say_where;
use sqlite::{Alter, Connection};
use std::io::{Read, Stdout, Write};

/// Does what a call is for on the book that the connection leads to, with standard input and standard output. Returns the status of
/// the program, and the connection.
pub fn answer_on_streams<S: Alter>(call: &Call<'_>, conn: Connection<S>) -> (u8, Connection<S>)
    requires outside { conn.in_transaction ≡ false }
    requires unlimited { conn.step_limit ≡ None }
    ensures { AnswersOnSome (state S.Store) call.now.action.now (preview_of call.now.effect)
        conn result.1 result.0 }
{
    let Answered {
        status,
        conn,
        writer: _,
    } = answer(call, call.rt.reader(), output_of(call), conn);
    (status, conn)
}

/// What is left of a call that was answered.
struct Answered<S: Alter, W> {
    /// The status of the program.
    status: u8,
    conn: Connection<S>,
    /// What the output was written to.
    writer: W,
}

/// Does what a call is for on the book that the connection leads to, with an input and an output, and says
/// on standard error what there is to say of it. The book is only looked at then.
///
/// Where not all that there is to write can be handed to the writer, the status is 4.
fn answer<R: Read + Drop, W: Write + Drop, S: Alter>(
    call: &Call<'_>,
    input: R,
    output: Output<'_, W>,
    conn: Connection<S>,
) -> Answered<S, W>
    requires outside { conn.in_transaction ≡ false }
    requires unlimited { conn.step_limit ≡ None }
    ensures { IsAnswered (state S.Store) (R.remaining input)
        (writer_contents W.contents output.entry.buffer) (W.contents result.writer)
        call.now.action.now (preview_of call.now.effect) conn result.conn result.status }
{
    let alloc = call.rt.alloc();
    let keep = if call.is_quiet() {
        Keep::Nothing
    } else {
        Keep::TakenBack
    };
    let mut reader = Keeper::new(alloc, input, keep);
    let forewarner = Forewarner::new(call, output);
    let appraiser = Appraiser::new(call, forewarner);
    let mut writer = CountedWriter::new(Witness::new(alloc, appraiser, call.most()));
    let mut watched = Watched::of(call);
    let Served {
        status,
        halt,
        mut conn,
    } = do_quietly(call, &mut reader, &mut writer, &mut watched, conn);
    reader.free_room();
    let (appraiser, heard) = writer.into_writer().into_parts();
    let output = appraiser.say_unpriced(call, &heard).into_writer();
    let Ended { writer, is_whole } = output.end();
    speak(call, &reader.kept, &heard, &mut watched, halt, &mut conn);
    Answered {
        status: status_behind(status, is_whole),
        conn,
        writer,
    }
}

/// Returns standard output, for what a call is for: the replies of a run are written out at once, and a meter counts them.
fn output_of<'a>(call: &Call<'a>) -> Output<'a, Stdout> {
    let pace = match call.runs() {
        Some(_) => Pace::AtOnce,
        None => Pace::Buffered,
    };
    let replies = Meter::of_replies(call.rt, call.runs());
    Output::new(call.rt.alloc(), call.rt.stdout(), pace, replies)
}

/// Does what a call is for, and says nothing of it.
fn do_quietly<R: CountedRead, W: CountedWrite, S: Alter>(
    call: &Call<'_>,
    reader: &mut R,
    writer: &mut W,
    watched: &mut Watched,
    conn: Connection<S>,
) -> Served<S>
    requires outside { conn.in_transaction ≡ false }
    requires unlimited { conn.step_limit ≡ None }
    ensures { IsServed (state S.Store) (R.remaining reader.old) (R.remaining reader.new)
        (reads_between (R.calls reader.old) (R.calls reader.new))
        (W.contents writer.old) (W.contents writer.new)
        (writes_between (W.calls writer.old) (W.calls writer.new))
        call.now.action.now (preview_of call.now.effect) conn
        result.conn result.status result.halt }
{
    let mut watcher = Watcher {
        call,
        legs: Meter::of_legs(call.rt),
        watched,
    };
    serve_with_preview(
        call.rt.alloc(),
        call.action,
        call.effect.preview(),
        reader,
        writer,
        &mut watcher,
        conn,
    )
}

/// Says on standard error what there is to say of what was read and written, and of what was watched.
fn speak<S: Alter>(
    call: &Call<'_>,
    read: &Record,
    heard: &Heard,
    watched: &mut Watched,
    halt: Option<Halt>,
    conn: &mut Connection<S>,
)
    ensures { IsLookedAt (state S.Store conn.old) (state S.Store conn.new) }
{
    if call.is_quiet() {
        return;
    }
    let fate = Fate::of(call, heard, &watched.remembered);
    explain(
        &*call,
        &*read,
        &*heard,
        &watched.crumbs,
        &mut watched.remembered,
        conn,
    );
    conclude(call, read, heard, &watched.crumbs, halt, fate, conn);
    say_unwritten(call, heard, fate);
}

/// Says how a call ended: why it ended before its first command, or what became of its commands.
fn conclude<S: Alter>(
    call: &Call<'_>,
    read: &Record,
    heard: &Heard,
    crumbs: &Crumbs,
    halt: Option<Halt>,
    fate: Fate,
    conn: &mut Connection<S>,
)
    ensures { IsLookedAt (state S.Store conn.old) (state S.Store conn.new) }
{
    match (halt, fate) {
        (Some(Halt::Input(InputFault::Export(fault))), _) => say_faulty_export(call, read, fault),
        (Some(Halt::Input(InputFault::Statement(fault))), _) => {
            if let Some(bytes) = &read.bytes {
                say_statement_fault(call.rt, fault, bytes.as_slice());
            }
        }
        (Some(halt), _) => advise(call, call.path, halt, conn),
        (None, Fate::Dropped | Fate::InDoubt) => {
            sum_up(call, &heard.course);
            say_fate(call, fate, &heard.course);
        }
        (None, Fate::Kept) => {
            say_taken(call, crumbs);
            sum_up(call, &heard.course);
        }
    }
}

/// Says what is wrong with an export that was imported by a profile.
fn say_faulty_export(call: &Call<'_>, read: &Record, fault: ExportFault) {
    if let (Action::ImportBy(asked), Some(bytes)) = (call.action, &read.bytes) {
        say_export_fault(call.rt, &asked.profile, fault, bytes.as_slice());
    }
}

/// Says what helps where an action ended before its first command, since the file of that path holds no
/// book, or holds one already, or a damaged one.
pub fn advise<S: Alter>(call: &Call<'_>, path: &str, halt: Halt, conn: &mut Connection<S>)
    ensures { IsLookedAt (state S.Store conn.old) (state S.Store conn.new) }
{
    let rt = call.rt;
    let kind = match halt {
        Halt::Adopt(AdoptFault::OlderEdition) | Halt::Verify(VerifyFault::OlderEdition) => {
            Some(FileKind::OlderBook)
        }
        Halt::Adopt(AdoptFault::NotABook)
        | Halt::Migrate(MigrateFault::NotABook)
        | Halt::Verify(VerifyFault::NotABook) => FileKind::of_no_book(rt, path, conn),
        Halt::Create(CreateFault::NotABook)
        | Halt::Restore(RestoreFault::Book(CreateFault::NotABook)) => {
            FileKind::of_database(conn)
        }
        Halt::Verify(VerifyFault::Damaged) => return say_where(rt, path, conn),
        Halt::Restore(RestoreFault::Text(CommandFault::Dump(DumpFault::NotADump { line }))) => {
            let _ = eprintln!(rt;
                "lotbook: line {line} isn't what a dump has there: one command stands below each line ; entry NUMBER key SOURCE NAME"
            );
            return;
        }
        _ => None,
    };
    if let Some(kind) = kind {
        kind.say(rt, path);
    }
}

/// How far a migration is, on standard error, and what is watched of commands.
#[derive(Drop)]
struct Watcher<'a, 'b> {
    call: &'a Call<'a>,
    legs: Meter<'a>,
    watched: &'b mut Watched,
}

impl Progress for Watcher<'_, '_> {
    fn legs_read(&mut self, legs: usize) {
        self.legs.add(legs as u64);
    }

    fn end(&mut self) {
        self.legs.end();
    }
}

impl Watch for Watcher<'_, '_> {
    fn asks(&self) -> bool {
        self.watched.crumbs.asks()
    }

    fn tell(&mut self, number: usize, note: Note) {
        self.watched.crumbs.tell(number, note);
    }
}

impl Aside for Watcher<'_, '_> {
    fn set_aside(&mut self, export: &Export) {
        say_aside(self.call, export);
    }
}

impl Look for Watcher<'_, '_> {
    fn look<D: Queryable>(
        &mut self,
        db: &mut D,
        commands: &[(Key, Asked)],
        _numbers: &[usize],
        verdicts: &[Verdict],
    ) {
        self.watched.remembered.look(db, commands, verdicts);
    }
}
