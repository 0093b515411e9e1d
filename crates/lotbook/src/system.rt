//! The system as the host of a call: its files, its streams and its clock.

ghost use Rattle.std.specs.Prelude.{◌≡◌, ◌≤◌, ◌<◌, Err, IfErr, IfOk, Ok, false};
ghost use Rattle.sqlite.specs.Files.{file_state, over_files};
ghost use Rattle.lot_args.specs.Preview.{preview_of};
ghost use Rattle.lotbook.specs.Answered.{AnswersOnSome};
ghost use Rattle.lotbook.specs.Compared.{IsCompared, IsReadBeside, IsRefused, IsTakenUp};
ghost use Rattle.lotbook.specs.Compared.{unlimited};
ghost use Rattle.lotbook.specs.Opened.{Refuses};
ghost use Rattle.lotbook.specs.Shown.{IsExportShown};
ghost use Rattle.lotbook.specs.Statuses.{IsRefusal, IsSaid};
ghost use Rattle.lot_files.specs.Opened.{IsReady};
ghost use Rattle.lot_files.specs.Opener.{OpensFor};
ghost use Rattle.lot_files.specs.Opening.{IsCopyAt, IsInFile, OpensNothing, opener_over};
ghost use Rattle.lot_files.specs.Path.{has_long_name};
ghost use Rattle.lot_files.specs.Shown.{AllowsBook, ShowsMissing};
ghost use Rattle.lot_files.specs.System.{system_gives, system_makes};
ghost use Rattle.lot_files.specs.declared.opened.Database.{Database as DatabaseOf};
ghost use Rattle.lot_call.specs.Looks.{IsLookedAt};
ghost use Rattle.lot_call.specs.Told.{Tells};
ghost use Rattle.lot_host.specs.Answers.{stopped};
ghost use Rattle.lot_host.specs.Stage.{stage_empty, stage_of};
ghost use Rattle.lot_host.specs.declared.stage.Stage.TheVariants.{Begun, Over, Refused};

use crate::answer::answer_on_streams;
use crate::comparison::{show_differences, take_up};
use crate::showing::show_on;
use lot_args::{Notes, Request, WordsFault};
use lot_call::{
    Call, Loaded, PlainFault, load, out_of_memory, say_why, say_words_fault, tell, warn,
    write_fault,
};
use lot_files::{
    Access, Cause, Database, Failure, FileSystem, Opened, ensure_openable, is_missing,
    library_path, open_book, open_nothing,
};
use lot_host::{Host, Part, Stage, Task, path_of, served_of, stage_of};
use lot_output::{Meter, Output, Pace};
use lot_profile::Profile;
use lot_rounding::Rounding;
use lot_stream::{REFUSED, STOPPED, UNUSABLE};
use std::io::Stdout;
use std::time::Instant;

/// The system as the host of a call.
#[derive(Drop)]
pub struct System<'a> {
    rt: &'a HostRuntime,
    /// When the call began, where the clock could be read.
    begun: Option<Instant>,
    /// Why a call of the book's files failed, where one did.
    failure: &'a Failure,
    /// How far the call is.
    stage: Stage,
}

impl<'a> System<'a> {
    /// Returns the system for a call that begins now.
    pub fn new(rt: &'a HostRuntime, failure: &'a Failure) -> System<'a>
        ensures { result.stage ≡ Begun }
    {
        System {
            rt,
            begun: Instant::now(rt).ok(),
            failure,
            stage: Stage::Begun,
        }
    }

    /// Returns what the program is called for, of a task.
    fn call<'b>(&'b self, task: &'b Task) -> Call<'b>
        ensures { result.action.now ≡ task.now.action }
    {
        Call {
            rt: self.rt,
            action: &task.action,
            path: path_of(&task.action).unwrap_or(""),
            effect: task.effect,
            notes: task.notes,
            begun: self.begun,
            failure: self.failure,
        }
    }
}

/// Returns standard output, for text that is written whole, or nearly so.
pub fn buffered(rt: &HostRuntime) -> Output<'_, Stdout> {
    Output::new(
        rt.alloc(),
        rt.stdout(),
        Pace::Buffered,
        Meter::of_replies(rt, None),
    )
}

impl<'a> Host for System<'a> {
    type Database = Database<'a>;

    type Old = Database<'a>;

    ghost is_in = { IsInFile (λ (database : DatabaseOf). database.conn)
        ⟦<HostRuntime as FileSystem>⟧ system_makes system_gives };

    ghost copies = { IsCopyAt (λ (database : DatabaseOf). database.conn)
        ⟦<HostRuntime as FileSystem>⟧ };

    ghost opens = { λ access path opened. (rt : _) × OpensFor (opener_over
        (λ (database : DatabaseOf). database.conn) ⟦<HostRuntime as FileSystem>⟧ system_makes
        system_gives) rt access path (Ok opened) };

    ghost is_empty = { λ database.
        OpensNothing (λ (database : DatabaseOf). database.conn) (Ok database) };

    ghost is_ready = { λ database. IsReady database.conn };

    ghost is_openable = { λ path. has_long_name path ≡ false };

    ghost shows_missing = { λ path missing.
        (rt : _) × ShowsMissing ⟦<HostRuntime as FileSystem>⟧ rt path missing };

    ghost refuses = { Refuses
        (λ cause. OpensNothing (λ (database : DatabaseOf). database.conn) (Err cause))
        (λ path cause. (rt : _) × AllowsBook ⟦<HostRuntime as FileSystem>⟧ rt path (Err cause))
        (λ access path cause. (rt : _) × OpensFor (opener_over
        (λ (database : DatabaseOf). database.conn) ⟦<HostRuntime as FileSystem>⟧ system_makes
        system_gives) rt access path (Err cause)) };

    ghost tells_unopened = { λ _ status. status ≡ stopped };

    ghost serves = { λ action effect opened status left.
        AnswersOnSome (λ conn. file_state conn) action (preview_of effect)
        opened.conn left.conn status };

    ghost is_old = { λ opened old. IsTakenUp over_files (unlimited opened.conn) old.conn
        × IsLookedAt (file_state (unlimited opened.conn)) (file_state old.conn) };

    ghost refuses_old = { λ opened status. IsRefused over_files opened.conn status };

    ghost compares = { λ served opened old status left.
        IsCompared over_files over_files opened.conn old.conn served status
        × IsReadBeside over_files opened.conn left.conn };

    ghost has_profile = { λ _ profile rounding. IsSaid profile rounding };

    ghost refuses_profile = { λ _ status. IsRefusal status };

    ghost shows = { IsExportShown };

    ghost tells = { Tells };

    ghost stage = { λ system. system.stage };

    fn library_path(&self, path: &str) -> Result<String, Cause> {
        Ok(library_path(self.rt.alloc(), path)?)
    }

    fn ensure_openable(&self, path: &str) -> Result<(), Cause> {
        ensure_openable(self.rt, path)
    }

    fn is_missing(&self, path: &str) -> bool {
        is_missing(self.rt, path)
    }

    fn open(
        &mut self,
        part: Part,
        path: &str,
        access: Access,
    ) -> Result<Opened<Self::Database>, Cause> {
        let found = open_book(self.rt, path, access, self.failure);
        self.stage = stage_opened(part, &found);
        found
    }

    fn open_nothing(&mut self, part: Part) -> Result<Self::Database, Cause> {
        let found = open_nothing(self.rt.alloc());
        self.stage = stage_emptied(part, &found);
        found
    }

    fn serve(&mut self, task: &Task, database: Self::Database) -> (u8, Self::Database) {
        let call = Call {
            rt: self.rt,
            action: &task.action,
            path: path_of(&task.action).unwrap_or(""),
            effect: task.effect,
            notes: task.notes,
            begun: self.begun,
            failure: self.failure,
        };
        let (status, conn) = answer_on_streams(&call, database.conn);
        if status == UNUSABLE {
            let _ = eprintln!(self.rt; "lotbook: --row-of wants a text of one command");
        }
        self.stage = stage_behind(served_of(self.stage), status);
        (status, Database { conn })
    }

    fn close(&mut self, database: Self::Database) {
        let _ = database.conn.close();
        self.stage = Stage::Over;
    }

    fn take_up(
        &mut self,
        task: &Task,
        path: &str,
        database: Self::Database,
    ) -> Result<Self::Old, u8> {
        match take_up(&self.call(task), path, database.conn) {
            Ok(conn) => {
                self.stage = Stage::OldTaken;
                Ok(Database { conn })
            }
            Err((status, _conn)) => {
                self.stage = Stage::Over;
                Err(status)
            }
        }
    }

    fn compare(
        &mut self,
        task: &Task,
        status: u8,
        database: Self::Database,
        old: Self::Old,
    ) -> (u8, Self::Database) {
        let (status, conn, _old) = show_differences(&self.call(task), status, database.conn, old);
        self.stage = stage_behind(self.stage, status);
        (status, Database { conn })
    }

    fn say_unopened(&mut self, task: &Task, path: &str, cause: Cause) -> u8 {
        self.stage = Stage::Over;
        if let Cause::Memory = cause {
            return out_of_memory(self.rt);
        }
        let _ = write_fault(&mut self.rt.stdout(), PlainFault::Open);
        say_why(&self.call(task), path, cause);
        STOPPED
    }

    fn load(&mut self, path: &str) -> Result<(Profile, Option<Rounding>), u8> {
        match load(self.rt, path) {
            Ok(Loaded { profile, rounding }) => {
                self.stage = Stage::Loaded;
                Ok((profile, rounding))
            }
            Err(status) => {
                self.stage = Stage::Over;
                Err(status)
            }
        }
    }

    fn show(&mut self, profile: &Profile, notes: Notes) -> u8 {
        self.stage = Stage::Over;
        show_on(self.rt, profile, notes)
    }

    fn tell(&mut self, code: Option<&str>) -> u8 {
        self.stage = Stage::Over;
        tell(self.rt, code)
    }

    fn warn(&mut self, words: &[String], request: &Request) {
        self.stage = Stage::Warned;
        warn(self.rt, words, request);
    }

    fn answer(&mut self, words: &[String], fault: &WordsFault) -> u8 {
        self.stage = Stage::Over;
        say_words_fault(self.rt, words, fault)
    }
}

/// Returns the stage behind what ended with that status: where it met a fault, nothing more is done.
fn stage_behind(stage: Stage, status: u8) -> Stage
    ensures ended { status ≤ 1 → result ≡ stage }
    ensures over { 1 < status → result ≡ Over }
{
    if status > REFUSED {
        return Stage::Over;
    }
    stage
}

/// Returns the stage once a database is opened, or isn't.
fn stage_opened<D>(part: Part, found: &Result<Opened<D>, Cause>) -> Stage
    ensures opened { IfOk found.now (λ opened. result ≡ stage_of part opened) }
    ensures refused { IfErr found.now (λ _. result ≡ Refused) }
{
    match found {
        Ok(opened) => stage_of(part, opened),
        Err(_) => Stage::Refused,
    }
}

/// Returns the stage once an empty database is opened, or isn't.
fn stage_emptied<D>(part: Part, found: &Result<D, Cause>) -> Stage
    ensures opened { IfOk found.now (λ _. result ≡ stage_empty part) }
    ensures refused { IfErr found.now (λ _. result ≡ Refused) }
{
    match (found, part) {
        (Err(_), _) => Stage::Refused,
        (Ok(_), Part::Own) => Stage::InCopy,
        (Ok(_), Part::Old) => Stage::OldOpened,
    }
}
