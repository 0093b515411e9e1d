//! The host of a call: the files and the streams of a system, as far as a call needs them.

ghost use Rattle.std.specs.Prelude.{◌≡◌, ◌≤◌, ◌<◌, ℕ, Bool, List, Option, None, Some, IfErr, IfOk, IsOk, option_copied};
ghost use Rattle.std.specs.String.{string_bytes};
ghost use Rattle.lot_args.specs.declared.action.Action.{Action as ActionOf};
ghost use Rattle.lot_args.specs.declared.request.Effect.{Effect as EffectOf};
ghost use Rattle.lot_files.specs.declared.cause.Cause.{Cause as CauseOf};
ghost use Rattle.lot_files.specs.declared.opened.Access.{Access as AccessOf};
ghost use Rattle.lot_files.specs.declared.opened.Opened.{Opened as OpenedOf};
ghost use Rattle.lot_files.specs.Path.{library_path};
ghost use Rattle.lot_host.specs.Answers.{IsStatusOf, stopped};
ghost use Rattle.lot_host.specs.Stage.{MayOpen, MayServe, MayTell, served_of, stage_empty, stage_of};
ghost use Rattle.lot_host.specs.declared.stage.Stage.{Stage as StageOf};
ghost use Rattle.lot_host.specs.declared.stage.Stage.TheVariants.{Begun, Loaded, OldOpened, OldTaken};
ghost use Rattle.lot_host.specs.declared.stage.Stage.TheVariants.{Over, Refused, Served, Warned};
ghost use Rattle.lot_files.specs.Opened.{IsOpenedFor, IsSo};
ghost use Rattle.lot_profile.specs.declared.profile.Profile.{Profile as ProfileOf};
ghost use Rattle.lot_rounding.specs.declared.rounding.Rounding.{Rounding as RoundingOf};

use crate::stage::Part;
use lot_args::{Action, Effect, Notes, Request, WordsFault};
use lot_files::{Access, Cause, Opened};
use lot_profile::Profile;
use lot_rounding::Rounding;

/// An action that is to be done, what may come of it, and how much is said of it.
#[derive(Drop)]
pub struct Task {
    pub action: Action,
    pub effect: Effect,
    pub notes: Notes,
}

/// The host of a call.
///
/// The ghost members are what a reader of `main` checks: which database is the one of a file, and what it is to do an action there.
/// What a host does, it does at its `stage` alone: so that no more is done than is said.
pub trait Host {
    /// An opened database.
    type Database: Drop;

    /// A book that is only read, beside which a new one is made.
    type Old: Drop;

    // The database is the one in the file of that path: what is committed there stays in the file.
    ghost is_in: { List ℕ → Self.Database → Type 0 };

    // The database is a copy of the one in the file of that path: nothing of it stays.
    ghost copies: { List ℕ → Self.Database → Type 0 };

    // A file or a copy is opened for that, of that path.
    ghost opens: { AccessOf → List ℕ → OpenedOf Self.Database → Type 0 };

    // The database is an empty one, of which nothing stays.
    ghost is_empty: { Self.Database → Type 0 };

    // It is in no transaction, and nothing limits the steps of its statements.
    ghost is_ready: { Self.Database → Type 0 };

    // The file of that path, if there is one, may be opened as that of a book.
    ghost is_openable: { List ℕ → Type 0 };

    // Whether there is no file of that path, in a folder that is there.
    ghost shows_missing: { List ℕ → Bool → Type 0 };

    // The database of that path, or the empty one, can't be opened for that cause.
    ghost refuses: { Option (List ℕ) → CauseOf → Type 0 };

    // That cause is told of a database that can't be opened. The number is the status.
    ghost tells_unopened: { CauseOf → ℕ → Type 0 };

    // The action is done on the first database, and behind it that is told of the second one, which is what is left, that the effect
    // asks for. The number is the status.
    ghost serves: { ActionOf → EffectOf → Self.Database → ℕ → Self.Database → Type 0 };

    // It is the book in a database.
    ghost is_old: { Self.Database → Self.Old → Type 0 };

    // The book in a database can't be taken up, which is told. The number is the status.
    ghost refuses_old: { Self.Database → ℕ → Type 0 };

    // The book in the first database, which was made with the first status, is compared with an old one. The second number is the
    // status then, and the second database is what is left of the first one.
    ghost compares: { ℕ → Self.Database → Self.Old → ℕ → Self.Database → Type 0 };

    // The file of that path has the profile, which has the crumbs go there.
    ghost has_profile: { List ℕ → ProfileOf → Option RoundingOf → Type 0 };

    // The file of that path has no profile. The number is the status of that fault.
    ghost refuses_profile: { List ℕ → ℕ → Type 0 };

    // What an export comes to by a profile is shown with that status.
    ghost shows: { ProfileOf → ℕ → Type 0 };

    // A code, or without one each, is explained with that status.
    ghost tells: { Option (List ℕ) → ℕ → Type 0 };

    // How far it is with a call.
    ghost stage: { Self → StageOf };

    /// Returns the path by which the library of the database opens the file of that path.
    fn library_path(&self, path: &str) -> Result<String, Cause>
        ensures named { IfOk result (λ text. string_bytes text ≡ library_path path.now) }
        ensures fault { IfErr result (refuses (Some (library_path path.now))) };

    /// Tests that the file of that path, if there is one, may be opened as that of a book.
    fn ensure_openable(&self, path: &str) -> Result<(), Cause>
        ensures openable { IsOk result → is_openable path.now }
        ensures fault { IfErr result (refuses (Some path.now)) };

    /// Returns whether there is no file of that path in a folder that is there.
    fn is_missing(&self, path: &str) -> bool
        ensures { shows_missing path.now result };

    /// Opens the database in the file of that path.
    fn open(
        &mut self,
        part: Part,
        path: &str,
        access: Access,
    ) -> Result<Opened<Self::Database>, Cause>
        requires openable { is_openable path.now }
        requires stage { MayOpen part (stage self.old) }
        ensures opens { IfOk result (opens access path.now) }
        ensures opened { IfOk result (IsOpenedFor is_in copies access path.now) }
        ensures ready { IfOk result (IsSo is_ready) }
        ensures stage { IfOk result (λ opened. stage self.new ≡ stage_of part opened) }
        ensures fault { IfErr result (refuses (Some path.now)) }
        ensures refused { IfErr result (λ _. stage self.new ≡ Refused) };

    /// Opens an empty database, of which nothing stays.
    fn open_nothing(&mut self, part: Part) -> Result<Self::Database, Cause>
        requires { MayOpen part (stage self.old) }
        ensures empty { IfOk result is_empty }
        ensures ready { IfOk result is_ready }
        ensures stage { IfOk result (λ _. stage self.new ≡ stage_empty part) }
        ensures fault { IfErr result (refuses None) }
        ensures refused { IfErr result (λ _. stage self.new ≡ Refused) };

    /// Does the action of a task on a database, and tells behind it what its effect asks for. Returns the status and the database.
    fn serve(&mut self, task: &Task, database: Self::Database) -> (u8, Self::Database)
        requires ready { is_ready database }
        requires stage { MayServe (stage self.old) }
        ensures serves { serves task.now.action task.now.effect database result.0 result.1 }
        ensures stage { result.0 ≤ 1 → stage self.new ≡ served_of (stage self.old) }
        ensures over { 1 < result.0 → stage self.new ≡ Over };

    /// Closes the database of a file. What was committed is there in either case.
    fn close(&mut self, database: Self::Database)
        requires { stage self.old ≡ Served }
        ensures { stage self.new ≡ Over };

    /// Takes up the book in a database, that of the path, to be read. The error is the status of the program: why it can't is said.
    fn take_up(
        &mut self,
        task: &Task,
        path: &str,
        database: Self::Database,
    ) -> Result<Self::Old, u8>
        requires ready { is_ready database }
        requires stage { stage self.old ≡ OldOpened }
        ensures old { IfOk result (is_old database) }
        ensures stage { IfOk result (λ _. stage self.new ≡ OldTaken) }
        ensures fault { IfErr result (refuses_old database) }
        ensures over { IfErr result (λ _. stage self.new ≡ Over) };

    /// Says how the book in a database, which was made with that status, differs from an old one. Returns the status then, and the
    /// database.
    fn compare(
        &mut self,
        task: &Task,
        status: u8,
        database: Self::Database,
        old: Self::Old,
    ) -> (u8, Self::Database)
        requires { status ≤ 1 }
        ensures compares { compares status database old result.0 result.1 }
        ensures stage { result.0 ≤ 1 → stage self.new ≡ stage self.old }
        ensures over { 1 < result.0 → stage self.new ≡ Over };

    /// Says why the database of that path can't be opened, and returns the status.
    fn say_unopened(&mut self, task: &Task, path: &str, cause: Cause) -> u8
        requires { MayTell (stage self.old) }
        ensures told { tells_unopened cause result }
        ensures stops { result ≡ stopped }
        ensures over { stage self.new ≡ Over };

    /// Reads the profile in the file of that path, once. The error is the status of the program: why there is none is said.
    fn load(&mut self, path: &str) -> Result<(Profile, Option<Rounding>), u8>
        requires { stage self.old ≡ Warned }
        ensures loaded { IfOk result (λ loaded. has_profile path.now loaded.0 loaded.1) }
        ensures stage { IfOk result (λ _. stage self.new ≡ Loaded) }
        ensures fault { IfErr result (refuses_profile path.now) }
        ensures over { IfErr result (λ _. stage self.new ≡ Over) };

    /// Shows what an export comes to by a profile, and returns the status.
    fn show(&mut self, profile: &Profile, notes: Notes) -> u8
        requires { stage self.old ≡ Loaded }
        ensures shows { shows profile.now result }
        ensures over { stage self.new ≡ Over };

    /// Tells what a code means, or without one what each does, and returns the status.
    fn tell(&mut self, code: Option<&str>) -> u8
        requires { stage self.old ≡ Warned }
        ensures tells { tells (option_copied code.entry) result }
        ensures over { stage self.new ≡ Over };

    /// Warns of words that may have been meant otherwise than they are taken.
    fn warn(&mut self, words: &[String], request: &Request)
        requires { stage self.old ≡ Begun }
        ensures { stage self.new ≡ Warned };

    /// Says what is wrong with words, or shows the help or the version that they ask for. Returns the status.
    fn answer(&mut self, words: &[String], fault: &WordsFault) -> u8
        requires { stage self.old ≡ Begun }
        ensures status { IsStatusOf fault.now result }
        ensures over { stage self.new ≡ Over };
}
