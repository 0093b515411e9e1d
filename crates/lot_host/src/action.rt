//! An action is done on the book that it names.

ghost use Rattle.std.specs.Prelude.{◌≡◌, ◌⊎◌, ◌≤◌, ◌<◌, IfErr, IfOk, None, Some};
ghost use Rattle.lot_files.specs.Path.{library_path};
ghost use Rattle.lot_host.specs.Answers.{stopped};
ghost use Rattle.lot_host.specs.Done.{ComesTo, ComesToOfNothing, ComesToOfPath, Ends, HasNoOld};
ghost use Rattle.lot_host.specs.Done.{IsDone, IsItsOld, IsOldOf, IsReadOf, LacksOld};
ghost use Rattle.lot_host.specs.Access.{old_of};
ghost use Rattle.lot_host.specs.Stage.{IsBefore, IsUnopened, MayServe, MayTell, served_of};
ghost use Rattle.lot_host.specs.declared.stage.Stage.TheVariants.{InCopy, InFile, OldOpened};
ghost use Rattle.lot_host.specs.declared.stage.Stage.TheVariants.{OldTaken, Over, Refused};

use crate::access::{access_of, makes_file, old_of, path_of};
use crate::host::{Host, Task};
use crate::stage::Part;
use lot_files::{Access, Cause, Opened};
use lot_stream::REFUSED;

/// Does an action on the book that it names, and returns the status of the program.
///
/// The book is opened before anything is read: to be written where the action changes it, or as a copy where nothing is to stay of
/// that; to be read for a report. Where there is no such file, and the action makes none, it is done on an empty database; a check
/// always is. Where a new book is to be compared with an old one, that one is taken up first.
pub fn act<H: Host>(host: &mut H, task: &Task) -> u8
    requires { IsUnopened (H.stage host.old) }
    ensures done { IsDone H.Host task.now.action task.now.effect result }
    ensures over { H.stage host.new ≡ Over }
{
    let Some(path) = path_of(&task.action) else {
        return match on_nothing(host, task, None) {
            Ok(status) => status,
            Err(cause) => host.say_unopened(task, "", cause),
        };
    };
    let path = match host.library_path(path) {
        Ok(path) => path,
        Err(cause) => return host.say_unopened(task, path, cause),
    };
    let old = match old_for(host, task) {
        Ok(old) => old,
        Err(status) => return status,
    };
    match on_path(host, task, path.as_str(), old) {
        Ok(status) => status,
        Err(cause) => host.say_unopened(task, path.as_str(), cause),
    }
}

/// Takes up the old book that an action names, where it names one. The error is the status of the program.
fn old_for<H: Host>(host: &mut H, task: &Task) -> Result<Option<H::Old>, u8>
    requires { IsUnopened (H.stage host.old) }
    ensures old { IfOk result (IsItsOld H.Host (old_of task.now.action)) }
    ensures before { IfOk result (λ _. IsBefore (H.stage host.new)) }
    ensures fault { IfErr result (LacksOld H.Host task.now.action) }
    ensures over { IfErr result (λ _. H.stage host.new ≡ Over) }
{
    match old_of(&task.action) {
        Some(path) => match old_in(host, task, path) {
            Ok(old) => Ok(Some(old)),
            Err(status) => Err(status),
        },
        None => Ok(None),
    }
}

/// Takes up the book of that path, to be read. The error is the status of the program.
fn old_in<H: Host>(host: &mut H, task: &Task, path: &str) -> Result<H::Old, u8>
    requires { IsUnopened (H.stage host.old) }
    ensures old { IfOk result (IsOldOf H.Host path.now) }
    ensures taken { IfOk result (λ _. H.stage host.new ≡ OldTaken) }
    ensures fault { IfErr result (HasNoOld H.Host path.now) }
    ensures over { IfErr result (λ _. H.stage host.new ≡ Over) }
{
    match open_to_read(host, path) {
        Ok(database) => host.take_up(task, path, database),
        Err(cause) => Err(host.say_unopened(task, path, cause)),
    }
}

/// Opens the database in the file of that path to be read, or an empty one where there is no such file.
fn open_to_read<H: Host>(host: &mut H, path: &str) -> Result<H::Database, Cause>
    requires { IsUnopened (H.stage host.old) }
    ensures read { IfOk result (IsReadOf H.Host (library_path path.now)) }
    ensures ready { IfOk result H.is_ready }
    ensures opened { IfOk result (λ _. H.stage host.new ≡ OldOpened) }
    ensures fault { IfErr result (λ cause.
        H.refuses (Some (library_path path.now)) cause ⊎ H.refuses None cause) }
    ensures untold { IfErr result (λ _. MayTell (H.stage host.new)) }
{
    let path = host.library_path(path)?;
    let path = path.as_str();
    host.ensure_openable(path)?;
    if host.is_missing(path) {
        return host.open_nothing(Part::Old);
    }
    match host.open(Part::Old, path, Access::Read)? {
        Opened::File(database) | Opened::Copy(database) => Ok(database),
    }
}

/// Does the action of a task on an empty database, of which nothing stays.
fn on_nothing<H: Host>(host: &mut H, task: &Task, old: Option<H::Old>) -> Result<u8, Cause>
    requires { IsBefore (H.stage host.old) }
    ensures served { IfOk result (ComesToOfNothing H.Host task.now.action task.now.effect old) }
    ensures over { IfOk result (λ _. H.stage host.new ≡ Over) }
    ensures fault { IfErr result (H.refuses None) }
    ensures refused { IfErr result (λ _. H.stage host.new ≡ Refused) }
{
    let empty = host.open_nothing(Part::Own)?;
    Ok(on_copy(host, task, empty, old))
}

/// Does the action of a task on the database in the file of that path. Where there is no such file, and none is to be made, it is
/// an empty database, of which nothing stays.
fn on_path<H: Host>(host: &mut H, task: &Task, path: &str, old: Option<H::Old>) -> Result<u8, Cause>
    requires { IsBefore (H.stage host.old) }
    ensures served { IfOk result
        (ComesToOfPath H.Host task.now.action task.now.effect path.now old) }
    ensures over { IfOk result (λ _. H.stage host.new ≡ Over) }
    ensures fault { IfErr result (λ cause. H.refuses (Some path.now) cause ⊎ H.refuses None cause) }
    ensures untold { IfErr result (λ _. MayTell (H.stage host.new)) }
{
    host.ensure_openable(path)?;
    if !makes_file(&task.action) && host.is_missing(path) {
        return on_nothing(host, task, old);
    }
    match host.open(Part::Own, path, access_of(&task.action, task.effect))? {
        Opened::File(file) => Ok(on_file(host, task, file, old)),
        Opened::Copy(copy) => Ok(on_copy(host, task, copy, old)),
    }
}

/// Does the action of a task on the database of a file, which is closed where that ran to its end. Commits are safe in the log
/// beside the file, also where it can't be closed.
fn on_file<H: Host>(host: &mut H, task: &Task, file: H::Database, old: Option<H::Old>) -> u8
    requires ready { H.is_ready file }
    requires opened { H.stage host.old ≡ InFile }
    ensures comes_to { Ends H.Host task.now.action task.now.effect old file result }
    ensures over { H.stage host.new ≡ Over }
{
    let (status, left) = done_on(host, task, file, old);
    if status <= REFUSED {
        host.close(left);
    }
    status
}

/// Does the action of a task on a database of which nothing stays.
fn on_copy<H: Host>(host: &mut H, task: &Task, copy: H::Database, old: Option<H::Old>) -> u8
    requires ready { H.is_ready copy }
    requires opened { H.stage host.old ≡ InCopy }
    ensures comes_to { Ends H.Host task.now.action task.now.effect old copy result }
    ensures over { H.stage host.new ≡ Over }
{
    let (status, _left) = done_on(host, task, copy, old);
    status
}

/// Does the action of a task on a database, and compares the book there with an old one, where there is one and no fault was met.
/// Returns the status, and the database.
fn done_on<H: Host>(
    host: &mut H,
    task: &Task,
    database: H::Database,
    old: Option<H::Old>,
) -> (u8, H::Database)
    requires ready { H.is_ready database }
    requires opened { MayServe (H.stage host.old) }
    ensures comes_to { ComesTo H.Host task.now.action task.now.effect old database
        result.0 result.1 }
    ensures served { result.0 ≤ 1 → H.stage host.new ≡ served_of (H.stage host.old) }
    ensures over { 1 < result.0 → H.stage host.new ≡ Over }
{
    let (status, left) = host.serve(task, database);
    match old {
        Some(old) if status <= REFUSED => host.compare(task, status, left, old),
        _ => (status, left),
    }
}
