//! What a call opens.

ghost use Rattle.std.specs.Prelude.{◌≡◌, option_copied};
ghost use Rattle.lot_host.specs.Access.{access_of, makes_file, old_of, path_of, to_change};

use lot_args::{Action, Effect};
use lot_files::Access;

/// Returns the path of the book that an action names. A check names none.
pub fn path_of(action: &Action) -> Option<&str>
    ensures { option_copied result ≡ path_of action.now }
{
    match action {
        Action::Check { .. } => None,
        Action::Init { book }
        | Action::Migrate { book }
        | Action::PostRow { book, .. }
        | Action::Report { book, .. }
        | Action::Verify { book, .. } => Some(book.as_str()),
        Action::Post(post) => Some(post.book.as_str()),
        Action::Import(import) => Some(import.book.as_str()),
        Action::ImportBy(import) => Some(import.book.as_str()),
        Action::Reconcile(asked) => Some(asked.book.as_str()),
        Action::Restore(restore) => Some(restore.book.as_str()),
    }
}

/// Returns the path of the book that a new one is compared with, where an action names one.
pub fn old_of(action: &Action) -> Option<&str>
    ensures { option_copied result ≡ old_of action.now }
{
    match action {
        Action::Restore(restore) => restore.compare.as_deref(),
        _ => None,
    }
}

/// Returns whether an action makes the file of its book where there is none.
pub(crate) fn makes_file(action: &Action) -> bool
    ensures { result ≡ makes_file action.now }
{
    matches!(action, Action::Init { .. } | Action::Restore(_))
}

/// Returns what the book of an action is opened for. A report reads it. A check opens none, and is tried on an empty copy.
pub fn access_of(action: &Action, effect: Effect) -> Access
    ensures { result ≡ access_of action.now effect }
{
    match action {
        Action::Report { .. } | Action::Reconcile(_) | Action::Verify { .. } => Access::Read,
        Action::Init { .. }
        | Action::Migrate { .. }
        | Action::Post(_)
        | Action::PostRow { .. }
        | Action::Import(_)
        | Action::ImportBy(_)
        | Action::Restore(_) => to_change(effect),
        Action::Check { .. } => Access::Copy,
    }
}

/// Returns what a book is opened for that is to change: it is written, or a copy where nothing of it is kept.
fn to_change(effect: Effect) -> Access
    ensures { result ≡ to_change effect }
{
    match effect {
        Effect::Keep => Access::Write,
        Effect::DryRun(_) => Access::Copy,
    }
}
