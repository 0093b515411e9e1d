//! What became of a call that keeps all or none.

ghost use Rattle.std.specs.Prelude.{◌≡◌};
ghost use Rattle.lot_call.specs.Fate.{fate_heard, fate_of, fate_of_restore, keeps_all_or_none, stops_before_commit};

use crate::call::Call;
use crate::remembered::Remembered;
use lot_args::{Action, Keeping};
use lot_output::{Course, Heard};

/// What became of what a call was to keep.
#[derive(Clone, Copy)]
pub enum Fate {
    /// What was accepted is kept.
    Kept,
    /// All was to be kept, or nothing, and nothing is.
    Dropped,
    /// All is kept, or nothing: nobody knows.
    InDoubt,
}

impl Fate {
    /// Returns what became of what a call was to keep. Of one that keeps all or none nothing is kept where a command was refused; a
    /// restored book is kept where that was told.
    pub fn of(call: &Call<'_>, heard: &Heard, remembered: &Remembered) -> Fate
        ensures fate { result
            ≡ fate_of remembered.now.is_dropped call.now.action.now heard.now }
    {
        if remembered.is_dropped {
            return Fate::Dropped;
        }
        match call.action {
            Action::Restore(_) => fate_of_restore(&heard.course),
            action if keeps_all_or_none(action) => fate_heard(heard),
            _ => Fate::Kept,
        }
    }
}

/// Returns what became of a book that was to be made of a dump: a line says so behind its commit.
fn fate_of_restore(course: &Course) -> Fate
    ensures { result ≡ fate_of_restore course.now }
{
    if course.restored {
        Fate::Kept
    } else {
        Fate::Dropped
    }
}

/// Returns what became of a call that keeps all or none, and that refused no command, by what was heard of it.
fn fate_heard(heard: &Heard) -> Fate
    ensures { result ≡ fate_heard heard.now }
{
    match &heard.lines.bytes {
        Some(lines) if stops_before_commit(lines, &heard.course) => Fate::Dropped,
        Some(_) if heard.course.faults == 0 && heard.failure.is_none() => Fate::Kept,
        _ => Fate::InDoubt,
    }
}

/// Returns whether an action keeps all or none.
fn keeps_all_or_none(action: &Action) -> bool
    ensures { result ≡ keeps_all_or_none action.now }
{
    match action {
        Action::Post(post) => matches!(post.keeping, Keeping::AllOrNone),
        Action::Import(import) => matches!(import.keeping, Keeping::AllOrNone),
        Action::ImportBy(import) => matches!(import.keeping, Keeping::AllOrNone),
        _ => false,
    }
}

/// Returns whether a run that keeps all or none stopped before its commit, by the lines that were heard of it, of which a fault is
/// the last. Where memory ended in the commit, the fault stands alone.
fn stops_before_commit(lines: &[u8], course: &Course) -> bool
    ensures { result ≡ stops_before_commit lines.now course.now }
{
    if course.faults == 0 || lines.ends_with(b" fault S5 InDoubt\n") {
        return false;
    }
    !lines.ends_with(b" fault Memory\n") || course.standing.is_some() || course.refused > 0
}
