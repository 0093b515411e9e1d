//! What is said of a call on standard error, beside why commands were refused.

use crate::call::Call;
use crate::fate::Fate;
use lot_args::{Action, Effect};
use lot_files::Cause;
use lot_output::Course;
use lot_without::Tolerance;
use std::io::IsTerminal;

/// Says why the book of that path can't be opened.
pub fn say_why(call: &Call<'_>, path: &str, cause: Cause) {
    if call.is_quiet() {
        return;
    }
    let _ = if path.is_empty() {
        eprintln!(call.rt; "lotbook: the path of the book is empty")
    } else {
        eprintln!(call.rt; "lotbook: {path}: {cause}")
    };
}

/// Says, on a terminal, how many of the commands of a run were accepted, stood already and were
/// refused, and how long the call took.
pub fn sum_up(call: &Call<'_>, course: &Course) {
    let rt = call.rt;
    if call.runs().is_none() || !rt.stderr().is_terminal() {
        return;
    }
    let Course {
        accepted,
        repeated,
        refused,
        ..
    } = course;
    let _ = eprint!(rt; "{accepted} accepted, {repeated} repeated, {refused} refused");
    if let Some(begun) = call.begun
        && let Ok(took) = begun.elapsed(rt)
    {
        let (seconds, tenths) = (took.as_secs(), took.subsec_millis() / 100);
        let _ = eprint!(rt; " in {seconds}.{tenths} s");
    }
    let _ = match call.effect {
        Effect::DryRun(_) => eprintln!(rt; ": a dry run, of which nothing is kept"),
        Effect::Keep => eprintln!(rt; ""),
    };
}

/// Says what is kept of a call that keeps all or none, where it isn't all: of one that refused commands, of one that stopped at a
/// fault, and of one whose commit is in doubt. Of a dump of which no book is made it says so, unless a fault does.
pub fn say_fate(call: &Call<'_>, fate: Fate, course: &Course) {
    if call.is_quiet() {
        return;
    }
    let (rt, path) = (call.rt, call.path);
    if let (Fate::Dropped, Some(tolerance)) = (fate, tolerance_of(call)) {
        if course.faults == 0 {
            say_not_made(call, tolerance);
        }
        return;
    }
    match fate {
        Fate::Dropped if course.refused > 0 => {
            let _ = eprintln!(rt;
                "lotbook: {path}: nothing is kept, since not all was accepted: entries and lots are named above as the call would have made them"
            );
        }
        Fate::Dropped => {
            let _ = eprintln!(rt;
                "lotbook: {path}: nothing is kept, since the call stopped: send it again whole"
            );
        }
        Fate::InDoubt if course.faults > 0 => {
            let _ = eprintln!(rt;
                "lotbook: {path}: all is kept or nothing: send the call again whole, and what is kept is a repeat"
            );
        }
        Fate::InDoubt | Fate::Kept => {}
    }
}

/// Returns what a call that restores a dump bears with, and nothing of any other call.
fn tolerance_of(call: &Call<'_>) -> Option<Tolerance> {
    match call.action {
        Action::Restore(asked) => Some(asked.tolerance),
        _ => None,
    }
}

/// Says of a dump that no book is made of it, and why.
fn say_not_made(call: &Call<'_>, tolerance: Tolerance) {
    let (rt, path) = (call.rt, call.path);
    let _ = match tolerance {
        Tolerance::KeepGoing => eprintln!(rt;
            "lotbook: {path}: no book is made, since an option met nothing"
        ),
        Tolerance::AllAccepted => eprintln!(rt;
            "lotbook: {path}: no book is made, since not all was accepted, or an option met nothing: `lotbook explain CODE` says what a code means, and --keep-going leaves out what is refused"
        ),
    };
}
