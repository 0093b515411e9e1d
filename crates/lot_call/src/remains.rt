//! What remains of a call whose output can't be written.

ghost use Rattle.std.specs.Prelude.{◌≡◌};
ghost use Rattle.lot_call.specs.Remains.{kept_of, remains_of};

use crate::call::Call;
use crate::fate::Fate;
use lot_args::{Action, Effect};
use lot_output::{Course, Heard};
use std::{fmt, io};

/// What remains of a call whose output can't be written.
#[derive(Clone, Copy)]
enum Remains {
    /// Nothing was to be kept but the output.
    Output,
    /// Nothing is kept of a dry run.
    DryRun,
    /// The book is made.
    Made,
    /// The book is migrated.
    Migrated,
    /// Commands are in the book up to that one, and the call goes on from that one.
    Commands { last: Option<u64>, from: u64 },
    /// The same of rows.
    Rows { last: Option<u64>, from: u64 },
    /// What was accepted is in the book, and the same call goes on.
    Accepted,
    /// All commands are in the book, or none. The same call tells.
    Whole,
}

/// Says that standard output can't be written, why, and what remains of the call, where that is so.
pub fn say_unwritten(call: &Call<'_>, heard: &Heard, fate: Fate) {
    if let Some(error) = heard.failure
        && !call.is_quiet()
    {
        say(
            call.rt,
            error,
            remains_of(call.action, call.effect, fate, &heard.course),
        );
    }
}

/// Says that standard output can't be written, and why.
pub fn say_cut_short(rt: &HostRuntime, error: io::Error) {
    say(rt, error, Remains::Output);
}

/// Says so, and what remains.
fn say(rt: &HostRuntime, error: io::Error, remains: Remains) {
    let _ = eprintln!(rt; "lotbook: standard output: {error}: {remains}");
}

/// Returns what remains of an action that came so far. The reply to its last command isn't written,
/// so the call goes on there: where that command stands, it is a repeat.
fn remains_of(action: &Action, effect: Effect, fate: Fate, course: &Course) -> Remains
    ensures { result ≡ remains_of action.now effect fate course.now }
{
    match (effect, fate) {
        (Effect::DryRun(_), _) => Remains::DryRun,
        (Effect::Keep, Fate::Dropped) => Remains::Output,
        (Effect::Keep, Fate::InDoubt) => Remains::Whole,
        (Effect::Keep, Fate::Kept) => kept_of(action, course),
    }
}

/// Returns the same where what was accepted is kept.
fn kept_of(action: &Action, course: &Course) -> Remains
    ensures { result ≡ kept_of action.now course.now }
{
    let last = course.standing;
    match (action, course.last) {
        (Action::Post(_) | Action::PostRow { .. }, Some(from)) => Remains::Commands { last, from },
        (Action::Import(_), Some(from)) => Remains::Rows { last, from },
        (Action::ImportBy(_), Some(_)) => Remains::Accepted,
        (Action::Init { .. }, _) if course.faults == 0 => Remains::Made,
        (Action::Restore(_), _) => Remains::Made,
        (Action::Migrate { .. }, _) if course.faults == 0 => Remains::Migrated,
        _ => Remains::Output,
    }
}

impl fmt::Display for Remains {
    ghost use Rattle.std.specs.Prelude.{Some};
    ghost use Rattle.lot_call.specs.Remains.{text_of};

    ghost output = { λ remains. Some (text_of remains) };

    fn fmt<W: fmt::Write>(&self, f: &mut fmt::Formatter<W>) -> Result<(), fmt::Error> {
        match *self {
            Remains::Output => f.write_str("the output is cut short"),
            Remains::DryRun => f.write_str("the output of a dry run is cut short"),
            Remains::Made => f.write_str("the book is made"),
            Remains::Migrated => f.write_str("the book is migrated"),
            Remains::Commands { last, from } => {
                let reached = Reached {
                    what: "command",
                    last,
                    from,
                };
                write!(f, "{reached}")
            }
            Remains::Rows { last, from } => {
                let reached = Reached {
                    what: "row",
                    last,
                    from,
                };
                write!(f, "{reached}")
            }
            Remains::Accepted => f.write_str(
                "the same call, sent again, goes on: what is in the book is a `repeat`",
            ),
            Remains::Whole => f.write_str(
                "the same call, sent again, tells: where all is kept, each line says `repeat`",
            ),
        }
    }
}

/// How far a run came, by the last of what it posts that is in the book, and how it goes on.
#[derive(Clone, Copy)]
struct Reached<'a> {
    /// What it posts, in the singular.
    what: &'a str,
    last: Option<u64>,
    from: u64,
}

impl fmt::Display for Reached<'_> {
    ghost use Rattle.std.specs.Prelude.{Some};
    ghost use Rattle.lot_call.specs.Remains.{reached_text};

    ghost output = { λ reached. Some (reached_text reached.what.now reached.last reached.from) };

    fn fmt<W: fmt::Write>(&self, f: &mut fmt::Formatter<W>) -> Result<(), fmt::Error> {
        let (what, from) = (self.what, self.from);
        match self.last {
            Some(last) => write!(
                f,
                "{what} {last} is the last of this call in the book; --from {from} goes on"
            ),
            None => write!(
                f,
                "no {what} of this call is in the book; --from {from} goes on"
            ),
        }
    }
}
