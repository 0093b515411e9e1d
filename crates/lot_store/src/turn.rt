//! Turns: which command is judged in the place of one that was handed in, where an account takes the crumbs, or lots are split.
ghost use Rattle.std.specs.Prelude.{◌≡◌, false, IfOk, IfSome, None, Some, option_copied};
ghost use Rattle.lot_book.specs.Openings.{ties_on};
ghost use Rattle.lot_book.specs.Step.{DecidesUnder, Outcome as OutcomeOf};
ghost use Rattle.lot_load.specs.Kept.{IsOf, Keeps};
ghost use Rattle.lot_load.specs.Paired.{KeepsPaired};
ghost use Rattle.lot_load.specs.Tells.{Tells};
ghost use Rattle.lot_store.specs.Turned.{FitsVerdict, IsTried, IsTurned, TurnsTo, judged_of, refusal_of};
ghost use Rattle.lot_view.specs.View.{known, known_with_openings};
ghost use Rattle.sqlite.specs.Held.{state};
ghost use Rattle.sqlite.specs.State.{HasCleanDisk};

use crate::fault::StoreFault;
use crate::trial::{Trial, trial_of};
use lot_command::{Command, Key};
use lot_completion::laws::there_is_one_completion;
use lot_completion::{Note, Watch, untaken};
use lot_ledger::{Edition, Outcome, Refusal, Stop, Verdict, View, decide};
use lot_load::{Kept, look_on};
use lot_print::laws::canonical_texts_tell_commands_apart;
use lot_rounding::{Asked, Rounding};
use lot_split::laws::there_is_one_split_on;
use lot_table::{Fault, Queryable};
use sqlite::{Alter, Connection};
use std::alloc::{AllocError, Global};

/// The turn of a command that was handed in: what is judged, once that is worked out on the book.
#[derive(Drop)]
pub struct Turn {
    /// The command that is judged in its place, where there is one.
    pub other: Option<Command>,
    /// What there is to tell of its crumbs or its split, once it comes to a verdict.
    pub note: Option<Note>,
}

impl Turn {
    /// Returns the turn of a command that is judged as it was handed in.
    fn as_handed_in(note: Option<Note>) -> Turn
        ensures { result.other ≡ None }
    {
        Turn { other: None, note }
    }

    /// Returns what is judged in the place of what was handed in.
    pub fn judged<'a>(&'a self, asked: &'a Asked) -> &'a Command
        ensures { result.now ≡ judged_of self.now asked.now }
    {
        match &self.other {
            Some(other) => other,
            None => &asked.command,
        }
    }

    /// Returns what there is to tell of a command that came to that verdict: what the account took of one that was accepted, or why
    /// the completion or the split of one that was refused isn't judged in its place.
    pub fn told(self, verdict: &Verdict) -> Option<Note>
        ensures told { IfSome result (λ note. (self.note ≡ Some note)
            × FitsVerdict verdict.now note) }
    {
        match (self.note?, verdict) {
            (Note::Taken(crumbs), Verdict::Accepted) => Some(Note::Taken(crumbs)),
            (Note::Beyond { currency, crumb }, Verdict::Refused(_)) => {
                Some(Note::Beyond { currency, crumb })
            }
            (Note::Refused(refusal), Verdict::Refused(_)) => Some(Note::Refused(refusal)),
            (Note::Unsplit(fault), Verdict::Refused(_)) => Some(Note::Unsplit(fault)),
            _ => None,
        }
    }
}

/// Works out what is judged in the place of a command that was handed in, on what is kept of the book,
/// where an account takes the crumbs. Without one it is what was handed in. Then it keeps what is known
/// of the book.
pub(crate) fn turn_of<S: Alter>(
    alloc: Global,
    conn: &mut Connection<S>,
    kept: &mut Option<Kept>,
    rounding: Option<&Rounding>,
    key: &Key,
    asked: &Asked,
) -> Result<Turn, StoreFault>
    requires outside { HasCleanDisk (state S.Store conn.old) → conn.old.in_transaction ≡ false }
    requires unlimited { conn.old.step_limit ≡ None }
    ensures outside { HasCleanDisk (state S.Store conn.new) → conn.new.in_transaction ≡ false }
    ensures turns { TurnsTo (IsOf kept.old) (IsOf kept.new) (option_copied rounding.entry)
        (key.now, asked.now) (state S.Store conn.old) (state S.Store conn.new) result }
    ensures whole { KeepsPaired kept.old kept.new
        (state S.Store conn.old) (state S.Store conn.new) }
{
    let Some(rounding) = rounding else {
        return Ok(Turn::as_handed_in(None));
    };
    // Outside a transaction the tables are those of the last commit.
    let _settled = conn.is_autocommit();
    let (looked, turn) = turn_with(alloc, conn, kept.take(), rounding, key, asked)?;
    *kept = Some(looked);
    Ok(turn)
}

/// Returns the turn of a command on what is kept of the book, with an account for the crumbs, and what
/// is known of the book then.
pub fn turn_with<D: Queryable>(
    alloc: Global,
    conn: &mut D,
    kept: Option<Kept>,
    rounding: &Rounding,
    key: &Key,
    asked: &Asked,
) -> Result<(Kept, Turn), Fault>
    ensures same_reference { D.reference conn.new ≡ D.reference conn.old }
    ensures tells { Tells (λ found entries. IsOf kept entries → Keeps found.0 entries
        × IsTurned (Some rounding.now) entries (key.now, asked.now)
        (key.now, judged_of found.1 asked.now))
        (D.shown conn.old) (D.shown conn.new) result }
    ensures whole { IfOk result (λ found. KeepsPaired kept (Some found.0)
        (D.shown conn.old) (D.shown conn.new)) }
{
    canonical_texts_tell_commands_apart();
    there_is_one_completion();
    there_is_one_split_on();
    let looked = look_on(alloc, conn, kept, key, &asked.command)?;
    let Trial { other, note } = trial_of(alloc, looked.view(), rounding, asked)?;
    match other {
        Some(other) => try_with(alloc, conn, looked, key, other, note),
        None => Ok((looked, Turn::as_handed_in(note))),
    }
}

/// Returns the turn of a command in whose place this one is tried, and what is known of the book then.
/// It is judged in that place where it is accepted or repeats an entry, and there is that to tell.
fn try_with<D: Queryable>(
    alloc: Global,
    conn: &mut D,
    kept: Kept,
    key: &Key,
    other: Command,
    note: Option<Note>,
) -> Result<(Kept, Turn), Fault>
    ensures same_reference { D.reference conn.new ≡ D.reference conn.old }
    ensures tells { Tells (λ found entries. Keeps kept entries → Keeps found.0 entries
        × IsTried entries key.now other found.1.other)
        (D.shown conn.old) (D.shown conn.new) result }
    ensures whole { IfOk result (λ found. KeepsPaired (Some kept) (Some found.0)
        (D.shown conn.old) (D.shown conn.new)) }
{
    let looked = look_on(alloc, conn, Some(kept), key, &other)?;
    match refusal_of(alloc, looked.view(), &other)? {
        Some(refusal) => {
            let note = Note::Refused(refusal);
            Ok((looked, Turn::as_handed_in(Some(note))))
        }
        None => {
            let turn = Turn {
                other: Some(other),
                note,
            };
            Ok((looked, turn))
        }
    }
}

/// Returns why edition 2 refuses a command on a view that is that of its key, or `None` where it is
/// accepted or repeats an entry. The only error is out of memory.
fn refusal_of(alloc: Global, view: &View, command: &Command) -> Result<Option<Refusal>, AllocError>
    ensures { IfOk result (λ refusal. (outcome : OutcomeOf)
        × DecidesUnder (ties_on (known_with_openings view.now)) (known view.now)
        command.now outcome
        × (refusal ≡ refusal_of outcome)) }
{
    match decide(alloc, Edition::Second, view, command) {
        Ok(Outcome::Accept(_)) => Ok(None),
        Ok(Outcome::Repeat) => Ok(None),
        Err(Stop::Refused(refusal)) => Ok(Some(refusal)),
        Err(Stop::Memory) => Err(AllocError),
    }
}

/// Returns what would balance a command that came to a verdict on what is kept, where no account takes
/// crumbs and somebody asks for that.
pub(crate) fn untaken_on<N: Watch>(
    alloc: Global,
    kept: &Option<Kept>,
    command: &Command,
    verdict: &Verdict,
    watch: &N,
) -> Option<Note> {
    let view = kept.as_ref()?.view();
    untaken(alloc, view, command, verdict, watch)
}
