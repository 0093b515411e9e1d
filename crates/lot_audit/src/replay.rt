ghost use Rattle.std.specs.Prelude.{◌≡◌, [], IfOk, IfSome, List, None, Ok, length};
ghost use Rattle.lot_book.specs.Edition.{After, edition_on};
ghost use Rattle.lot_book.specs.Facts.{Entry, text_under};
ghost use Rattle.lot_book.specs.Step.{Accept, StepIn};
ghost use Rattle.lot_book.specs.declared.leg.Leg.{Leg};
ghost use Rattle.lot_command.specs.declared.key.Key.{Key};
ghost use Rattle.lot_audit.specs.Replay.{Follows, Replays};

use lot_book::{Change, Edition, Stop};
use lot_command::Command;
use lot_ledger::{Outcome, decide};
use lot_view::View;
use std::alloc::{AllocError, Global};

/// All that the entries of a book say that were judged again, one after another.
///
/// It grows with the accounts and commodities of the book, and with what is held, not with the
/// entries.
#[derive(Drop)]
pub(crate) struct Replay {
    /// As many entries as the migration found: these are judged by edition 1.
    place: u32,
    view: View,
}

impl Replay {
    /// Returns what is known before the first entry of a book with that place of migration. It
    /// takes no memory.
    pub(crate) fn new(alloc: Global, place: u32) -> Replay
        ensures place { result.place ≡ place }
        ensures none { Replays result [] }
    {
        Replay {
            place,
            view: View::new(alloc, 0),
        }
    }

    /// Returns what the entries so far say, to compare tables with.
    pub(crate) fn view(&self) -> &View
        ensures { result.now ≡ self.now.view }
    {
        &self.view
    }

    /// Judges the command of the next entry by its edition. Returns what is known with the entry,
    /// and what the entry changes, or `None` where no step accepts the command.
    ///
    /// The key of the entry must be new, which the caller sees. The only error is out of memory.
    pub(crate) fn judge(
        self,
        alloc: Global,
        command: &Command,
    ) -> Result<Option<(Replay, Change)>, AllocError>
        ensures follows { IfOk result (λ judged. IfSome judged (λ it.
            (entries : List Entry) (key : Key)
            → Replays self entries → text_under entries key ≡ None
            → Follows self it.0 entries key command.now it.1)) }
        ensures refused { result ≡ Ok None
            → (entries : List Entry) (key : Key) (legs : List Leg) → Replays self entries
            → ¬ StepIn (edition_on (After self.place) entries) entries key command.now
            (Accept legs) }
    {
        let Replay { place, view } = self;
        let edition = edition_behind(place, view.entries());
        match decide(alloc, edition, &view, command) {
            Ok(Outcome::Accept(change)) => {
                let view = view.record(command, &change)?;
                Ok(Some((Replay { place, view }, change)))
            }
            Ok(Outcome::Repeat) => Ok(None),
            Err(Stop::Refused(_)) => Ok(None),
            Err(Stop::Memory) => Err(AllocError),
        }
    }
}

/// Returns the edition that judges the entry behind so many.
fn edition_behind(place: u32, entries: u32) -> Edition
    ensures { (book : List Entry) → entries ≡ length book
        → result ≡ edition_on (After place) book }
{
    if entries < place {
        Edition::First
    } else {
        Edition::Second
    }
}
