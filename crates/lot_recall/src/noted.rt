ghost use Rattle.std.specs.Prelude.{◌≡◌, ◌≢◌, Err, IfOk};
ghost use Rattle.lot_noted.specs.Book.{noted};
ghost use Rattle.lot_recall.specs.Noted.{AreNoted, AreNotedRows, IsBehindNoted, IsBehindNotedRows, SaysNothing, Tells};
ghost use Rattle.lot_recall.specs.Place.{IsAnyNoted, shown_noted};
ghost use Rattle.lot_register.specs.declared.leg.NotedLeg.{NotedLeg as NotedLegOf};
ghost use Rattle.lot_walk.specs.Step.{HasGivenNoRows, HasGivenNone};

use crate::said::copy_of;
use lot_base::Note;
use lot_legs::{DatedLeg, LegsPlace};
use lot_noted::narration_in;
use lot_print::laws::canonical_texts_tell_commands_apart;
use lot_register::NotedLeg;
use lot_table::Fault;
use lot_walk::Place;
use sqlite::{Alter, Connection};
use std::alloc::Global;

/// The narration of an entry.
#[derive(Drop)]
struct EntryNote {
    /// The number of the entry, from 1.
    entry: u32,
    narration: Option<Note>,
}

/// The place of a walk over all legs of a book, in the order of entries, postings and places, each
/// with the day and the narration of its entry.
#[derive(Drop)]
pub struct NotedPlace {
    legs: LegsPlace,
    /// The narration that was read last, if one was.
    last: Option<EntryNote>,
}

impl NotedPlace {
    /// Returns the place before the first leg. It takes no memory.
    pub fn new(alloc: Global) -> NotedPlace
        ensures begun { HasGivenNone AreNoted IsBehindNoted result tt }
        ensures rows { HasGivenNoRows IsBehindNotedRows result tt }
    {
        NotedPlace {
            legs: LegsPlace::new(alloc),
            last: None,
        }
    }

    /// Returns the narration of the entry of the leg that was read last. The one that was read last
    /// isn't read again.
    ///
    /// The error is `Damaged` where the entry has no text, or one whose first line is that of no
    /// command; or `Memory`.
    fn narration(&mut self, alloc: Global, entry: u32) -> Result<Option<Note>, Fault>
        ensures legs { self.new.legs ≡ self.old.legs }
        ensures tells { IfOk result (Tells entry self.old self.new) }
        ensures damaged { result ≡ Err Fault.Damaged → SaysNothing entry self.old.legs }
        ensures no_device { result ≢ Err Fault.Device }
    {
        if let Some(last) = &self.last {
            if last.entry == entry {
                return Ok(copy_of(&last.narration)?);
            }
        }
        let Some(text) = self.legs.text() else {
            return Err(Fault::Damaged);
        };
        let narration = narration_in(alloc, text)?;
        self.last = Some(EntryNote {
            entry,
            narration: copy_of(&narration)?,
        });
        Ok(narration)
    }
}

impl Place for NotedPlace {
    type Row = NotedLeg;

    ghost Asked = { Unit {0} };

    ghost Shown = { NotedLegOf };

    ghost shown = { shown_noted };

    ghost IsGood = { IsAnyNoted };

    ghost AreAll = { AreNoted };

    ghost IsBehind = { IsBehindNoted };

    ghost AreAllRows = { AreNotedRows };

    ghost IsBehindRows = { IsBehindNotedRows };

    /// `Damaged` is returned also where the entry of the leg has no row, or a text that is that of no
    /// command.
    fn next<S: Alter>(
        &mut self,
        alloc: Global,
        conn: &mut Connection<S>,
    ) -> Result<Option<NotedLeg>, Fault> {
        canonical_texts_tell_commands_apart();
        let Some(leg) = self.legs.next(alloc, conn)? else {
            return Ok(None);
        };
        let narration = self.narration(alloc, leg.entry)?;
        Ok(Some(noted(leg, narration)))
    }
}

/// Returns a leg with a narration.
fn noted(leg: DatedLeg, narration: Option<Note>) -> NotedLeg
    ensures { result ≡ noted narration leg }
{
    let DatedLeg {
        entry,
        day,
        posting,
        place,
        account,
        commodity,
        units,
        lot,
    } = leg;
    NotedLeg {
        day,
        entry,
        posting,
        place,
        account,
        commodity,
        units,
        lot,
        narration,
    }
}
