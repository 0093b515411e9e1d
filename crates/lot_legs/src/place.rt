ghost use Rattle.std.specs.Prelude.{option_copied};
ghost use Rattle.lot_legs.specs.Legs.{AreAllLegRows, AreDatedLegs};
ghost use Rattle.lot_legs.specs.Place.{IsAnyLeg, IsBehindLegRows, IsBehindLegs, IsLastText, shown_leg};
ghost use Rattle.lot_legs.specs.declared.leg.DatedLeg.{DatedLeg as DatedLegOf};
ghost use Rattle.lot_walk.specs.Step.{HasGivenNoRows, HasGivenNone};

use crate::days::EntryDays;
use crate::leg::{DatedLeg, dated_row};
use lot_page::LegCursor;
use lot_table::Fault;
use lot_walk::Place;
use sqlite::{Alter, Connection};
use std::alloc::Global;

/// The place of a walk over the legs of a book, in the order of entries, postings and places, each with the day of its entry.
/// It reads the rows of the tables `leg` and `entry` side by side, a page at a time.
#[derive(Drop)]
pub struct LegsPlace {
    legs: LegCursor,
    days: EntryDays,
}

impl LegsPlace {
    /// Returns the place before the first leg. It takes no memory.
    pub fn new(alloc: Global) -> LegsPlace
        ensures begun { HasGivenNone AreDatedLegs IsBehindLegs result tt }
        ensures rows { HasGivenNoRows IsBehindLegRows result tt }
    {
        let legs = LegCursor::new(alloc);
        let days = EntryDays::new(alloc);
        LegsPlace { legs, days }
    }

    /// Returns the text of the entry of the leg that was given last. There is none before the first
    /// leg, and after an error it may be that of another entry.
    pub fn text(&self) -> Option<&str>
        ensures { IsLastText self.now (option_copied result) }
    {
        self.days.text()
    }
}

impl Place for LegsPlace {
    type Row = DatedLeg;

    ghost Asked = { Unit {0} };

    ghost Shown = { DatedLegOf };

    ghost shown = { shown_leg };

    ghost IsGood = { IsAnyLeg };

    ghost AreAll = { AreDatedLegs };

    ghost IsBehind = { IsBehindLegs };

    ghost AreAllRows = { AreAllLegRows };

    ghost IsBehindRows = { IsBehindLegRows };

    /// `Damaged` is returned also where the entry of the leg has no row, or a text that begins with no day. `Memory` is returned
    /// also where more entries are passed over than a `u64` counts.
    fn next<S: Alter>(
        &mut self,
        _alloc: Global,
        conn: &mut Connection<S>,
    ) -> Result<Option<DatedLeg>, Fault> {
        let Some(row) = self.legs.next(conn)? else {
            return Ok(None);
        };
        let day = self.days.day_of(conn, row.entry.number())?;
        Ok(Some(dated_row(row, day)))
    }
}
