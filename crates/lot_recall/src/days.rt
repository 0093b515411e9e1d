ghost use Rattle.std.specs.Prelude.{ℤ};
ghost use Rattle.lot_recall.specs.Days.{AreDays, AreDaysOfRows, IsAnyDay, IsBehindDayRows, IsBehindDays, shown_day};
ghost use Rattle.lot_walk.specs.Step.{HasGivenNoRows, HasGivenNone};

use lot_base::Day;
use lot_legs::day_at_front;
use lot_page::EntryCursor;
use lot_table::Fault;
use lot_walk::Place;
use sqlite::{Alter, Connection};
use std::alloc::Global;

/// The place of a walk over the days of the entries of a book, in the order of the entries.
#[derive(Drop)]
pub struct DaysPlace {
    cursor: EntryCursor,
}

impl DaysPlace {
    /// Returns the place before the first entry. It takes no memory.
    pub fn new(alloc: Global) -> DaysPlace
        ensures begun { HasGivenNone AreDays IsBehindDays result tt }
        ensures rows { HasGivenNoRows IsBehindDayRows result tt }
    {
        DaysPlace {
            cursor: EntryCursor::new(alloc),
        }
    }
}

impl Place for DaysPlace {
    type Row = Day;

    ghost Asked = { Unit {0} };

    ghost Shown = { ℤ };

    ghost shown = { shown_day };

    ghost IsGood = { IsAnyDay };

    ghost AreAll = { AreDays };

    ghost IsBehind = { IsBehindDays };

    ghost AreAllRows = { AreDaysOfRows };

    ghost IsBehindRows = { IsBehindDayRows };

    /// `Damaged` is returned also where the text of an entry begins with no day.
    fn next<S: Alter>(
        &mut self,
        _alloc: Global,
        conn: &mut Connection<S>,
    ) -> Result<Option<Day>, Fault> {
        let Some(row) = self.cursor.next(conn)? else {
            return Ok(None);
        };
        match day_at_front(row.body.as_str()) {
            Some(day) => Ok(Some(day)),
            None => Err(Fault::Damaged),
        }
    }
}
