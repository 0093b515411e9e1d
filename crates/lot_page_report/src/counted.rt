//! The entries of a book before its page is written: how many there are, and from which day to
//! which.

ghost use Rattle.std.specs.Prelude.{◌≡◌, ◌+◌, [], IfSome, if◌then◌else◌, true};
ghost use Rattle.lot_page_report.specs.Counted.{HasCounted, days_in, days_with};
ghost use Rattle.lot_page_report.specs.Parts.{covered_by};
ghost use Rattle.lot_rows.specs.declared.entry.EntryRow.{EntryRow as EntryRowOf};
ghost use Rattle.lot_walk.specs.Gains.{Range};
ghost use Rattle.lot_walk.specs.Journal.{said};

use crate::scope::is_within;
use lot_base::Day;
use lot_legs::day_at_front;
use lot_report::{Entry, ReportFault};
use lot_sums::Tally;

/// The days from one to another.
#[derive(Clone, Copy, Debug, PartialEq, Eq)]
pub(crate) struct Days {
    pub first: Day,
    pub last: Day,
}

/// The entries of a book, as they were counted.
#[derive(Drop)]
pub(crate) struct Counted {
    /// The range.
    first: Option<Day>,
    last: Option<Day>,
    /// How many there are.
    pub count: u64,
    /// How many are of the range.
    pub within: u64,
    /// Their first day and their last one, or none where there is no entry.
    days: Option<Days>,
}

impl Counted {
    /// No entries, and a range.
    pub fn new(first: Option<Day>, last: Option<Day>) -> Counted
        ensures { HasCounted (first, last) [] result }
    {
        Counted {
            first,
            last,
            count: 0,
            within: 0,
            days: None,
        }
    }

    /// Returns the days that a page covers: from the first day asked for, or of an entry, to the
    /// last.
    pub fn covered(&self) -> Option<Days>
        ensures { days_in result
            ≡ covered_by (self.now.first, self.now.last) (days_in self.now.days) }
    {
        match self.days {
            Some(days) => Some(Days {
                first: self.first.unwrap_or(days.first),
                last: self.last.unwrap_or(days.last),
            }),
            None => None,
        }
    }
}

impl Tally<Entry> for Counted {
    // The range.
    ghost Terms = { Range };

    ghost Told = { EntryRowOf };

    ghost told = { said };

    ghost fits = { λ _ _ _. true };

    ghost HasTaken = { HasCounted };

    ghost AreLines = { λ _ _ lines. lines ≡ [] };

    /// The error is out of memory. The text of each entry that a walk gives begins with a day, and
    /// no book has more entries than can be counted.
    fn take(&mut self, entry: Entry) -> Result<(), ReportFault> {
        let Some(day) = day_at_front(entry.body.as_str()) else {
            return Err(ReportFault::Memory);
        };
        let is_one = is_within(self.first, self.last, day);
        let Some(within) = with_one(self.within, is_one) else {
            return Err(ReportFault::Memory);
        };
        let Some(count) = with_one(self.count, true) else {
            return Err(ReportFault::Memory);
        };
        self.count = count;
        self.within = within;
        self.days = days_with(self.days, day);
        Ok(())
    }
}

/// Returns a count with one more, if that is one, or `None` where it can't be counted.
fn with_one(count: u64, is_one: bool) -> Option<u64>
    ensures { IfSome result (λ after. after ≡ if is_one then count + 1 else count) }
{
    if is_one {
        count.checked_add(1)
    } else {
        Some(count)
    }
}

/// Returns the days with one more.
fn days_with(days: Option<Days>, day: Day) -> Option<Days>
    ensures { days_in result ≡ days_with (days_in days) day }
{
    match days {
        Some(days) => Some(Days {
            first: if day < days.first { day } else { days.first },
            last: if days.last < day { day } else { days.last },
        }),
        None => Some(Days {
            first: day,
            last: day,
        }),
    }
}
