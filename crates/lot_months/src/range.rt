ghost use Rattle.std.specs.Prelude.{◌≡◌};
ghost use Rattle.lot_months.specs.Range.{IsRangeOf, months_before, place_in};

use jiff_core::civil::Date;
use lot_base::Day;
use lot_plot::Month;

/// The most months that are looked at.
pub const MOST_MONTHS: u32 = 600;

/// Returns the month in which a day lies.
pub fn month_of(day: Day) -> Month
    ensures { result.0 ≡ months_before day }
{
    match Date::from_unix_epoch_day(i64::from(day.number())) {
        Ok(date) => Month(date.year as u32 * 12 + (u32::from(date.month) - 1)),
        Err(_) => unreachable!(),
    }
}

/// Months one after another, up to a day.
#[derive(Clone, Copy, Debug, PartialEq, Eq)]
pub struct MonthRange {
    pub first: Month,
    /// How many there are, at least one.
    pub count: u32,
    /// How many there would be without a bound.
    pub whole: u32,
    /// The last day that counts.
    pub last: Day,
}

impl MonthRange {
    /// Returns the months from a day to another, the last of them where there are many. There is
    /// none where the range ends before it begins.
    pub fn between(first: Day, last: Day) -> Option<MonthRange>
        ensures { IsRangeOf first last result }
    {
        if last < first {
            return None;
        }
        let end = month_of(last);
        let whole = end.0.saturating_sub(month_of(first).0).saturating_add(1);
        let count = whole.min(MOST_MONTHS);
        Some(MonthRange {
            first: Month(end.0.saturating_sub(count - 1)),
            count,
            whole,
            last,
        })
    }

    /// Returns the place of the month at whose end what happens on a day counts first, from 0: that
    /// of its own month, or the first one for a day before. A day behind the last one never counts.
    pub fn place(&self, day: Day) -> Option<u32>
        ensures { result ≡ place_in self.now day }
    {
        if day > self.last {
            return None;
        }
        Some(month_of(day).0.saturating_sub(self.first.0))
    }
}
