ghost use Rattle.std.specs.Prelude.{◌≡◌, not};
ghost use Rattle.lot_page_report.specs.Parts.{asked_prices, end_of, page_in, price_day};
ghost use Rattle.lot_walk.specs.Gains.{is_from, is_up_to, is_within};

use lot_base::Day;

/// What is said of a book at the head of its page.
#[derive(Clone, Copy, Debug, PartialEq, Eq)]
pub enum Heading {
    /// Its name, the days, and how many entries it has.
    Entries,
    /// The same, and the digest of its dump.
    Digest,
}

/// What a page is of.
#[derive(Clone, Copy)]
pub struct PageScope<'a> {
    /// The name of the file of the book.
    pub name: &'a str,
    /// The first day of the sales and entries, or none where they begin with the book.
    pub first: Option<Day>,
    /// The last day of them, at whose end holdings are, or none where all count.
    pub last: Option<Day>,
    /// The day of the prices of what is held, or none where they are those of the last day.
    pub day: Option<Day>,
    pub heading: Heading,
}

/// The number of the last day of the calendar.
const END: i32 = 2_932_896;

impl PageScope<'_> {
    /// Returns the day at whose end holdings are: the last one, or the last of the calendar.
    pub(crate) fn end(&self) -> Day
        ensures { result ≡ end_of (page_in self.now) }
    {
        match self.last {
            Some(last) => last,
            None => match Day::from_number(END) {
                Some(end) => end,
                None => unreachable!(),
            },
        }
    }

    /// Returns the day of the prices.
    pub(crate) fn price_day(&self) -> Day
        ensures { result ≡ price_day (page_in self.now) }
    {
        self.day.unwrap_or(self.end())
    }

    /// Returns the day of the prices, where one was asked for.
    pub(crate) fn asked_prices(&self) -> Option<Day>
        ensures { result ≡ asked_prices (page_in self.now) }
    {
        match self.day {
            Some(day) => Some(day),
            None => self.last,
        }
    }
}

/// Returns whether a day is in a range, both ends included. Without a day that end is open.
pub(crate) fn is_within(first: Option<Day>, last: Option<Day>, day: Day) -> bool
    ensures { result ≡ is_within (first, last) day }
{
    has_begun(first, day) && !has_ended(last, day)
}

/// Returns whether a range hasn't begun later than on a day.
fn has_begun(first: Option<Day>, day: Day) -> bool
    ensures { result ≡ is_from first day }
{
    match first {
        Some(first) => first <= day,
        None => true,
    }
}

/// Returns whether a range has ended before a day.
fn has_ended(last: Option<Day>, day: Day) -> bool
    ensures { result ≡ not (is_up_to last day) }
{
    match last {
        Some(last) => last < day,
        None => false,
    }
}
