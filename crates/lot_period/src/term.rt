ghost use Rattle.std.specs.Prelude.{◌≡◌};
ghost use Rattle.lot_period.specs.Term.{term_of, term_text};

use crate::date::date_of;
use jiff_core::civil::Date;
use lot_base::Day;
use std::fmt;

/// The last year of the calendar.
const LAST_YEAR: i16 = 9_999;

/// How long a lot was held when it was sold. It is no rule of any tax.
#[derive(Clone, Copy, Debug, PartialEq, Eq)]
pub enum Term {
    /// It was sold by the same day of the next year, or before it was acquired.
    UpToAYear,
    /// It was sold later than the same day of the next year.
    OverAYear,
}

impl Term {
    /// Returns its text, `up-to-a-year` or `over-a-year`.
    pub fn as_str(self) -> &'static str
        ensures { result.now ≡ term_text self }
    {
        match self {
            Term::UpToAYear => "up-to-a-year",
            Term::OverAYear => "over-a-year",
        }
    }
}

impl fmt::Display for Term {
    ghost use Rattle.std.specs.Prelude.{Some};
    ghost use Rattle.lot_period.specs.Term.{term_text};

    ghost output = { λ term. Some (term_text term) };

    fn fmt<W: fmt::Write>(&self, f: &mut fmt::Formatter<W>) -> fmt::Result {
        f.write_str(self.as_str())
    }
}

/// Returns how long a lot was held that was acquired on one day and sold on another. It was held
/// over a year exactly where it was sold later than the same day of the next year; for one acquired
/// on 29 February that day is 28 February. What was acquired in the year 9999 never was.
pub fn term_of(acquired: Day, sold: Day) -> Term
    ensures { result ≡ term_of acquired sold }
{
    let date = date_of(acquired);
    let day_sold = sold.number();
    if date.year == LAST_YEAR {
        return Term::UpToAYear;
    }
    let year_later = Date::constrain(date.year + 1, date.month, date.day);
    if year_later.to_unix_epoch_day() < day_sold {
        Term::OverAYear
    } else {
        Term::UpToAYear
    }
}
