ghost use Rattle.std.specs.Prelude.{◌≡◌, ◌∷◌, [], pos, ◌≤ℤ◌, ◌-◌, ◌<◌, Some, IsTrue, IfOk, IfSome, SomeIff, OkIff, MatchOption};
ghost use Rattle.std.specs.Result.{result_ok};
ghost use Rattle.std.specs.Char.{is_ascii_digit};
ghost use Rattle.std.specs.List.{slice_split};
ghost use Rattle.std.specs.String.{string_bytes};
ghost use Rattle.jiff_core.specs.Date.{epoch_day};
ghost use Rattle.lot_base.specs.Day.{IsDayNumber, IsDay, day_number, day_text, named_day, named_date, number_in, is_separator};

use jiff::civil::Date;
use jiff_core::civil;
use std::alloc::{AllocError, Global};
use std::fmt;
use std::marker::Model;
use thiserror::Error;

/// The number of 0001-01-01, in days since 1970-01-01.
const FIRST: i32 = -719_162;

/// The number of 9999-12-31, in days since 1970-01-01.
const LAST: i32 = 2_932_896;

/// Why there is no day.
#[derive(Clone, Copy, Debug, PartialEq, Eq, Error)]
pub enum DayFault {
    /// The text isn't a day, or the calendar of the years 1 to 9999 hasn't that day.
    #[error("not a day of the years 1 to 9999")]
    BadDay,
}

/// A day of the calendar, from 0001-01-01 to 9999-12-31, as `jiff` has it.
///
/// A contract sees a day as its number, in days since 1970-01-01, and days are compared by it. `{}` writes `YYYY-MM-DD`.
#[derive(Clone, Copy, Debug, PartialEq, Eq, PartialOrd, Ord, Hash)]
pub struct Day {
    number: i32,
}

impl Model for Day {
    ghost use Rattle.std.specs.Prelude.{ℤ};
    ghost use Rattle.lot_base.specs.Day.{IsDayNumber};

    ghost Value = { ℤ };

    ghost view = { λ d. d.number };

    ghost inverse = { λ n. record { number = n } };

    ghost invariant = { λ d. IsDayNumber d.number };
}

impl Day {
    /// Returns the day of that year, month and day of the month, all counted from 1.
    ///
    /// The error is `BadDay`, exactly where the year isn't 1 to 9999 or the calendar hasn't that day.
    pub fn new(year: i16, month: i8, day: i8) -> Result<Day, DayFault>
        ensures { OkIff result (IsDay year month day) (day_number year month day) }
    {
        if year < 1 {
            return Err(DayFault::BadDay);
        }
        match Date::new(year, month, day) {
            Ok(date) => Ok(Day {
                number: date.to_plain().to_unix_epoch_day(),
            }),
            Err(_) => Err(DayFault::BadDay),
        }
    }

    /// Returns the day that a text names: four digits, one or two digits, and one or two digits, with `-` or `/`
    /// between them, which may differ.
    ///
    /// The error is `BadDay`, exactly where the text isn't of this form, or the calendar of the years 1 to 9999 hasn't that
    /// day.
    pub fn parse(text: &str) -> Result<Day, DayFault>
        ensures { result_ok result ≡ named_day text.now }
    {
        let Some((year, month, day)) = named_date(text.as_bytes()) else {
            return Err(DayFault::BadDay);
        };
        Day::new(year as i16, month as i8, day as i8)
    }

    /// Returns the number of the day, in days since 1970-01-01.
    pub fn number(self) -> i32
        ensures value { result ≡ self }
        ensures bound { IsDayNumber result }
    {
        self.number
    }

    /// Returns the day with that number, in days since 1970-01-01, or `None` where it isn't in the years 1 to 9999.
    pub fn from_number(number: i32) -> Option<Day>
        ensures { SomeIff result (IsDayNumber number) number }
    {
        if number < FIRST || number > LAST {
            return None;
        }
        Some(Day { number })
    }

    /// Returns the text of the day, `YYYY-MM-DD`. The only error is out of memory.
    pub fn text(self, alloc: Global) -> Result<String, AllocError>
        ensures { IfOk result (λ text. string_bytes text ≡ day_text self) }
    {
        self.to_string(alloc)
    }

    /// Returns the date of the calendar.
    fn date(self) -> Date
        ensures number { epoch_day result ≡ self }
        ensures year { pos 1 ≤ℤ result.year }
    {
        match civil::Date::from_unix_epoch_day(self.number as i64) {
            Ok(date) => Date::from_plain(date),
            Err(_) => unreachable!(),
        }
    }
}

impl fmt::Display for Day {
    ghost output = { λ d. Some (day_text d) };

    fn fmt<W: fmt::Write>(&self, f: &mut fmt::Formatter<W>) -> fmt::Result {
        fmt::Display::fmt(&self.date(), f)
    }
}

/// Returns the year, month and day that a text names, which the calendar need not have.
fn named_date(text: &[u8]) -> Option<(u16, u16, u16)>
    ensures value { result ≡ named_date text.now }
    ensures bounds { IfSome result (λ date. (date.0 < 10_000) × (date.1 < 100) × (date.2 < 100)) }
{
    let (year, rest) = cut(text)?;
    let (month, day) = cut(rest)?;
    Some((
        year_in(year)?,
        month_or_day_in(month)?,
        month_or_day_in(day)?,
    ))
}

/// Returns what stands before and after the first separator.
fn cut(text: &[u8]) -> Option<(&[u8], &[u8])>
    ensures { MatchOption result (slice_split is_separator text.now ≡ text.now ∷ [])
        (λ cut.
        slice_split is_separator text.now ≡ cut.0.now ∷ slice_split is_separator cut.1.now) }
{
    let at = text.iter().position(|b| is_separator(*b))?;
    Some((&text[..at], &text[at + 1..]))
}

/// Returns whether the byte is a separator of a day text.
fn is_separator(b: u8) -> bool
    ensures { result ≡ is_separator b }
{
    b == b'-' || b == b'/'
}

/// Returns the year that four digits say.
fn year_in(part: &[u8]) -> Option<u16>
    ensures value { result ≡ number_in 4 4 part.now }
    ensures bound { IfSome result (λ year. year < 10_000) }
{
    match part {
        [a, b, c, d] => Some(1_000 * digit(*a)? + 100 * digit(*b)? + 10 * digit(*c)? + digit(*d)?),
        _ => None,
    }
}

/// Returns the month or the day of the month that one or two digits say.
fn month_or_day_in(part: &[u8]) -> Option<u16>
    ensures value { result ≡ number_in 1 2 part.now }
    ensures bound { IfSome result (λ n. n < 100) }
{
    match part {
        [ones] => digit(*ones),
        [tens, ones] => Some(10 * digit(*tens)? + digit(*ones)?),
        _ => None,
    }
}

/// Returns what a digit says.
fn digit(b: u8) -> Option<u16>
    ensures { SomeIff result (IsTrue (is_ascii_digit b)) (b - 48) }
{
    if b.is_ascii_digit() {
        Some((b - b'0') as u16)
    } else {
        None
    }
}
