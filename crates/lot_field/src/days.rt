//! Days and times in the form that a profile names.
ghost use Rattle.std.specs.Prelude.{◌≡◌, ◌<◌, ◌≤◌, ◌^◌, false, map, length, None, Some, IfSome, MatchOption};
ghost use Rattle.lot_base.specs.Day.{date_number};
ghost use Rattle.lot_field.specs.Days.{IsShort, begin_with_number, begins_with_letter, begins_with_word, behind_colon, ends_day, half_at, hours_of, in_digits, in_letters, in_one_or_two, in_width, is_number, month_among, no_date, read_part, read_parts, seconds_in, time_behind, time_of, width_between};

use crate::field::{behind, cut_bytes, is_blank, without_leading};
use crate::numbers::{are_digits, written};
use lot_base::Day;
use lot_command::Items;
use std::marker::Model;

/// A part of how days are written.
#[derive(Clone, Copy, Debug, PartialEq, Eq)]
pub enum DayPart {
    /// `YYYY`: the year, four digits.
    Year,
    /// `MM`: the month, two digits, or also one where no other number stands right beside it.
    Month,
    /// `Mon`: the first three letters of the month's English name.
    MonthName,
    /// `DD`: the day of the month, in as many digits as the month.
    Day,
    /// That byte of ASCII, which is no letter and no digit.
    Sign(u8),
}

/// How the days of a file are written: these parts, one after another.
pub struct DayForm {
    pub parts: Items<DayPart>,
}

impl Drop for DayForm {
    /// It is written out, so that callers don't prove again how each part is dropped.
    fn drop(self) {
        let DayForm { parts: _parts } = self;
    }
}

/// A time of a day, in whole seconds since midnight. A contract sees their number, and times are compared by it.
#[derive(Clone, Copy, Debug, PartialEq, Eq, PartialOrd, Ord)]
pub struct Time {
    seconds: u32,
}

impl Model for Time {
    ghost use Rattle.std.specs.Prelude.{ℕ, ◌<◌};

    ghost Value = { ℕ };

    ghost view = { λ t. t.seconds };

    ghost inverse = { λ n. record { seconds = n } };

    ghost invariant = { λ t. t.seconds < 86_400 };
}

impl Time {
    ghost use Rattle.lot_field.specs.Days.{seconds_of, time_of};
    ghost use Rattle.lot_field.specs.Field.{cut};

    /// Returns the time of so many hours, minutes and seconds, or `None` where there is none: the hours are below 24, and the
    /// others below 60.
    pub fn new(hours: u16, minutes: u16, seconds: u16) -> Option<Time>
        ensures { result ≡ seconds_of hours minutes seconds }
    {
        if hours < 24 && minutes < 60 && seconds < 60 {
            Some(Time {
                seconds: u32::from(hours) * 3600 + u32::from(minutes) * 60 + u32::from(seconds),
            })
        } else {
            None
        }
    }

    /// Returns how many seconds since midnight it is.
    pub fn seconds(self) -> u32
        ensures { result ≡ self }
    {
        self.seconds
    }

    /// Returns the time that a field begins with, as `9:05`, `09:05:30` or `1:30 PM`, or `None` where it begins with none. What
    /// else is behind it is read over (docs/FORMATS.md, Profiles).
    pub fn read(field: &str) -> Option<Time>
        ensures { result ≡ time_of (cut field.now) }
    {
        time_of(cut_bytes(field.as_bytes()))
    }
}

/// A day, and perhaps a time.
#[derive(Clone, Copy, Debug, PartialEq, Eq)]
pub struct Moment {
    pub day: Day,
    pub time: Option<Time>,
}

impl DayForm {
    ghost use Rattle.lot_field.specs.Days.{moment_of};

    /// Returns the day that a field says in this form, and the time behind it where there is one. It is `None` where the field
    /// says no day of the years 1 to 9999, or where something else stands behind the day (docs/FORMATS.md, Profiles).
    pub fn read(&self, field: &str) -> Option<Moment>
        ensures { result ≡ moment_of self.now.parts field.now }
    {
        let (date, rest) = read_parts(self.parts.as_slice(), cut_bytes(field.as_bytes()))?;
        Some(Moment {
            day: date.day()?,
            time: time_behind(rest)?,
        })
    }
}

// ---- Days.

/// What has been read of a date; what hasn't been read is 0.
#[derive(Clone, Copy)]
struct Date {
    year: u16,
    month: u16,
    day: u16,
}

impl Date {
    ghost use Rattle.lot_field.specs.Days.{IsShort};

    /// Returns the day of this date, where the calendar has it.
    fn day(self) -> Option<Day>
        requires { IsShort self }
        ensures { result ≡ date_number (self.year, self.month, self.day) }
    {
        Day::new(self.year as i16, self.month as i8, self.day as i8).ok()
    }
}

/// How many digits a month or a day of the month has.
#[derive(Clone, Copy)]
enum Width {
    OneOrTwo,
    Two,
}

/// Returns the date that a text begins with, part by part, and what stands behind it.
fn read_parts<'a>(parts: &[DayPart], text: &'a [u8]) -> Option<(Date, &'a [u8])>
    ensures value { MatchOption result (read_parts false parts.now no_date text.now ≡ None)
        (λ read. read_parts false parts.now no_date text.now ≡ Some (read.0, read.1.now)) }
    ensures short { IfSome result (λ read. IsShort read.0) }
{
    let mut date = Date {
        year: 0,
        month: 0,
        day: 0,
    };
    let mut rest = text;
    let mut behind_number = false;
    let mut left = parts;
    while let [part, others @ ..] = left {
        let (read, more) = read_part(width_between(behind_number, others), *part, date, rest)?;
        date = read;
        rest = more;
        behind_number = part.is_number();
        left = others;
    }
    Some((date, rest))
}

/// Returns how many digits a month or a day of the month has before these parts: two where it stands right beside another
/// number, since nothing else tells where it ends.
fn width_between(behind_number: bool, parts: &[DayPart]) -> Width
    ensures { result ≡ width_between behind_number parts.now }
{
    if behind_number || begin_with_number(parts) {
        Width::Two
    } else {
        Width::OneOrTwo
    }
}

/// Returns whether parts begin with a number.
fn begin_with_number(parts: &[DayPart]) -> bool
    ensures { result ≡ begin_with_number parts.now }
{
    match parts {
        [part, ..] => part.is_number(),
        [] => false,
    }
}

impl DayPart {
    /// Returns whether this is written as a number.
    fn is_number(self) -> bool
        ensures { result ≡ is_number self }
    {
        matches!(self, DayPart::Year | DayPart::Month | DayPart::Day)
    }
}

/// Returns a date with what a part of that width says at the start of a text, and what stands behind it.
fn read_part(width: Width, part: DayPart, date: Date, text: &[u8]) -> Option<(Date, &[u8])>
    requires { IsShort date }
    ensures value { MatchOption result (read_part width part date text.now ≡ None)
        (λ read. read_part width part date text.now ≡ Some (read.0, read.1.now)) }
    ensures short { IfSome result (λ read. IsShort read.0) }
{
    match part {
        DayPart::Year => {
            let (year, rest) = in_digits(4, text)?;
            Some((Date { year, ..date }, rest))
        }
        DayPart::Month => {
            let (month, rest) = in_width(width, text)?;
            Some((Date { month, ..date }, rest))
        }
        DayPart::MonthName => {
            let (month, rest) = in_letters(text)?;
            Some((Date { month, ..date }, rest))
        }
        DayPart::Day => {
            let (day, rest) = in_width(width, text)?;
            Some((Date { day, ..date }, rest))
        }
        DayPart::Sign(sign) => Some((date, behind(&[sign], text)?)),
    }
}

/// Returns the number of that width that a text begins with, and what stands behind it.
fn in_width(width: Width, text: &[u8]) -> Option<(u16, &[u8])>
    ensures value { MatchOption result (in_width width text.now ≡ None)
        (λ said. in_width width text.now ≡ Some (said.0, said.1.now)) }
    ensures bound { IfSome result (λ said. said.0 < 100) }
{
    match width {
        Width::OneOrTwo => in_one_or_two(text),
        Width::Two => in_digits(2, text),
    }
}

/// Returns the number that a text begins with in one or two digits, and what stands behind it.
fn in_one_or_two(text: &[u8]) -> Option<(u16, &[u8])>
    ensures value { MatchOption result (in_one_or_two text.now ≡ None)
        (λ said. in_one_or_two text.now ≡ Some (said.0, said.1.now)) }
    ensures bound { IfSome result (λ said. said.0 < 100) }
{
    let two = in_digits(2, text);
    if two.is_some() {
        two
    } else {
        in_digits(1, text)
    }
}

/// Returns the number that a text begins with in so many digits, and what stands behind it.
fn in_digits(count: usize, text: &[u8]) -> Option<(u16, &[u8])>
    requires { count ≤ 4 }
    ensures value { MatchOption result (in_digits count text.now ≡ None)
        (λ said. in_digits count text.now ≡ Some (said.0, said.1.now)) }
    ensures bound { IfSome result (λ said. said.0 < 10 ^ count) }
{
    if text.len() < count {
        return None;
    }
    let (digits, rest) = text.split_at(count);
    if !are_digits(digits) {
        return None;
    }
    Some((written(digits) as u16, rest))
}

/// The first three letters of the months' names.
const MONTHS: [&str; 12] = [
    "jan", "feb", "mar", "apr", "may", "jun", "jul", "aug", "sep", "oct", "nov", "dec",
];

/// Returns the month whose name a text begins with, in any case, and what stands behind it.
fn in_letters(text: &[u8]) -> Option<(u16, &[u8])>
    ensures value { MatchOption result (in_letters text.now ≡ None)
        (λ said. in_letters text.now ≡ Some (said.0, said.1.now)) }
    ensures bound { IfSome result (λ said. said.0 < 100) }
{
    if text.len() < 3 {
        return None;
    }
    let (name, rest) = text.split_at(3);
    Some((month_among(&MONTHS, name)?, rest))
}

/// Returns the place of a name among some names, in any case, counted from 1.
fn month_among(names: &[&str], name: &[u8]) -> Option<u16>
    requires { length names.now ≤ 12 }
    ensures value { result ≡ month_among (map (λ one. one.now) names.now) 1 name.now }
    ensures bound { IfSome result (λ month. month < 100) }
{
    let mut month = 1;
    for one in names {
        if one.as_bytes().eq_ignore_ascii_case(name) {
            return Some(month);
        }
        month += 1;
    }
    None
}

// ---- Times.

/// Returns the time behind a day: none where nothing is there, and `None` where something else is.
fn time_behind(text: &[u8]) -> Option<Option<Time>>
    ensures { result ≡ time_behind text.now }
{
    let [first, rest @ ..] = text else {
        return Some(None);
    };
    if !ends_day(*first) {
        return None;
    }
    Some(Some(time_of(without_leading(rest))?))
}

/// Returns whether a time may follow a byte: a blank, a comma or a T.
fn ends_day(byte: u8) -> bool
    ensures { result ≡ ends_day byte }
{
    is_blank(byte) || byte == b',' || byte == b'T'
}

/// Returns the time that a text begins with.
fn time_of(text: &[u8]) -> Option<Time>
    ensures { result ≡ time_of text.now }
{
    let (hours, rest) = in_one_or_two(text)?;
    let (minutes, rest) = behind_colon(rest)?;
    let (seconds, rest) = seconds_in(rest);
    let hours = hours_of(half_at(without_leading(rest)), hours)?;
    Time::new(hours, minutes, seconds)
}

/// Returns the number in two digits behind a colon, and what stands behind it.
fn behind_colon(text: &[u8]) -> Option<(u16, &[u8])>
    ensures { MatchOption result (behind_colon text.now ≡ None)
        (λ said. behind_colon text.now ≡ Some (said.0, said.1.now)) }
{
    in_digits(2, behind(b":", text)?)
}

/// Returns the seconds behind minutes, 0 where there are none, and what stands behind them.
fn seconds_in(text: &[u8]) -> (u16, &[u8])
    ensures seconds { result.0 ≡ (seconds_in text.now).0 }
    ensures rest { result.1.now ≡ (seconds_in text.now).1 }
{
    match behind_colon(text) {
        Some(read) => read,
        None => (0, text),
    }
}

/// A half of a day, by a clock of twelve hours.
#[derive(Clone, Copy)]
enum Half {
    /// `AM`
    Morning,
    /// `PM`
    Afternoon,
}

/// Returns the half of the day that a text begins with.
fn half_at(text: &[u8]) -> Option<Half>
    ensures { result ≡ half_at text.now }
{
    if begins_with_word(b"am", text) {
        Some(Half::Morning)
    } else if begins_with_word(b"pm", text) {
        Some(Half::Afternoon)
    } else {
        None
    }
}

/// Returns whether a text begins with a word, in any case, and no letter stands behind it.
fn begins_with_word(word: &[u8], text: &[u8]) -> bool
    ensures { result ≡ begins_with_word word.now text.now }
{
    if text.len() < word.len() {
        return false;
    }
    let (first, rest) = text.split_at(word.len());
    first.eq_ignore_ascii_case(word) && !begins_with_letter(rest)
}

/// Returns whether a text begins with a letter.
fn begins_with_letter(text: &[u8]) -> bool
    ensures { result ≡ begins_with_letter text.now }
{
    match text {
        [first, ..] => first.is_ascii_alphabetic(),
        [] => false,
    }
}

/// Returns the hours since midnight, or `None` where a clock of twelve hours doesn't show the hours.
fn hours_of(half: Option<Half>, hours: u16) -> Option<u16>
    ensures { result ≡ hours_of half hours }
{
    let Some(half) = half else {
        return Some(hours);
    };
    if hours == 0 || hours > 12 {
        return None;
    }
    match half {
        Half::Morning => Some(hours % 12),
        Half::Afternoon => Some(12 + hours % 12),
    }
}
