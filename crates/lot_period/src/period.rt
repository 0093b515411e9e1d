ghost use Rattle.std.specs.Prelude.{◌≡◌, ◌++◌, ◌∷◌, [], ◌+◌, ◌<◌, IfOk, OnOk};
ghost use Rattle.std.specs.String.{string_bytes};
ghost use Rattle.lot_base.specs.Day.{four_digits, two_digits};
ghost use Rattle.lot_period.specs.Period.{part_text, period_text};

use crate::date::date_of;
use lot_base::Day;
use std::alloc::{AllocError, Global};

/// How long a period of the calendar is.
#[derive(Clone, Copy, Debug, PartialEq, Eq)]
pub enum PeriodLength {
    /// A year.
    Year,
    /// Three months, from January, April, July or October.
    Quarter,
    /// A month.
    Month,
}

/// Returns the text of the period of that length in which a day lies: `2024`, `2024-Q1` or
/// `2024-03`. The year always has four digits. The only error is out of memory.
pub fn period_text(alloc: Global, length: PeriodLength, day: Day) -> Result<String, AllocError>
    ensures { IfOk result (λ text. string_bytes text ≡ period_text length day) }
{
    let date = date_of(day);
    let mut text = String::new(alloc);
    push_year(&mut text, date.year as u16)?;
    push_part(&mut text, length, date.month)?;
    Ok(text)
}

/// Appends a year, in four digits.
fn push_year(text: &mut String, year: u16) -> Result<(), AllocError>
    requires { year < 10_000 }
    ensures { OnOk result (string_bytes text.new ≡ string_bytes text.old ++ four_digits year) }
{
    push_two_digits(text, (year / 100) as u8)?;
    push_two_digits(text, (year % 100) as u8)
}

/// Appends what the text of a period has behind the year.
fn push_part(text: &mut String, length: PeriodLength, month: u8) -> Result<(), AllocError>
    requires { month < 13 }
    ensures { OnOk result
        (string_bytes text.new ≡ string_bytes text.old ++ part_text length month) }
{
    match length {
        PeriodLength::Year => Ok(()),
        PeriodLength::Quarter => {
            text.push_str("-Q")?;
            push_digit(text, (month + 2) / 3)
        }
        PeriodLength::Month => {
            text.push_str("-")?;
            push_two_digits(text, month)
        }
    }
}

/// Appends a number below 100, in two digits.
fn push_two_digits(text: &mut String, number: u8) -> Result<(), AllocError>
    requires { number < 100 }
    ensures { OnOk result (string_bytes text.new ≡ string_bytes text.old ++ two_digits number) }
{
    push_digit(text, number / 10)?;
    push_digit(text, number % 10)
}

/// Appends a digit.
fn push_digit(text: &mut String, digit: u8) -> Result<(), AllocError>
    requires { digit < 10 }
    ensures { OnOk result (string_bytes text.new ≡ string_bytes text.old ++ (48 + digit) ∷ []) }
{
    text.push(char::from(b'0' + digit))
}
