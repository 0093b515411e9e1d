ghost use Rattle.std.specs.Prelude.{◌≡◌, [], ◌∷◌, ◌++◌, ◌+◌, ◌/◌, ◌%◌, min, OnOk};
ghost use Rattle.std.specs.String.{string_bytes};
ghost use Rattle.lot_plot.specs.Month.{last_month, month_text, two_digits, year_text};

use std::alloc::AllocError;

/// A month of the calendar, as how many months lie between it and January of the year 0.
#[derive(Clone, Copy, Debug, PartialEq, Eq, PartialOrd, Ord)]
pub struct Month(pub u32);

impl Month {
    /// Returns its year.
    pub fn year(self) -> u32
        ensures { result ≡ self.0 / 12 }
    {
        self.0 / 12
    }

    /// Returns its place in the year, from 1.
    pub fn of_year(self) -> u32
        ensures { result ≡ self.0 % 12 + 1 }
    {
        self.0 % 12 + 1
    }

    /// Returns the month that is so many later, or the last one that can be counted.
    pub fn later(self, months: u32) -> Month
        ensures { result.0 ≡ min (self.0 + months) last_month }
    {
        Month(self.0.saturating_add(months))
    }
}

/// Appends the text of a month, `2024-03`. The only error is out of memory.
pub fn push_month(text: &mut String, month: Month) -> Result<(), AllocError>
    ensures { OnOk result (string_bytes text.new
        ≡ string_bytes text.old ++ month_text month.0) }
{
    push_month_number(text, u128::from(month.0))
}

/// Appends the text of a month that is given by how many lie before it. The only error is out of
/// memory.
pub(crate) fn push_month_number(text: &mut String, month: u128) -> Result<(), AllocError>
    ensures { OnOk result (string_bytes text.new
        ≡ string_bytes text.old ++ month_text month) }
{
    push_year(text, month / 12)?;
    text.push_str("-")?;
    push_two_digits(text, month % 12 + 1)
}

/// Appends a year, in four digits. The only error is out of memory.
pub(crate) fn push_year(text: &mut String, year: u128) -> Result<(), AllocError>
    ensures { OnOk result (string_bytes text.new
        ≡ string_bytes text.old ++ year_text year) }
{
    push_two_digits(text, year / 100 % 100)?;
    push_two_digits(text, year % 100)
}

/// Appends the last two digits of a number. The only error is out of memory.
fn push_two_digits(text: &mut String, number: u128) -> Result<(), AllocError>
    ensures { OnOk result (string_bytes text.new
        ≡ string_bytes text.old ++ two_digits number) }
{
    push_digit(text, number / 10)?;
    push_digit(text, number)
}

/// Appends the last digit of a number. The only error is out of memory.
fn push_digit(text: &mut String, number: u128) -> Result<(), AllocError>
    ensures { OnOk result (string_bytes text.new
        ≡ string_bytes text.old ++ (48 + number % 10) ∷ []) }
{
    text.push(char::from(b'0' + (number % 10) as u8))
}
