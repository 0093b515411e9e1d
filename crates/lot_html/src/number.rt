ghost use Rattle.std.specs.Prelude.{◌≡◌, ◌++◌, OnOk};
ghost use Rattle.std.specs.String.{string_bytes};
ghost use Rattle.lot_html.specs.Number.{comma_at, data_text, grouped, grouped_digits, grouped_number};

use crate::element::{push_close, push_open};
use std::alloc::AllocError;

/// What stands before a number below zero.
const MINUS: &str = "−";

/// Appends a number text beside what it is: the text as the value, and the same for the eye. The
/// only error is out of memory.
pub fn push_data(text: &mut String, number: &str) -> Result<(), AllocError>
    ensures { OnOk result (string_bytes text.new
        ≡ string_bytes text.old ++ data_text number.now) }
{
    push_open(text, "data", &[("value", number)])?;
    push_grouped(text, number)?;
    push_close(text, "data")
}

/// Appends a number text for the eye: with a minus sign, and commas between thousands. The only
/// error is out of memory.
pub fn push_grouped(text: &mut String, number: &str) -> Result<(), AllocError>
    ensures { OnOk result (string_bytes text.new
        ≡ string_bytes text.old ++ grouped number.now) }
{
    match number.strip_prefix('-') {
        Some(digits) => {
            text.push_str(MINUS)?;
            push_number(text, digits)
        }
        None => push_number(text, number),
    }
}

/// Appends a number that isn't below zero, with commas between thousands. The only error is out of
/// memory.
fn push_number(text: &mut String, digits: &str) -> Result<(), AllocError>
    ensures { OnOk result (string_bytes text.new
        ≡ string_bytes text.old ++ grouped_number digits.now) }
{
    match digits.split_once('.') {
        Some((whole, decimals)) => {
            push_digits(text, whole)?;
            text.push_str(".")?;
            text.push_str(decimals)
        }
        None => push_digits(text, digits),
    }
}

/// Appends the digits of a whole number, with commas between thousands. The only error is out of
/// memory.
fn push_digits(text: &mut String, digits: &str) -> Result<(), AllocError>
    ensures { OnOk result (string_bytes text.new
        ≡ string_bytes text.old ++ grouped_digits digits.now) }
{
    let mut left = digits.len();
    for digit in digits.chars() {
        text.push(digit)?;
        left = left.saturating_sub(digit.len_utf8());
        push_comma(text, left)?;
    }
    Ok(())
}

/// Appends a comma where whole thousands are left. The only error is out of memory.
fn push_comma(text: &mut String, left: usize) -> Result<(), AllocError>
    ensures { OnOk result (string_bytes text.new
        ≡ string_bytes text.old ++ comma_at left) }
{
    if left % 3 == 0 && left != 0 {
        text.push_str(",")
    } else {
        Ok(())
    }
}
