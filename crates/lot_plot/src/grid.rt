ghost use Rattle.std.specs.Prelude.{◌≡◌, ◌++◌, ◌*◌, ◌^◌, ℕ, List, pos, ◌≤ℤ◌, ◌<ℤ◌, OnOk};
ghost use Rattle.std.specs.String.{string_bytes};
ghost use Rattle.lot_html.specs.Number.{grouped};
ghost use Rattle.lot_plot.specs.Grid.{IsFirstFrom, IsGrid, IsUnit, line_front, line_html, value_text};

use crate::piece::{push_place, push_thousandths};
use crate::scale::Scale;
use itoa::Buffer;
use lot_html::push_grouped;
use lot_num::Wide;
use std::alloc::{AllocError, Global};

/// One whole unit of money, at the scale of weights.
const ONE: u128 = 10_000_000_000_000_000;

/// More lines than a grid can have: at most four units fit into a scale.
const MOST_LINES: u32 = 16;

/// The power of ten that fits into every number of 128 bits at most three times.
const GREATEST_POWER: u32 = 38;

/// Returns the least of 1, 2 and 5 times a power of ten of which at most four fit into a span.
fn unit_of(span: u128) -> u128
    ensures { IsUnit span result }
{
    let mut power: u128 = 1;
    for _ in 0..GREATEST_POWER {
        if span / power <= 4 {
            return power;
        }
        if span / (2 * power) <= 4 {
            return 2 * power;
        }
        if span / (5 * power) <= 4 {
            return 5 * power;
        }
        power *= 10;
    }
    power
}

/// Returns the least multiple of a unit that isn't below a value. No unit is greater than half of
/// the greatest weight (`unit_of`).
fn first_from(low: Wide, unit: i128) -> i128
    requires some { pos 0 <ℤ unit }
    requires small { unit ≤ℤ pos (5 * 10 ^ 37) }
    ensures { IsFirstFrom low unit result }
{
    let low = low.mantissa();
    let towards_zero = low / unit * unit;
    if towards_zero < low {
        towards_zero + unit
    } else {
        towards_zero
    }
}

/// Appends a line at each round value of a scale, with its text above it.
pub(crate) fn push_grid(alloc: Global, text: &mut String, scale: &Scale) -> Result<(), AllocError>
    ensures { OnOk result ((plot : List ℕ) × IsGrid scale.now plot
        × (string_bytes text.new ≡ string_bytes text.old ++ plot)) }
{
    let low = scale.low.mantissa();
    let high = scale.high.mantissa();
    let unit = unit_of(high.abs_diff(low));
    let mut value = first_from(scale.low, unit as i128);
    for _ in 0..MOST_LINES {
        if high < value {
            return Ok(());
        }
        let Some(amount) = Wide::from_mantissa(value) else {
            return Ok(());
        };
        push_line(alloc, text, scale, amount, unit)?;
        value += unit as i128;
    }
    Ok(())
}

/// Appends the line at a value, with its text.
fn push_line(
    alloc: Global,
    text: &mut String,
    scale: &Scale,
    value: Wide,
    unit: u128,
) -> Result<(), AllocError>
    ensures { OnOk result (string_bytes text.new
        ≡ string_bytes text.old ++ line_html scale.now unit value) }
{
    let top = scale.from_top(value);
    push_line_front(text, value)?;
    push_thousandths(text, top)?;
    push_place(text, "%\" y2=\"", top)?;
    push_place(text, "%\"/>\n<text x=\"0\" y=\"", top)?;
    text.push_str("%\" dy=\"-4\">")?;
    push_value(alloc, text, value, unit)?;
    text.push_str("</text>\n")
}

/// Appends what a line begins with. The line at zero is marked.
fn push_line_front(text: &mut String, value: Wide) -> Result<(), AllocError>
    ensures { OnOk result (string_bytes text.new
        ≡ string_bytes text.old ++ line_front value) }
{
    if value.mantissa() == 0 {
        text.push_str("<line class=\"zero\" x1=\"0\" x2=\"100%\" y1=\"")
    } else {
        text.push_str("<line x1=\"0\" x2=\"100%\" y1=\"")
    }
}

/// Appends the text of a value, without decimals where the unit is a whole one.
fn push_value(alloc: Global, text: &mut String, value: Wide, unit: u128) -> Result<(), AllocError>
    ensures { OnOk result (string_bytes text.new
        ≡ string_bytes text.old ++ grouped (value_text unit value)) }
{
    if unit < ONE {
        let money = value.text_money(alloc)?;
        return push_grouped(text, money.as_str());
    }
    let mut digits = Buffer::new();
    push_grouped(text, digits.format(value.mantissa() / (ONE as i128)))
}
