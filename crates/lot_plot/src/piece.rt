ghost use Rattle.std.specs.Prelude.{◌≡◌, ◌++◌, decimal, flat_map, OnOk};
ghost use Rattle.std.specs.String.{string_bytes};
ghost use Rattle.lot_plot.specs.Plot.{percent_text, place_text};

use itoa::Buffer;
use std::alloc::AllocError;

/// Appends texts as they are, one behind another. The only error is out of memory.
pub fn push_all(text: &mut String, pieces: &[&str]) -> Result<(), AllocError>
    ensures { OnOk result (string_bytes text.new
        ≡ string_bytes text.old ++ flat_map (λ piece. piece.now) pieces.now) }
{
    for piece in pieces {
        text.push_str(piece)?;
    }
    Ok(())
}

/// Appends a whole number. The only error is out of memory.
pub fn push_count(text: &mut String, number: u32) -> Result<(), AllocError>
    ensures { OnOk result (string_bytes text.new
        ≡ string_bytes text.old ++ decimal number) }
{
    push_number(text, u64::from(number))
}

/// Appends thousandths as percents with one decimal, without their sign. The only error is out of
/// memory.
pub fn push_percent(text: &mut String, thousandths: u32) -> Result<(), AllocError>
    ensures { OnOk result (string_bytes text.new
        ≡ string_bytes text.old ++ percent_text thousandths) }
{
    push_thousandths(text, u64::from(thousandths))
}

/// Appends a whole number. The only error is out of memory.
pub(crate) fn push_number(text: &mut String, number: u64) -> Result<(), AllocError>
    ensures { OnOk result (string_bytes text.new
        ≡ string_bytes text.old ++ decimal number) }
{
    let mut digits = Buffer::new();
    text.push_str(digits.format(number))
}

/// Appends thousandths as percents with one decimal, without their sign. The only error is out of
/// memory.
pub(crate) fn push_thousandths(text: &mut String, thousandths: u64) -> Result<(), AllocError>
    ensures { OnOk result (string_bytes text.new
        ≡ string_bytes text.old ++ percent_text thousandths) }
{
    push_number(text, thousandths / 10)?;
    text.push_str(".")?;
    push_number(text, thousandths % 10)
}

/// Appends a text, and thousandths as percents behind it. The only error is out of memory.
pub(crate) fn push_place(
    text: &mut String,
    before: &str,
    thousandths: u64,
) -> Result<(), AllocError>
    ensures { OnOk result (string_bytes text.new
        ≡ string_bytes text.old ++ place_text before.now thousandths) }
{
    text.push_str(before)?;
    push_thousandths(text, thousandths)
}
