ghost use Rattle.std.specs.Prelude.{◌≡◌, ◌^◌, ◌<◌, ◌≤◌, ◌++◌, IfOk, OnOk};
ghost use Rattle.std.specs.String.{string_bytes};
ghost use Rattle.lot_num.specs.AmountText.{all_decimals, shown_decimals, point_and, magnitude_text, amount_text};

use std::alloc::{AllocError, Global};

/// How many decimals a mantissa has, and how many of them are printed even where they are zeros.
#[derive(Clone, Copy)]
pub(crate) struct Decimals {
    scale: usize,
    least: usize,
}

impl Decimals {
    /// Units and rates, in their shortest text.
    pub(crate) const SHORTEST: Decimals = Decimals { scale: 8, least: 0 };

    /// Units, as money.
    pub(crate) const MONEY: Decimals = Decimals { scale: 8, least: 2 };

    /// Weights, as money.
    pub(crate) const WIDE_MONEY: Decimals = Decimals {
        scale: 16,
        least: 2,
    };

    /// Returns one, as a mantissa at this scale.
    fn one(self) -> u128
        requires { self.scale ≤ 16 }
        ensures value { result ≡ 10 ^ self.scale }
        ensures positive { 0 < result }
        ensures fits { result < 2 ^ 64 }
    {
        10u128.pow(self.scale as u32)
    }
}

/// Returns the shortest text that says a mantissa and has at least the decimals that are asked for.
pub(crate) fn amount_text(
    alloc: Global,
    mantissa: i128,
    decimals: Decimals,
) -> Result<String, AllocError>
    requires { decimals.scale ≤ 16 }
    ensures { IfOk result
        (λ t. string_bytes t ≡ amount_text decimals.least decimals.scale mantissa) }
{
    let mut text = String::new(alloc);
    if mantissa < 0 {
        text.push('-')?;
    }
    push_magnitude(&mut text, mantissa.unsigned_abs(), decimals)?;
    Ok(text)
}

/// Appends the whole part of a magnitude, and the decimals that are shown of it.
fn push_magnitude(text: &mut String, magnitude: u128, decimals: Decimals) -> Result<(), AllocError>
    requires { decimals.scale ≤ 16 }
    ensures { OnOk result (string_bytes text.new ≡ string_bytes text.old
        ++ magnitude_text decimals.least decimals.scale magnitude) }
{
    let one = decimals.one();
    let whole = magnitude / one;
    write!(text, "{whole}")?;
    let (digits, places) = shown(decimals, (magnitude % one) as u64);
    push_decimals(text, digits, places)
}

/// Appends a point and the decimals, or nothing where there are none.
fn push_decimals(text: &mut String, digits: u64, places: usize) -> Result<(), AllocError>
    ensures { OnOk result
        (string_bytes text.new ≡ string_bytes text.old ++ point_and (all_decimals places digits)) }
{
    if places > 0 {
        write!(text, ".{digits:0places$}")?;
    }
    Ok(())
}

/// Returns a fraction without the zeros at its end, but with no fewer than the least decimals: its digits, and
/// how many decimals they are.
fn shown(decimals: Decimals, fraction: u64) -> (u64, usize)
    ensures { all_decimals result.1 result.0
        ≡ shown_decimals decimals.least decimals.scale fraction }
{
    let mut digits = fraction;
    let mut places = decimals.scale;
    while places > decimals.least && digits % 10 == 0 {
        digits /= 10;
        places -= 1;
    }
    (digits, places)
}
