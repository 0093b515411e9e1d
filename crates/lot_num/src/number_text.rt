ghost use Rattle.std.specs.Prelude.{◌≡◌, ◌==◌, ◌<◌, ◌≤◌, ◌^◌, ◌-◌, min, pos, neg_ℤ, length, IsTrue, IfOk};
ghost use Rattle.std.specs.List.{before_first, after_first, position_or_len};
ghost use Rattle.lot_num.specs.Amount.{one};
ghost use Rattle.lot_num.specs.NumberText.{sign_of, unsigned, is_point, is_digits, is_group, is_grouped, whole_number, first_decimals, has_excess, read_below};

use thiserror::Error;

/// Why a text is refused as a number. Of several faults, the first in this order is reported.
#[derive(Clone, Copy, Debug, PartialEq, Eq, Error)]
pub enum NumberFault {
    /// The text is outside the grammar of numbers.
    #[error("this is not a number")]
    Syntax,
    /// A decimal past the eighth is not zero.
    #[error("a number has at most eight decimals")]
    TooManyDecimals,
    /// The absolute mantissa is at the limit of its kind or past it: `Units::LIMIT` or `Rate::LIMIT`.
    #[error("this number is too large")]
    TooLarge,
    /// The number is below zero, and is read as a rate.
    #[error("this number may not be negative")]
    Negative,
}

/// The sign of a number text. A text with none has `Plus`.
#[derive(Clone, Copy, Debug, PartialEq, Eq)]
pub enum Sign {
    Plus,
    Minus,
}

impl Sign {
    ghost use Rattle.lot_num.specs.NumberText.{signed};

    /// Returns the magnitude with this sign.
    pub(crate) fn of_magnitude(self, magnitude: u64) -> i64
        requires { magnitude < 2 ^ 63 }
        ensures { result ≡ signed self magnitude }
    {
        match self {
            Sign::Plus => magnitude as i64,
            Sign::Minus => -(magnitude as i64),
        }
    }
}

/// Returns the sign and the absolute mantissa, at scale 8, of a number text, or the first fault that holds:
/// `TooLarge` where the absolute mantissa is at least `limit`. `Negative` never comes.
pub(crate) fn read(text: &str, limit: u64) -> Result<(Sign, u64), NumberFault>
    ensures reads { result ≡ read_below limit text.now }
    ensures below { IfOk result (λ x. x.1 < limit) }
{
    let (sign, unsigned) = split_sign(text);
    let (whole, decimals) = split_point(unsigned);
    if !is_grouped(whole) || !is_digits(decimals) {
        return Err(NumberFault::Syntax);
    }
    if has_excess(decimals) {
        return Err(NumberFault::TooManyDecimals);
    }
    let mantissa = u128::from(whole_number(whole)) * 100_000_000
        + u128::from(first_decimals(decimals));
    if mantissa >= u128::from(limit) {
        return Err(NumberFault::TooLarge);
    }
    Ok((sign, mantissa as u64))
}

/// Returns the sign at the start of a text, and the text behind it.
fn split_sign(text: &str) -> (Sign, &str)
    ensures sign { result.0 ≡ sign_of text.now }
    ensures rest { result.1.now ≡ unsigned text.now }
{
    if let Some(rest) = text.strip_prefix('-') {
        return (Sign::Minus, rest);
    }
    if let Some(rest) = text.strip_prefix('+') {
        return (Sign::Plus, rest);
    }
    (Sign::Plus, text)
}

/// Returns what stands before the first point of a text, and behind it.
fn split_point(text: &str) -> (&str, &str)
    ensures before { result.0.now ≡ before_first is_point text.now }
    ensures behind { result.1.now ≡ after_first is_point text.now }
{
    let point = point_or_end(text);
    if point == text.len() {
        return (text, "");
    }
    let (whole, _) = text.split_at(point);
    let (_, decimals) = text.split_at(point + 1);
    (whole, decimals)
}

/// Returns the place of the first point of a text, or of its end.
fn point_or_end(text: &str) -> usize
    ensures value { result ≡ position_or_len is_point text.now }
    ensures bound { result ≤ length text.now }
{
    let bytes = text.as_bytes();
    bytes.iter().position(|b| *b == b'.').unwrap_or(bytes.len())
}

/// Returns whether a whole part is groups of digits between commas. Mostly it is one group.
fn is_grouped(whole: &str) -> bool
    ensures { result ≡ is_grouped whole.now }
{
    if is_group(whole) {
        return true;
    }
    whole.split(',').all(|group| is_group(group))
}

/// Returns whether a text is one digit or more.
fn is_group(text: &str) -> bool
    ensures { result ≡ is_group text.now }
{
    !text.is_empty() && is_digits(text)
}

/// Returns whether a text is digits, or empty.
fn is_digits(text: &str) -> bool
    ensures { result ≡ is_digits text.now }
{
    text.as_bytes().iter().all(|b| b.is_ascii_digit())
}

/// Returns whether a decimal past the eighth is not zero.
fn has_excess(decimals: &str) -> bool
    ensures { result ≡ has_excess decimals.now }
{
    decimals.as_bytes().iter().skip(8).any(|d| *d != b'0')
}

/// Returns the number that the digits of a whole part write, or `u64::MAX` where it is larger.
fn whole_number(whole: &str) -> u64
    ensures { result ≡ min (whole_number whole.now) (2 ^ 64 - 1) }
{
    let mut value = 0u64;
    for b in whole.as_bytes() {
        if b.is_ascii_digit() {
            value = value
                .saturating_mul(10)
                .saturating_add(u64::from(*b - b'0'));
        }
    }
    value
}

/// Returns the number that the first eight decimals write, where absent ones are zeros.
fn first_decimals(decimals: &str) -> u64
    requires { IsTrue (is_digits decimals.now) }
    ensures value { result ≡ first_decimals decimals.now }
    ensures below_one { result < one }
{
    let mut value = 0u64;
    let digits = decimals.as_bytes();
    for place in 0..8 {
        let digit = if place < digits.len() {
            digits[place] - b'0'
        } else {
            0
        };
        value = value * 10 + u64::from(digit);
    }
    value
}
