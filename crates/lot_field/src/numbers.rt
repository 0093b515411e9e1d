//! Numbers in the form that a profile names.
ghost use Rattle.std.specs.Prelude.{◌≡◌, ◌<◌, ◌≤◌, ◌*◌, ◌^◌, ◌-◌, false, if◌then◌else◌, min, length, ℕ, List, ◌∷◌, ◌++◌, None, Some, IfSome, IsTrue, MatchOption};
ghost use Rattle.std.specs.Str.Parse.{digits_value};
ghost use Rattle.lot_base.specs.Text.{same_text};
ghost use Rattle.lot_num.specs.Amount.{one, units_limit};
ghost use Rattle.lot_field.specs.Halves.{RoundsDown, RoundsUp, are_zeros};
ghost use Rattle.lot_field.specs.Numbers.{IsMantissa, SaysMagnitude, SaysNumber, ahead_of_back, ahead_of_sign, are_digits, decimals, digits_of, ends_in_digit, grouped, in_parentheses, is_mark, is_signed, is_whole, past_front, past_sign, plainly_signed, separator, sign_and_magnitude, sign_of, unsigned, whole_part, with_sign};
ghost use Rattle.lot_field.specs.declared.numbers.Exactness.{Exactness};
ghost use Rattle.lot_field.specs.declared.numbers.Number.{Number};

use crate::field::{before, behind, cut_bytes, without_leading, without_trailing};
use crate::text::Text;
use lot_command::Items;
use lot_num::Units;

/// What stands before the decimals of a number.
#[derive(Clone, Copy, Debug, PartialEq, Eq)]
pub enum DecimalMark {
    /// `1.5`
    Point,
    /// `1,5`
    Comma,
}

/// How the numbers of a file are written.
pub struct NumberForm {
    pub decimal: DecimalMark,
    /// What stands between groups of three digits, one character, or `None` where digits aren't grouped.
    pub grouping: Option<Text>,
    /// Signs of currencies that are read over before or behind a number, as `$`.
    pub signs: Items<Text>,
}

impl Drop for NumberForm {
    /// It is written out, so that callers don't prove again how each part is dropped.
    fn drop(self) {
        let NumberForm {
            decimal: _decimal,
            grouping: _grouping,
            signs: _signs,
        } = self;
    }
}

/// Whether an amount is all that its text said.
#[derive(Clone, Copy, Debug, PartialEq, Eq)]
pub enum Exactness {
    /// The amount is exactly what was said.
    Exact,
    /// More than eight decimals were said, and the amount is rounded to eight, half to even.
    Rounded,
}

/// What a field says as a number.
#[derive(Clone, Copy, Debug, PartialEq, Eq)]
pub struct Number {
    pub units: Units,
    pub exactness: Exactness,
}

/// The sign of a number.
#[derive(Clone, Copy)]
enum Sign {
    Plus,
    Minus,
}

impl NumberForm {
    ghost use Rattle.lot_field.specs.Numbers.{SaysNumber};

    /// Returns the number that a field says in this form, or `None` where it says none, or one that is out of the range of
    /// units (docs/FORMATS.md, Profiles).
    pub fn read(&self, field: &str) -> Option<Number>
        ensures some { IfSome result (SaysNumber self.now field.now) }
        ensures every { (number : Number) → SaysNumber self.now field.now number
            → result ≡ Some number }
    {
        let (sign, magnitude) = sign_and_magnitude(self.signs.as_slice(), field.as_bytes());
        of_magnitude(self, sign, magnitude)
    }
}

// ---- The sign, and the signs of currencies.

/// Returns the sign and the magnitude of a field, which need be no number.
fn sign_and_magnitude<'a>(signs: &[Text], field: &'a [u8]) -> (Sign, &'a [u8])
    ensures sign { result.0 ≡ (sign_and_magnitude signs.now field.now).0 }
    ensures magnitude { result.1.now ≡ (sign_and_magnitude signs.now field.now).1 }
{
    let text = cut_bytes(field);
    match in_parentheses(text) {
        Some(inner) => {
            let magnitude = ahead_of_back(signs, past_front(signs, cut_bytes(inner)));
            (Sign::Minus, magnitude)
        }
        None => plainly_signed(signs, text),
    }
}

/// Returns what stands in parentheses.
fn in_parentheses(text: &[u8]) -> Option<&[u8]>
    ensures { MatchOption result (in_parentheses text.now ≡ None)
        (λ inner. in_parentheses text.now ≡ Some inner.now) }
{
    before(b")", behind(b"(", text)?)
}

/// Returns the sign and the magnitude of a text that isn't in parentheses.
fn plainly_signed<'a>(signs: &[Text], text: &'a [u8]) -> (Sign, &'a [u8])
    ensures sign { result.0 ≡ (plainly_signed signs.now text.now).0 }
    ensures magnitude { result.1.now ≡ (plainly_signed signs.now text.now).1 }
{
    if is_signed(text) {
        let magnitude = ahead_of_back(signs, past_front(signs, unsigned(text)));
        return (sign_of(text), magnitude);
    }
    let rest = past_front(signs, text);
    (sign_of(rest), ahead_of_back(signs, unsigned(rest)))
}

/// Returns whether a text begins with a sign.
fn is_signed(text: &[u8]) -> bool
    ensures { result ≡ is_signed text.now }
{
    matches!(text, [b'+' | b'-', ..])
}

/// Returns the sign at the start of a text, a plus where it begins with none.
fn sign_of(text: &[u8]) -> Sign
    ensures { result ≡ sign_of text.now }
{
    match text {
        [b'-', ..] => Sign::Minus,
        _ => Sign::Plus,
    }
}

/// Returns a text without the sign at its start, and without blanks behind it.
fn unsigned(text: &[u8]) -> &[u8]
    ensures { result.now ≡ unsigned text.now }
{
    if is_signed(text) {
        without_leading(&text[1..])
    } else {
        text
    }
}

/// Returns a text without the currency's sign at its start, and without blanks behind it.
fn past_front<'a>(signs: &[Text], text: &'a [u8]) -> &'a [u8]
    ensures { result.now ≡ past_front signs.now text.now }
{
    without_leading(past_sign(signs, text))
}

/// Returns a text without the longest of the signs that it begins with.
fn past_sign<'a>(signs: &[Text], text: &'a [u8]) -> &'a [u8]
    ensures { result.now ≡ past_sign signs.now text.now }
{
    let mut longest = 0;
    for sign in signs {
        let sign = sign.as_str().as_bytes();
        if text.starts_with(sign) {
            longest = sign.len().max(longest);
        }
    }
    &text[longest..]
}

/// Returns a text without the currency's sign at its end, and without blanks before it.
fn ahead_of_back<'a>(signs: &[Text], text: &'a [u8]) -> &'a [u8]
    ensures { result.now ≡ ahead_of_back signs.now text.now }
{
    without_trailing(ahead_of_sign(signs, text))
}

/// Returns a text without the longest of the signs that it ends with.
fn ahead_of_sign<'a>(signs: &[Text], text: &'a [u8]) -> &'a [u8]
    ensures { result.now ≡ ahead_of_sign signs.now text.now }
{
    let mut longest = 0;
    for sign in signs {
        let sign = sign.as_str().as_bytes();
        if text.ends_with(sign) {
            longest = sign.len().max(longest);
        }
    }
    &text[..text.len() - longest]
}

// ---- Magnitudes.

/// Returns the number of a magnitude with that sign, or `None` where the text is no magnitude, or one out of range.
fn of_magnitude(form: &NumberForm, sign: Sign, text: &[u8]) -> Option<Number>
    ensures some { IfSome result (SaysMagnitude form.now.decimal form.now.grouping sign text.now) }
    ensures every { (number : Number)
        → SaysMagnitude form.now.decimal form.now.grouping sign text.now number
        → result ≡ Some number }
{
    let (whole, decimals) = parts(form.decimal, text);
    if !is_whole(&form.grouping, whole) || !are_digits(decimals) || !ends_in_digit(text) {
        return None;
    }
    let (mantissa, exactness) = mantissa(whole, decimals)?;
    Some(Number {
        units: sign.units(mantissa),
        exactness,
    })
}

impl Sign {
    /// Returns the units with that mantissa and this sign.
    fn units(self, mantissa: u64) -> Units
        requires { mantissa < units_limit }
        ensures { result ≡ with_sign self mantissa }
    {
        let signed = match self {
            Sign::Plus => mantissa as i64,
            Sign::Minus => -(mantissa as i64),
        };
        match Units::from_mantissa(signed) {
            Some(units) => units,
            None => unreachable!(),
        }
    }
}

impl DecimalMark {
    /// Returns whether a byte is this mark.
    fn is_mark(self, byte: u8) -> bool
        ensures { result ≡ is_mark self byte }
    {
        match self {
            DecimalMark::Point => byte == b'.',
            DecimalMark::Comma => byte == b',',
        }
    }
}

/// Returns what stands before the first mark of a magnitude, and behind it.
fn parts(mark: DecimalMark, text: &[u8]) -> (&[u8], &[u8])
    ensures whole { result.0.now ≡ whole_part mark text.now }
    ensures decimals { result.1.now ≡ decimals mark text.now }
{
    match text.iter().position(|byte| mark.is_mark(*byte)) {
        Some(at) => (&text[..at], &text[at + 1..]),
        None => text.split_at(text.len()),
    }
}

/// Returns whether a text is a whole part: digits, in groups of three or not.
fn is_whole(grouping: &Option<Text>, whole: &[u8]) -> bool
    ensures { result ≡ is_whole grouping.now whole.now }
{
    if are_digits(whole) {
        return true;
    }
    match grouping {
        Some(separator) => is_grouped(separator.as_str().as_bytes(), whole),
        None => false,
    }
}

/// Returns whether each byte is a digit.
pub(crate) fn are_digits(text: &[u8]) -> bool
    ensures { result ≡ are_digits text.now }
{
    text.iter().all(|byte| byte.is_ascii_digit())
}

/// Returns whether the last byte of a text is a digit.
fn ends_in_digit(text: &[u8]) -> bool
    ensures { result ≡ ends_in_digit text.now }
{
    match text {
        [.., last] => last.is_ascii_digit(),
        [] => false,
    }
}

/// Returns whether a whole part is its digits in groups of three.
fn is_grouped(separator: &[u8], whole: &[u8]) -> bool
    ensures { result ≡ same_text whole.now (grouped separator.now (digits_of whole.now)) }
{
    let mut left = digits_in(whole);
    let mut rest = whole;
    for byte in whole {
        if byte.is_ascii_digit() {
            left -= 1;
            match behind_digit(*byte, separator, left, rest) {
                Some(more) => rest = more,
                None => return false,
            }
        }
    }
    rest.is_empty()
}

/// Returns how many bytes are digits.
fn digits_in(text: &[u8]) -> usize
    ensures { result ≡ length (digits_of text.now) }
{
    text.iter().filter(|byte| byte.is_ascii_digit()).count()
}

/// Returns what stands behind a digit and the separator that may follow it, where a text begins with them.
fn behind_digit<'a>(digit: u8, grouping: &[u8], left: usize, text: &'a [u8]) -> Option<&'a [u8]>
    ensures { MatchOption result
        ((others : List ℕ)
        → same_text text.now (digit ∷ (separator grouping.now left ++ others)) ≡ false)
        (λ rest. (others : List ℕ)
        → same_text text.now (digit ∷ (separator grouping.now left ++ others))
        ≡ same_text rest.now others) }
{
    let [first, rest @ ..] = text else {
        return None;
    };
    if *first != digit {
        return None;
    }
    if left % 3 == 0 && left != 0 {
        behind(grouping, rest)
    } else {
        Some(rest)
    }
}

// ---- What a magnitude says.

/// The least whole part that is out of the range of units.
const WHOLE_LIMIT: u64 = 10_000_000_000;

/// Returns the mantissa at scale 8 of a whole part and decimals, and whether it is exact, or `None` where it is out of range.
fn mantissa(whole: &[u8], decimals: &[u8]) -> Option<(u64, Exactness)>
    requires { IsTrue (are_digits decimals.now) }
    ensures range { IfSome result (λ read. read.0 < units_limit) }
    ensures some { IfSome result (λ read.
        IsMantissa (digits_value 10 (digits_of whole.now ++ decimals.now))
        (length decimals.now) read.0 read.1) }
    ensures every { (mantissa : ℕ) (exactness : Exactness) → mantissa < units_limit
        → IsMantissa (digits_value 10 (digits_of whole.now ++ decimals.now))
        (length decimals.now) mantissa exactness
        → result ≡ Some (mantissa, exactness) }
{
    let whole = written(whole);
    if whole >= WHOLE_LIMIT {
        return None;
    }
    let (first, others) = decimals.split_at(decimals.len().min(8));
    let truncated = whole * 100_000_000 + at_scale(first);
    let mantissa = truncated + u64::from(rounds_up(truncated, others));
    if mantissa < Units::LIMIT {
        Some((mantissa, exactness_of(others)))
    } else {
        None
    }
}

/// Returns the number that the digits of a text write, or `u64::MAX` where it is larger.
pub(crate) fn written(text: &[u8]) -> u64
    ensures { result ≡ min (digits_value 10 (digits_of text.now)) (2 ^ 64 - 1) }
{
    let mut value = 0u64;
    for byte in text {
        if byte.is_ascii_digit() {
            value = value
                .saturating_mul(10)
                .saturating_add(u64::from(*byte - b'0'));
        }
    }
    value
}

/// Returns the mantissa at scale 8 of at most eight decimals.
fn at_scale(decimals: &[u8]) -> u64
    requires few { length decimals.now ≤ 8 }
    requires digits { IsTrue (are_digits decimals.now) }
    ensures value { result ≡ digits_value 10 decimals.now * 10 ^ (8 - length decimals.now) }
    ensures below_one { result < one }
{
    written(decimals) * 10u64.pow(8 - decimals.len() as u32)
}

/// Returns whether a mantissa, without the decimals behind the eighth, has to be one greater with them.
fn rounds_up(mantissa: u64, others: &[u8]) -> bool
    requires { IsTrue (are_digits others.now) }
    ensures up { IsTrue result
        → RoundsUp mantissa (digits_value 10 others.now) (10 ^ length others.now) }
    ensures down { result ≡ false
        → RoundsDown mantissa (digits_value 10 others.now) (10 ^ length others.now) }
{
    let [first, behind @ ..] = others else {
        return false;
    };
    if *first != b'5' {
        *first > b'5'
    } else if are_zeros(behind) {
        mantissa % 2 == 1
    } else {
        true
    }
}

/// Returns whether a mantissa is exact without the decimals behind the eighth.
fn exactness_of(others: &[u8]) -> Exactness
    ensures { result ≡ (if are_zeros others.now then Exactness.Exact else Exactness.Rounded) }
{
    if are_zeros(others) {
        Exactness::Exact
    } else {
        Exactness::Rounded
    }
}

/// Returns whether each byte is the digit zero.
fn are_zeros(text: &[u8]) -> bool
    ensures { result ≡ are_zeros text.now }
{
    text.iter().all(|byte| *byte == b'0')
}
