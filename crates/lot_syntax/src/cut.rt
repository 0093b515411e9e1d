ghost use Rattle.std.specs.Prelude.{◌≡◌, ◌≤◌, ◌<◌, ◌&&◌, ℕ, Some, None, drop, length, IsTrue, IfSome, MatchOption};
ghost use Rattle.std.specs.Char.{is_ascii, is_ascii_digit};
ghost use Rattle.lot_base.specs.Day.{is_separator};
ghost use Rattle.lot_base.specs.Name.{is_note_byte};
ghost use Rattle.lot_syntax.specs.Token.{begins, begins_with, begins_comma_digit, is_blank, is_sign, is_word_byte, is_word_start};
ghost use Rattle.lot_syntax.specs.Cutting.{date_len, date_or_number, day_len, digits_len, fraction_len, goes_on, unit_len, is_escape, lexeme_of, mark_by, month_len, next_of, number_at, number_len, run, text_by, token_at, whole_len, within_len, word_at};

use crate::token::{Mark, Token};

/// Returns how many blanks stand at the front.
pub(crate) fn blanks_len(bytes: &[u8]) -> usize
    ensures value { result ≡ run is_blank bytes.now }
    ensures bound { result ≤ length bytes.now }
{
    bytes
        .iter()
        .position(|b| !is_blank(*b))
        .unwrap_or(bytes.len())
}

/// Returns how many digits stand at the front.
fn digits_run(bytes: &[u8]) -> usize
    ensures value { result ≡ run is_ascii_digit bytes.now }
    ensures bound { result ≤ length bytes.now }
{
    bytes
        .iter()
        .position(|b| !b.is_ascii_digit())
        .unwrap_or(bytes.len())
}

/// Returns how many bytes of a word stand at the front.
pub(crate) fn word_len(bytes: &[u8]) -> usize
    ensures value { result ≡ run is_word_byte bytes.now }
    ensures bound { result ≤ length bytes.now }
{
    bytes
        .iter()
        .position(|b| !is_word_byte(*b))
        .unwrap_or(bytes.len())
}

fn is_blank(b: u8) -> bool
    ensures { result ≡ is_blank b }
{
    b == b' ' || b == b'\t'
}

pub(crate) fn is_sign(b: u8) -> bool
    ensures { result ≡ is_sign b }
{
    b == b'+' || b == b'-'
}

fn is_separator(b: u8) -> bool
    ensures { result ≡ is_separator b }
{
    b == b'-' || b == b'/'
}

pub(crate) fn is_word_start(b: u8) -> bool
    ensures { result ≡ is_word_start b }
{
    b.is_ascii_alphabetic() || b >= 128
}

/// Each byte of a word stands at its own place, `x` for all of those beyond ASCII, and `!` at the place of any other byte.
static WORD_BYTES: [u8; 256] = *b"\
    !!!!!!!!!!!!!!!!!!!!!!!!!!!!!!!!\
    !!!!!!!'!!!!!-.!0123456789:!!!!!\
    !ABCDEFGHIJKLMNOPQRSTUVWXYZ!!!!_\
    !abcdefghijklmnopqrstuvwxyz!!!!!\
    xxxxxxxxxxxxxxxxxxxxxxxxxxxxxxxx\
    xxxxxxxxxxxxxxxxxxxxxxxxxxxxxxxx\
    xxxxxxxxxxxxxxxxxxxxxxxxxxxxxxxx\
    xxxxxxxxxxxxxxxxxxxxxxxxxxxxxxxx";

fn is_word_byte(b: u8) -> bool
    ensures { result ≡ is_word_byte b }
{
    WORD_BYTES[usize::from(b)] != b'!'
}

fn is_escape(b: u8) -> bool
    ensures { result ≡ is_escape b }
{
    b == b'"' || b == b'\\'
}

fn is_text_byte(b: u8) -> bool
    ensures { result ≡ is_note_byte b }
{
    b == b'\t' || !b.is_ascii_control()
}

/// Returns whether a digit stands at the front.
pub(crate) fn begins_digit(bytes: &[u8]) -> bool
    ensures { result ≡ begins is_ascii_digit bytes.now }
{
    match bytes {
        [first, ..] => first.is_ascii_digit(),
        [] => false,
    }
}

/// Returns whether a digit stands at the front, or a comma directly before a digit.
fn goes_on(bytes: &[u8]) -> bool
    ensures { result ≡ goes_on bytes.now }
{
    match bytes {
        [first, rest @ ..] => first.is_ascii_digit() || (*first == b',' && begins_digit(rest)),
        [] => false,
    }
}

/// Returns how many bytes the whole part of a number at the front has.
fn whole_len(bytes: &[u8]) -> usize
    ensures value { result ≡ whole_len bytes.now }
    ensures bound { result ≤ length bytes.now }
{
    let mut n = 0;
    while goes_on(&bytes[n..]) {
        n += 1;
    }
    n
}

/// Returns how many bytes a point and the digits after it have.
#[tactic(auto, unfolding(crate::specs::Cutting::fraction_len))]
fn fraction_len(bytes: &[u8]) -> usize
    ensures value { result ≡ fraction_len bytes.now }
    ensures bound { result ≤ length bytes.now }
{
    match bytes {
        [b'.', digits @ ..] => 1 + digits_run(digits),
        _ => 0,
    }
}

/// Returns how many bytes the number at the front has.
#[tactic(auto, unfolding(crate::specs::Cutting::number_len))]
pub(crate) fn number_len(bytes: &[u8]) -> usize
    ensures value { result ≡ number_len bytes.now }
    ensures bound { result ≤ length bytes.now }
{
    match bytes {
        [first, rest @ ..] if is_sign(*first) => 1 + digits_len(rest),
        _ => digits_len(bytes),
    }
}

fn digits_len(bytes: &[u8]) -> usize
    ensures value { result ≡ digits_len bytes.now }
    ensures bound { result ≤ length bytes.now }
{
    let whole = whole_len(bytes);
    whole + fraction_len(&bytes[whole..])
}

/// Returns how many bytes the date at the front has, or none where there is no date.
pub(crate) fn date_len(bytes: &[u8]) -> Option<usize>
    ensures value { result ≡ date_len bytes.now }
    ensures bound { IfSome result (λ n. n ≤ 10) }
{
    let [a, b, c, d, first, rest @ ..] = bytes else {
        return None;
    };
    if are_digits(*a, *b) && are_digits(*c, *d) && is_separator(*first) {
        Some(5 + month_len(rest)?)
    } else {
        None
    }
}

fn are_digits(a: u8, b: u8) -> bool
    ensures { result ≡ (is_ascii_digit a && is_ascii_digit b) }
{
    a.is_ascii_digit() && b.is_ascii_digit()
}

/// Returns how many bytes a month, a separator and a day at the front have.
fn month_len(bytes: &[u8]) -> Option<usize>
    ensures value { result ≡ month_len bytes.now }
    ensures bound { IfSome result (λ n. n ≤ 5) }
{
    let [a, b, c, rest @ ..] = bytes else {
        return None;
    };
    if a.is_ascii_digit() && is_separator(*b) {
        Some(2 + day_len(&bytes[2..])?)
    } else if are_digits(*a, *b) && is_separator(*c) {
        Some(3 + day_len(rest)?)
    } else {
        None
    }
}

/// Returns how many bytes a day of the month at the front has: as many digits as there are, but two at most.
#[tactic(auto, unfolding(crate::specs::Cutting::day_len))]
fn day_len(bytes: &[u8]) -> Option<usize>
    ensures value { result ≡ day_len bytes.now }
    ensures bound { IfSome result (λ n. n ≤ 2) }
{
    match bytes {
        [first, rest @ ..] if first.is_ascii_digit() => {
            if begins_digit(rest) { Some(2) } else { Some(1) }
        }
        _ => None,
    }
}

/// Returns how many bytes stand before the quote that ends a text, or none where the text can't be cut.
pub(crate) fn within_len(bytes: &[u8]) -> Option<usize>
    ensures value { result ≡ within_len bytes.now }
    ensures bound { IfSome result (λ n. n < length bytes.now) }
{
    let mut n = 0;
    while !begins_quote(&bytes[n..]) {
        n += unit_len(&bytes[n..])?;
    }
    Some(n)
}

/// Returns how many bytes stand for the byte at the front of a text: a quote and a backslash have a backslash before them.
fn unit_len(bytes: &[u8]) -> Option<usize>
    ensures value { result ≡ unit_len bytes.now }
    ensures bound { IfSome result (λ n. n ≤ length bytes.now) }
    ensures some { IfSome result (λ n. 1 ≤ n) }
{
    match bytes {
        [b'\\', escaped, ..] if is_escape(*escaped) => Some(2),
        [b'\\', ..] => None,
        [first, ..] if is_text_byte(*first) => Some(1),
        _ => None,
    }
}

fn begins_quote(bytes: &[u8]) -> bool
    ensures { result ≡ begins_with 34 bytes.now }
{
    matches!(bytes, [b'"', ..])
}
