ghost use Rattle.std.specs.Prelude.{◌≡◌, option_map, option_copied};
ghost use Rattle.lot_dump.specs.Cutting.{behind, cut_of, digest_of, number_before, number_of, numbered, parts};

use hex::FromHex;
use itoa::Buffer;
use memchr::memchr;

/// Returns what stands before the first such byte, and behind it, or none where there is no such byte.
pub(crate) fn cut(byte: u8, bytes: &[u8]) -> Option<(&[u8], &[u8])>
    ensures { cut_of byte bytes.now ≡ option_map parts result }
{
    match memchr(byte, bytes) {
        Some(at) => Some((&bytes[..at], &bytes[at + 1..])),
        None => None,
    }
}

/// Returns what stands behind that front, or none where the text doesn't begin with it.
#[tactic(auto, unfolding(crate::specs::Cutting::behind))]
pub(crate) fn behind<'a>(front: &[u8], text: &'a [u8]) -> Option<&'a [u8]>
    ensures { behind front.now text.now ≡ option_copied result }
{
    text.strip_prefix(front)
}

/// Returns the number whose text this is. A number without leading zeros has a text, where it fits 32 bits.
pub(crate) fn number(text: &[u8]) -> Option<u32>
    ensures { result ≡ number_of text.now }
{
    let Ok(digits) = str::from_utf8(text) else {
        return None;
    };
    let Ok(number) = digits.parse() else {
        return None;
    };
    if Buffer::new().format(number).as_bytes() == text {
        Some(number)
    } else {
        None
    }
}

/// Returns the number before the first blank, and what stands behind that blank and this word.
#[tactic(auto, unfolding(crate::specs::Cutting::number_before))]
pub(crate) fn number_before<'a>(word: &[u8], text: &'a [u8]) -> Option<(u32, &'a [u8])>
    ensures { number_before word.now text.now ≡ option_map numbered result }
{
    let (digits, rest) = cut(b' ', text)?;
    let number = number(digits)?;
    Some((number, behind(word, rest)?))
}

/// Returns the 32 bytes whose text in small hexadecimal digits this is.
pub(crate) fn digest(text: &[u8]) -> Option<[u8; 32]>
    ensures { result ≡ digest_of text.now }
{
    let Ok(bytes) = <[u8; 32] as FromHex>::from_hex(text) else {
        return None;
    };
    let mut digits = [0; 64];
    let Ok(()) = hex::encode_to_slice(bytes, &mut digits) else {
        return None;
    };
    if digits.as_slice() == text {
        Some(bytes)
    } else {
        None
    }
}
