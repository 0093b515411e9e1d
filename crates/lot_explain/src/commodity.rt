//! Which commodity is meant by a text that is none.

ghost use Rattle.std.specs.Prelude.{◌≡◌, ◌++◌, ◌∷◌, [], ◌<◌, IfOk, IfSome, None};
ghost use Rattle.std.specs.Char.{to_ascii_uppercase};
ghost use Rattle.std.specs.String.{string_bytes};
ghost use Rattle.std.specs.Option.{option_to_list};
ghost use Rattle.lot_explain.specs.Commodity.{between, commodity_of, mark_for, name_of};

use lot_base::{Commodity, NameFault};
use std::alloc::{AllocError, Global};

/// The most bytes of a commodity.
const MOST: usize = 24;

/// Returns the commodity that is near to a text: its letters, as capital letters, and its digits, as
/// many as a commodity may have. What stands between them becomes one mark, and an `X` stands before
/// a digit at the start. A text without letters and digits has none. The only error is out of
/// memory.
pub(crate) fn nearest_commodity(alloc: Global, text: &[u8]) -> Result<Option<Commodity>, AllocError>
    ensures { IfOk result (λ commodity. commodity ≡ commodity_of text.now) }
{
    let name = name_of(alloc, text)?;
    match Commodity::new(alloc, name.as_str()) {
        Ok(commodity) => Ok(Some(commodity)),
        Err(NameFault::Memory) => Err(AllocError),
        Err(_) => Ok(None),
    }
}

/// Returns the name that is made of a text; it is empty where there is none.
fn name_of(alloc: Global, text: &[u8]) -> Result<String, AllocError>
    ensures { IfOk result (λ name. string_bytes name ≡ name_of [] None text.now) }
{
    let mut name = String::new(alloc);
    let mut waiting = None;
    for byte in text {
        if byte.is_ascii_alphanumeric() {
            let between = between(name.as_str(), waiting, *byte);
            let length = name.len() + usize::from(between.is_some()) + 1;
            if length > MOST {
                break;
            }
            push(&mut name, between, *byte)?;
            waiting = None;
        } else {
            waiting = Some(waiting.unwrap_or(mark_for(*byte)));
        }
    }
    Ok(name)
}

/// Returns what stands between a name and its next letter or digit.
fn between(name: &str, waiting: Option<u8>, byte: u8) -> Option<u8>
    requires { IfSome waiting (λ mark. mark < 128) }
    ensures value { option_to_list result ≡ between name.now waiting byte }
    ensures ascii { IfSome result (λ b. b < 128) }
{
    if !name.is_empty() {
        waiting
    } else if byte.is_ascii_digit() {
        Some(b'X')
    } else {
        None
    }
}

/// Returns the mark for a byte that is neither a letter nor a digit.
fn mark_for(byte: u8) -> u8
    ensures value { result ≡ mark_for byte }
    ensures ascii { result < 128 }
{
    match byte {
        b'\'' | b'.' | b'_' | b'-' => byte,
        _ => b'.',
    }
}

/// Adds a letter, as a capital letter, or a digit to a name, with what stands before it.
fn push(name: &mut String, before: Option<u8>, byte: u8) -> Result<(), AllocError>
    requires before { IfSome before (λ b. b < 128) }
    requires byte { byte < 128 }
    ensures { IfOk result (λ u. string_bytes name.new
        ≡ string_bytes name.old ++ option_to_list before ++ to_ascii_uppercase byte ∷ []) }
{
    if let Some(before) = before {
        name.push(char::from(before))?;
    }
    name.push(char::from(byte.to_ascii_uppercase()))
}
