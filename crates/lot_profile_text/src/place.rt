//! The keys that lead to a value, as a fault names them.
ghost use Rattle.std.specs.Prelude.{◌≡◌, IfOk};
ghost use Rattle.lot_profile_text.specs.Reading.{below, numbered};

use itoa::Buffer;
use lot_field::Text;
use std::alloc::{AllocError, Global};

/// Returns the place of what stands under a key, below another place, which is empty at the top. The only error is out of memory.
pub(crate) fn below(alloc: Global, place: &str, key: &str) -> Result<Text, AllocError>
    ensures { IfOk result (λ text. text ≡ below place.now key.now) }
{
    if place.is_empty() {
        return Text::new(alloc, key);
    }
    let mut text = String::from_str(alloc, place)?;
    text.push_str(", ")?;
    text.push_str(key)?;
    Text::new(alloc, text.as_str())
}

/// Returns the place of an item of the list at a place, by its number. The only error is out of memory.
pub(crate) fn numbered(alloc: Global, place: &str, number: usize) -> Result<Text, AllocError>
    ensures { IfOk result (λ text. text ≡ numbered place.now number) }
{
    let mut buffer = Buffer::new();
    let mut text = String::from_str(alloc, place)?;
    text.push_str(" ")?;
    text.push_str(buffer.format(number))?;
    Text::new(alloc, text.as_str())
}
