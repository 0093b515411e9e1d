//! What is read of a value, and how it is found under its key.
ghost use Rattle.std.specs.Prelude.{◌≡◌, ℕ, List};
ghost use Rattle.toml.specs.Data.{Data};
ghost use Rattle.toml.specs.View.{view};
ghost use Rattle.lot_profile_text.specs.Reading.{Gives, IsWrong, Read, entry_of, key_of, perhaps_of, text_of};

use crate::entry::{Entry, Form, default_value};
use crate::fault::ProfileFault;
use crate::place::below;
use lot_field::Text;
use std::alloc::Global;
use toml::Value;

/// A part of what a profile says, which a value says alone.
pub(crate) trait Part: Drop {
    // What the value at a place says, or the first fault.
    ghost said: { List ℕ → Data → Read Self };

    /// Returns what the value at a place says, or the first fault.
    fn read(alloc: Global, place: &str, value: &Value) -> Result<Self, ProfileFault>
        ensures { Gives result (said place.now (view value.now)) };
}

/// Returns what stands under the key of an entry in the section at a place, or the first fault.
#[tactic(auto, unfolding(crate::specs::Reading::entry_of))]
pub(crate) fn entry<P: Part>(
    alloc: Global,
    place: &str,
    section: &Value,
    entry: &Entry,
) -> Result<P, ProfileFault>
    ensures { Gives result (entry_of P.said (key_of entry.now) place.now (view section.now)) }
{
    let key = below(alloc, place, entry.key)?;
    match section.get(entry.key) {
        Some(value) => P::read(alloc, key.as_str(), value),
        None => match default_value(alloc, entry.need)? {
            Some(value) => P::read(alloc, key.as_str(), &value),
            None => Err(ProfileFault::Missing(key)),
        },
    }
}

impl Part for Text {
    ghost said = { text_of };

    fn read(alloc: Global, place: &str, value: &Value) -> Result<Text, ProfileFault> {
        match value.as_str() {
            Some(text) => Ok(Text::new(alloc, text)?),
            None => Err(wrong(alloc, place, Form::Text)),
        }
    }
}

/// Returns the fault of a value at a place that isn't of that form.
pub(crate) fn wrong(alloc: Global, place: &str, form: Form) -> ProfileFault
    ensures { IsWrong place.now form result }
{
    match Text::new(alloc, place) {
        Ok(key) => ProfileFault::Wrong(key, form),
        Err(_) => ProfileFault::Memory,
    }
}

/// Returns what stands under the key of an entry in the section at a place, if anything does, or the first fault.
#[tactic(auto, unfolding(crate::specs::Reading::perhaps_of))]
pub(crate) fn perhaps<P: Part>(
    alloc: Global,
    place: &str,
    section: &Value,
    entry: &Entry,
) -> Result<Option<P>, ProfileFault>
    ensures { Gives result (perhaps_of P.said (key_of entry.now) place.now (view section.now)) }
{
    let Some(value) = section.get(entry.key) else {
        return Ok(None);
    };
    let key = below(alloc, place, entry.key)?;
    Ok(Some(P::read(alloc, key.as_str(), value)?))
}
