//! The profile that a text says.
ghost use Rattle.std.specs.Prelude.{◌≡◌, ◌≢◌, ◌≤◌, count_by, length, option_map, IfErr, IfOk, None, Some};
ghost use Rattle.toml.specs.Data.{table};
ghost use Rattle.toml.specs.Errors.{IsMemory, IsWithin};
ghost use Rattle.toml.specs.Parse.{parse_document};
ghost use Rattle.toml.specs.View.{view};
ghost use Rattle.lot_profile_text.specs.Needs.{AllHaveNeeds};
ghost use Rattle.lot_profile_text.specs.Texts.{IsLine, IsProfileOf, IsTomlFault, ends_line};
ghost use Rattle.lot_profile_text.specs.declared.fault.ProfileFault.TheVariants.{Memory};

use crate::fault::ProfileFault;
use crate::profile::profile;
use lot_profile::Profile;
use std::alloc::Global;
use toml::Value;
use toml::de::Error;

/// Returns the profile that a text says (docs/FORMATS.md, Profiles).
///
/// The error is `NoToml` where the text is no TOML. Else it is the first fault: in each section a key that no profile has, in the
/// order of the keys, and then what is missing or wrong, in the order in which the section's keys are listed; a section within
/// another counts where its key is listed. `Memory` may come of any text.
pub fn read_profile(alloc: Global, text: &str) -> Result<Profile, ProfileFault>
    ensures said { IsProfileOf text.now result }
    ensures needs { IfOk result AllHaveNeeds }
{
    let document = document(alloc, text)?;
    profile(alloc, &document)
}

/// Returns the TOML document that a text is, or `NoToml` with a line of the text.
fn document(alloc: Global, text: &str) -> Result<Value, ProfileFault>
    ensures document { IfOk result
        (λ value. option_map table (parse_document text.now) ≡ Some (view value)) }
    ensures fault { IfErr result (IsTomlFault text.now) }
    ensures none { IfErr result (λ fault. fault ≢ Memory → parse_document text.now ≡ None) }
{
    match toml::table_from_str(alloc, text) {
        Ok(table) => Ok(Value::Table(table)),
        Err(error) => Err(no_toml(text, &error)),
    }
}

/// Returns the fault of a text that is no TOML.
fn no_toml(text: &str, error: &Error) -> ProfileFault
    requires { IsWithin text.now error.now }
    ensures fault { IsTomlFault text.now result }
    ensures memory { IsMemory error.now → result ≡ Memory }
{
    match error.span() {
        Some(span) => ProfileFault::NoToml(line_at(text.as_bytes(), span.start)),
        None => ProfileFault::Memory,
    }
}

/// Returns the number of the line with the byte at a place, from 1.
fn line_at(text: &[u8], place: usize) -> usize
    requires { place ≤ length text.now }
    ensures { IsLine text.now result }
{
    let (before, _) = text.split_at(place);
    lines_ended(before) + 1
}

/// Returns how many lines end in a text.
fn lines_ended(text: &[u8]) -> usize
    ensures { result ≡ count_by ends_line text.now }
{
    text.iter().filter(|byte| **byte == b'\n').count()
}
