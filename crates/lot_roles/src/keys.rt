//! The text of the key of a row.
ghost use Rattle.std.specs.Prelude.{◌≡◌, ◌<◌, ◌-◌, ◌^◌, IfOk, Ok, map};
ghost use Rattle.std.specs.List.{list_any};
ghost use Rattle.lot_base.specs.Text.{same_text};
ghost use Rattle.lot_roles.specs.Keys.{all_fields, is_left_out, is_optional, is_optional_name, key_fields, key_text_of};
ghost use Rattle.lot_roles.specs.Reading.{Gives};

use crate::fault::RowFault;
use crate::parts::{is_nothing, text, with_blanks};
use crate::rules::Rules;
use lot_field::{Text, cut};
use lot_profile::{FileForm, Role};
use lot_sheet::{Row, is_number_among};
use std::alloc::{AllocError, Global};

/// Returns the text of the key of a row: the broker's name of the deal; or where it has none all its fields, joined by one
/// blank, without those that are empty or mean nothing, and without columns that some files of the broker lack.
///
/// The only error is `Memory`.
pub fn key_text(alloc: Global, rules: &Rules, row: &Row) -> Result<Text, RowFault>
    ensures { Gives result (Ok (key_text_of rules.now row.now)) }
{
    match text(alloc, rules, row, Role::Ref)? {
        Some(text) => Ok(text),
        None => Ok(all_fields(alloc, &rules.profile.file, row)?),
    }
}

/// Returns all fields that a key has, joined by one blank. The only error is out of memory.
#[tactic(auto, unfolding(crate::specs::Keys::all_fields))]
fn all_fields(alloc: Global, form: &FileForm, row: &Row) -> Result<Text, AllocError>
    ensures { IfOk result (λ text. text ≡ all_fields form.now row.now) }
{
    let fields = key_fields(alloc, form, row)?;
    with_blanks(alloc, fields.as_slice())
}

/// Returns the fields that a key has, in their order. The only error is out of memory.
fn key_fields<'a>(alloc: Global, form: &FileForm, row: &'a Row) -> Result<Vec<&'a str>, AllocError>
    ensures { IfOk result (λ fields. map (λ field. field.now) fields.items
        ≡ key_fields form.now row.now.header 0 row.now.fields) }
{
    let mut fields = Vec::new(alloc);
    for place in 0..row.len() {
        let field = cut(row.at(place));
        if !is_optional(form, row, place) && !is_left_out(form, field) {
            fields.push(field)?;
        }
    }
    Ok(fields)
}

/// Returns whether the column at a place is one that some files lack, by its name in the header of a row, or by its number.
fn is_optional(form: &FileForm, row: &Row, place: usize) -> bool
    requires { place < 2 ^ 64 - 1 }
    ensures { result ≡ is_optional form.now.optional row.now.header place }
{
    is_optional_name(form, row, place) || is_number_among(&form.optional, place + 1)
}

/// Returns whether the column at a place has a name that is optional, by the header of a row.
fn is_optional_name(form: &FileForm, row: &Row, place: usize) -> bool
    ensures { result ≡ is_optional_name form.now.optional row.now.header place }
{
    let Some(names) = row.header() else {
        return false;
    };
    match names.as_slice().get(place) {
        Some(name) => is_among(form.optional.as_slice(), name),
        None => false,
    }
}

/// Returns whether a name is one of some names.
fn is_among(names: &[Text], name: &Text) -> bool
    ensures { result ≡ list_any (λ one. same_text one name.now) names.now }
{
    names.iter().any(|one| one.as_str() == name.as_str())
}

/// Returns whether a field is left out of a key.
fn is_left_out(form: &FileForm, field: &str) -> bool
    ensures { result ≡ is_left_out form.now field.now }
{
    field.is_empty() || is_nothing(form, field)
}
