//! Which columns a profile means.
ghost use Rattle.std.specs.Prelude.{◌≡◌};
ghost use Rattle.toml.specs.View.{view};
ghost use Rattle.lot_profile_text.specs.Columns.{beginning_of, column_number, column_of, constant_of, header_of, source_of, sources_of, until_of};
ghost use Rattle.lot_profile_text.specs.Reading.{Gives};

use crate::entry::Form;
use crate::fault::ProfileFault;
use crate::keys::{BEGINNING, COLUMN, CONSTANT, CONSTANT_IS, UNTIL};
use crate::list::Member;
use crate::part::{Part, entry, wrong};
use crate::place::below;
use crate::role::may_be_several;
use crate::section::section;
use crate::word::named;
use lot_command::Items;
use lot_field::Text;
use lot_profile::{Column, Header, Source, Sources};
use std::alloc::Global;
use toml::Value;

/// Returns the number of a column, counted from 1, or `None` where no column has it.
fn column_number(number: i64) -> Option<usize>
    ensures { result ≡ column_number number }
{
    if number > 0 {
        Some(number as usize)
    } else {
        None
    }
}

impl Part for Column {
    ghost said = { column_of };

    fn read(alloc: Global, place: &str, value: &Value) -> Result<Column, ProfileFault> {
        if let Some(name) = value.as_str() {
            if name.is_empty() {
                return Err(wrong(alloc, place, Form::Column));
            }
            return Ok(Column::Named(Text::new(alloc, name)?));
        }
        let Some(number) = value.as_integer() else {
            return Err(wrong(alloc, place, Form::Column));
        };
        match column_number(number) {
            Some(number) => Ok(Column::Number(number)),
            None => Err(wrong(alloc, place, Form::Column)),
        }
    }
}

impl Part for Header {
    ghost said = { header_of };

    fn read(alloc: Global, place: &str, value: &Value) -> Result<Header, ProfileFault> {
        if let Some(text) = value.as_str() {
            if text.is_empty() {
                return Err(wrong(alloc, place, Form::Header));
            }
            return Ok(Header::Begins(Text::new(alloc, text)?));
        }
        let Some(number) = value.as_integer() else {
            return Err(wrong(alloc, place, Form::Header));
        };
        if number == 0 {
            return Ok(Header::Absent);
        }
        match column_number(number) {
            Some(number) => Ok(Header::Number(number)),
            None => Err(wrong(alloc, place, Form::Header)),
        }
    }
}

impl Part for Source {
    ghost said = { source_of };

    fn read(alloc: Global, place: &str, value: &Value) -> Result<Source, ProfileFault> {
        if value.get(CONSTANT_IS.key).is_some() {
            constant(alloc, place, value)
        } else if value.is_table() {
            beginning(alloc, place, value)
        } else {
            Ok(Source::Column(Column::read(alloc, place, value)?))
        }
    }
}

/// Returns the constant that the table at a place says, or the first fault.
fn constant(alloc: Global, place: &str, value: &Value) -> Result<Source, ProfileFault>
    ensures { Gives result (constant_of place.now (view value.now)) }
{
    section(alloc, place, value, CONSTANT.entries)?;
    Ok(Source::Constant(entry(alloc, place, value, &CONSTANT_IS)?))
}

/// Returns the beginning of a field that the table at a place says, or the first fault.
fn beginning(alloc: Global, place: &str, value: &Value) -> Result<Source, ProfileFault>
    ensures { Gives result (beginning_of place.now (view value.now)) }
{
    section(alloc, place, value, BEGINNING.entries)?;
    let column = entry(alloc, place, value, &COLUMN)?;
    let text = entry(alloc, place, value, &UNTIL)?;
    let key = below(alloc, place, UNTIL.key)?;
    Ok(Source::Until {
        column,
        until: until(alloc, key.as_str(), text)?,
    })
}

/// Returns the text at a place up to which a field counts, or the fault that it is empty.
fn until(alloc: Global, place: &str, text: Text) -> Result<Text, ProfileFault>
    ensures { Gives result (until_of place.now text) }
{
    if text.as_str().is_empty() {
        return Err(wrong(alloc, place, Form::SomeText));
    }
    Ok(text)
}

impl Member for Sources {
    ghost said_at = { sources_of };

    fn read(alloc: Global, place: &str, key: &str, value: &Value) -> Result<Sources, ProfileFault> {
        let place = below(alloc, place, key)?;
        let Some(role) = named(key) else {
            return Err(ProfileFault::Unknown(place));
        };
        let from: Items<Source> = Part::read(alloc, place.as_str(), value)?;
        match from.as_slice() {
            [] => Err(ProfileFault::Wrong(place, Form::Column)),
            [_, _, ..] if !may_be_several(role) => Err(ProfileFault::Wrong(place, Form::OneColumn)),
            _ => Ok(Sources { role, from }),
        }
    }
}
