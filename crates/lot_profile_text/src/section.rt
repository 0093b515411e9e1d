//! Sections: tables in which only the keys of their entries stand.
ghost use Rattle.std.specs.Prelude.{◌≡◌, bytes_eq, map, option_map};
ghost use Rattle.std.specs.List.{list_any};
ghost use Rattle.toml.specs.View.{table_view, view};
ghost use Rattle.lot_profile_text.specs.Keys.{file_keys, file_of_tables_keys, one_table_keys, table_keys, tables_keys};
ghost use Rattle.lot_profile_text.specs.Reading.{Gives, first_unknown, is_known, key_of, section_of};

use crate::entry::{Entry, Form};
use crate::fault::ProfileFault;
use crate::keys::{FILE, FILE_OF_TABLES, ONE_TABLE, TABLE, TABLES};
use crate::part::wrong;
use crate::place::below;
use std::alloc::Global;
use toml::{Table, Value};

/// Tests that the value at a place is a table in which only the keys of these entries stand.
#[tactic(auto, unfolding(crate::specs::Reading::section_of))]
pub(crate) fn section(
    alloc: Global,
    place: &str,
    value: &Value,
    entries: &[Entry],
) -> Result<(), ProfileFault>
    ensures { Gives result (section_of (map key_of entries.now) place.now (view value.now)) }
{
    let Some(table) = value.as_table() else {
        return Err(wrong(alloc, place, Form::Table));
    };
    match first_unknown(table, entries) {
        Some(key) => Err(ProfileFault::Unknown(below(alloc, place, key)?)),
        None => Ok(()),
    }
}

/// Returns the first key of a table that is none of these entries, if there is one.
fn first_unknown<'a>(table: &'a Table, entries: &[Entry]) -> Option<&'a str>
    ensures { option_map (λ key. key.now) result
        ≡ first_unknown (map key_of entries.now) (table_view table.now) }
{
    for (key, _value) in table.iter() {
        if !is_known(entries, key.as_str()) {
            return Some(key.as_str());
        }
    }
    None
}

/// Returns whether a key is one of these entries.
fn is_known(entries: &[Entry], key: &str) -> bool
    ensures { result ≡ is_known (map key_of entries.now) key.now }
{
    has_key(entries, key)
}

fn has_key(entries: &[Entry], key: &str) -> bool
    ensures { result ≡ list_any (λ entry. bytes_eq entry.key.now key.now) entries.now }
{
    entries.iter().any(|entry| entry.key == key)
}

/// Tests that the value at a place is a table whose keys are those at the top, where the file has one table.
pub(crate) fn one_table_section(
    alloc: Global,
    place: &str,
    value: &Value,
) -> Result<(), ProfileFault>
    ensures { Gives result (section_of one_table_keys place.now (view value.now)) }
{
    section(alloc, place, value, ONE_TABLE.entries)
}

/// Tests that the value at a place is a table whose keys are those at the top, where the file has several tables.
pub(crate) fn tables_section(alloc: Global, place: &str, value: &Value) -> Result<(), ProfileFault>
    ensures { Gives result (section_of tables_keys place.now (view value.now)) }
{
    section(alloc, place, value, TABLES.entries)
}

/// Tests that the value at a place is a table whose keys are those of a file of one table.
pub(crate) fn file_section(alloc: Global, place: &str, value: &Value) -> Result<(), ProfileFault>
    ensures { Gives result (section_of file_keys place.now (view value.now)) }
{
    section(alloc, place, value, FILE.entries)
}

/// Tests that the value at a place is a table whose keys are those of a file of several tables.
pub(crate) fn file_of_tables_section(
    alloc: Global,
    place: &str,
    value: &Value,
) -> Result<(), ProfileFault>
    ensures { Gives result (section_of file_of_tables_keys place.now (view value.now)) }
{
    section(alloc, place, value, FILE_OF_TABLES.entries)
}

/// Tests that the value at a place is a table whose keys are those of a table of several.
pub(crate) fn table_section(alloc: Global, place: &str, value: &Value) -> Result<(), ProfileFault>
    ensures { Gives result (section_of table_keys place.now (view value.now)) }
{
    section(alloc, place, value, TABLE.entries)
}
