//! The field that a column means in a row, and whether a row meets conditions.
ghost use Rattle.std.specs.Prelude.{◌≡◌, ◌↔◌, IsTrue, get_or, [], position};
ghost use Rattle.std.specs.List.{All, Any};
ghost use Rattle.std.specs.Option.{option_map};
ghost use Rattle.csv.specs.Records.{fields_of};
ghost use Rattle.lot_field.specs.Tests.{Holds};
ghost use Rattle.lot_sheet.specs.Column.{Meets, MeetsOne, field_of, found_in, is_same, place_of};

use crate::row::{Row, field_at, field_there};
use csv::StringRecord;
use lot_command::Items;
use lot_field::{Test, Text, cut};
use lot_profile::{Column, Condition, FileForm};

/// Returns the field that a column means in a row, without the blanks at its ends. It is empty where the row is shorter, or the
/// header hasn't the name.
pub fn field<'a>(row: &'a Row, column: &Column) -> &'a str
    ensures { result.now ≡ field_of row.now.header row.now.fields column.now }
{
    field_in(row.header(), row.fields(), column)
}

/// Returns the same field, or `None` where the row is shorter, or the header hasn't the name.
pub fn field_if_any<'a>(row: &'a Row, column: &Column) -> Option<&'a str>
    ensures { option_map (λ field. field.now) result
        ≡ found_in row.now.header row.now.fields column.now }
{
    let place = place_in(row.header(), column)?;
    Some(cut(field_there(row.fields(), place)?))
}

/// Returns whether a row meets all conditions.
pub fn meets(form: &FileForm, row: &Row, conditions: &Items<Condition>) -> bool
    ensures { IsTrue result ↔ Meets form.now row.now.header row.now.fields conditions.now }
{
    meets_all(form, row.header(), row.fields(), conditions)
}

/// Returns whether a line of a table with the names of that header meets all conditions.
pub(crate) fn meets_all(
    form: &FileForm,
    header: Option<&Items<Text>>,
    line: &StringRecord,
    conditions: &Items<Condition>,
) -> bool
    ensures { IsTrue result
        ↔ Meets form.now (option_map (λ names. names.now) header.entry)
        (fields_of line.now) conditions.now }
{
    for condition in conditions.as_slice() {
        if !meets_one(
            form,
            field_in(header, line, &condition.column),
            &condition.tests,
        ) {
            return false;
        }
    }
    true
}

/// Returns whether one of the tests holds of a field.
fn meets_one(form: &FileForm, field: &str, tests: &Items<Test>) -> bool
    ensures { IsTrue result
        ↔ Any (λ test. Holds test form.now.nothing form.now.numbers field.now) tests.now }
{
    for test in tests.as_slice() {
        if test.holds(&form.nothing, &form.numbers, field) {
            return true;
        }
    }
    false
}

/// Returns the field that a column means in a line of a table with the names of that header.
fn field_in<'a>(header: Option<&Items<Text>>, line: &'a StringRecord, column: &Column) -> &'a str
    ensures { result.now
        ≡ field_of (option_map (λ names. names.now) header.entry) (fields_of line.now) column.now }
{
    match place_in(header, column) {
        Some(place) => cut(field_at(line, place)),
        None => "",
    }
}

/// Returns the place of a column, counted from 0, if the header has its name.
fn place_in(header: Option<&Items<Text>>, column: &Column) -> Option<usize>
    ensures { result ≡ place_of (option_map (λ names. names.now) header.entry) column.now }
{
    match column {
        Column::Number(number) => number.checked_sub(1),
        Column::Named(name) => place_of_name(header?.as_slice(), name),
    }
}

/// Returns the place of a name among others, counted from 0.
fn place_of_name(names: &[Text], name: &Text) -> Option<usize>
    ensures { result ≡ position (is_same name.now) names.now }
{
    names
        .iter()
        .position(|other| other.as_str() == name.as_str())
}
