//! How a profile says how a file is written.
ghost use Rattle.std.specs.Prelude.{◌≡◌, count_by, map, IfOk};
ghost use Rattle.std.specs.List.{list_all, list_any};
ghost use Rattle.lot_field.specs.Field.{cut};
ghost use Rattle.lot_profile_text.specs.Files.{begins_character, currency_signs_of, currency_texts_of, file_of, file_of_one_table, form_of, grouping_of, is_beside_number, is_of_number, may_be_currency, may_group, numbers_of, only_table};
ghost use Rattle.lot_profile_text.specs.Keys.{currency_signs_key};
ghost use Rattle.lot_profile_text.specs.Reading.{Gives, below};
ghost use Rattle.toml.specs.View.{view};

use crate::entry::Form;
use crate::fault::ProfileFault;
use crate::keys::{
    CURRENCY_SIGNS, DAY, DECIMAL, DELIMITER, ENCODING, GROUPING, HEADER, NOTHING, OPTIONAL, ORDER,
    TURN,
};
use crate::list::Listed;
use crate::part::{Part, entry};
use crate::place::below;
use crate::section::{file_of_tables_section, file_section};
use crate::word::Word;
use lot_command::Items;
use lot_field::{DecimalMark, NumberForm, Text, cut};
use lot_profile::{FileForm, Header, KindRule, Order, Role, Sources, Table};
use std::alloc::{AllocError, Global};
use toml::Value;

/// How a file is written that has one table, and what is said of that.
pub(crate) struct FileOfOneTable {
    pub file: FileForm,
    pub header: Header,
    pub order: Order,
    pub turn: Items<Role>,
}

impl Drop for FileOfOneTable {
    fn drop(self) {
        let FileOfOneTable {
            file: _file,
            header: _header,
            order: _order,
            turn: _turn,
        } = self;
    }
}

impl FileOfOneTable {
    /// Returns how the file is written, and its table, where these are its columns and kinds.
    pub(crate) fn with_table(
        self,
        alloc: Global,
        columns: Items<Sources>,
        kinds: Items<KindRule>,
    ) -> (FileForm, Table)
        ensures file { result.0 ≡ self.file }
        ensures table { result.1 ≡ only_table self columns kinds }
    {
        let FileOfOneTable {
            file,
            header,
            order,
            turn,
        } = self;
        let table = Table {
            header,
            rows: Items::new(alloc),
            order,
            columns,
            turn,
            kinds,
        };
        (file, table)
    }
}

impl Part for FileOfOneTable {
    ghost said = { file_of_one_table };

    fn read(alloc: Global, place: &str, value: &Value) -> Result<FileOfOneTable, ProfileFault> {
        file_section(alloc, place, value)?;
        let file = form(alloc, place, value)?;
        let header = entry(alloc, place, value, &HEADER)?;
        let order = entry(alloc, place, value, &ORDER)?;
        let turn: Listed<Role> = entry(alloc, place, value, &TURN)?;
        Ok(FileOfOneTable {
            file,
            header,
            order,
            turn: turn.into_items(),
        })
    }
}

impl Part for FileForm {
    ghost said = { file_of };

    fn read(alloc: Global, place: &str, value: &Value) -> Result<FileForm, ProfileFault> {
        file_of_tables_section(alloc, place, value)?;
        form(alloc, place, value)
    }
}

/// Returns how the section at a place says that the file is written, or the first fault.
#[tactic(auto, unfolding(crate::specs::Files::form_of))]
fn form(alloc: Global, place: &str, value: &Value) -> Result<FileForm, ProfileFault>
    ensures { Gives result (form_of place.now (view value.now)) }
{
    let encoding = entry(alloc, place, value, &ENCODING)?;
    let delimiter = entry(alloc, place, value, &DELIMITER)?;
    let numbers = numbers(alloc, place, value)?;
    let nothing: Listed<Text> = entry(alloc, place, value, &NOTHING)?;
    let day = entry(alloc, place, value, &DAY)?;
    let optional: Listed<Text> = entry(alloc, place, value, &OPTIONAL)?;
    Ok(FileForm {
        encoding,
        delimiter,
        numbers,
        nothing: all_cut(alloc, nothing.items.as_slice())?,
        day,
        optional: optional.into_items(),
    })
}

/// Returns texts without the blanks at their ends. The only error is out of memory.
fn all_cut(alloc: Global, texts: &[Text]) -> Result<Items<Text>, AllocError>
    ensures { IfOk result (λ all. all ≡ map cut texts.now) }
{
    let mut all = Items::new(alloc);
    for text in texts {
        all.push(Text::new(alloc, cut(text.as_str()))?)?;
    }
    Ok(all)
}

// ---- Numbers.

/// Returns how the section at a place says that numbers are written, or the first fault.
#[tactic(auto, unfolding(crate::specs::Files::numbers_of))]
fn numbers(alloc: Global, place: &str, value: &Value) -> Result<NumberForm, ProfileFault>
    ensures { Gives result (numbers_of place.now (view value.now)) }
{
    let decimal = entry(alloc, place, value, &DECIMAL)?;
    let text = entry(alloc, place, value, &GROUPING)?;
    let grouping = grouping(alloc, place, decimal, text)?;
    let signs = currency_signs(alloc, place, value)?;
    Ok(NumberForm {
        decimal,
        grouping,
        signs,
    })
}

/// Returns what groups digits in the file of the section at a place: nothing, where the text is empty.
#[tactic(auto, unfolding(crate::specs::Files::grouping_of))]
fn grouping(
    alloc: Global,
    place: &str,
    decimal: DecimalMark,
    text: Text,
) -> Result<Option<Text>, ProfileFault>
    ensures { Gives result (grouping_of place.now decimal text) }
{
    if text.as_str().is_empty() {
        return Ok(None);
    }
    if may_group(decimal, text.as_str()) {
        Ok(Some(text))
    } else {
        let key = below(alloc, place, GROUPING.key)?;
        Err(ProfileFault::Wrong(key, Form::Character))
    }
}

/// Returns whether a text may stand between groups of digits: one character, which isn't of numbers, and not the decimal mark.
fn may_group(decimal: DecimalMark, text: &str) -> bool
    ensures { result ≡ may_group decimal text.now }
{
    characters(text.as_bytes()) == 1 && !has_number(text.as_bytes()) && text != decimal.word()
}

/// Returns how many characters a text has.
fn characters(text: &[u8]) -> usize
    ensures { result ≡ count_by begins_character text.now }
{
    text.iter().filter(|byte| begins_character(**byte)).count()
}

/// Returns whether a byte begins a character.
fn begins_character(byte: u8) -> bool
    ensures { result ≡ begins_character byte }
{
    byte < 128 || byte >= 192
}

/// Returns whether a digit, a sign or a parenthesis stands in a text.
fn has_number(text: &[u8]) -> bool
    ensures { result ≡ list_any is_of_number text.now }
{
    text.iter().any(|byte| is_of_number(*byte))
}

/// Returns whether a byte is a digit, a sign or a parenthesis.
fn is_of_number(byte: u8) -> bool
    ensures { result ≡ is_of_number byte }
{
    byte.is_ascii_digit() || byte == b'+' || byte == b'-' || byte == b'(' || byte == b')'
}

/// Returns the signs of currencies in the file of the section at a place, or the first fault.
#[tactic(auto, unfolding(crate::specs::Files::currency_signs_of))]
fn currency_signs(alloc: Global, place: &str, value: &Value) -> Result<Items<Text>, ProfileFault>
    ensures { Gives result (currency_signs_of place.now (view value.now)) }
{
    let texts = currency_texts(alloc, place, value)?;
    if may_be_currencies(texts.items.as_slice()) {
        Ok(texts.into_items())
    } else {
        let key = currency_key(alloc, place)?;
        Err(ProfileFault::Wrong(key, Form::CurrencySigns))
    }
}

/// Returns the texts that stand as signs of currencies in the file of the section at a place, or the first fault.
fn currency_texts(alloc: Global, place: &str, value: &Value) -> Result<Listed<Text>, ProfileFault>
    ensures { Gives result (currency_texts_of place.now (view value.now)) }
{
    entry(alloc, place, value, &CURRENCY_SIGNS)
}

/// Returns the place of these texts. The only error is out of memory.
fn currency_key(alloc: Global, place: &str) -> Result<Text, AllocError>
    ensures { IfOk result (λ key. key ≡ below place.now currency_signs_key.name) }
{
    below(alloc, place, CURRENCY_SIGNS.key)
}

/// Returns whether texts may be signs of currencies.
fn may_be_currencies(signs: &[Text]) -> bool
    ensures { result ≡ list_all may_be_currency signs.now }
{
    signs.iter().all(|sign| may_be_currency(sign.as_str()))
}

/// Returns whether a text may be the sign of a currency.
fn may_be_currency(text: &str) -> bool
    ensures { result ≡ may_be_currency text.now }
{
    text.len() >= 1 && !is_beside_numbers(text.as_bytes())
}

fn is_beside_numbers(text: &[u8]) -> bool
    ensures { result ≡ list_any is_beside_number text.now }
{
    text.iter().any(|byte| is_beside_number(*byte))
}

/// Returns whether a byte is of numbers, or a point, a comma or a blank.
fn is_beside_number(byte: u8) -> bool
    ensures { result ≡ is_beside_number byte }
{
    is_of_number(byte) || byte == b'.' || byte == b',' || byte == b' ' || byte == b'\t'
}
