ghost use Rattle.std.specs.Prelude.{◌≡◌, ◌++◌, [], map, OnOk};
ghost use Rattle.std.specs.Option.{unwrap_or};
ghost use Rattle.std.specs.Char.{encode_utf8};
ghost use Rattle.std.specs.String.{string_bytes};
ghost use Rattle.lot_csv.specs.Record.{cost_fields, doubled, field_text, needs_quotes, others_text};

use lot_base::Label;
use lot_cost::LotKey;
use std::alloc::{AllocError, Global};

/// Appends fields, each behind a comma. The only error is out of memory.
pub fn push_others(text: &mut String, fields: &[&str]) -> Result<(), AllocError>
    ensures { OnOk result (string_bytes text.new
        ≡ string_bytes text.old ++ others_text (map (λ field. field.now) fields.now)) }
{
    for field in fields {
        text.push_str(",")?;
        push_field(text, field)?;
    }
    Ok(())
}

/// Appends a field, in quotes where it needs them. The only error is out of memory.
#[tactic(auto, unfolding(crate::specs::Record::field_text))]
pub fn push_field(text: &mut String, field: &str) -> Result<(), AllocError>
    ensures { OnOk result (string_bytes text.new
        ≡ string_bytes text.old ++ field_text field.now) }
{
    if !needs_quotes(field) {
        return text.push_str(field);
    }
    text.push_str("\"")?;
    for character in field.chars() {
        push_doubled(text, character)?;
    }
    text.push_str("\"")
}

/// Returns whether a field has to stand in quotes.
fn needs_quotes(field: &str) -> bool
    ensures { result ≡ needs_quotes field.now }
{
    field
        .as_bytes()
        .iter()
        .any(|byte| matches!(byte, b',' | b'"' | b'\r' | b'\n'))
}

/// Appends a character, a quote twice.
fn push_doubled(text: &mut String, character: char) -> Result<(), AllocError>
    ensures { OnOk result (string_bytes text.new
        ≡ string_bytes text.old ++ doubled (encode_utf8 character)) }
{
    match character {
        '"' => text.push_str("\"\""),
        _ => text.push(character),
    }
}

/// Appends the label of a lot, or an empty field, and what one unit of it cost. The only error is
/// out of memory.
pub(crate) fn push_cost(alloc: Global, text: &mut String, lot: &LotKey) -> Result<(), AllocError>
    ensures { OnOk result (string_bytes text.new
        ≡ string_bytes text.old ++ others_text (cost_fields lot.now)) }
{
    let unit_cost = lot.number.text(alloc)?;
    let label = optional(&lot.label);
    push_others(text, &[label, unit_cost.as_str(), lot.currency.as_str()])
}

/// Returns a label as a field, which is empty where there is none.
fn optional(label: &Option<Label>) -> &str
    ensures { result.now ≡ unwrap_or label.now [] }
{
    match label {
        Some(label) => label.as_str(),
        None => "",
    }
}
