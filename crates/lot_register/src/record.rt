ghost use Rattle.std.specs.Prelude.{◌≡◌, ◌++◌, [], IfOk, OnOk, Some};
ghost use Rattle.std.specs.Option.{unwrap_or};
ghost use Rattle.std.specs.String.{string_bytes};
ghost use Rattle.lot_csv.specs.Record.{others_text, record_text};
ghost use Rattle.lot_register.specs.Text.{end_fields, lot_fields, moved_fields, record_fields};

use crate::leg::NotedLeg;
use itoa::Buffer;
use lot_base::{Label, Note};
use lot_cost::LotKey;
use lot_csv::{push_field, push_others};
use lot_num::Units;
use std::alloc::{AllocError, Global};

/// Returns the record of a leg with what is left behind it. The only error is out of memory.
pub(crate) fn record_text(alloc: Global, leg: &NotedLeg, left: Units) -> Result<String, AllocError>
    ensures { IfOk result (λ text. string_bytes text
        ≡ record_text (record_fields (record { leg = leg.now; left = left }))) }
{
    let day = leg.day.text(alloc)?;
    let mut text = String::new(alloc);
    push_field(&mut text, day.as_str())?;
    push_moved(alloc, &mut text, leg)?;
    push_lot(alloc, &mut text, &leg.lot)?;
    push_end(alloc, &mut text, leg, left)?;
    text.push_str("\n")?;
    Ok(text)
}

/// Appends where a leg is, and what it moved. The only error is out of memory.
fn push_moved(alloc: Global, text: &mut String, leg: &NotedLeg) -> Result<(), AllocError>
    ensures { OnOk result (string_bytes text.new
        ≡ string_bytes text.old ++ others_text (moved_fields leg.now)) }
{
    let mut entry = Buffer::new();
    let mut posting = Buffer::new();
    let units = leg.units.text(alloc)?;
    push_others(
        text,
        &[
            entry.format(leg.entry),
            posting.format(leg.posting),
            leg.account.as_str(),
            leg.commodity.as_str(),
            units.as_str(),
        ],
    )
}

/// Appends the fields of a lot; those of plain units are empty. The only error is out of memory.
fn push_lot(alloc: Global, text: &mut String, lot: &Option<LotKey>) -> Result<(), AllocError>
    ensures { OnOk result (string_bytes text.new
        ≡ string_bytes text.old ++ others_text (lot_fields lot.now)) }
{
    match lot {
        Some(lot) => push_key(alloc, text, lot),
        None => push_others(text, &["", "", "", ""]),
    }
}

/// Appends the fields of a lot. The only error is out of memory.
fn push_key(alloc: Global, text: &mut String, lot: &LotKey) -> Result<(), AllocError>
    ensures { OnOk result (string_bytes text.new
        ≡ string_bytes text.old ++ others_text (lot_fields (Some lot.now))) }
{
    let acquired = lot.day.text(alloc)?;
    let unit_cost = lot.number.text(alloc)?;
    push_others(
        text,
        &[
            acquired.as_str(),
            label_field(&lot.label),
            unit_cost.as_str(),
            lot.currency.as_str(),
        ],
    )
}

/// Appends what is left behind a leg, and its narration. The only error is out of memory.
fn push_end(alloc: Global, text: &mut String, leg: &NotedLeg, left: Units) -> Result<(), AllocError>
    ensures { OnOk result (string_bytes text.new
        ≡ string_bytes text.old ++ others_text (end_fields leg.now left)) }
{
    let left = left.text(alloc)?;
    push_others(text, &[left.as_str(), narration_field(&leg.narration)])
}

/// Returns a label as a field, which is empty where there is none.
fn label_field(label: &Option<Label>) -> &str
    ensures { result.now ≡ unwrap_or label.now [] }
{
    match label {
        Some(label) => label.as_str(),
        None => "",
    }
}

/// Returns a narration as a field, which is empty where there is none.
fn narration_field(narration: &Option<Note>) -> &str
    ensures { result.now ≡ unwrap_or narration.now [] }
{
    match narration {
        Some(narration) => narration.as_str(),
        None => "",
    }
}
