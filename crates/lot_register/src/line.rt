ghost use Rattle.std.specs.Prelude.{◌≡◌, ◌++◌, IfOk, OnOk, Some, flat_map};
ghost use Rattle.std.specs.String.{string_bytes};
ghost use Rattle.lot_register.specs.Text.{end_text, leg_text, lot_part, narration_part, units_text};
ghost use Rattle.lot_report.specs.Printed.{label_text};

use crate::leg::NotedLeg;
use itoa::Buffer;
use lot_base::{Label, Note};
use lot_cost::LotKey;
use lot_num::Units;
use std::alloc::{AllocError, Global};

/// Returns the line of a leg with what is left behind it. The only error is out of memory.
pub(crate) fn line_text(alloc: Global, leg: &NotedLeg, left: Units) -> Result<String, AllocError>
    ensures { IfOk result (λ text. string_bytes text ≡ leg_text leg.now ++ end_text leg.now left) }
{
    let mut text = String::new(alloc);
    push_leg(alloc, &mut text, leg)?;
    push_end(alloc, &mut text, leg, left)?;
    Ok(text)
}

/// Appends a leg: its day, its account, its units and their lot. The only error is out of memory.
fn push_leg(alloc: Global, text: &mut String, leg: &NotedLeg) -> Result<(), AllocError>
    ensures { OnOk result (string_bytes text.new ≡ string_bytes text.old ++ leg_text leg.now) }
{
    let day = leg.day.text(alloc)?;
    let units = units_text(alloc, &leg.lot, leg.units)?;
    push_all(
        text,
        &[
            day.as_str(),
            " ",
            leg.account.as_str(),
            " ",
            units.as_str(),
            " ",
            leg.commodity.as_str(),
        ],
    )?;
    push_lot(alloc, text, &leg.lot)
}

/// Appends what stands behind a leg: what is left, and its entry with the narration. The only error
/// is out of memory.
fn push_end(alloc: Global, text: &mut String, leg: &NotedLeg, left: Units) -> Result<(), AllocError>
    ensures { OnOk result (string_bytes text.new ≡ string_bytes text.old ++ end_text leg.now left) }
{
    let left = units_text(alloc, &leg.lot, left)?;
    let mut digits = Buffer::new();
    let entry = digits.format(leg.entry);
    push_all(text, &[" left ", left.as_str(), " entry ", entry])?;
    push_narration(text, &leg.narration)?;
    text.push_str("\n")
}

/// Returns the text of units: plain as money, in a lot with no more digits than they need. The only
/// error is out of memory.
fn units_text(alloc: Global, lot: &Option<LotKey>, units: Units) -> Result<String, AllocError>
    ensures { IfOk result (λ text. string_bytes text ≡ units_text lot.now units) }
{
    match lot {
        Some(_) => units.text(alloc),
        None => units.text_money(alloc),
    }
}

/// Appends a space and the lot in braces, or nothing for plain units. The only error is out of
/// memory.
fn push_lot(alloc: Global, text: &mut String, lot: &Option<LotKey>) -> Result<(), AllocError>
    ensures { OnOk result (string_bytes text.new ≡ string_bytes text.old ++ lot_part lot.now) }
{
    match lot {
        Some(lot) => push_braces(alloc, text, lot),
        None => Ok(()),
    }
}

/// Appends a space and a lot in braces. The only error is out of memory.
fn push_braces(alloc: Global, text: &mut String, lot: &LotKey) -> Result<(), AllocError>
    ensures { OnOk result (string_bytes text.new
        ≡ string_bytes text.old ++ lot_part (Some lot.now)) }
{
    let number = lot.number.text(alloc)?;
    let day = lot.day.text(alloc)?;
    push_all(
        text,
        &[
            " {",
            number.as_str(),
            " ",
            lot.currency.as_str(),
            ", ",
            day.as_str(),
        ],
    )?;
    push_label(text, &lot.label)?;
    text.push_str("}")
}

/// Appends the label of a lot in quotes, or nothing where it has none. The only error is out of
/// memory.
fn push_label(text: &mut String, label: &Option<Label>) -> Result<(), AllocError>
    ensures { OnOk result (string_bytes text.new ≡ string_bytes text.old ++ label_text label.now) }
{
    match label {
        Some(label) => push_all(text, &[", \"", label.as_str(), "\""]),
        None => Ok(()),
    }
}

/// Appends a space and the narration, or nothing where there is none. The only error is out of
/// memory.
fn push_narration(text: &mut String, narration: &Option<Note>) -> Result<(), AllocError>
    ensures { OnOk result (string_bytes text.new
        ≡ string_bytes text.old ++ narration_part narration.now) }
{
    match narration {
        Some(narration) => push_all(text, &[" ", narration.as_str()]),
        None => Ok(()),
    }
}

/// Appends texts, one behind another. The only error is out of memory.
fn push_all(text: &mut String, texts: &[&str]) -> Result<(), AllocError>
    ensures { OnOk result (string_bytes text.new
        ≡ string_bytes text.old ++ flat_map (λ text. text.now) texts.now) }
{
    for more in texts {
        text.push_str(more)?;
    }
    Ok(())
}
