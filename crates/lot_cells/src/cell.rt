ghost use Rattle.std.specs.Prelude.{◌≡◌, ◌++◌, ◌-ℤ◌, IsTrue, OnOk, SomeIff};
ghost use Rattle.std.specs.String.{string_bytes};
ghost use Rattle.lot_report.specs.Report.{is_wide};
ghost use Rattle.lot_cells.specs.Cell.{gain_cell, gain_over_cell, loss_cell, money_cell, money_gain_cell, name_cell, number_cell, optional_name, plain_cell};

use lot_base::Label;
use lot_html::{push_data, push_name, push_text};
use lot_num::Wide;
use std::alloc::{AllocError, Global};

/// Appends a cell with a number. The only error is out of memory.
pub fn push_number(text: &mut String, number: &str) -> Result<(), AllocError>
    ensures { OnOk result (string_bytes text.new
        ≡ string_bytes text.old ++ number_cell number.now) }
{
    text.push_str("<td class=\"n\">")?;
    push_data(text, number)?;
    text.push_str("</td>")
}

/// Appends a cell with a gain, which is marked where it is below zero. The only error is out of
/// memory.
pub fn push_gain(text: &mut String, number: &str) -> Result<(), AllocError>
    ensures { OnOk result (string_bytes text.new
        ≡ string_bytes text.old ++ gain_cell number.now) }
{
    match number.strip_prefix('-') {
        Some(_) => push_loss(text, number),
        None => push_number(text, number),
    }
}

/// Appends a cell with a gain that is below zero. The only error is out of memory.
fn push_loss(text: &mut String, number: &str) -> Result<(), AllocError>
    ensures { OnOk result (string_bytes text.new
        ≡ string_bytes text.old ++ loss_cell number.now) }
{
    text.push_str("<td class=\"n loss\">")?;
    push_data(text, number)?;
    text.push_str("</td>")
}

/// Appends a cell with a name. The only error is out of memory.
pub fn push_name_cell(text: &mut String, name: &str) -> Result<(), AllocError>
    ensures { OnOk result (string_bytes text.new
        ≡ string_bytes text.old ++ name_cell name.now) }
{
    text.push_str("<td>")?;
    push_name(text, name)?;
    text.push_str("</td>")
}

/// Appends a cell with a text that is no name. The only error is out of memory.
pub fn push_plain(text: &mut String, said: &str) -> Result<(), AllocError>
    ensures { OnOk result (string_bytes text.new
        ≡ string_bytes text.old ++ plain_cell said.now) }
{
    text.push_str("<td>")?;
    push_text(text, said)?;
    text.push_str("</td>")
}

/// Appends a cell with a label, which is empty where there is none. The only error is out of memory.
pub(crate) fn push_label(text: &mut String, label: &Option<Label>) -> Result<(), AllocError>
    ensures { OnOk result (string_bytes text.new
        ≡ string_bytes text.old ++ optional_name label.now) }
{
    match label {
        Some(label) => push_name_cell(text, label.as_str()),
        None => text.push_str("<td></td>"),
    }
}

/// Appends a cell with an amount of money. The only error is out of memory.
pub(crate) fn push_money(alloc: Global, text: &mut String, amount: Wide) -> Result<(), AllocError>
    ensures { OnOk result (string_bytes text.new
        ≡ string_bytes text.old ++ money_cell amount) }
{
    let money = amount.text_money(alloc)?;
    push_number(text, money.as_str())
}

/// Appends a cell with a gain of money. The only error is out of memory.
pub(crate) fn push_money_gain(
    alloc: Global,
    text: &mut String,
    amount: Wide,
) -> Result<(), AllocError>
    ensures { OnOk result (string_bytes text.new
        ≡ string_bytes text.old ++ money_gain_cell amount) }
{
    let money = amount.text_money(alloc)?;
    push_gain(text, money.as_str())
}

/// Appends a cell with what is gained where something that cost so much is worth so much. It is
/// empty where that is out of the range of weights. The only error is out of memory.
pub(crate) fn push_gain_over(
    alloc: Global,
    text: &mut String,
    worth: Wide,
    cost: Wide,
) -> Result<(), AllocError>
    ensures { OnOk result (string_bytes text.new
        ≡ string_bytes text.old ++ gain_over_cell worth cost) }
{
    match gain_of(worth, cost) {
        Some(gain) => push_money_gain(alloc, text, gain),
        None => text.push_str("<td class=\"n\"></td>"),
    }
}

/// Returns what is gained where something that cost so much is worth so much, or `None` where that
/// is out of the range of weights.
pub(crate) fn gain_of(worth: Wide, cost: Wide) -> Option<Wide>
    ensures { SomeIff result (IsTrue (is_wide (worth -ℤ cost))) (worth -ℤ cost) }
{
    worth.checked_add(cost.negated())
}
