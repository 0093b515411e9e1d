ghost use Rattle.std.specs.Prelude.{◌≡◌, ◌++◌, decimal, OnOk};
ghost use Rattle.std.specs.String.{string_bytes};
ghost use Rattle.lot_cells.specs.Gains.{commodity_front, commodity_html, gain_total_html, priced_cells, sums_html, unpriced_cells, year_front, year_html};
ghost use Rattle.lot_cells.specs.Cell.{number_cell};
ghost use Rattle.lot_tally.specs.Table.{unless_none};

use crate::cell::{push_money, push_money_gain, push_name_cell, push_number};
use itoa::Buffer;
use lot_base::Commodity;
use lot_html::{push_name, push_text};
use lot_num::Wide;
use lot_tally::RowSums;
use std::alloc::{AllocError, Global};

/// Appends the rows of what the sales of a year gained in one currency: that of the lots with a
/// gain, and that of the others. The only error is out of memory.
pub fn push_year(
    alloc: Global,
    text: &mut String,
    year: &str,
    sums: &RowSums,
) -> Result<(), AllocError>
    ensures { OnOk result (string_bytes text.new
        ≡ string_bytes text.old ++ year_html year.now sums.now) }
{
    let mut front = String::new(alloc);
    push_year_front(&mut front, year)?;
    push_sums(alloc, text, front.as_str(), sums)
}

/// Appends what a row of a year begins with. The only error is out of memory.
fn push_year_front(text: &mut String, year: &str) -> Result<(), AllocError>
    ensures { OnOk result (string_bytes text.new
        ≡ string_bytes text.old ++ year_front year.now) }
{
    text.push_str("<tr><th scope=\"row\">")?;
    push_text(text, year)?;
    text.push_str("</th>")
}

/// Appends the rows of what the sales of a commodity gained in one currency. The only error is out
/// of memory.
pub fn push_commodity(
    alloc: Global,
    text: &mut String,
    commodity: &str,
    currency: &Commodity,
    sums: &RowSums,
) -> Result<(), AllocError>
    ensures { OnOk result (string_bytes text.new
        ≡ string_bytes text.old ++ commodity_html commodity.now currency.now sums.now) }
{
    let mut front = String::new(alloc);
    push_commodity_front(&mut front, commodity, currency)?;
    push_sums(alloc, text, front.as_str(), sums)
}

/// Appends what a row of a commodity begins with. The only error is out of memory.
fn push_commodity_front(
    text: &mut String,
    commodity: &str,
    currency: &Commodity,
) -> Result<(), AllocError>
    ensures { OnOk result (string_bytes text.new
        ≡ string_bytes text.old ++ commodity_front commodity.now currency.now) }
{
    text.push_str("<tr><th scope=\"row\">")?;
    push_name(text, commodity)?;
    text.push_str("</th>")?;
    push_name_cell(text, currency.as_str())
}

/// Appends a row of the lots with a gain and one of the others, each where there are such lots.
/// Both begin alike. The only error is out of memory.
fn push_sums(
    alloc: Global,
    text: &mut String,
    front: &str,
    sums: &RowSums,
) -> Result<(), AllocError>
    ensures { OnOk result (string_bytes text.new
        ≡ string_bytes text.old ++ sums_html front.now sums.now) }
{
    push_if_priced(alloc, text, front, sums)?;
    push_if_unpriced(alloc, text, front, sums)
}

/// Appends the row of the lots with a gain, where there are any. The only error is out of memory.
fn push_if_priced(
    alloc: Global,
    text: &mut String,
    front: &str,
    sums: &RowSums,
) -> Result<(), AllocError>
    ensures { OnOk result (string_bytes text.new ≡ string_bytes text.old
        ++ unless_none sums.now.priced_lots (front.now ++ priced_cells sums.now)) }
{
    if sums.priced_lots == 0 {
        return Ok(());
    }
    text.push_str(front)?;
    push_priced(alloc, text, sums)
}

/// Appends the row of the lots without a gain, where there are any. The only error is out of memory.
fn push_if_unpriced(
    alloc: Global,
    text: &mut String,
    front: &str,
    sums: &RowSums,
) -> Result<(), AllocError>
    ensures { OnOk result (string_bytes text.new ≡ string_bytes text.old
        ++ unless_none sums.now.unpriced_lots (front.now ++ unpriced_cells sums.now)) }
{
    if sums.unpriced_lots == 0 {
        return Ok(());
    }
    text.push_str(front)?;
    push_unpriced(alloc, text, sums)
}

/// Appends what lots with a gain went for, cost and gained, and the end of their row.
fn push_priced(alloc: Global, text: &mut String, sums: &RowSums) -> Result<(), AllocError>
    ensures { OnOk result (string_bytes text.new
        ≡ string_bytes text.old ++ priced_cells sums.now) }
{
    push_lots(text, sums.priced_lots)?;
    push_money(alloc, text, sums.proceeds)?;
    push_money(alloc, text, sums.cost)?;
    push_money_gain(alloc, text, sums.gain)?;
    text.push_str("</tr>\n")
}

/// Appends what lots without a gain cost, and the end of their row.
fn push_unpriced(alloc: Global, text: &mut String, sums: &RowSums) -> Result<(), AllocError>
    ensures { OnOk result (string_bytes text.new
        ≡ string_bytes text.old ++ unpriced_cells sums.now) }
{
    push_lots(text, sums.unpriced_lots)?;
    text.push_str("<td class=\"n\"></td>")?;
    push_money(alloc, text, sums.unpriced_cost)?;
    text.push_str("<td class=\"n\">unpriced</td></tr>\n")
}

/// Appends how many lots there are.
fn push_lots(text: &mut String, lots: u64) -> Result<(), AllocError>
    ensures { OnOk result (string_bytes text.new
        ≡ string_bytes text.old ++ number_cell (decimal lots)) }
{
    let mut digits = Buffer::new();
    push_number(text, digits.format(lots))
}

/// Appends the row of what all sales gained in one currency. The only error is out of memory.
pub fn push_gain_total(
    alloc: Global,
    text: &mut String,
    currency: &Commodity,
    total: Wide,
) -> Result<(), AllocError>
    ensures { OnOk result (string_bytes text.new
        ≡ string_bytes text.old ++ gain_total_html currency.now total) }
{
    text.push_str("<tr><th scope=\"row\">Total</th>")?;
    push_name_cell(text, currency.as_str())?;
    text.push_str("<td></td><td></td><td></td>")?;
    push_money_gain(alloc, text, total)?;
    text.push_str("</tr>\n")
}
