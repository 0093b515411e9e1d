ghost use Rattle.std.specs.Prelude.{◌≡◌, ◌++◌, OnOk};
ghost use Rattle.std.specs.String.{string_bytes};
ghost use Rattle.lot_cells.specs.Months.{cost_cells, month_html, point_cells, worth_cells};

use crate::cell::{push_gain_over, push_money};
use lot_num::Wide;
use lot_plot::{Month, MonthPoint, push_month};
use std::alloc::{AllocError, Global};

/// Appends the row of what lots come to at the end of a month. The only error is out of memory.
pub fn push_month_row(
    alloc: Global,
    text: &mut String,
    month: Month,
    point: &MonthPoint,
) -> Result<(), AllocError>
    ensures { OnOk result (string_bytes text.new
        ≡ string_bytes text.old ++ month_html month point.now) }
{
    text.push_str("<tr><th scope=\"row\">")?;
    push_month(text, month)?;
    text.push_str("</th>")?;
    push_point(alloc, text, point)?;
    text.push_str("</tr>\n")
}

/// Appends what lots are worth, what they cost, and what they would gain.
fn push_point(alloc: Global, text: &mut String, point: &MonthPoint) -> Result<(), AllocError>
    ensures { OnOk result (string_bytes text.new
        ≡ string_bytes text.old ++ point_cells point.now.worth point.now.cost) }
{
    match point.worth {
        Some(worth) => push_worth(alloc, text, worth, point.cost),
        None => push_cost(alloc, text, point.cost),
    }
}

/// Appends what lots with a price are worth, what they cost, and what they would gain.
fn push_worth(alloc: Global, text: &mut String, worth: Wide, cost: Wide) -> Result<(), AllocError>
    ensures { OnOk result (string_bytes text.new
        ≡ string_bytes text.old ++ worth_cells worth cost) }
{
    push_money(alloc, text, worth)?;
    push_money(alloc, text, cost)?;
    push_gain_over(alloc, text, worth, cost)
}

/// Appends what lots without a price cost.
fn push_cost(alloc: Global, text: &mut String, cost: Wide) -> Result<(), AllocError>
    ensures { OnOk result (string_bytes text.new
        ≡ string_bytes text.old ++ cost_cells cost) }
{
    text.push_str("<td class=\"n\">no price</td>")?;
    push_money(alloc, text, cost)?;
    text.push_str("<td class=\"n\"></td>")
}
