//! What lots come to at the end of each month.

ghost use Rattle.std.specs.Prelude.{◌≡◌, ◌++◌, ℕ, List, OnOk, map};
ghost use Rattle.std.specs.String.{string_bytes};
ghost use Rattle.lot_months.specs.Series.{shown};
ghost use Rattle.lot_page_report.specs.Sections.{AreCurrencyMonths, AreMonthRows, IsCurrencyMonths, IsMonths, IsMonthsInner, bound_note};
ghost use Rattle.lot_plot.specs.Lines.{IsLinesPlot};

use crate::head::push_grouped_count;
use lot_cells::push_month_row;
use lot_html::{push_name, push_text};
use lot_months::{CurrencyMonths, MOST_MONTHS, MonthRange};
use lot_plot::{Month, MonthPoint, push_count, push_lines};
use std::alloc::{AllocError, Global};

/// What is said of the plots.
const ROUNDING: &str =
    "<p class=\"note\">The last month ends on the last day of the page. A line is broken where some units have no price. Heights are rounded down to a thousandth of the plot.</p>\n";

/// Appends the part of what lots come to at the end of each month: for each currency a plot, and
/// its numbers. The only error is out of memory.
pub(crate) fn push_months(
    alloc: Global,
    text: &mut String,
    range: Option<MonthRange>,
    months: &[CurrencyMonths],
) -> Result<(), AllocError>
    ensures { OnOk result ((part : List ℕ) × IsMonths range (map shown months.now) part
        × (string_bytes text.new ≡ string_bytes text.old ++ part)) }
{
    text.push_str("<section id=\"months\">\n<h2>Worth by month</h2>\n")?;
    push_months_inner(alloc, text, range, months)?;
    text.push_str("</section>\n")
}

/// Appends the plots and the numbers, or that there are no lots.
fn push_months_inner(
    alloc: Global,
    text: &mut String,
    range: Option<MonthRange>,
    months: &[CurrencyMonths],
) -> Result<(), AllocError>
    ensures { OnOk result ((inner : List ℕ) × IsMonthsInner range (map shown months.now) inner
        × (string_bytes text.new ≡ string_bytes text.old ++ inner)) }
{
    let Some(range) = range else {
        return text.push_str("<p>No lots</p>\n");
    };
    if months.is_empty() {
        return text.push_str("<p>No lots</p>\n");
    }
    push_bound(text, range.whole)?;
    push_currencies(alloc, text, range.first, months)?;
    text.push_str(ROUNDING)
}

/// Appends what is said where there are more months than are looked at.
fn push_bound(text: &mut String, whole: u32) -> Result<(), AllocError>
    ensures { OnOk result (string_bytes text.new
        ≡ string_bytes text.old ++ bound_note whole) }
{
    if whole <= MOST_MONTHS {
        return Ok(());
    }
    text.push_str("<p class=\"note\">The last ")?;
    push_count(text, MOST_MONTHS)?;
    text.push_str(" of ")?;
    push_grouped_count(text, u64::from(whole))?;
    text.push_str(" months</p>\n")
}

/// Appends the plots and the numbers of currencies.
fn push_currencies(
    alloc: Global,
    text: &mut String,
    first: Month,
    months: &[CurrencyMonths],
) -> Result<(), AllocError>
    ensures { OnOk result ((inner : List ℕ)
        × AreCurrencyMonths first.0 (map shown months.now) inner
        × (string_bytes text.new ≡ string_bytes text.old ++ inner)) }
{
    for one in months {
        push_currency(alloc, text, first, one.currency.as_str(), &one.points)?;
    }
    Ok(())
}

/// What stands between the currency of a table and its rows.
const MONTHS_HEAD: &str =
    "</caption>\n<thead>\n<tr><th scope=\"col\">End of</th><th class=\"n\" scope=\"col\">Worth</th><th class=\"n\" scope=\"col\">Cost</th><th class=\"n\" scope=\"col\">Unrealised gain</th></tr>\n</thead>\n<tbody>\n";

/// Appends the plot of a currency, and the table with its numbers.
fn push_currency(
    alloc: Global,
    text: &mut String,
    first: Month,
    currency: &str,
    points: &[MonthPoint],
) -> Result<(), AllocError>
    ensures { OnOk result ((part : List ℕ) × IsCurrencyMonths first.0 currency.now points.now part
        × (string_bytes text.new ≡ string_bytes text.old ++ part)) }
{
    text.push_str("<figure>\n<figcaption>Worth and cost of lots in ")?;
    push_name(text, currency)?;
    text.push_str(
        " at the end of each month<span class=\"key\">worth</span><span class=\"key\">cost</span></figcaption>\n",
    )?;
    push_lines(alloc, text, currency, first, points)?;
    text.push_str(
        "<details>\n<summary>The numbers</summary>\n<div class=\"wide\" role=\"region\" tabindex=\"0\" aria-label=\"Worth and cost of lots in ",
    )?;
    push_text(text, currency)?;
    text.push_str("\">\n<table>\n<caption>Worth and cost of lots in ")?;
    push_name(text, currency)?;
    text.push_str(MONTHS_HEAD)?;
    push_month_rows(alloc, text, first, points)?;
    text.push_str("</tbody>\n</table>\n</div>\n</details>\n</figure>\n")
}

/// Appends the numbers of the months of a currency. Beyond the last month that can be counted there
/// is no other, and memory ends before.
fn push_month_rows(
    alloc: Global,
    text: &mut String,
    first: Month,
    points: &[MonthPoint],
) -> Result<(), AllocError>
    ensures { OnOk result ((rows : List ℕ) × AreMonthRows first.0 points.now rows
        × (string_bytes text.new ≡ string_bytes text.old ++ rows)) }
{
    let mut month = first;
    for point in points {
        push_month_row(alloc, text, month, point)?;
        month = month.later(1);
    }
    Ok(())
}
