//! What stands on a page before the sales.

ghost use Rattle.std.specs.Prelude.{◌≡◌, ◌++◌, IfOk, List, OnOk, map, ℕ};
ghost use Rattle.std.specs.String.{string_bytes};
ghost use Rattle.lot_page_report.specs.Page.{doctype};
ghost use Rattle.lot_page_report.specs.Parts.{page_in};
ghost use Rattle.lot_page_report.specs.Top.{HasTop, IsGainsPart};

use crate::head::{push_front, push_header};
use crate::held::push_held;
use crate::months::push_months;
use crate::parts::PageParts;
use crate::read::SalesTally;
use crate::scope::PageScope;
use crate::sums::{push_commodities, push_years};
use std::alloc::{AllocError, Global};

/// Returns what stands on a page before the sales, its first line and the head of their part among
/// that. The only error is out of memory.
pub(crate) fn top_text(
    alloc: Global,
    scope: &PageScope<'_>,
    parts: &PageParts,
) -> Result<String, AllocError>
    ensures { IfOk result (λ text. (top : List ℕ) × HasTop (page_in scope.now) parts.now top
        × (string_bytes text ≡ doctype ++ top)) }
{
    let mut text = String::from_str(alloc, "<!DOCTYPE html>\n")?;
    push_front(alloc, &mut text, scope.name)?;
    text.push_str("<body>\n")?;
    push_header(
        alloc,
        &mut text,
        scope.name,
        parts.counted.covered(),
        parts.counted.within,
        parts.counted.count,
        &parts.digest,
    )?;
    text.push_str("<main>\n")?;
    push_gains(alloc, &mut text, &parts.sales)?;
    push_held(
        alloc,
        &mut text,
        scope,
        &parts.lots.held.rows,
        &parts.lots.held.totals,
    )?;
    push_months(alloc, &mut text, parts.lots.range, &parts.lots.months)?;
    text.push_str("<section id=\"sales\">\n<h2>Sales</h2>\n")?;
    Ok(text)
}

/// Appends the parts of what the sales gained, by year and by commodity.
fn push_gains(alloc: Global, text: &mut String, sales: &SalesTally<'_>) -> Result<(), AllocError>
    ensures { OnOk result ((part : List ℕ) × IsGainsPart sales.now part
        × (string_bytes text.new ≡ string_bytes text.old ++ part)) }
{
    let currencies = sales.currencies.rows();
    push_years(alloc, text, sales.years.rows(), currencies)?;
    push_commodities(alloc, text, sales.commodities.rows(), currencies)
}
