//! What the sales of the range gained, by year and by commodity.

ghost use Rattle.std.specs.Prelude.{◌≡◌, ◌∷◌, ◌++◌, [], if◌then◌else◌, IfOk, List, OnOk, flat_map, map, ℕ};
ghost use Rattle.std.specs.String.{string_bytes};
ghost use Rattle.lot_plot.specs.Bars.{IsBarsPlot};
ghost use Rattle.lot_page_report.specs.Sections.{AreCurrencyYears, IsCurrencyYears, IsYears, bar_of, bars_of, commodities_html, commodities_inner, commodities_table, commodity_row, figure_html, foot_html, has_bar, key_of, number_of, number_with, some_figure_html, some_foot_html, total_in, total_row, unless_some, year_row};
ghost use Rattle.lot_page_report.specs.Text.{no_sales};
ghost use Rattle.lot_tally.specs.Table.{shown};

use lot_base::Commodity;
use lot_cells::{push_commodity, push_gain_total, push_year};
use lot_html::{push_name, push_text};
use lot_plot::{YearBar, push_bars};
use lot_tally::{RowKey, RowSums};
use std::alloc::{AllocError, Global};
use std::collections::BTreeMap;

/// Rows of what sales gained, by their keys.
pub(crate) type Rows = BTreeMap<RowKey, RowSums>;

/// Returns what a row has for its one key. A comma stands behind it.
fn key_of(text: &str) -> &str
    ensures { result.now ≡ key_of text.now }
{
    match text.strip_suffix(',') {
        Some(key) => key,
        None => text,
    }
}

/// Returns the number that the digits of a year say.
fn number_of(text: &str) -> u16
    ensures { result ≡ number_of 0 text.now }
{
    let mut number: u16 = 0;
    let digits = text.as_bytes();
    for digit in digits {
        number = number_with(number, *digit);
    }
    number
}

/// Returns a number with one more digit, or the greatest one.
fn number_with(number: u16, digit: u8) -> u16
    ensures { result ≡ number_with number digit }
{
    let whole = 10 * u32::from(number) + u32::from(digit.saturating_sub(b'0'));
    whole.min(65_535) as u16
}

// ---- by year

/// Appends the part of what sales gained by year: for each currency a plot and a table. The only
/// error is out of memory.
pub(crate) fn push_years(
    alloc: Global,
    text: &mut String,
    rows: &Rows,
    currencies: &Rows,
) -> Result<(), AllocError>
    ensures { OnOk result ((part : List ℕ)
        × IsYears (map shown rows.now.entries) (map shown currencies.now.entries) part
        × (string_bytes text.new ≡ string_bytes text.old ++ part)) }
{
    text.push_str("<section id=\"years\">\n<h2>Gains by year</h2>\n")?;
    push_unless_some(text, currencies)?;
    push_each_currency(alloc, text, rows, currencies)?;
    text.push_str("</section>\n")
}

/// Appends that there are no sales, where that is so.
fn push_unless_some(text: &mut String, currencies: &Rows) -> Result<(), AllocError>
    ensures { OnOk result (string_bytes text.new ≡ string_bytes text.old
        ++ unless_some (map shown currencies.now.entries) no_sales) }
{
    if currencies.is_empty() {
        return text.push_str("<p>No sales</p>\n");
    }
    Ok(())
}

/// Appends the plot and the table of each currency.
fn push_each_currency(
    alloc: Global,
    text: &mut String,
    rows: &Rows,
    currencies: &Rows,
) -> Result<(), AllocError>
    ensures { OnOk result ((inner : List ℕ)
        × AreCurrencyYears (map shown rows.now.entries) (map shown currencies.now.entries) inner
        × (string_bytes text.new ≡ string_bytes text.old ++ inner)) }
{
    for (key, _) in currencies {
        push_currency(alloc, text, &key.1, rows)?;
    }
    Ok(())
}

/// What stands between the currency of a table by year and its rows.
const YEARS_HEAD: &str =
    " by year</caption>\n<thead>\n<tr><th scope=\"col\">Year</th><th class=\"n\" scope=\"col\">Lots</th><th class=\"n\" scope=\"col\">Proceeds</th><th class=\"n\" scope=\"col\">Cost</th><th class=\"n\" scope=\"col\">Gain</th></tr>\n</thead>\n<tbody>\n";

/// Appends the plot and the table of what sales in a currency gained by year.
fn push_currency(
    alloc: Global,
    text: &mut String,
    currency: &Commodity,
    rows: &Rows,
) -> Result<(), AllocError>
    ensures { OnOk result ((part : List ℕ)
        × IsCurrencyYears currency.now (map shown rows.now.entries) part
        × (string_bytes text.new ≡ string_bytes text.old ++ part)) }
{
    let bars = bars_of(alloc, currency, rows)?;
    let plot = plot_of(alloc, currency, &bars)?;
    text.push_str("<div class=\"pair\">\n")?;
    push_figure(text, currency, plot.as_str(), &bars)?;
    text.push_str("<div class=\"wide\" role=\"region\" tabindex=\"0\" aria-label=\"Sales in ")?;
    push_text(text, currency.as_str())?;
    text.push_str(" by year\">\n<table>\n<caption>Sales in ")?;
    push_name(text, currency.as_str())?;
    text.push_str(YEARS_HEAD)?;
    push_year_rows(alloc, text, currency, rows)?;
    text.push_str("</tbody>\n</table>\n</div>\n</div>\n")
}

/// Returns a bar for each year in which some lot has a gain. The only error is out of memory.
fn bars_of(alloc: Global, currency: &Commodity, rows: &Rows) -> Result<Vec<YearBar>, AllocError>
    ensures { IfOk result (λ bars.
        bars.items ≡ bars_of currency.now (map shown rows.now.entries)) }
{
    let mut bars = Vec::new(alloc);
    for (key, sums) in rows {
        add_bar(&mut bars, currency, key, sums)?;
    }
    Ok(bars)
}

/// Adds the bar of a row of the currency in which some lot has a gain.
fn add_bar(
    bars: &mut Vec<YearBar>,
    currency: &Commodity,
    key: &RowKey,
    sums: &RowSums,
) -> Result<(), AllocError>
    ensures { OnOk result (bars.new.items ≡ bars.old.items
        ++ (if has_bar currency.now (shown (key.now, sums.now))
        then bar_of (shown (key.now, sums.now)) ∷ [] else [])) }
{
    if *currency == key.1 && sums.priced_lots > 0 {
        bars.push(YearBar {
            year: number_of(key_of(key.0.as_str())),
            gain: sums.gain,
        })?;
    }
    Ok(())
}

/// Returns the plot of bars. The only error is out of memory.
fn plot_of(alloc: Global, currency: &Commodity, bars: &[YearBar]) -> Result<String, AllocError>
    ensures { IfOk result (λ plot. IsBarsPlot currency.now bars.now (string_bytes plot)) }
{
    let mut plot = String::new(alloc);
    push_bars(alloc, &mut plot, currency.as_str(), bars)?;
    Ok(plot)
}

/// Appends a plot with its caption, where there are bars.
fn push_figure(
    text: &mut String,
    currency: &Commodity,
    plot: &str,
    bars: &[YearBar],
) -> Result<(), AllocError>
    ensures { OnOk result (string_bytes text.new
        ≡ string_bytes text.old ++ figure_html currency.now plot.now bars.now) }
{
    if bars.is_empty() {
        return Ok(());
    }
    push_some_figure(text, currency, plot)
}

/// Appends a plot with its caption.
fn push_some_figure(text: &mut String, currency: &Commodity, plot: &str) -> Result<(), AllocError>
    ensures { OnOk result (string_bytes text.new
        ≡ string_bytes text.old ++ some_figure_html currency.now plot.now) }
{
    text.push_str("<figure>\n<figcaption>Gains in ")?;
    push_name(text, currency.as_str())?;
    text.push_str(" by year</figcaption>\n")?;
    text.push_str(plot)?;
    text.push_str("</figure>\n")
}

/// Appends the rows by year of a currency.
fn push_year_rows(
    alloc: Global,
    text: &mut String,
    currency: &Commodity,
    rows: &Rows,
) -> Result<(), AllocError>
    ensures { OnOk result (string_bytes text.new ≡ string_bytes text.old
        ++ flat_map (year_row currency.now) (map shown rows.now.entries)) }
{
    for (key, sums) in rows {
        push_year_row(alloc, text, currency, key, sums)?;
    }
    Ok(())
}

/// Appends the rows of a year, where it is one of the currency.
fn push_year_row(
    alloc: Global,
    text: &mut String,
    currency: &Commodity,
    key: &RowKey,
    sums: &RowSums,
) -> Result<(), AllocError>
    ensures { OnOk result (string_bytes text.new ≡ string_bytes text.old
        ++ year_row currency.now (shown (key.now, sums.now))) }
{
    if *currency == key.1 {
        return push_year(alloc, text, key_of(key.0.as_str()), sums);
    }
    Ok(())
}

// ---- by commodity

/// Appends the part of what sales gained by commodity, and in all. The only error is out of memory.
pub(crate) fn push_commodities(
    alloc: Global,
    text: &mut String,
    rows: &Rows,
    currencies: &Rows,
) -> Result<(), AllocError>
    ensures { OnOk result (string_bytes text.new ≡ string_bytes text.old
        ++ commodities_html (map shown rows.now.entries) (map shown currencies.now.entries)) }
{
    text.push_str("<section id=\"commodities\">\n<h2>Gains by commodity</h2>\n")?;
    push_commodities_inner(alloc, text, rows, currencies)?;
    text.push_str("</section>\n")
}

/// Appends the table of what sales gained by commodity, or that there are none.
fn push_commodities_inner(
    alloc: Global,
    text: &mut String,
    rows: &Rows,
    currencies: &Rows,
) -> Result<(), AllocError>
    ensures { OnOk result (string_bytes text.new ≡ string_bytes text.old
        ++ commodities_inner (map shown rows.now.entries) (map shown currencies.now.entries)) }
{
    if rows.is_empty() {
        return text.push_str("<p>No sales</p>\n");
    }
    push_commodities_table(alloc, text, rows, currencies)
}

/// What stands before the rows of the table by commodity.
const COMMODITIES_HEAD: &str =
    "<div class=\"wide\" role=\"region\" tabindex=\"0\" aria-label=\"Gains by commodity\">\n<table>\n<caption>What the sales gained, by commodity</caption>\n<thead>\n<tr><th scope=\"col\">Commodity</th><th scope=\"col\">Currency</th><th class=\"n\" scope=\"col\">Lots</th><th class=\"n\" scope=\"col\">Proceeds</th><th class=\"n\" scope=\"col\">Cost</th><th class=\"n\" scope=\"col\">Gain</th></tr>\n</thead>\n<tbody>\n";

/// Appends the table of what sales gained by commodity.
fn push_commodities_table(
    alloc: Global,
    text: &mut String,
    rows: &Rows,
    currencies: &Rows,
) -> Result<(), AllocError>
    ensures { OnOk result (string_bytes text.new ≡ string_bytes text.old
        ++ commodities_table (map shown rows.now.entries) (map shown currencies.now.entries)) }
{
    let totals = totals_text(alloc, currencies)?;
    text.push_str(COMMODITIES_HEAD)?;
    push_commodity_rows(alloc, text, rows)?;
    text.push_str("</tbody>\n")?;
    push_foot(text, totals.as_str())?;
    text.push_str("</table>\n</div>\n")
}

/// Appends the rows of commodities.
fn push_commodity_rows(alloc: Global, text: &mut String, rows: &Rows) -> Result<(), AllocError>
    ensures { OnOk result (string_bytes text.new ≡ string_bytes text.old
        ++ flat_map commodity_row (map shown rows.now.entries)) }
{
    for (key, sums) in rows {
        push_commodity_row(alloc, text, key, sums)?;
    }
    Ok(())
}

/// Appends the rows of a commodity in a currency.
fn push_commodity_row(
    alloc: Global,
    text: &mut String,
    key: &RowKey,
    sums: &RowSums,
) -> Result<(), AllocError>
    ensures { OnOk result (string_bytes text.new
        ≡ string_bytes text.old ++ commodity_row (shown (key.now, sums.now))) }
{
    push_commodity(alloc, text, key_of(key.0.as_str()), &key.1, sums)
}

/// Returns the rows of what all sales gained. The only error is out of memory.
fn totals_text(alloc: Global, currencies: &Rows) -> Result<String, AllocError>
    ensures { IfOk result (λ text. string_bytes text
        ≡ flat_map total_row (map shown currencies.now.entries)) }
{
    let mut text = String::new(alloc);
    for (key, sums) in currencies {
        push_total(alloc, &mut text, &key.1, sums)?;
    }
    Ok(text)
}

/// Appends the row of what all sales gained in a currency, where some have a gain.
fn push_total(
    alloc: Global,
    text: &mut String,
    currency: &Commodity,
    sums: &RowSums,
) -> Result<(), AllocError>
    ensures { OnOk result (string_bytes text.new ≡ string_bytes text.old
        ++ total_in currency.now sums.now) }
{
    if sums.priced_lots > 0 {
        return push_gain_total(alloc, text, currency, sums.gain);
    }
    Ok(())
}

/// Appends the foot of a table, where it has rows. The only error is out of memory.
pub(crate) fn push_foot(text: &mut String, rows: &str) -> Result<(), AllocError>
    ensures { OnOk result (string_bytes text.new
        ≡ string_bytes text.old ++ foot_html rows.now) }
{
    if rows.is_empty() {
        return Ok(());
    }
    push_some_foot(text, rows)
}

/// Appends the foot of a table.
fn push_some_foot(text: &mut String, rows: &str) -> Result<(), AllocError>
    ensures { OnOk result (string_bytes text.new
        ≡ string_bytes text.old ++ some_foot_html rows.now) }
{
    text.push_str("<tfoot>\n")?;
    text.push_str(rows)?;
    text.push_str("</tfoot>\n")
}
