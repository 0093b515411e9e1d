ghost use Rattle.std.specs.Prelude.{◌≡◌, ◌++◌, [], ℕ, suc, List, if◌then◌else◌, flat_map, OnOk};
ghost use Rattle.std.specs.String.{string_bytes};
ghost use Rattle.lot_plot.specs.Bars.{IsBarsPlot, bar_front, bar_html, bars_label, below_front, every, first_gain, greatest_of, is_written, least_of, middle_of, money_html, scale_of_bars, width_of, year_html, years_html, years_of};

use crate::grid::push_grid;
use crate::month::push_year;
use crate::piece::{push_place, push_thousandths};
use crate::scale::{Scale, greater, lesser};
use lot_html::{push_grouped, push_text};
use lot_num::Wide;
use std::alloc::{AllocError, Global};

/// What the sales of a year gained, in one currency.
#[derive(Clone, Copy, Debug, PartialEq, Eq)]
pub struct YearBar {
    pub year: u16,
    pub gain: Wide,
}

/// The first year of a plot, and how many more there are.
#[derive(Clone, Copy)]
struct Years {
    first: u16,
    more: u16,
}

impl Years {
    /// Returns how many years there are.
    fn count(self) -> u64
        ensures { result ≡ suc self.more }
    {
        u64::from(self.more) + 1
    }

    /// Returns where the middle of a year is, in thousandths of the width.
    fn middle(self, at: u32) -> u64
        ensures { result ≡ middle_of (suc self.more) at }
    {
        140 + 860 * (2 * u64::from(at) + 1) / (2 * self.count())
    }

    /// Returns how wide a bar is.
    fn width(self) -> u64
        ensures { result ≡ width_of (suc self.more) }
    {
        (860 * 7 / (10 * self.count())).min(90).max(1)
    }

    /// Returns how many years lie between two that are written.
    fn every(self) -> u64
        ensures { result ≡ every (suc self.more) }
    {
        (self.count() + 5) / 6
    }
}

/// Appends a plot of what sales gained by year, a bar for each, in the order of years. Without a
/// bar nothing is appended. The only error is out of memory.
pub fn push_bars(
    alloc: Global,
    text: &mut String,
    currency: &str,
    bars: &[YearBar],
) -> Result<(), AllocError>
    ensures { OnOk result ((plot : List ℕ) × IsBarsPlot currency.now bars.now plot
        × (string_bytes text.new ≡ string_bytes text.old ++ plot)) }
{
    if bars.is_empty() {
        return Ok(());
    }
    let years = years_of(bars);
    let scale = scale_of(bars);
    text.push_str("<svg class=\"plot\" height=\"208\" role=\"img\" aria-label=\"")?;
    push_label(alloc, text, currency, years, bars)?;
    text.push_str("\">\n<svg y=\"18\" width=\"100%\" height=\"164\">\n")?;
    push_grid(alloc, text, &scale)?;
    push_each_bar(text, &scale, years, bars)?;
    text.push_str("</svg>\n")?;
    push_years(text, years)?;
    text.push_str("</svg>\n")
}

/// Returns the years from the first bar to the last.
fn years_of(bars: &[YearBar]) -> Years
    ensures { result ≡ years_of bars.now }
{
    match (bars.first(), bars.last()) {
        (Some(first), Some(last)) => Years {
            first: first.year,
            more: last.year.saturating_sub(first.year),
        },
        _ => Years { first: 0, more: 0 },
    }
}

/// Returns the scale of zero and of all bars.
fn scale_of(bars: &[YearBar]) -> Scale
    ensures { result ≡ scale_of_bars bars.now }
{
    let mut scale = Scale::at(Wide::ZERO);
    for bar in bars {
        scale = scale.with(bar.gain);
    }
    scale
}

/// Appends what the plot says for those who don't see it.
fn push_label(
    alloc: Global,
    text: &mut String,
    currency: &str,
    years: Years,
    bars: &[YearBar],
) -> Result<(), AllocError>
    ensures { OnOk result (string_bytes text.new
        ≡ string_bytes text.old ++ bars_label currency.now years bars.now) }
{
    text.push_str("Gains in ")?;
    push_text(text, currency)?;
    text.push_str(" by year, ")?;
    push_year(text, u128::from(years.first))?;
    text.push_str(" to ")?;
    push_year(text, u128::from(years.first) + u128::from(years.more))?;
    text.push_str(": the least is ")?;
    push_money(alloc, text, least_of(bars))?;
    text.push_str(", the greatest ")?;
    push_money(alloc, text, greatest_of(bars))
}

/// Appends a weight as money, for the eye. The only error is out of memory.
pub(crate) fn push_money(alloc: Global, text: &mut String, amount: Wide) -> Result<(), AllocError>
    ensures { OnOk result (string_bytes text.new
        ≡ string_bytes text.old ++ money_html amount) }
{
    let money = amount.text_money(alloc)?;
    push_grouped(text, money.as_str())
}

/// Returns the gain of the first bar, or zero where there is none.
fn first_gain(bars: &[YearBar]) -> Wide
    ensures { result ≡ first_gain bars.now }
{
    match bars.first() {
        Some(bar) => bar.gain,
        None => Wide::ZERO,
    }
}

/// Returns the least gain.
fn least_of(bars: &[YearBar]) -> Wide
    ensures { result ≡ least_of bars.now }
{
    let mut least = first_gain(bars);
    for bar in bars {
        least = lesser(least, bar.gain);
    }
    least
}

/// Returns the greatest gain.
fn greatest_of(bars: &[YearBar]) -> Wide
    ensures { result ≡ greatest_of bars.now }
{
    let mut greatest = first_gain(bars);
    for bar in bars {
        greatest = greater(greatest, bar.gain);
    }
    greatest
}

/// Appends all bars.
fn push_each_bar(
    text: &mut String,
    scale: &Scale,
    years: Years,
    bars: &[YearBar],
) -> Result<(), AllocError>
    ensures { OnOk result (string_bytes text.new
        ≡ string_bytes text.old ++ flat_map (bar_html scale.now years) bars.now) }
{
    for bar in bars {
        push_bar(text, scale, years, bar)?;
    }
    Ok(())
}

/// Appends the bar of a year.
fn push_bar(text: &mut String, scale: &Scale, years: Years, bar: &YearBar) -> Result<(), AllocError>
    ensures { OnOk result (string_bytes text.new
        ≡ string_bytes text.old ++ bar_html scale.now years bar.now) }
{
    let middle = years.middle(u32::from(bar.year.saturating_sub(years.first)));
    let width = years.width();
    let top = scale.from_top(greater(bar.gain, Wide::ZERO));
    let bottom = scale.from_top(lesser(bar.gain, Wide::ZERO));
    push_bar_front(text, bar.gain)?;
    push_thousandths(text, middle.saturating_sub(width / 2))?;
    push_place(text, "%\" y=\"", top)?;
    push_place(text, "%\" width=\"", width)?;
    push_place(text, "%\" height=\"", bottom.saturating_sub(top))?;
    text.push_str("%\"/>\n")
}

/// Appends what a bar begins with. One below zero is marked.
fn push_bar_front(text: &mut String, gain: Wide) -> Result<(), AllocError>
    ensures { OnOk result (string_bytes text.new
        ≡ string_bytes text.old ++ bar_front gain) }
{
    if gain.mantissa() < 0 {
        text.push_str("<rect class=\"below\" x=\"")
    } else {
        text.push_str("<rect x=\"")
    }
}

/// Appends years below the bars, at most as many as there is room for.
fn push_years(text: &mut String, years: Years) -> Result<(), AllocError>
    ensures { OnOk result (string_bytes text.new
        ≡ string_bytes text.old ++ years_html years) }
{
    for at in 0..u32::from(years.more) + 1 {
        push_year_at(text, years, at)?;
    }
    Ok(())
}

/// Appends a year below the bars, where it is one of those that are written.
fn push_year_at(text: &mut String, years: Years, at: u32) -> Result<(), AllocError>
    ensures { OnOk result (string_bytes text.new
        ≡ string_bytes text.old
        ++ (if is_written years at then year_html years at else [])) }
{
    if u64::from(at) % years.every() != 0 {
        return Ok(());
    }
    push_below(text, years.middle(at))?;
    push_year(text, u128::from(years.first) + u128::from(at))?;
    text.push_str("</text>\n")
}

/// Appends what a text below a plot begins with.
pub(crate) fn push_below(text: &mut String, at: u64) -> Result<(), AllocError>
    ensures { OnOk result (string_bytes text.new
        ≡ string_bytes text.old ++ below_front at) }
{
    push_place(text, "<text x=\"", at)?;
    text.push_str("%\" y=\"202\" text-anchor=\"middle\">")
}
