ghost use Rattle.std.specs.Prelude.{◌≡◌, ◌++◌, [], ℕ, false, List, if◌then◌else◌, length, OnOk};
ghost use Rattle.std.specs.String.{string_bytes};
ghost use Rattle.lot_plot.specs.Lines.{IsLinesPlot, below_of, class_of, each_month_html, each_year_html, gaps_of, gaps_text, has_value, is_written_month, is_written_year, known_text, last_text, lines_label, month_html, months_html, path_html, paths_html, place_of, scale_of_points, scale_with_worth, step_at, step_html, steps_from, value_at, values_of, year_html, years_between};

use crate::bars::{push_below, push_money};
use crate::grid::push_grid;
use crate::month::{Month, push_month_number, push_year};
use crate::piece::push_number;
use crate::scale::Scale;
use lot_html::push_text;
use lot_num::Wide;
use std::alloc::{AllocError, Global};

/// What lots in one currency come to at the end of a month.
#[derive(Clone, Copy, Debug, PartialEq, Eq)]
pub struct MonthPoint {
    /// What they are worth, where that is known.
    pub worth: Option<Wide>,
    pub cost: Wide,
}

/// One of the two lines of a plot.
#[derive(Clone, Copy)]
enum Line {
    Worth,
    Cost,
}

impl Line {
    /// Returns the class by which it is styled.
    fn class(self) -> &'static str
        ensures { result.now ≡ class_of self }
    {
        match self {
            Line::Worth => "worth",
            Line::Cost => "cost",
        }
    }

    /// Returns its value at a point, if it has one there.
    fn value(self, point: &MonthPoint) -> Option<Wide>
        ensures { result ≡ value_at self point.now }
    {
        match self {
            Line::Worth => point.worth,
            Line::Cost => Some(point.cost),
        }
    }
}

/// The most months by which a plot is labelled month by month.
const FEW_MONTHS: u64 = 24;

/// Appends a plot of worth and cost at the end of each month, from the first on. Where the worth
/// isn't known, its line is broken. Without a point nothing is appended. The only error is out of
/// memory.
pub fn push_lines(
    alloc: Global,
    text: &mut String,
    currency: &str,
    first: Month,
    points: &[MonthPoint],
) -> Result<(), AllocError>
    ensures { OnOk result ((plot : List ℕ) × IsLinesPlot currency.now first.0 points.now plot
        × (string_bytes text.new ≡ string_bytes text.old ++ plot)) }
{
    if points.is_empty() {
        return Ok(());
    }
    let count = points.len() as u64;
    let scale = scale_of(points);
    text.push_str("<svg class=\"plot\" height=\"208\" role=\"img\" aria-label=\"")?;
    push_label(alloc, text, currency, first, points)?;
    text.push_str("\">\n<svg y=\"18\" width=\"100%\" height=\"164\">\n")?;
    push_grid(alloc, text, &scale)?;
    push_paths(text, &scale, points)?;
    push_months(text, first, count)?;
    text.push_str("</svg>\n")
}

/// Returns the scale of zero and of all values.
fn scale_of(points: &[MonthPoint]) -> Scale
    ensures { result ≡ scale_of_points points.now }
{
    let mut scale = Scale::at(Wide::ZERO);
    for point in points {
        scale = with_worth(scale.with(point.cost), point.worth);
    }
    scale
}

/// Returns the scale that has room for a worth, where that is known.
fn with_worth(scale: Scale, worth: Option<Wide>) -> Scale
    ensures { result ≡ scale_with_worth scale worth }
{
    match worth {
        Some(worth) => scale.with(worth),
        None => scale,
    }
}

/// Appends what the plot says for those who don't see it.
fn push_label(
    alloc: Global,
    text: &mut String,
    currency: &str,
    first: Month,
    points: &[MonthPoint],
) -> Result<(), AllocError>
    ensures { OnOk result (string_bytes text.new
        ≡ string_bytes text.old ++ lines_label currency.now first.0 points.now) }
{
    let first = u128::from(first.0);
    text.push_str("Worth and cost of lots in ")?;
    push_text(text, currency)?;
    text.push_str(" at the end of each month, ")?;
    push_month_number(text, first)?;
    text.push_str(" to ")?;
    push_month_number(text, first + (points.len() as u128).saturating_sub(1))?;
    push_last(alloc, text, points)?;
    push_gaps(text, gaps_of(points))
}

/// Appends what there is at the last point.
fn push_last(alloc: Global, text: &mut String, points: &[MonthPoint]) -> Result<(), AllocError>
    ensures { OnOk result (string_bytes text.new
        ≡ string_bytes text.old ++ last_text points.now) }
{
    let Some(last) = points.last() else {
        return Ok(());
    };
    text.push_str(": at the last the worth is ")?;
    push_known(alloc, text, last.worth)?;
    text.push_str(", the cost ")?;
    push_money(alloc, text, last.cost)
}

/// Appends what lots are worth, where that is known.
fn push_known(alloc: Global, text: &mut String, worth: Option<Wide>) -> Result<(), AllocError>
    ensures { OnOk result (string_bytes text.new
        ≡ string_bytes text.old ++ known_text worth) }
{
    match worth {
        Some(worth) => push_money(alloc, text, worth),
        None => text.push_str("not known"),
    }
}

/// Returns at how many points the worth isn't known.
fn gaps_of(points: &[MonthPoint]) -> u64
    ensures { result ≡ gaps_of points.now }
{
    let mut gaps = 0;
    for point in points {
        if point.worth.is_none() {
            gaps += 1;
        }
    }
    gaps
}

/// Appends at how many months the worth isn't known, where there are some.
fn push_gaps(text: &mut String, gaps: u64) -> Result<(), AllocError>
    ensures { OnOk result (string_bytes text.new
        ≡ string_bytes text.old ++ gaps_text gaps) }
{
    if gaps == 0 {
        return Ok(());
    }
    text.push_str("; at ")?;
    push_number(text, gaps)?;
    text.push_str(" the worth isn't known")
}

/// Returns where a month is, in thousandths of the width.
fn place(at: u64, count: u64) -> u64
    ensures { result ≡ place_of count at }
{
    if count < 2 {
        return 500;
    }
    (u128::from(at) * 1_000 / u128::from(count - 1)).min(1_000) as u64
}

/// Appends both lines, in a drawing of their own.
fn push_paths(text: &mut String, scale: &Scale, points: &[MonthPoint]) -> Result<(), AllocError>
    ensures { OnOk result (string_bytes text.new
        ≡ string_bytes text.old ++ paths_html scale.now points.now) }
{
    text.push_str(
        "<svg x=\"14%\" width=\"80%\" viewBox=\"0 0 1000 1000\" preserveAspectRatio=\"none\">\n",
    )?;
    push_path(text, scale, Line::Cost, points)?;
    push_path(text, scale, Line::Worth, points)?;
    text.push_str("</svg>\n</svg>\n")
}

/// Appends a line through the points at which it has a value.
fn push_path(
    text: &mut String,
    scale: &Scale,
    line: Line,
    points: &[MonthPoint],
) -> Result<(), AllocError>
    ensures { OnOk result (string_bytes text.new
        ≡ string_bytes text.old ++ path_html scale.now line points.now) }
{
    if !has_value(line, points) {
        return Ok(());
    }
    text.push_str("<path class=\"")?;
    text.push_str(line.class())?;
    text.push_str("\" d=\"")?;
    push_steps(text, scale, line, points)?;
    text.push_str("\"/>\n")
}

/// Returns whether a line has a value at some point.
fn has_value(line: Line, points: &[MonthPoint]) -> bool
    ensures { result ≡ has_value line points.now }
{
    for point in points {
        if line.value(point).is_some() {
            return true;
        }
    }
    false
}

/// Appends the steps of a line: where a value is missing before, it begins anew.
fn push_steps(
    text: &mut String,
    scale: &Scale,
    line: Line,
    points: &[MonthPoint],
) -> Result<(), AllocError>
    ensures { OnOk result (string_bytes text.new
        ≡ string_bytes text.old
        ++ steps_from scale.now (length points.now) false 0 (values_of line points.now)) }
{
    let count = points.len() as u64;
    let mut is_drawing = false;
    for (at, point) in points.iter().enumerate() {
        let value = line.value(point);
        let is_known = value.is_some();
        push_value(text, scale, place(at as u64, count), is_drawing, value)?;
        is_drawing = is_known;
    }
    Ok(())
}

/// Appends the steps of a line at a value: where it begins, a point too.
fn push_value(
    text: &mut String,
    scale: &Scale,
    x: u64,
    is_drawing: bool,
    value: Option<Wide>,
) -> Result<(), AllocError>
    ensures { OnOk result (string_bytes text.new
        ≡ string_bytes text.old ++ step_at scale.now x is_drawing value) }
{
    let Some(value) = value else {
        return Ok(());
    };
    let y = scale.from_top(value);
    if !is_drawing {
        push_step(text, "M", x, y)?;
    }
    push_step(text, "L", x, y)
}

/// Appends a step of a path.
fn push_step(text: &mut String, step: &str, x: u64, y: u64) -> Result<(), AllocError>
    ensures { OnOk result (string_bytes text.new
        ≡ string_bytes text.old ++ step_html step.now x y) }
{
    text.push_str(step)?;
    push_number(text, x)?;
    text.push_str(" ")?;
    push_number(text, y)
}

/// Appends months or years below the lines, at most as many as there is room for.
fn push_months(text: &mut String, first: Month, count: u64) -> Result<(), AllocError>
    ensures { OnOk result (string_bytes text.new
        ≡ string_bytes text.old ++ months_html first.0 count) }
{
    if FEW_MONTHS < count {
        push_each_year(text, first, count)
    } else {
        push_each_month(text, first, count)
    }
}

/// Appends the months that are written below lines of few months.
fn push_each_month(text: &mut String, first: Month, count: u64) -> Result<(), AllocError>
    ensures { OnOk result (string_bytes text.new
        ≡ string_bytes text.old ++ each_month_html first.0 count) }
{
    for at in 0..count {
        push_month_at(text, first, count, at)?;
    }
    Ok(())
}

/// Appends a month below the lines, where it is one of those that are written.
fn push_month_at(text: &mut String, first: Month, count: u64, at: u64) -> Result<(), AllocError>
    ensures { OnOk result (string_bytes text.new
        ≡ string_bytes text.old
        ++ (if is_written_month count at then month_html first.0 count at else [])) }
{
    let every = ((u128::from(count) + 4) / 5).max(1);
    if u128::from(at) % every != 0 {
        return Ok(());
    }
    push_below(text, below(at, count))?;
    push_month_number(text, u128::from(first.0) + u128::from(at))?;
    text.push_str("</text>\n")
}

/// Appends the years that are written below lines of many months, each at its January.
fn push_each_year(text: &mut String, first: Month, count: u64) -> Result<(), AllocError>
    ensures { OnOk result (string_bytes text.new
        ≡ string_bytes text.old ++ each_year_html first.0 count) }
{
    for at in 0..count {
        push_year_at(text, first, count, at)?;
    }
    Ok(())
}

/// Appends the year of a month below the lines, where it is one of those that are written.
fn push_year_at(text: &mut String, first: Month, count: u64, at: u64) -> Result<(), AllocError>
    ensures { OnOk result (string_bytes text.new
        ≡ string_bytes text.old
        ++ (if is_written_year first.0 count at then year_html first.0 count at else [])) }
{
    let month = u128::from(first.0) + u128::from(at);
    let every = ((years_between(first, count) + 5) / 6).max(1);
    if month % 12 != 0 {
        return Ok(());
    }
    if month / 12 % every != 0 {
        return Ok(());
    }
    push_below(text, below(at, count))?;
    push_year(text, month / 12)?;
    text.push_str("</text>\n")
}

/// Returns in how many years some months lie.
fn years_between(first: Month, count: u64) -> u128
    ensures { result ≡ years_between first.0 count }
{
    let first = u128::from(first.0);
    let last = first + u128::from(count).saturating_sub(1);
    (last / 12).saturating_sub(first / 12) + 1
}

/// Returns where the text of a month is, in thousandths of the width of the plot.
fn below(at: u64, count: u64) -> u64
    ensures { result ≡ below_of count at }
{
    140 + place(at, count) * 80 / 100
}
