ghost use Rattle.std.specs.Prelude.{◌≡◌, ◌≢◌, ◌++◌, ◌∷◌, [], Err, IfErr, IfNone, IfOk, IfSome, List, OnOk, map};
ghost use Rattle.std.specs.BTreeMap.{IsOrdered};
ghost use Rattle.std.specs.Option.{option_copied};
ghost use Rattle.lot_base.specs.Text.{text_cmp};
ghost use Rattle.lot_legs.specs.declared.leg.DatedLeg.{DatedLeg as DatedLegOf};
ghost use Rattle.lot_months.specs.Ends.{HeldLeavesRange, PairLeavesRange, PointLeavesRange, PointsKept, PointsLeaveRange, SumsLeaveRange, end_point, end_with, ends_of, is_ever_held, is_some_flow, items_of, no_points, or_before, plus_point, points_after, points_kept, points_with};
ghost use Rattle.lot_months.specs.Lots.{HasFlows, IsFlow, month_flow, plus_flow};
ghost use Rattle.lot_months.specs.Prices.{AreInDayOrder, HasPrices, rate_in};
ghost use Rattle.lot_months.specs.Series.{AreSeries, SeriesLeaveRange, shown};
ghost use Rattle.lot_report.specs.declared.fault.ReportFault.TheVariants.{Range, Write};
ghost use Rattle.lot_rows.specs.declared.price.PriceRow.{PriceRow as PriceRowOf};

use crate::flows::{Flow, LotPair, MonthFlows, Months};
use crate::prices::{MonthPrices, Rates, rate_at};
use lot_base::Commodity;
use lot_num::{Rate, Wide};
use lot_plot::MonthPoint;
use lot_report::ReportFault;
use std::alloc::{AllocError, Global};
use std::collections::BTreeMap;

/// What the lots in a currency come to at the end of each month.
#[derive(Drop)]
pub struct CurrencyMonths {
    pub currency: Commodity,
    pub points: Vec<MonthPoint>,
}

/// The points of each currency.
type Points = BTreeMap<Commodity, Vec<MonthPoint>>;

/// What lots of a pair hold at the end of a month, and the last price of the pair by then.
#[derive(Clone, Copy)]
pub(crate) struct MonthEnd {
    pub held: Flow,
    pub price: Option<Rate>,
}

/// Returns what lots come to at the end of each month, in each currency in which some are held at
/// the end of a month, in the order of their bytes.
///
/// The worth of a pair is its units at its price. It isn't known where there are units and no price.
/// The error is `Range`, where a sum leaves its range, or `Memory`.
pub fn currency_months(
    alloc: Global,
    flows: &MonthFlows,
    prices: &MonthPrices,
) -> Result<Vec<CurrencyMonths>, ReportFault>
    ensures series { IfOk result (λ all. (legs : List DatedLegOf) (quotes : List PriceRowOf)
        → HasFlows flows.now.range legs flows.now → HasPrices flows.now.range quotes prices.now
        → AreInDayOrder quotes → AreSeries flows.now.range legs quotes (map shown all.items)) }
    ensures cause { IfErr result (λ fault. fault ≢ Write) }
    ensures range { result ≡ Err Range → (legs : List DatedLegOf) (quotes : List PriceRowOf)
        → HasFlows flows.now.range legs flows.now → HasPrices flows.now.range quotes prices.now
        → AreInDayOrder quotes → SeriesLeaveRange flows.now.range legs quotes }
{
    let count = flows.range().count;
    let mut points: Points = BTreeMap::new(alloc);
    for (pair, months) in flows.pairs() {
        add_pair(alloc, &mut points, count, pair, months, prices.of(pair))?;
    }
    Ok(listed(alloc, points)?)
}

/// Lists the points of each currency. The only error is out of memory.
fn listed(alloc: Global, points: Points) -> Result<Vec<CurrencyMonths>, AllocError>
    ensures kept { IfOk result (λ all. map shown all.items ≡ points_kept points) }
    ensures ordered { OnOk result (IsOrdered text_cmp points) }
{
    let mut all = Vec::new(alloc);
    for (currency, points) in points {
        all.push(CurrencyMonths { currency, points })?;
    }
    Ok(all)
}

/// Adds what a pair comes to at the end of each month to the points of its currency, unless nothing
/// is held at the end of any.
fn add_pair(
    alloc: Global,
    points: &mut Points,
    count: u32,
    pair: &LotPair,
    months: &Months,
    rates: Option<&Rates>,
) -> Result<(), ReportFault>
    ensures adds { OnOk result (PointsKept count pair.now
        (ends_of months.now (option_copied rates.entry) count) points.old points.new) }
    ensures cause { IfErr result (λ fault. fault ≢ Write) }
    ensures range { result ≡ Err Range
        → PairLeavesRange count pair.now months.now (option_copied rates.entry) points.old }
{
    let ends = month_ends(alloc, count, months, rates)?;
    if !is_ever_held(&ends) {
        return Ok(());
    }
    let sums = sums_with(alloc, count, points.get(&pair.1), &ends)?;
    points.insert(pair.1.copy()?, sums)?;
    Ok(())
}

/// Returns what a pair holds at the end of each month, with its price.
fn month_ends(
    alloc: Global,
    count: u32,
    months: &Months,
    rates: Option<&Rates>,
) -> Result<Vec<MonthEnd>, ReportFault>
    ensures ends { IfOk result (λ ends.
        ends.items ≡ ends_of months.now (option_copied rates.entry) count) }
    ensures cause { IfErr result (λ fault. fault ≢ Write) }
    ensures range { result ≡ Err Range
        → HeldLeavesRange months.now (option_copied rates.entry) count }
{
    let mut ends = Vec::new(alloc);
    let mut held = Flow::none();
    let mut price = None;
    for at in 0..count {
        push_end(&mut ends, &mut held, &mut price, months, rates, at)?;
    }
    Ok(ends)
}

/// Appends the end of a month, by what is held and the price at that of the month before.
fn push_end(
    ends: &mut Vec<MonthEnd>,
    held: &mut Flow,
    price: &mut Option<Rate>,
    months: &Months,
    rates: Option<&Rates>,
    at: u32,
) -> Result<(), ReportFault>
    ensures pushes { OnOk result
        (ends.new.items ≡ ends.old.items ++ end_with held.new price.new ∷ []) }
    ensures held { OnOk result (held.new ≡ plus_flow held.old (month_flow months.now at)) }
    ensures price { OnOk result
        (price.new ≡ or_before (rate_in (option_copied rates.entry) at) price.old) }
    ensures cause { IfErr result (λ fault. fault ≢ Write) }
    ensures range { result ≡ Err Range
        → ¬ IsFlow (plus_flow held.old (month_flow months.now at)) }
{
    held.add_month(months, at)?;
    *price = price_by(rates, at, *price);
    ends.push(MonthEnd {
        held: *held,
        price: *price,
    })?;
    Ok(())
}

/// Returns the last price by the end of a month: that of the month, or else one before it.
fn price_by(rates: Option<&Rates>, at: u32, before: Option<Rate>) -> Option<Rate>
    ensures { result ≡ or_before (rate_in (option_copied rates.entry) at) before }
{
    match rate_at(rates, at) {
        Some(rate) => Some(rate),
        None => before,
    }
}

/// Returns whether something is held at the end of some month.
fn is_ever_held(ends: &[MonthEnd]) -> bool
    ensures { result ≡ is_ever_held ends.now }
{
    for end in ends {
        if is_some(end.held) {
            return true;
        }
    }
    false
}

/// Returns whether there are units, or some cost.
fn is_some(flow: Flow) -> bool
    ensures { result ≡ is_some_flow flow }
{
    flow.units != 0 || flow.cost.mantissa() != 0
}

/// Returns points with what is held of one more pair at the end of each month: those of no lots,
/// where there are none so far.
fn sums_with(
    alloc: Global,
    count: u32,
    points: Option<&Vec<MonthPoint>>,
    ends: &[MonthEnd],
) -> Result<Vec<MonthPoint>, ReportFault>
    ensures sums { IfOk result (λ sums. sums.items ≡ points_after count
        (items_of (option_copied points.entry)) ends.now) }
    ensures cause { IfErr result (λ fault. fault ≢ Write) }
    ensures range { result ≡ Err Range
        → SumsLeaveRange count (items_of (option_copied points.entry)) ends.now }
{
    match points {
        Some(points) => points_with(alloc, points, ends),
        None => points_with(alloc, &no_points(alloc, count)?, ends),
    }
}

/// Returns so many points at which nothing is held. The only error is out of memory.
fn no_points(alloc: Global, count: u32) -> Result<Vec<MonthPoint>, AllocError>
    ensures { IfOk result (λ points. points.items ≡ no_points count) }
{
    let mut points = Vec::new(alloc);
    for _ in 0..count {
        points.push(MonthPoint {
            worth: Some(Wide::ZERO),
            cost: Wide::ZERO,
        })?;
    }
    Ok(points)
}

/// Returns points with what is held of one more pair at the end of each month.
fn points_with(
    alloc: Global,
    points: &[MonthPoint],
    ends: &[MonthEnd],
) -> Result<Vec<MonthPoint>, ReportFault>
    ensures sums { IfOk result (λ sums. sums.items ≡ points_with points.now ends.now) }
    ensures cause { IfErr result (λ fault. fault ≢ Write) }
    ensures range { result ≡ Err Range → PointsLeaveRange points.now ends.now }
{
    let mut sums = Vec::new(alloc);
    for (point, end) in points.iter().zip(ends) {
        let Some(sum) = point_with(*point, end) else {
            return Err(ReportFault::Range);
        };
        sums.push(sum)?;
    }
    Ok(sums)
}

/// Returns a point with what is held of one more pair, or `None` where a sum leaves its range.
fn point_with(point: MonthPoint, end: &MonthEnd) -> Option<MonthPoint>
    ensures sum { IfSome result (λ sum. sum ≡ plus_point point (end_point end.now)) }
    ensures range { IfNone result (PointLeavesRange point (end_point end.now)) }
{
    let cost = point.cost.checked_add(end.held.cost)?;
    let Some(worth) = point.worth else {
        return Some(MonthPoint { worth: None, cost });
    };
    if end.held.units == 0 {
        return Some(MonthPoint {
            worth: Some(worth),
            cost,
        });
    }
    let Some(price) = end.price else {
        return Some(MonthPoint { worth: None, cost });
    };
    let own = Wide::from_mantissa(end.held.units.checked_mul(i128::from(price.mantissa()))?)?;
    Some(MonthPoint {
        worth: Some(worth.checked_add(own)?),
        cost,
    })
}
