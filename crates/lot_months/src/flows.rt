ghost use Rattle.std.specs.Prelude.{◌≡◌, ◌≢◌, ◌∷◌, ◌++◌, [], ℕ, ◌&&◌, Err, IfErr, List, OnOk, Some, SomeIff, cond};
ghost use Rattle.std.specs.Ordering.{is_eq, nat_cmp};
ghost use Rattle.lot_legs.specs.declared.leg.DatedLeg.{DatedLeg as DatedLegOf};
ghost use Rattle.lot_months.specs.Lots.{HasFlows, HasTooMuch, IsFlow, Pair, cost_of, flow_kept, month_flow, no_flow, pair_cmp, plus_flow};
ghost use Rattle.lot_months.specs.declared.range.MonthRange.{MonthRange as MonthRangeOf};
ghost use Rattle.lot_report.specs.declared.fault.ReportFault.TheVariants.{Range, Write};

use crate::range::MonthRange;
use lot_base::Commodity;
use lot_cost::LotKey;
use lot_legs::DatedLeg;
use lot_num::{Units, Wide, weight};
use lot_report::ReportFault;
use std::alloc::Global;
use std::collections::BTreeMap;

/// A commodity, and the currency in which its lots cost something.
pub type LotPair = (Commodity, Commodity);

/// What went into lots, less what went out of them.
#[derive(Clone, Copy, Debug, PartialEq, Eq)]
pub(crate) struct Flow {
    /// Units, as a mantissa, which may be out of the range of units.
    pub units: i128,
    /// What they cost.
    pub cost: Wide,
}

impl Flow {
    /// Returns nothing.
    pub fn none() -> Flow
        ensures { result ≡ no_flow }
    {
        Flow {
            units: 0,
            cost: Wide::ZERO,
        }
    }

    /// Adds the flow of a month. The only error is `Range`, where a sum leaves its range.
    pub fn add_month(&mut self, months: &Months, at: u32) -> Result<(), ReportFault>
        ensures adds { OnOk result (self.new ≡ plus_flow self.old (month_flow months.now at)) }
        ensures cause { IfErr result (λ fault. fault ≡ Range) }
        ensures range { result ≡ Err Range
            → ¬ IsFlow (plus_flow self.old (month_flow months.now at)) }
    {
        let Some(after) = self.with(flow_at(months, at)) else {
            return Err(ReportFault::Range);
        };
        *self = after;
        Ok(())
    }

    /// Returns both together, or `None` where a sum leaves its range.
    pub fn with(self, other: Flow) -> Option<Flow>
        ensures { SomeIff result (IsFlow (plus_flow self other)) (plus_flow self other) }
    {
        let units = self.units.checked_add(other.units)?;
        let cost = self.cost.checked_add(other.cost)?;
        Some(Flow { units, cost })
    }
}

/// What went into lots and out of them, by the place of its month.
pub(crate) type Months = BTreeMap<u32, Flow>;

/// The months of each pair.
pub(crate) type PairMonths = BTreeMap<LotPair, Months>;

/// What went into lots and out of them, month by month. It takes the legs of a book one after
/// another, in any order.
#[derive(Drop)]
pub struct MonthFlows {
    alloc: Global,
    range: MonthRange,
    pairs: PairMonths,
}

impl MonthFlows {
    /// Returns the flows in those months, before the first leg. It takes no memory.
    pub fn new(alloc: Global, range: MonthRange) -> MonthFlows
        ensures { HasFlows range [] result }
    {
        MonthFlows {
            alloc,
            range,
            pairs: BTreeMap::new(alloc),
        }
    }

    /// Returns the months.
    pub fn range(&self) -> MonthRange
        ensures { result ≡ self.now.range }
    {
        self.range
    }

    /// Returns the flows of each pair, in their order.
    pub(crate) fn pairs(&self) -> &PairMonths
        ensures { result.now ≡ self.now.pairs }
    {
        &self.pairs
    }

    /// Adds one more leg. One of plain units, or behind the last day, is passed over. The error is
    /// `Range`, where a sum leaves its range, or `Memory`.
    pub fn add(&mut self, leg: &DatedLeg) -> Result<(), ReportFault>
        ensures adds { OnOk result ((range : MonthRangeOf) (legs : List DatedLegOf)
            → HasFlows range legs self.old → HasFlows range (legs ++ leg.now ∷ []) self.new) }
        ensures cause { IfErr result (λ fault. fault ≢ Write) }
        ensures range { result ≡ Err Range → (range : MonthRangeOf) (legs : List DatedLegOf)
            → HasFlows range legs self.old → HasTooMuch range (legs ++ leg.now ∷ []) }
    {
        let Some(lot) = &leg.lot else {
            return Ok(());
        };
        let Some(at) = self.range.place(leg.day) else {
            return Ok(());
        };
        let pair = (leg.commodity.copy()?, lot.currency.copy()?);
        let flow = flow_of(leg.units, lot);
        add_flow(self.alloc, &mut self.pairs, pair, at, flow)
    }
}

/// Returns what units put into a lot.
fn flow_of(units: Units, lot: &LotKey) -> Flow
    ensures units { result.units ≡ units }
    ensures cost { result.cost ≡ cost_of (Some lot.now) units }
{
    Flow {
        units: i128::from(units.mantissa()),
        cost: weight(units, lot.number),
    }
}

/// Adds a flow to those of a pair. The error is `Range`, where a sum leaves its range, or `Memory`.
fn add_flow(
    alloc: Global,
    pairs: &mut PairMonths,
    pair: LotPair,
    at: u32,
    flow: Flow,
) -> Result<(), ReportFault>
    ensures adds { OnOk result ((other : Pair) (place : ℕ) → flow_kept pairs.new other place
        ≡ cond (is_eq (pair_cmp pair other) && is_eq (nat_cmp at place))
        (plus_flow (flow_kept pairs.old pair at) flow) (flow_kept pairs.old other place)) }
    ensures cause { IfErr result (λ fault. fault ≢ Write) }
    ensures range { result ≡ Err Range → ¬ IsFlow (plus_flow (flow_kept pairs.old pair at) flow) }
{
    match pairs.get_mut(&pair) {
        Some(months) => add_in_month(months, at, flow),
        None => {
            let mut months = BTreeMap::new(alloc);
            add_in_month(&mut months, at, flow)?;
            pairs.insert(pair, months)?;
            Ok(())
        }
    }
}

/// Adds a flow to those of its month. The error is `Range`, where a sum leaves its range, or
/// `Memory`.
fn add_in_month(months: &mut Months, at: u32, flow: Flow) -> Result<(), ReportFault>
    ensures adds { OnOk result ((place : ℕ) → month_flow months.new place
        ≡ cond (is_eq (nat_cmp at place)) (plus_flow (month_flow months.old at) flow)
        (month_flow months.old place)) }
    ensures cause { IfErr result (λ fault. fault ≢ Write) }
    ensures range { result ≡ Err Range → ¬ IsFlow (plus_flow (month_flow months.old at) flow) }
{
    let Some(after) = flow_at(months, at).with(flow) else {
        return Err(ReportFault::Range);
    };
    months.insert(at, after)?;
    Ok(())
}

/// Returns the flow of a month: nothing where nothing is kept.
fn flow_at(months: &Months, at: u32) -> Flow
    ensures { result ≡ month_flow months.now at }
{
    months.get(&at).copied().unwrap_or(Flow::none())
}
