ghost use Rattle.std.specs.Prelude.{◌≡◌, ℤ, pos, ◌≤ℤ◌, None, IfOk, SomeIff};

use crate::cost_spec::CostSpec;
use lot_base::{Commodity, Day, Label};
use lot_num::Units;
use std::alloc::AllocError;
use std::marker::Model;

/// What a posting says in its braces.
#[derive(Debug)]
pub enum Cost {
    /// `{..}`: the cost of each unit.
    Each(CostSpec),
    /// `{{..}}`: the cost of all units.
    Whole(WholeCost),
}

impl Cost {
    /// Returns a copy of the cost. The only error is out of memory.
    pub fn copy(&self) -> Result<Cost, AllocError>
        ensures { IfOk result (λ cost. cost ≡ self.now) }
    {
        match self {
            Cost::Each(spec) => Ok(Cost::Each(spec.copy()?)),
            Cost::Whole(whole) => Ok(Cost::Whole(whole.copy()?)),
        }
    }
}

impl Drop for Cost {
    /// It is written out, so that callers don't prove again how each part is dropped.
    fn drop(self) {
        match self {
            Cost::Each(_each) => {}
            Cost::Whole(_whole) => {}
        }
    }
}

/// The cost of all units of a posting: a total, and the other parts that are given of the lot. The total isn't below zero. A
/// contract sees it beside a specification without a number.
#[derive(Debug, Drop)]
pub struct WholeCost {
    total: Units,
    /// It has no number.
    spec: CostSpec,
}

impl Model for WholeCost {
    ghost use Rattle.std.specs.Prelude.{◌≡◌, ℤ, pos, None, ◌≤ℤ◌};
    ghost use Rattle.lot_cost.specs.declared.cost_spec.CostSpec.{CostSpec};

    ghost Value = { ℤ × CostSpec };

    ghost view = { λ w. (w.total, w.spec) };

    ghost invariant = { λ w. (pos 0 ≤ℤ w.total) × (w.spec.number ≡ None) };
}

impl WholeCost {
    /// Returns the cost with that total and the given parts of the lot, or `None` where the total is below zero.
    pub fn new(
        total: Units,
        currency: Option<Commodity>,
        day: Option<Day>,
        label: Option<Label>,
    ) -> Option<WholeCost>
        ensures { SomeIff result (pos 0 ≤ℤ total)
            (total, record { number = None; currency = currency; day = day; label = label }) }
    {
        if total < Units::ZERO {
            return None;
        }
        let spec = CostSpec {
            number: None,
            currency,
            day,
            label,
        };
        Some(WholeCost { total, spec })
    }

    /// Returns the total.
    pub fn total(&self) -> Units
        ensures value { result ≡ self.now.0 }
        ensures not_negative { pos 0 ≤ℤ self.now.0 }
    {
        self.total
    }

    /// Returns the parts that are given of the lot. There is no number among them.
    pub fn spec(&self) -> &CostSpec
        ensures value { result.now ≡ self.now.1 }
        ensures no_number { self.now.1.number ≡ None }
    {
        &self.spec
    }

    /// Returns a copy of the cost. The only error is out of memory.
    pub fn copy(&self) -> Result<WholeCost, AllocError>
        ensures { IfOk result (λ cost. cost ≡ self.now) }
    {
        Ok(WholeCost {
            total: self.total,
            spec: self.spec.copy()?,
        })
    }
}
