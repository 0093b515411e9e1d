ghost use Rattle.std.specs.Prelude.{◌≡◌, ◌≢◌, ◌∷◌, ◌++◌, ◌+ℤ◌, [], pos, IfErr, IfOk, List, OnOk, Some, SomeIff, cond};
ghost use Rattle.std.specs.BTreeMap.{get};
ghost use Rattle.std.specs.Option.{unwrap_or};
ghost use Rattle.std.specs.Ordering.{is_eq};
ghost use Rattle.lot_book.specs.Change.{pair_cmp};
ghost use Rattle.lot_book.specs.declared.change.Pair.{Pair as PairOf};
ghost use Rattle.lot_num.specs.Amount.{IsUnits};
ghost use Rattle.lot_register.specs.Left.{HasLefts, Leaves, LeavesStaying, pair_of};
ghost use Rattle.lot_register.specs.declared.leg.NotedLeg.{NotedLeg as NotedLegOf};

use crate::leg::NotedLeg;
use lot_book::Pair;
use lot_num::Units;
use lot_report::ReportFault;
use std::alloc::{AllocError, Global};
use std::collections::BTreeMap;

/// What the legs so far leave of each commodity in each account.
#[derive(Drop)]
pub(crate) struct Lefts {
    sums: BTreeMap<Pair, Units>,
}

impl Lefts {
    /// Before the first leg nothing is left. It takes no memory.
    pub fn new(alloc: Global) -> Lefts
        ensures { HasLefts [] result }
    {
        Lefts {
            sums: BTreeMap::new(alloc),
        }
    }

    /// Adds the units of a leg, and returns what is left of its commodity in its account. The error
    /// is `Range` where that leaves the range of units, or `Memory`.
    pub fn add(&mut self, leg: &NotedLeg) -> Result<Units, ReportFault>
        ensures leaves { (legs : List NotedLegOf) → HasLefts legs self.old
            → Leaves legs leg.now self.new result }
        ensures cause { IfErr result (λ fault. fault ≢ ReportFault.Write) }
    {
        let pair = pair_of(leg)?;
        self.add_units(pair, leg.units)
    }

    /// Adds units to what is left of a commodity in an account, and returns that. The error is
    /// `Range` where it leaves the range of units, else `Memory`.
    fn add_units(&mut self, pair: Pair, units: Units) -> Result<Units, ReportFault>
        ensures leaves { (legs : List NotedLegOf) (leg : NotedLegOf) → pair ≡ pair_of leg
            → units ≡ leg.units → HasLefts legs self.old
            → LeavesStaying legs leg self.new result }
        ensures cause { IfErr result (λ fault. fault ≢ ReportFault.Write) }
    {
        match self.sum_with(&pair, units) {
            Some(left) => self.set(pair, left),
            None => Err(ReportFault::Range),
        }
    }

    /// Returns the sum of a commodity in an account with more units, or `None` where it leaves the
    /// range of units.
    fn sum_with(&self, pair: &Pair, units: Units) -> Option<Units>
        ensures { SomeIff result
            (IsUnits (unwrap_or (get pair_cmp self.now.sums pair.now) (pos 0) +ℤ units))
            (unwrap_or (get pair_cmp self.now.sums pair.now) (pos 0) +ℤ units) }
    {
        let before = self.sums.get(pair).copied().unwrap_or(Units::ZERO);
        before.checked_add(units)
    }

    /// Sets the sum of a commodity in an account, and returns it. The only error is out of memory.
    fn set(&mut self, pair: Pair, left: Units) -> Result<Units, ReportFault>
        ensures value { IfOk result (λ units. units ≡ left) }
        ensures sums { OnOk result ((other : PairOf) → get pair_cmp self.new.sums other
            ≡ cond (is_eq (pair_cmp pair other)) (Some left) (get pair_cmp self.old.sums other)) }
        ensures cause { IfErr result (λ fault. fault ≡ ReportFault.Memory) }
    {
        self.sums.insert(pair, left)?;
        Ok(left)
    }
}

/// Returns the commodity and the account of a leg. The only error is out of memory.
fn pair_of(leg: &NotedLeg) -> Result<Pair, AllocError>
    ensures { IfOk result (λ pair. pair ≡ pair_of leg.now) }
{
    Ok(Pair {
        account: leg.account.copy()?,
        commodity: leg.commodity.copy()?,
    })
}
