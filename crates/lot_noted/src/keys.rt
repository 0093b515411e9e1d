ghost use Rattle.std.specs.Prelude.{◌≡◌, ◌∷◌, ◌++◌, [], IfErr, List, OnOk};
ghost use Rattle.lot_legs.specs.declared.leg.DatedLeg.{DatedLeg as DatedLegOf};
ghost use Rattle.lot_noted.specs.Book.{Asked, asked_in};
ghost use Rattle.lot_noted.specs.Keys.{AreInOrder, HasTaken, key_in};
ghost use Rattle.lot_report.specs.declared.fault.ReportFault.TheVariants.{Memory};

use crate::key::LegKey;
use crate::scope::RegisterScope;
use lot_legs::DatedLeg;
use lot_report::ReportFault;
use std::alloc::Global;

/// The keys of the legs that a register is over, 16 bytes each. It takes the legs of a book one
/// after another.
#[derive(Drop)]
pub struct LegKeys<'a> {
    scope: &'a RegisterScope<'a>,
    keys: Vec<LegKey>,
}

impl<'a> LegKeys<'a> {
    /// Returns no keys, before the first leg. It takes no memory.
    pub fn new(alloc: Global, scope: &'a RegisterScope<'a>) -> LegKeys<'a>
        ensures { HasTaken (asked_in scope.now) [] result }
    {
        LegKeys {
            scope,
            keys: Vec::new(alloc),
        }
    }

    /// Takes a leg: the key of one that is asked for is kept, and others are passed over. The only
    /// error is out of memory.
    pub fn add(&mut self, leg: &DatedLeg) -> Result<(), ReportFault>
        ensures takes { OnOk result ((asked : Asked) (legs : List DatedLegOf)
            → HasTaken asked legs self.old → HasTaken asked (legs ++ leg.now ∷ []) self.new) }
        ensures cause { IfErr result (λ fault. fault ≡ Memory) }
    {
        if !self.scope.has(leg) {
            return Ok(());
        }
        self.keys.push(key_in(leg))?;
        Ok(())
    }

    /// Returns the keys in the order of days, those of one day in the order of entries.
    pub fn into_sorted(self) -> Vec<LegKey>
        ensures { (asked : Asked) (legs : List DatedLegOf) → HasTaken asked legs self.entry
            → AreInOrder asked legs result.items }
    {
        let mut keys = self.keys;
        keys.sort_unstable();
        keys
    }
}

/// Returns the key of a leg.
fn key_in(leg: &DatedLeg) -> LegKey
    ensures { result ≡ key_in leg.now }
{
    LegKey {
        day: leg.day,
        entry: leg.entry,
        posting: leg.posting,
        place: leg.place,
    }
}
