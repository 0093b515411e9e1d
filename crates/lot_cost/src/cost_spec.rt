ghost use Rattle.std.specs.Prelude.{◌≡◌, IfOk};
ghost use Rattle.lot_cost.specs.CostSpec.{agrees, fits};

use crate::lot_key::LotKey;
use lot_base::{Commodity, Day, Label};
use lot_num::Rate;
use std::alloc::AllocError;

/// The parts of a lot key that a posting gives, any of them: they say which lots it takes, or which
/// one it opens.
#[derive(Debug, Drop)]
pub struct CostSpec {
    pub number: Option<Rate>,
    pub currency: Option<Commodity>,
    pub day: Option<Day>,
    pub label: Option<Label>,
}

impl CostSpec {
    /// Returns a copy of the specification. The only error is out of memory.
    pub fn copy(&self) -> Result<CostSpec, AllocError>
        ensures { IfOk result (λ spec. spec ≡ self.now) }
    {
        let currency = match &self.currency {
            Some(currency) => Some(currency.copy()?),
            None => None,
        };
        let label = match &self.label {
            Some(label) => Some(label.copy()?),
            None => None,
        };
        Ok(CostSpec {
            number: self.number,
            currency,
            day: self.day,
            label,
        })
    }

    /// Returns whether each given part equals the same part of the key.
    pub fn fits(&self, key: &LotKey) -> bool
        ensures { result ≡ fits self.now key.now }
    {
        agrees(&self.number, &key.number)
            && agrees(&self.currency, &key.currency)
            && agrees(&self.day, &key.day)
            && (self.label.is_none() || self.label == key.label)
    }
}

/// Returns whether the part is the given one, where one is given.
fn agrees<T: PartialEq>(given: &Option<T>, part: &T) -> bool
    ensures { result ≡ agrees T.eq given.now part.now }
{
    match given {
        Some(given) => given == part,
        None => true,
    }
}
