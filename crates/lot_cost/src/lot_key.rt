ghost use Rattle.std.specs.Prelude.{◌≡◌, IfOk};

use lot_base::{Commodity, Day, Label};
use lot_num::Rate;
use std::alloc::AllocError;

/// Identifies the purchase that units came from. Keys are ordered by day, currency, number and
/// label. A lot without a label stands before those with one.
#[derive(Debug, PartialEq, Eq, PartialOrd, Ord)]
pub struct LotKey {
    pub day: Day,
    pub currency: Commodity,
    /// The cost of one unit.
    pub number: Rate,
    pub label: Option<Label>,
}

impl LotKey {
    /// Returns a copy of the key. The only error is out of memory.
    pub fn copy(&self) -> Result<LotKey, AllocError>
        ensures { IfOk result (λ key. key ≡ self.now) }
    {
        let label = match &self.label {
            Some(label) => Some(label.copy()?),
            None => None,
        };
        Ok(LotKey {
            day: self.day,
            currency: self.currency.copy()?,
            number: self.number,
            label,
        })
    }
}

impl Drop for LotKey {
    /// It is written out, so that callers don't prove again how each part is dropped.
    fn drop(self) {
        let LotKey {
            day: _day,
            currency: _currency,
            number: _number,
            label: _label,
        } = self;
    }
}
