ghost use Rattle.std.specs.Prelude.{◌≡◌, IfOk};

use lot_base::{Account, Commodity};
use lot_cost::LotKey;
use lot_num::Units;
use std::alloc::AllocError;

/// What one position holds: a row that the store keeps and that reports print.
#[derive(Debug, PartialEq, Eq)]
pub struct Holding {
    pub account: Account,
    pub commodity: Commodity,
    /// The lot, or none for plain units.
    pub lot: Option<LotKey>,
    pub units: Units,
}

impl Holding {
    /// Returns a copy. The only error is out of memory.
    pub fn copy(&self) -> Result<Holding, AllocError>
        ensures { IfOk result (λ holding. holding ≡ self.now) }
    {
        let lot = match &self.lot {
            Some(lot) => Some(lot.copy()?),
            None => None,
        };
        Ok(Holding {
            account: self.account.copy()?,
            commodity: self.commodity.copy()?,
            lot,
            units: self.units,
        })
    }
}

impl Drop for Holding {
    /// It is written out, so that callers don't prove again how each part is dropped.
    fn drop(self) {
        let Holding {
            account: _account,
            commodity: _commodity,
            lot: _lot,
            units: _units,
        } = self;
    }
}
