ghost use Rattle.std.specs.Prelude.{◌≡◌, IfOk};

use lot_cost::LotKey;
use lot_num::Units;
use std::alloc::AllocError;
use std::marker::Model;

/// A lot that is held: its key, its units, and the number of the posting that opened it.
#[derive(Debug, PartialEq, Eq, Drop)]
pub struct Lot {
    pub key: LotKey,
    pub units: Units,
    /// The opening number: of two lots of a book the one that was opened first has the smaller number.
    pub opening: u64,
}

impl Lot {
    /// Returns the lot with its key lent.
    pub fn lend(&self) -> LentLot<'_>
        ensures { result ≡ self.now }
    {
        LentLot {
            key: &self.key,
            units: self.units,
            opening: self.opening,
        }
    }
}

/// A lot whose key is lent, by the inventory that holds it or by a `Lot`. A contract sees it as the `Lot` that it is.
#[derive(Drop)]
pub struct LentLot<'a> {
    pub key: &'a LotKey,
    pub units: Units,
    /// The opening number.
    pub opening: u64,
}

impl<'a> Model for LentLot<'a> {
    ghost use Rattle.lot_inv.specs.declared.lot.Lot.{Lot};

    ghost Value = { Lot };

    ghost view = { λ lot. record { key = lot.key.now; units = lot.units; opening = lot.opening } };
}

impl<'a> LentLot<'a> {
    /// Returns the lot with a key of its own. The only error is out of memory.
    pub fn copy(&self) -> Result<Lot, AllocError>
        ensures { IfOk result (λ lot. lot ≡ self.now) }
    {
        Ok(Lot {
            key: self.key.copy()?,
            units: self.units,
            opening: self.opening,
        })
    }
}
