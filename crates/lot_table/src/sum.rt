ghost use Rattle.std.specs.Prelude.{◌≡◌, SomeIff};
ghost use Rattle.lot_table.specs.Cell.{IsSum};

use lot_num::Units;
use std::marker::Model;

/// A sum of units that isn't zero: what a position holds. A sum of zero has no row.
#[derive(Clone, Copy, Debug, PartialEq, Eq)]
pub struct Sum {
    units: Units,
}

impl Model for Sum {
    ghost use Rattle.std.specs.Prelude.{ℤ};
    ghost use Rattle.lot_table.specs.Cell.{IsSum};

    ghost Value = { ℤ };

    ghost view = { λ sum. sum.units };

    ghost invariant = { λ sum. IsSum sum.units };

    ghost inverse = { λ z. record { units = z } };
}

impl Sum {
    /// Returns the sum of those units, or `None` where they are zero.
    pub fn new(units: Units) -> Option<Sum>
        ensures { SomeIff result (IsSum units) units }
    {
        if units == Units::ZERO {
            return None;
        }
        units.mantissa();
        Some(Sum { units })
    }

    /// Returns the units.
    pub fn units(self) -> Units
        ensures value { result ≡ self }
        ensures not_zero { IsSum self }
    {
        self.units
    }
}
