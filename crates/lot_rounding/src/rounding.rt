//! Where crumbs go, how large each may be, and how many decimals there are.
ghost use Rattle.std.specs.Prelude.{◌≡◌, ◌↔◌, IsTrue, SomeIff};
ghost use Rattle.lot_rounding.specs.Rounding.{IsBound, IsWithin, greatest_bound, half_a_cent};

use crate::nearest::Decimals;
use lot_base::Account;
use lot_num::{Units, Wide};
use std::marker::Model;

/// The greatest absolute value that a crumb may have, at scale 8: from 0 to 1. A contract sees its
/// mantissa.
#[derive(Clone, Copy, Debug, PartialEq, Eq)]
pub struct Bound {
    units: Units,
}

impl Model for Bound {
    ghost use Rattle.std.specs.Prelude.{ℤ};
    ghost use Rattle.lot_rounding.specs.Rounding.{IsBound};

    ghost Value = { ℤ };

    ghost view = { λ b. b.units };

    ghost invariant = { λ b. IsBound b.units };

    ghost inverse = { λ z. record { units = z } };
}

impl Bound {
    /// Returns the bound where none is given: half a cent.
    pub fn half_a_cent() -> Bound
        ensures { result ≡ half_a_cent }
    {
        Bound {
            units: units(500_000),
        }
    }

    /// Returns the greatest bound: one.
    pub fn greatest() -> Bound
        ensures { result ≡ greatest_bound }
    {
        Bound {
            units: units(100_000_000),
        }
    }

    /// Returns the bound of so many units, or `None` where they are below zero or above one.
    pub fn new(units: Units) -> Option<Bound>
        ensures { SomeIff result (IsBound units) units }
    {
        if (0..=100_000_000).contains(&units.mantissa()) {
            Some(Bound { units })
        } else {
            None
        }
    }

    /// Returns the units.
    pub fn units(self) -> Units
        ensures value { result ≡ self }
        ensures range { IsBound result }
    {
        self.units
    }

    /// Returns whether a crumb is within the bound.
    pub fn allows(self, crumb: Wide) -> bool
        ensures { IsTrue result ↔ IsWithin self crumb }
    {
        crumb.mantissa().unsigned_abs() <= self.units.wide().mantissa().unsigned_abs()
    }
}

/// Returns the units with a mantissa that a bound may have.
fn units(mantissa: i64) -> Units
    requires { IsBound mantissa }
    ensures { result ≡ mantissa }
{
    match Units::from_mantissa(mantissa) {
        Some(units) => units,
        None => unreachable!(),
    }
}

/// Where the crumbs of a call go.
#[derive(Debug, Drop)]
pub struct Rounding {
    /// The account that takes them.
    pub account: Account,
    /// How large each may be.
    pub within: Bound,
    /// How many decimals a fill has, and the cash of a row.
    pub decimals: Decimals,
}
