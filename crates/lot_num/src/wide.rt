ghost use Rattle.std.specs.Prelude.{◌≡◌, ◌≤◌, ◌*◌, ℤ, pos, ◌+ℤ◌, ◌*ℤ◌, neg_ℤ, unsigned_abs, SomeIff, IfOk, IfSome};
ghost use Rattle.std.specs.String.{string_bytes};
ghost use Rattle.lot_num.specs.Amount.{rate_limit};

use crate::printed::{Decimals, amount_text};
use crate::rate::Rate;
use crate::units::Units;
use std::alloc::{AllocError, Global};
use std::marker::Model;

/// A weight, or a sum of weights: a whole number at scale 16. Its absolute value is at most `Wide::GREATEST`.
#[derive(Clone, Copy, Debug, PartialEq, Eq, PartialOrd, Ord, Hash)]
pub struct Wide {
    mantissa: i128,
}

impl Model for Wide {
    ghost use Rattle.std.specs.Prelude.{ℤ};
    ghost use Rattle.lot_num.specs.Amount.{IsWide};

    ghost Value = { ℤ };

    ghost view = { λ w. w.mantissa };

    ghost invariant = { λ w. IsWide w.mantissa };

    ghost inverse = { λ z. record { mantissa = z } };
}

impl Wide {
    ghost use Rattle.lot_num.specs.Amount.{one, IsUnits, IsWide};
    ghost use Rattle.lot_num.specs.AmountText.{amount_text};

    /// The greatest absolute mantissa, at scale 16.
    pub const GREATEST: u128 = 100_000_000_000_000_000_000_000_000_000_000_000_000;

    /// The zero weight, where a sum begins.
    pub const ZERO: Wide = Wide { mantissa: 0 };

    /// Returns the weight with this mantissa at scale 16, or `None` where its absolute value is above `GREATEST`.
    pub fn from_mantissa(mantissa: i128) -> Option<Wide>
        ensures { SomeIff result (IsWide mantissa) mantissa }
    {
        if mantissa.unsigned_abs() <= Self::GREATEST {
            Some(Wide { mantissa })
        } else {
            None
        }
    }

    /// Returns the weight with a mantissa that is known to be in range.
    pub(crate) fn exactly(mantissa: i128) -> Wide
        requires { IsWide mantissa }
        ensures { result ≡ mantissa }
    {
        Wide { mantissa }
    }

    /// Returns the mantissa, at scale 16.
    pub fn mantissa(self) -> i128
        ensures value { result ≡ self }
        ensures in_range { IsWide self }
    {
        self.mantissa
    }

    /// Returns the same weight with the other sign.
    pub fn negated(self) -> Wide
        ensures { result ≡ neg_ℤ self }
    {
        Wide {
            mantissa: -self.mantissa,
        }
    }

    /// Returns the exact sum, or `None` where it is out of range.
    pub fn checked_add(self, other: Wide) -> Option<Wide>
        ensures { SomeIff result (IsWide (self +ℤ other)) (self +ℤ other) }
    {
        Wide::from_mantissa(self.mantissa.checked_add(other.mantissa)?)
    }

    /// Returns the units that equal this weight, or `None` where it has a decimal past the eighth or is out of the
    /// range of units.
    pub fn to_units(self) -> Option<Units>
        ensures some { IfSome result (λ units. self ≡ units *ℤ pos one) }
        ensures every { (units : ℤ) → IsUnits units → self ≡ units *ℤ pos one
            → result ≡ Some units }
    {
        if self.mantissa % 100_000_000 != 0 {
            return None;
        }
        Units::from_mantissa(i64::try_from(self.mantissa / 100_000_000).ok()?)
    }

    /// Returns the shortest text of this weight that has at least two decimals. The only error is out of memory.
    pub fn text_money(self, alloc: Global) -> Result<String, AllocError>
        ensures { IfOk result (λ t. string_bytes t ≡ amount_text 2 16 self) }
    {
        amount_text(alloc, self.mantissa, Decimals::WIDE_MONEY)
    }
}

/// Returns the exact weight of units at a rate, units times rate at scale 16, which is always in range.
pub fn weight(units: Units, rate: Rate) -> Wide
    ensures value { result ≡ units *ℤ pos rate }
    ensures bound { unsigned_abs result ≤ unsigned_abs units * rate_limit }
{
    Wide::exactly(i128::from(units.mantissa()) * i128::from(rate.mantissa()))
}
