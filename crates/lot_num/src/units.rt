ghost use Rattle.std.specs.Prelude.{◌≡◌, ◌<◌, ◌*◌, ℕ, ℤ, Some, pos, ◌+ℤ◌, ◌*ℤ◌, neg_ℤ, unsigned_abs, SomeIff, IfSome, IfOk};
ghost use Rattle.std.specs.String.{string_bytes};

use crate::number_text::{NumberFault, Sign, read};
use crate::printed::{Decimals, amount_text};
use crate::rate::Rate;
use crate::wide::Wide;
use std::alloc::{AllocError, Global};
use std::marker::Model;

/// Units of a commodity, or a total of units: a whole number of hundred-millionths. Its absolute value is below `Units::LIMIT`.
/// Units below zero are owed, or taken out.
#[derive(Clone, Copy, Debug, PartialEq, Eq, PartialOrd, Ord, Hash)]
pub struct Units {
    mantissa: i64,
}

impl Model for Units {
    ghost use Rattle.std.specs.Prelude.{ℤ};
    ghost use Rattle.lot_num.specs.Amount.{IsUnits};

    ghost Value = { ℤ };

    ghost view = { λ u. u.mantissa };

    ghost invariant = { λ u. IsUnits u.mantissa };

    ghost inverse = { λ z. record { mantissa = z } };
}

impl Units {
    ghost use Rattle.lot_num.specs.Amount.{one, units_limit, IsUnits, IsPerUnit};
    ghost use Rattle.lot_num.specs.AmountText.{amount_text};
    ghost use Rattle.lot_num.specs.NumberText.{units_of, total_of};

    /// The least absolute mantissa that is out of range, at scale 8.
    pub const LIMIT: u64 = 1_000_000_000_000_000_000;

    /// Zero units.
    pub const ZERO: Units = Units { mantissa: 0 };

    /// Returns the units with this mantissa at scale 8, or `None` where its absolute value is at least `LIMIT`.
    pub fn from_mantissa(mantissa: i64) -> Option<Units>
        ensures { SomeIff result (IsUnits mantissa) mantissa }
    {
        if mantissa.unsigned_abs() < Self::LIMIT {
            Some(Units { mantissa })
        } else {
            None
        }
    }

    /// Returns the mantissa, at scale 8.
    pub fn mantissa(self) -> i64
        ensures value { result ≡ self }
        ensures in_range { IsUnits self }
    {
        self.mantissa
    }

    /// Returns the same units with the other sign.
    pub fn negated(self) -> Units
        ensures { result ≡ neg_ℤ self }
    {
        Units {
            mantissa: -self.mantissa,
        }
    }

    /// Returns the exact sum, or `None` where it is out of range.
    pub fn checked_add(self, other: Units) -> Option<Units>
        ensures { SomeIff result (IsUnits (self +ℤ other)) (self +ℤ other) }
    {
        Units::from_mantissa(self.mantissa + other.mantissa)
    }

    /// Returns the same amount at scale 16, as a weight.
    pub fn wide(self) -> Wide
        ensures value { result ≡ self *ℤ pos one }
        ensures bound { unsigned_abs result < units_limit * one }
    {
        Wide::exactly(i128::from(self.mantissa) * 100_000_000)
    }

    /// Returns the units that a number text says, or the first fault of the text in the order of `NumberFault`
    /// (docs/RULES.md, Number text). `Negative` never comes.
    pub fn parse(text: &str) -> Result<Units, NumberFault>
        ensures { result ≡ units_of text.now }
    {
        let (sign, magnitude) = read(text, Self::LIMIT)?;
        Ok(Units {
            mantissa: sign.of_magnitude(magnitude),
        })
    }

    /// Returns the total that a number text says, or the first fault of the text in the order of `NumberFault`
    /// (docs/RULES.md, Number text). A total isn't below zero; `-0` is zero.
    pub fn parse_total(text: &str) -> Result<Units, NumberFault>
        ensures { result ≡ total_of text.now }
    {
        match read(text, Self::LIMIT)? {
            (Sign::Minus, magnitude) if magnitude > 0 => Err(NumberFault::Negative),
            (_, magnitude) => Ok(Units {
                mantissa: magnitude as i64,
            }),
        }
    }

    /// Returns the rate at which these units, sign aside, come to exactly the total: the total divided by the absolute units.
    /// It is `None` where the units are zero, or where the quotient is no rate: below zero, with more than eight decimals, or
    /// too large.
    pub fn per_unit(self, total: Units) -> Option<Rate>
        ensures some { IfSome result (IsPerUnit self total) }
        ensures every { (rate : ℕ) → IsPerUnit self total rate → result ≡ Some rate }
    {
        if total.mantissa < 0 {
            return None;
        }
        let units = u128::from(self.mantissa.unsigned_abs());
        let total = u128::from(total.mantissa.unsigned_abs()) * 100_000_000;
        if units == 0 || total % units != 0 {
            return None;
        }
        Rate::from_mantissa(u64::try_from(total / units).ok()?)
    }

    /// Returns the shortest number text of these units. It has no zeros at the end of its decimals, and no point where the
    /// units are whole. The only error is out of memory.
    pub fn text(self, alloc: Global) -> Result<String, AllocError>
        ensures { IfOk result (λ t. string_bytes t ≡ amount_text 0 8 self) }
    {
        amount_text(alloc, i128::from(self.mantissa), Decimals::SHORTEST)
    }

    /// Returns the shortest number text of these units that has at least two decimals. The only error is out of memory.
    pub fn text_money(self, alloc: Global) -> Result<String, AllocError>
        ensures { IfOk result (λ t. string_bytes t ≡ amount_text 2 8 self) }
    {
        amount_text(alloc, i128::from(self.mantissa), Decimals::MONEY)
    }
}
