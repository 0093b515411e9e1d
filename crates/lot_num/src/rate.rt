ghost use Rattle.std.specs.Prelude.{◌≡◌, SomeIff, IfOk, pos};
ghost use Rattle.std.specs.String.{string_bytes};

use crate::number_text::{NumberFault, Sign, read};
use crate::printed::{Decimals, amount_text};
use std::alloc::{AllocError, Global};
use std::marker::Model;

/// A cost or a price of one unit: a whole number of hundred-millionths, from 0 to below `Rate::LIMIT`.
#[derive(Clone, Copy, Debug, PartialEq, Eq, PartialOrd, Ord, Hash)]
pub struct Rate {
    mantissa: u64,
}

impl Model for Rate {
    ghost use Rattle.std.specs.Prelude.{ℕ};
    ghost use Rattle.lot_num.specs.Amount.{IsRate};

    ghost Value = { ℕ };

    ghost view = { λ r. r.mantissa };

    ghost invariant = { λ r. IsRate r.mantissa };

    ghost inverse = { λ n. record { mantissa = n } };
}

impl Rate {
    ghost use Rattle.lot_num.specs.Amount.{IsRate};
    ghost use Rattle.lot_num.specs.AmountText.{amount_text};
    ghost use Rattle.lot_num.specs.NumberText.{rate_of};

    /// The least mantissa that is out of range, at scale 8.
    pub const LIMIT: u64 = 10_000_000_000_000_000;

    /// Returns the rate with this mantissa at scale 8, or `None` where it is at least `LIMIT`.
    pub fn from_mantissa(mantissa: u64) -> Option<Rate>
        ensures { SomeIff result (IsRate mantissa) mantissa }
    {
        if mantissa < Self::LIMIT {
            Some(Rate { mantissa })
        } else {
            None
        }
    }

    /// Returns the mantissa, at scale 8.
    pub fn mantissa(self) -> u64
        ensures value { result ≡ self }
        ensures in_range { IsRate self }
    {
        self.mantissa
    }

    /// Returns the rate that a number text says, or the first fault of the text in the order of `NumberFault`
    /// (docs/RULES.md, Number text). `-0` is zero.
    pub fn parse(text: &str) -> Result<Rate, NumberFault>
        ensures { result ≡ rate_of text.now }
    {
        match read(text, Self::LIMIT)? {
            (Sign::Minus, mantissa) if mantissa > 0 => Err(NumberFault::Negative),
            (_, mantissa) => Ok(Rate { mantissa }),
        }
    }

    /// Returns the shortest number text of this rate. It has no zeros at the end of its decimals, and no point where
    /// the rate is whole. The only error is out of memory.
    pub fn text(self, alloc: Global) -> Result<String, AllocError>
        ensures { IfOk result (λ t. string_bytes t ≡ amount_text 0 8 (pos self)) }
    {
        amount_text(alloc, i128::from(self.mantissa), Decimals::SHORTEST)
    }
}
