ghost use Rattle.std.specs.Prelude.{◌≡◌, ℤ, pos, ◌≤ℤ◌, IfOk, SomeIff};

use lot_base::Commodity;
use lot_num::{Rate, Units};
use std::alloc::AllocError;
use std::marker::Model;

/// The price in a posting.
pub enum Price {
    /// `@`: the price of each unit.
    Each(UnitPrice),
    /// `@@`: the price of all units.
    Whole(WholePrice),
}

impl Price {
    /// Returns a copy. The only error is out of memory.
    pub fn copy(&self) -> Result<Price, AllocError>
        ensures { IfOk result (λ price. price ≡ self.now) }
    {
        Ok(match self {
            Price::Each(price) => Price::Each(price.copy()?),
            Price::Whole(price) => Price::Whole(price.copy()?),
        })
    }
}

impl Drop for Price {
    /// It is written out, so that callers don't prove again how each part is dropped.
    fn drop(self) {
        match self {
            Price::Each(_each) => {}
            Price::Whole(_whole) => {}
        }
    }
}

/// The price of each unit: a rate in a currency.
#[derive(Drop)]
pub struct UnitPrice {
    pub rate: Rate,
    pub currency: Commodity,
}

impl UnitPrice {
    /// Returns a copy. The only error is out of memory.
    pub fn copy(&self) -> Result<UnitPrice, AllocError>
        ensures { IfOk result (λ price. price ≡ self.now) }
    {
        Ok(UnitPrice {
            rate: self.rate,
            currency: self.currency.copy()?,
        })
    }
}

/// The price of all units of a posting: a total in a currency. The total isn't below zero. A contract sees it beside the
/// currency.
#[derive(Drop)]
pub struct WholePrice {
    total: Units,
    currency: Commodity,
}

impl Model for WholePrice {
    ghost use Rattle.std.specs.Prelude.{ℕ, ℤ, List, pos, ◌≤ℤ◌};

    ghost Value = { ℤ × List ℕ };

    ghost view = { λ p. (p.total, p.currency) };

    ghost invariant = { λ p. pos 0 ≤ℤ p.total };
}

impl WholePrice {
    /// Returns the price of that total, or `None` where the total is below zero.
    pub fn new(total: Units, currency: Commodity) -> Option<WholePrice>
        ensures { SomeIff result (pos 0 ≤ℤ total) (total, currency) }
    {
        if total < Units::ZERO {
            return None;
        }
        Some(WholePrice { total, currency })
    }

    /// Returns the total.
    pub fn total(&self) -> Units
        ensures value { result ≡ self.now.0 }
        ensures not_negative { pos 0 ≤ℤ self.now.0 }
    {
        self.total
    }

    /// Returns the currency of the total.
    pub fn currency(&self) -> &Commodity
        ensures { result.now ≡ self.now.1 }
    {
        &self.currency
    }

    /// Returns a copy. The only error is out of memory.
    pub fn copy(&self) -> Result<WholePrice, AllocError>
        ensures { IfOk result (λ price. price ≡ self.now) }
    {
        Ok(WholePrice {
            total: self.total,
            currency: self.currency.copy()?,
        })
    }
}
