ghost use Rattle.std.specs.Prelude.{◌≡◌, ◌≤◌, [], length, IfOk, IsFalse, SomeIff};
ghost use Rattle.lot_command.specs.Currencies.{allows, most_currencies};

use lot_base::Commodity;
use std::alloc::{AllocError, Global};
use std::marker::Model;

/// The most currencies that an opening may have (`most_currencies` of the definitions).
const MOST_CURRENCIES: usize = 64;

/// The currencies with which an account is opened, in the order in which they are written. There are at most 64. Without any,
/// every commodity is allowed. A contract sees them as a list.
pub struct Currencies {
    items: Vec<Commodity>,
}

impl Model for Currencies {
    ghost use Rattle.std.specs.Prelude.{ℕ, List, ◌≤◌, length};
    ghost use Rattle.lot_command.specs.Currencies.{most_currencies};

    ghost Value = { List (List ℕ) };

    ghost view = { λ c. c.items.items };

    ghost invariant = { λ c. length c.items.items ≤ most_currencies };
}

impl Currencies {
    /// Returns these currencies, or `None` where there are more than 64.
    pub fn new(items: Vec<Commodity>) -> Option<Currencies>
        ensures { SomeIff result (length items.items ≤ most_currencies) items.items }
    {
        if items.len() <= MOST_CURRENCIES {
            Some(Currencies { items })
        } else {
            None
        }
    }

    /// Returns no currencies, with which every commodity is allowed.
    pub fn none(alloc: Global) -> Currencies
        ensures { result ≡ [] }
    {
        Currencies {
            items: Vec::new(alloc),
        }
    }

    /// Returns the currencies, at most 64.
    pub fn as_slice(&self) -> &[Commodity]
        ensures value { result.now ≡ self.now }
        ensures most { length self.now ≤ most_currencies }
    {
        self.items.as_slice()
    }

    /// Returns whether the commodity is allowed: it is one of the currencies, or there are none.
    pub fn allows(&self, commodity: &Commodity) -> bool
        ensures { result ≡ allows self.now commodity.now }
    {
        self.items.is_empty() || self.items.contains(commodity)
    }

    /// Returns a copy. The only error is out of memory.
    pub fn copy(&self, alloc: Global) -> Result<Currencies, AllocError>
        ensures { IfOk result (λ currencies. currencies ≡ self.now) }
    {
        let mut items = Vec::new(alloc);
        for currency in &self.items {
            items.push(currency.copy()?)?;
        }
        Ok(Currencies { items })
    }
}

impl Drop for Currencies {
    /// It is written out, so that callers don't prove again how each part is dropped.
    fn drop(self) {
        let Currencies { items: _items } = self;
    }
}
