ghost use Rattle.std.specs.Prelude.{◌≡◌, ◌≢◌, ◌↔◌, [], ℤ, IfOk, IsTrue, SomeIff};
ghost use Rattle.std.specs.List.{list_all};
ghost use Rattle.std.specs.Option.{option_copied};
ghost use Rattle.lot_num.specs.Amount.{IsUnits};
ghost use Rattle.lot_cost.specs.declared.lot_key.LotKey.{LotKey};
ghost use Rattle.lot_booking.specs.Booking.{units_in};
ghost use Rattle.lot_book.specs.Sale.{AreLegsOf, same_sign};

use lot_base::{Account, Commodity, Day};
use lot_command::Price;
use lot_cost::LotKey;
use lot_num::Units;
use std::alloc::{AllocError, Global};
use std::marker::Model;

/// A posting that took lots away, with the legs that did so.
///
/// Its units and those of its legs are below zero where it sold, and above zero where it bought back what was owed. The legs
/// add up to its units. A contract sees the parts of a sale.
pub struct Sale {
    day: Day,
    account: Account,
    commodity: Commodity,
    units: Units,
    price: Option<Price>,
    legs: Vec<(LotKey, Units)>,
}

impl Model for Sale {
    ghost use Rattle.lot_num.specs.Amount.{IsUnits};
    ghost use Rattle.lot_book.specs.Sale.{AreLegsOf, SaleParts};

    ghost Value = { SaleParts };

    ghost view = { λ s. record {
      day = s.day;
      account = s.account;
      commodity = s.commodity;
      units = s.units;
      price = s.price;
      legs = s.legs.items;
    } };

    ghost invariant = { λ s. IsUnits s.units × AreLegsOf s.units s.legs.items };
}

impl Sale {
    /// Returns the sale of those units with those legs. It is `None` where the units are zero, where some leg hasn't their
    /// sign, or where the legs don't add up to them.
    pub fn new(
        day: Day,
        account: Account,
        commodity: Commodity,
        units: Units,
        price: Option<Price>,
        legs: Vec<(LotKey, Units)>,
    ) -> Option<Sale>
        ensures { SomeIff result (AreLegsOf units legs.items) (record {
          day = day;
          account = account;
          commodity = commodity;
          units = units;
          price = price;
          legs = legs.items;
        }) }
    {
        if !are_legs_of(units, &legs) {
            return None;
        }
        Some(Sale {
            day,
            account,
            commodity,
            units,
            price,
            legs,
        })
    }

    /// Returns the day of its transaction.
    pub fn day(&self) -> Day
        ensures { result ≡ self.now.day }
    {
        self.day
    }

    /// Returns the account from which it took lots.
    pub fn account(&self) -> &Account
        ensures { result.now ≡ self.now.account }
    {
        &self.account
    }

    /// Returns the commodity of the lots.
    pub fn commodity(&self) -> &Commodity
        ensures { result.now ≡ self.now.commodity }
    {
        &self.commodity
    }

    /// Returns the units of the posting. They aren't zero, and the legs add up to them.
    pub fn units(&self) -> Units
        ensures value { result ≡ self.now.units }
        ensures of_legs { AreLegsOf self.now.units self.now.legs }
        ensures in_range { IsUnits self.now.units }
    {
        self.units
    }

    /// Returns the price of the posting, if it has one.
    pub fn price(&self) -> Option<&Price>
        ensures { option_copied result ≡ self.now.price }
    {
        self.price.as_ref()
    }

    /// Returns the units of each leg, under the key of its lot, in the order in which the lots were taken.
    ///
    /// There is at least one leg, each has the sign of the sale's units, and they add up to these units.
    pub fn legs(&self) -> &[(LotKey, Units)]
        ensures value { result.now ≡ self.now.legs }
        ensures of_units { AreLegsOf self.now.units self.now.legs }
        ensures some { self.now.legs ≢ [] }
        ensures in_range { IsUnits self.now.units }
    {
        self.legs.as_slice()
    }

    /// Returns a copy. The only error is out of memory.
    pub fn copy(&self, alloc: Global) -> Result<Sale, AllocError>
        ensures { IfOk result (λ sale. sale ≡ self.now) }
    {
        let price = match &self.price {
            Some(price) => Some(price.copy()?),
            None => None,
        };
        Ok(Sale {
            day: self.day,
            account: self.account.copy()?,
            commodity: self.commodity.copy()?,
            units: self.units,
            price,
            legs: copies(alloc, &self.legs)?,
        })
    }
}

impl Drop for Sale {
    /// It is written out, so that callers don't prove again how each part is dropped.
    fn drop(self) {
        let Sale {
            day: _day,
            account: _account,
            commodity: _commodity,
            units: _units,
            price: _price,
            legs: _legs,
        } = self;
    }
}

/// Returns copies of legs. The only error is out of memory.
fn copies(alloc: Global, legs: &[(LotKey, Units)]) -> Result<Vec<(LotKey, Units)>, AllocError>
    ensures { IfOk result (λ copies. copies.items ≡ legs.now) }
{
    let mut copies = Vec::new(alloc);
    for (key, units) in legs {
        copies.push((key.copy()?, *units))?;
    }
    Ok(copies)
}

/// Returns whether legs are those of units: the units aren't zero, every leg has their sign, and the legs add up to them.
fn are_legs_of(units: Units, legs: &[(LotKey, Units)]) -> bool
    ensures value { IsTrue result ↔ AreLegsOf units legs.now }
    ensures in_range { IsTrue result → IsUnits units }
{
    units != Units::ZERO
        && all_have_sign_of(units, legs)
        && units_in(legs) == i128::from(units.mantissa())
}

/// Returns whether every leg has the sign of the units.
fn all_have_sign_of(units: Units, legs: &[(LotKey, Units)]) -> bool
    ensures { result ≡ list_all (λ (leg : LotKey × ℤ). same_sign units leg.1) legs.now }
{
    legs.iter().all(|leg| have_same_sign(units, leg.1))
}

/// Returns whether both units are below zero, or both are above it.
fn have_same_sign(a: Units, b: Units) -> bool
    ensures { result ≡ same_sign a b }
{
    (a < Units::ZERO && b < Units::ZERO) || (a > Units::ZERO && b > Units::ZERO)
}

/// Returns the mantissa of the sum of the units of legs, at scale 8.
fn units_in(legs: &[(LotKey, Units)]) -> i128
    ensures { result ≡ units_in legs.now }
{
    let mut sum = 0;
    for leg in legs {
        sum += i128::from(leg.1.mantissa());
    }
    sum
}
