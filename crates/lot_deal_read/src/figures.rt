//! The numbers of a trade, and whether they agree.
ghost use Rattle.std.specs.Prelude.{◌≡◌, ◌≤◌, ◌*◌, ◌^◌, ◌<◌, ◌+ℤ◌, ◌*ℤ◌, pos, unsigned_abs};
ghost use Rattle.lot_num.specs.Amount.{one, rate_limit, units_limit};
ghost use Rattle.lot_deal_read.specs.Figures.{agree, allowed, cash, difference, no_places, place_of, places_of, with_place};

use crate::pricing::with_fee;
use lot_num::{Rate, Units, weight};
use lot_profile::{Basis, Role, Rounded};
use lot_rounding::{Bound, Decimals};

/// A cent, at scale 8.
const CENT: u64 = 1_000_000;

/// The numbers of a trade, as a row says them.
#[derive(Clone, Copy)]
pub struct Figures {
    /// How many units came in, below zero where they went out.
    pub units: Units,
    /// The price of one.
    pub price: Rate,
    /// What the cash got, fees in it; below zero where it was paid.
    pub amount: Units,
    /// The fee that is in the amount, in the currency of the cash; above zero where it was paid.
    pub fee: Units,
    /// The fee that is in the amount, in the currency of the price, where that is another; above zero where it was paid.
    pub price_fee: Units,
    /// How much of the price's currency one of the cash's is: one, where they are the same.
    pub rate: Rate,
}

/// The last place to which the broker rounds each number, as 0.01, or zero where it doesn't.
#[derive(Clone, Copy)]
pub struct Places {
    pub units: Rate,
    pub price: Rate,
    pub amount: Rate,
    /// Of a fee that is in the amount.
    pub fee: Rate,
    pub rate: Rate,
}

impl Places {
    /// Returns the places to which a broker rounds, as its profile says.
    pub fn of(basis: &Basis) -> Places
        ensures { result ≡ places_of basis.now.rounded }
    {
        let mut places = no_places();
        for rounded in basis.rounded.as_slice() {
            places = with_place(places, rounded);
        }
        places
    }

    /// Returns the places where a fee isn't in the amount.
    pub(crate) fn without_fee(self) -> Places
        ensures { result ≡ record self { fee = 0 } }
    {
        Places {
            fee: rate_of(0),
            ..self
        }
    }
}

/// Returns no places.
fn no_places() -> Places
    ensures { result ≡ no_places }
{
    let none = rate_of(0);
    Places {
        units: none,
        price: none,
        amount: none,
        fee: none,
        rate: none,
    }
}

/// Returns the places with that of one role more.
fn with_place(mut places: Places, rounded: &Rounded) -> Places
    ensures { result ≡ with_place places rounded.now }
{
    let place = place_of(rounded.decimals);
    match rounded.role {
        Role::Units => places.units = place,
        Role::Price => places.price = place,
        Role::Amount => places.amount = place,
        Role::Fee => places.fee = place,
        Role::Rate => places.rate = place,
        _ => {}
    }
    places
}

/// Returns the last of so many decimals.
fn place_of(decimals: Decimals) -> Rate
    ensures { result ≡ place_of decimals }
{
    rate_of(10u64.pow(8 - count_of(decimals)))
}

/// Returns how many decimals these are.
fn count_of(decimals: Decimals) -> u32
    ensures value { result ≡ decimals }
    ensures few { result ≤ 8 }
{
    for count in 0..8 {
        if Decimals::new(count) == Some(decimals) {
            return count;
        }
    }
    8
}

/// Returns the rate with a mantissa that is at most one.
fn rate_of(mantissa: u64) -> Rate
    requires { mantissa ≤ one }
    ensures { result ≡ mantissa }
{
    match Rate::from_mantissa(mantissa) {
        Some(rate) => rate,
        None => unreachable!(),
    }
}

impl Figures {
    /// Returns whether the numbers agree: the amount without the fee is what the units are worth, but for a cent, a crumb within
    /// the bound, and what the broker rounds.
    pub fn agree(&self, places: &Places, within: Bound) -> bool
        ensures { result ≡ agree places.now within self.now }
    {
        4 * self.difference().unsigned_abs() <= self.allowed(places, within)
    }

    /// Returns by how much the amount without the fee and what the units are worth differ, at scale 16.
    fn difference(&self) -> i128
        ensures value { result ≡ difference self.now }
        ensures bound { unsigned_abs result ≤ 10 ^ 37 }
    {
        let amount = product(self.amount, self.rate);
        let fee = product(self.fee, self.rate);
        let worth = with_fee(self.units, self.price, self.price_fee).mantissa();
        amount + fee + worth
    }

    /// Returns by how much they may differ, four times, at scale 16.
    fn allowed(&self, places: &Places, within: Bound) -> u128
        ensures { result ≡ allowed places.now within self.now }
    {
        let cash = 2 * CENT
            + 2 * within.units().mantissa().unsigned_abs()
            + places.amount.mantissa()
            + places.fee.mantissa();
        let rate = 2 * self.rate.mantissa() + places.rate.mantissa();
        times(cash, rate)
            + 2 * times(self.cash().unsigned_abs(), places.rate.mantissa())
            + 2 * times(
                self.units.mantissa().unsigned_abs(),
                places.price.mantissa(),
            )
            + 2 * times(places.units.mantissa(), self.price.mantissa())
            + times(places.units.mantissa(), places.price.mantissa())
    }

    /// Returns what was paid or received without the fee in the currency of the cash, at scale 8.
    fn cash(&self) -> i64
        ensures { result ≡ cash self.now }
    {
        self.amount.mantissa() + self.fee.mantissa()
    }
}

/// Returns the product of two numbers.
fn times(amount: u64, rate: u64) -> u128
    requires { rate ≤ 10 ^ 17 }
    ensures value { result ≡ amount * rate }
    ensures bound { result ≤ 10 ^ 37 }
{
    u128::from(amount) * u128::from(rate)
}

/// Returns units times a rate, at scale 16.
fn product(units: Units, rate: Rate) -> i128
    ensures value { result ≡ units *ℤ pos rate }
    ensures bound { unsigned_abs result < units_limit * rate_limit }
{
    weight(units, rate).mantissa()
}
