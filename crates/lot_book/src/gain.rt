ghost use Rattle.std.specs.Prelude.{◌≡◌, ◌≤◌, ◌*◌, unsigned_abs};
ghost use Rattle.lot_num.specs.Amount.{rate_limit, units_limit};
ghost use Rattle.lot_book.specs.Gain.{cost_of, currency_of, gain_of, has_other_currency, proceeds_at};

use crate::sale::Sale;
use lot_base::Commodity;
use lot_command::Price;
use lot_cost::LotKey;
use lot_num::{Units, Wide, weight};

/// The gain of a sale with its two parts, at scale 16, in the currency of its price and of its lots.
#[derive(Clone, Copy, Debug, PartialEq, Eq)]
pub struct Gain {
    /// What the units go for. It is zero or below where the sale buys back what was owed.
    pub proceeds: Wide,
    /// What the lots cost. It is zero or below where the lots are owed.
    pub cost: Wide,
    /// The proceeds less the cost.
    pub gain: Wide,
}

impl Sale {
    /// Returns the gain, or `None` where the sale is unpriced. A sale is unpriced where it has no price, or where some lot's
    /// currency isn't that of the price. The gain is exact, and needs no memory.
    pub fn gain(&self) -> Option<Gain>
        ensures { result ≡ gain_of self.now }
    {
        let price = self.price()?;
        if has_other_currency(currency_of(price), self.legs()) {
            return None;
        }
        let proceeds = proceeds(price, self);
        let cost = cost(self);
        match proceeds.checked_add(cost.negated()) {
            Some(gain) => Some(Gain {
                proceeds,
                cost,
                gain,
            }),
            None => unreachable!(),
        }
    }
}

/// Returns the currency of a price.
fn currency_of(price: &Price) -> &Commodity
    ensures { result.now ≡ currency_of price.now }
{
    match price {
        Price::Each(price) => &price.currency,
        Price::Whole(price) => price.currency(),
    }
}

/// Returns whether some lot's currency is another one.
fn has_other_currency(currency: &Commodity, legs: &[(LotKey, Units)]) -> bool
    ensures { result ≡ has_other_currency currency.now legs.now }
{
    legs.iter().any(|leg| *currency != leg.0.currency)
}

/// Returns what a sale goes for at a price.
fn proceeds(price: &Price, sale: &Sale) -> Wide
    ensures value { result ≡ proceeds_at price.now sale.now.units sale.now.legs }
    ensures bound { unsigned_abs result ≤ units_limit * rate_limit }
{
    let units = sale.units();
    match price {
        // The units of the legs add up to those of the sale.
        Price::Each(price) => weight(units.negated(), price.rate),
        Price::Whole(price) if units < Units::ZERO => price.total().wide(),
        Price::Whole(price) => price.total().wide().negated(),
    }
}

/// Returns the cost of the lots that a sale takes away.
fn cost(sale: &Sale) -> Wide
    ensures value { result ≡ cost_of sale.now.legs }
    ensures bound { unsigned_abs result ≤ units_limit * rate_limit }
{
    let mut cost = Wide::ZERO;
    for leg in sale.legs() {
        let more = weight(leg.1.negated(), leg.0.number);
        cost = match cost.checked_add(more) {
            Some(sum) => sum,
            None => unreachable!(),
        };
    }
    cost
}
