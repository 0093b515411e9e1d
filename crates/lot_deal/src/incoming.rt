use lot_base::{Account, Commodity, Day};
use lot_num::Units;

/// Units that come in for no cash.
pub struct Incoming {
    pub symbol: Commodity,
    /// How many came in, above zero.
    pub units: Units,
    /// What all of them cost, not below zero.
    pub cost: Units,
    /// The currency of the cost.
    pub currency: Commodity,
    /// The day of their lot, where it isn't that of the deal.
    pub day: Option<Day>,
    /// The account of the units.
    pub invest: Account,
    /// Where they come from, or `None` where they cost nothing.
    pub account: Option<Account>,
}

impl Drop for Incoming {
    /// It is written out, so that callers don't prove again how each part is dropped.
    fn drop(self) {
        let Incoming {
            symbol: _symbol,
            units: _units,
            cost: _cost,
            currency: _currency,
            day: _day,
            invest: _invest,
            account: _account,
        } = self;
    }
}
