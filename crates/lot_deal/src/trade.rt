ghost use Rattle.std.specs.Prelude.{◌≡◌, IfOk};

use crate::cash::{Fee, Movement};
use lot_base::{Account, Commodity, Day};
use lot_num::{Rate, Units};
use std::alloc::AllocError;

/// Units of a commodity that come in or go out, and the cash for them.
pub struct Trade {
    pub symbol: Commodity,
    /// How many came in, below zero where they went out.
    pub units: Units,
    /// What the cash got, below zero where it was paid; a fee is in it, unless it was paid beside.
    pub amount: Units,
    /// The currency of the amount, and so of the cash.
    pub currency: Commodity,
    /// The price, where it is the cost of a unit, or `None` where the amount is the cost of all.
    pub price: Option<TradePrice>,
    /// A fee that isn't in the amount: it left the cash of its own currency for the account of fees. `None` where there is none.
    pub beside: Option<Movement>,
    /// The account of the units.
    pub invest: Account,
    /// The account of the cash.
    pub cash: Account,
}

impl Trade {
    /// Returns a copy. The only error is out of memory.
    pub fn copy(&self) -> Result<Trade, AllocError>
        ensures { IfOk result (λ trade. trade ≡ self.now) }
    {
        let price = match &self.price {
            Some(price) => Some(price.copy()?),
            None => None,
        };
        let beside = match &self.beside {
            Some(beside) => Some(beside.copy()?),
            None => None,
        };
        Ok(Trade {
            symbol: self.symbol.copy()?,
            units: self.units,
            amount: self.amount,
            currency: self.currency.copy()?,
            price,
            beside,
            invest: self.invest.copy()?,
            cash: self.cash.copy()?,
        })
    }
}

impl Drop for Trade {
    /// It is written out, so that callers don't prove again how each part is dropped.
    fn drop(self) {
        let Trade {
            symbol: _symbol,
            units: _units,
            amount: _amount,
            currency: _currency,
            price: _price,
            beside: _beside,
            invest: _invest,
            cash: _cash,
        } = self;
    }
}

/// The price of a trade.
pub struct TradePrice {
    /// What one unit costs.
    pub rate: Rate,
    /// What was paid beside it in its currency, or `None` where nothing was.
    pub fee: Option<Fee>,
    /// What the amount is exchanged for, where the price isn't in the currency of the cash.
    pub worth: Option<Worth>,
}

impl TradePrice {
    /// Returns a copy. The only error is out of memory.
    pub(crate) fn copy(&self) -> Result<TradePrice, AllocError>
        ensures { IfOk result (λ price. price ≡ self.now) }
    {
        let fee = match &self.fee {
            Some(fee) => Some(fee.copy()?),
            None => None,
        };
        let worth = match &self.worth {
            Some(worth) => Some(worth.copy()?),
            None => None,
        };
        Ok(TradePrice {
            rate: self.rate,
            fee,
            worth,
        })
    }
}

impl Drop for TradePrice {
    /// It is written out, so that callers don't prove again how each part is dropped.
    fn drop(self) {
        let TradePrice {
            rate: _rate,
            fee: _fee,
            worth: _worth,
        } = self;
    }
}

/// What units are worth in the currency of their price, the fee in that currency with them.
pub struct Worth {
    /// It counts without its sign.
    pub amount: Units,
    pub currency: Commodity,
}

impl Worth {
    /// Returns a copy. The only error is out of memory.
    pub(crate) fn copy(&self) -> Result<Worth, AllocError>
        ensures { IfOk result (λ worth. worth ≡ self.now) }
    {
        Ok(Worth {
            amount: self.amount,
            currency: self.currency.copy()?,
        })
    }
}

impl Drop for Worth {
    /// It is written out, so that callers don't prove again how each part is dropped.
    fn drop(self) {
        let Worth {
            amount: _amount,
            currency: _currency,
        } = self;
    }
}

/// Units that are sold.
pub struct Sale {
    pub trade: Trade,
    /// The account of the gain.
    pub gains: Account,
}

impl Drop for Sale {
    /// It is written out, so that callers don't prove again how each part is dropped.
    fn drop(self) {
        let Sale {
            trade: _trade,
            gains: _gains,
        } = self;
    }
}

/// A purchase that is taken back.
pub struct Cancellation {
    /// What goes back: units, amount and fee are those of the purchase with the other sign.
    pub trade: Trade,
    /// The day of the purchase.
    pub bought: Day,
}

impl Drop for Cancellation {
    /// It is written out, so that callers don't prove again how each part is dropped.
    fn drop(self) {
        let Cancellation {
            trade: _trade,
            bought: _bought,
        } = self;
    }
}
