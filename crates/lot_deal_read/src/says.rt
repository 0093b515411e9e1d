//! What a row says.

use lot_base::{Account, Commodity, Day, Note};
use lot_deal::{Deal, Trade};
use lot_field::{Text, Time};
use lot_num::{Rate, Units};
use lot_rounding::Change;

/// What a row says.
pub enum RowSays {
    /// It is passed over by a rule of the profile.
    Skipped,
    /// It has a day, and a place in the order of judging.
    Dated(Dated),
}

impl Drop for RowSays {
    /// It is written out, so that callers don't prove again how each part is dropped.
    fn drop(self) {
        match self {
            RowSays::Skipped => {}
            RowSays::Dated(_dated) => {}
        }
    }
}

/// A row with a day.
pub struct Dated {
    pub day: Day,
    /// Its time, where it has one.
    pub time: Option<Time>,
    /// What its key says: the broker's name of the deal, or all that the row says.
    pub text: Text,
    pub saying: Saying,
}

impl Drop for Dated {
    /// It is written out, so that callers don't prove again how each part is dropped.
    fn drop(self) {
        let Dated {
            day: _day,
            time: _time,
            text: _text,
            saying: _saying,
        } = self;
    }
}

/// What a row with a day says.
pub enum Saying {
    /// It is posted by hand.
    ByHand,
    /// A deal.
    Deal {
        deal: Deal,
        /// Of a purchase what a cancellation is compared with; of each other deal `None`.
        bought: Option<Compared>,
    },
    /// A purchase is taken back.
    CancelBuy {
        note: Note,
        /// What goes back. The day of the purchase isn't known yet.
        trade: Trade,
        compared: Compared,
    },
    /// Each lot of a commodity becomes one of other units.
    Split {
        note: Note,
        /// The account of the lots.
        account: Account,
        symbol: Commodity,
        change: Change,
    },
}

impl Drop for Saying {
    /// It is written out, so that callers don't prove again how each part is dropped.
    fn drop(self) {
        match self {
            Saying::ByHand => {}
            Saying::Deal {
                deal: _deal,
                bought: _bought,
            } => {}
            Saying::CancelBuy {
                note: _note,
                trade: _trade,
                compared: _compared,
            } => {}
            Saying::Split {
                note: _note,
                account: _account,
                symbol: _symbol,
                change: _change,
            } => {}
        }
    }
}

/// What a purchase and its cancellation have in common, each number with its sign as the row has it: units and amount of the two
/// are opposite, and all else is the same.
pub struct Compared {
    pub symbol: Commodity,
    pub units: Units,
    /// The price, where the row has one.
    pub price: Option<Rate>,
    /// What the cash got, as the row says it, or as it was worked out where no column has it.
    pub amount: Units,
    pub currency: Commodity,
}

impl Drop for Compared {
    /// It is written out, so that callers don't prove again how each part is dropped.
    fn drop(self) {
        let Compared {
            symbol: _symbol,
            units: _units,
            price: _price,
            amount: _amount,
            currency: _currency,
        } = self;
    }
}
