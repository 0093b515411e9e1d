use crate::cash::{Exchange, Income, Movement};
use crate::incoming::Incoming;
use crate::trade::{Cancellation, Sale, Trade};
use lot_base::{Commodity, Day, Note};
use lot_num::Rate;

/// What a row of a broker's file says, but for splits and for rows that post nothing.
pub struct Deal {
    pub day: Day,
    /// What the narration says: the symbol, or the note of the row.
    pub note: Note,
    pub terms: Terms,
}

impl Drop for Deal {
    /// It is written out, so that callers don't prove again how each part is dropped.
    fn drop(self) {
        let Deal {
            day: _day,
            note: _note,
            terms: _terms,
        } = self;
    }
}

/// What a row says, by its kind.
pub enum Terms {
    /// Units are bought: units above zero, and an amount that isn't.
    Buy(Trade),
    /// Units are sold: units below zero, and an amount that isn't.
    Sell(Sale),
    /// An earlier purchase is taken back: units below zero, and an amount that isn't.
    CancelBuy(Cancellation),
    /// A dividend comes in, or is taken back: then it is below zero.
    Dividend(Income),
    /// Interest comes in, or is paid: then it is below zero.
    Interest(Income),
    /// A tax comes back, or is paid: then it is below zero.
    Tax(Movement),
    /// A fee comes back, or is paid: then it is below zero.
    Fee(Movement),
    /// Cash comes in: it is above zero.
    Deposit(Movement),
    /// Cash goes out: it is below zero.
    Withdrawal(Movement),
    /// One currency becomes another.
    Exchange(Exchange),
    /// Units come in for nothing.
    Reward(Incoming),
    /// Units come in from elsewhere.
    TransferIn(Incoming),
    /// The price of a commodity.
    Price(Quote),
}

impl Drop for Terms {
    /// It is written out, so that callers don't prove again how each part is dropped.
    fn drop(self) {
        match self {
            Terms::Buy(_trade) => {}
            Terms::Sell(_sale) => {}
            Terms::CancelBuy(_cancellation) => {}
            Terms::Dividend(_income) => {}
            Terms::Interest(_income) => {}
            Terms::Tax(_movement) => {}
            Terms::Fee(_movement) => {}
            Terms::Deposit(_movement) => {}
            Terms::Withdrawal(_movement) => {}
            Terms::Exchange(_exchange) => {}
            Terms::Reward(_incoming) => {}
            Terms::TransferIn(_incoming) => {}
            Terms::Price(_quote) => {}
        }
    }
}

/// What one unit of a commodity is worth.
pub struct Quote {
    pub symbol: Commodity,
    pub rate: Rate,
    pub currency: Commodity,
}

impl Drop for Quote {
    /// It is written out, so that callers don't prove again how each part is dropped.
    fn drop(self) {
        let Quote {
            symbol: _symbol,
            rate: _rate,
            currency: _currency,
        } = self;
    }
}
