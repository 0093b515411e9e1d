ghost use Rattle.std.specs.Prelude.{◌≡◌, ◌≤◌, ◌*◌, unsigned_abs, IfOk};
ghost use Rattle.lot_num.specs.Amount.{rate_limit};
ghost use Rattle.lot_book.specs.Balance.{weight_of};
ghost use Rattle.lot_book.specs.OpeningNumber.{HasNumber, posting_number};

use lot_base::{Account, Commodity};
use lot_cost::LotKey;
use lot_num::{Units, Wide, weight};
use std::alloc::AllocError;

/// The most postings of a transaction.
pub const MOST_POSTINGS: usize = 64;

/// Where units are held: an account, a commodity, and the key of a lot, or no key for plain units. Positions are ordered by
/// account, then by commodity; plain units stand before the lots.
#[derive(Debug, PartialEq, Eq, PartialOrd, Ord, Drop)]
pub struct Position {
    pub account: Account,
    pub commodity: Commodity,
    /// The lot, or none for plain units.
    pub lot: Option<LotKey>,
}

impl Position {
    /// Returns a copy. The error is out of memory.
    pub fn copy(&self) -> Result<Position, AllocError>
        ensures { IfOk result (λ position. position ≡ self.now) }
    {
        let lot = match &self.lot {
            Some(lot) => Some(lot.copy()?),
            None => None,
        };
        Ok(Position {
            account: self.account.copy()?,
            commodity: self.commodity.copy()?,
            lot,
        })
    }
}

/// Units that a posting of an entry puts into a position. Below zero it takes them out.
pub struct Leg {
    /// The place of the entry in its book, from 1.
    pub entry: u64,
    /// The place of the posting in its transaction, from 1.
    pub posting: usize,
    /// The place of the leg among those of its posting, from 0.
    pub place: usize,
    pub position: Position,
    pub units: Units,
}

impl Leg {
    /// Returns the weight of the leg and its currency. For a lot it is the units times the number of the key, in the currency
    /// of the key. For plain units it is the units, in their commodity.
    pub fn weight(&self) -> (&Commodity, Wide)
        ensures value { (result.0.now, result.1) ≡ weight_of self.now }
        ensures bound { unsigned_abs result.1 ≤ unsigned_abs self.now.units * rate_limit }
    {
        match &self.position.lot {
            Some(lot) => (&lot.currency, weight(self.units, lot.number)),
            None => (&self.position.commodity, self.units.wide()),
        }
    }

    /// Returns the number of the leg's posting in its book: 64 for each entry before its own, plus its place in its own, from
    /// 1.
    pub fn number(&self) -> u64
        requires { HasNumber self.now.entry self.now.posting }
        ensures { result ≡ posting_number self.now }
    {
        MOST_POSTINGS as u64 * (self.entry - 1) + self.posting as u64
    }
}

impl Drop for Leg {
    /// It is written out, so that callers don't prove again how each part is dropped.
    fn drop(self) {
        let Leg {
            entry: _entry,
            posting: _posting,
            place: _place,
            position: _position,
            units: _units,
        } = self;
    }
}
