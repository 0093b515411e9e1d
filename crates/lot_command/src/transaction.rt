ghost use Rattle.std.specs.Prelude.{◌≡◌, IfOk};

use crate::items::Items;
use crate::price::Price;
use lot_base::{Account, Commodity, Day, Note};
use lot_cost::Cost;
use lot_num::Units;
use std::alloc::{AllocError, Global};

/// Amounts move between accounts on one day.
pub struct Transaction {
    pub day: Day,
    pub flag: Flag,
    pub narration: Option<Narration>,
    pub postings: Items<Posting>,
}

impl Transaction {
    /// Returns a copy. The only error is out of memory.
    pub fn copy(&self, alloc: Global) -> Result<Transaction, AllocError>
        ensures { IfOk result (λ transaction. transaction ≡ self.now) }
    {
        let narration = match &self.narration {
            Some(narration) => Some(narration.copy()?),
            None => None,
        };
        Ok(Transaction {
            day: self.day,
            flag: self.flag,
            narration,
            postings: copies(alloc, self.postings.as_slice())?,
        })
    }
}

impl Drop for Transaction {
    /// It is written out, so that callers don't prove again how each part is dropped.
    fn drop(self) {
        let Transaction {
            day: _day,
            flag: _flag,
            narration: _narration,
            postings: _postings,
        } = self;
    }
}

/// Returns a copy of each posting, in their order.
fn copies(alloc: Global, postings: &[Posting]) -> Result<Items<Posting>, AllocError>
    ensures { IfOk result (λ copies. copies ≡ postings.now) }
{
    let mut copies = Items::new(alloc);
    for posting in postings {
        copies.push(posting.copy()?)?;
    }
    Ok(copies)
}

/// Whether a transaction is complete.
#[derive(Clone, Copy, Debug, PartialEq, Eq)]
pub enum Flag {
    /// `*`: it is complete.
    Complete,
    /// `!`: something of it is still to be looked at.
    Incomplete,
}

/// The narration of a transaction. A payee stands only beside a narration.
#[derive(Drop)]
pub struct Narration {
    pub payee: Option<Note>,
    pub text: Note,
}

impl Narration {
    /// Returns a copy. The only error is out of memory.
    pub fn copy(&self) -> Result<Narration, AllocError>
        ensures { IfOk result (λ narration. narration ≡ self.now) }
    {
        let payee = match &self.payee {
            Some(payee) => Some(payee.copy()?),
            None => None,
        };
        Ok(Narration {
            payee,
            text: self.text.copy()?,
        })
    }
}

/// One line of a transaction. A posting without an amount is elided: it takes what balances the others.
pub struct Posting {
    pub account: Account,
    pub amount: Option<Amount>,
}

impl Posting {
    /// Returns a copy. The only error is out of memory.
    pub fn copy(&self) -> Result<Posting, AllocError>
        ensures { IfOk result (λ posting. posting ≡ self.now) }
    {
        let amount = match &self.amount {
            Some(amount) => Some(amount.copy()?),
            None => None,
        };
        Ok(Posting {
            account: self.account.copy()?,
            amount,
        })
    }
}

impl Drop for Posting {
    /// It is written out, so that callers don't prove again how each part is dropped.
    fn drop(self) {
        let Posting {
            account: _account,
            amount: _amount,
        } = self;
    }
}

/// Units of a commodity. They may have a cost, which is what their braces say, and a price.
pub struct Amount {
    pub units: Units,
    pub commodity: Commodity,
    pub cost: Option<Cost>,
    pub price: Option<Price>,
}

impl Amount {
    /// Returns a copy. The only error is out of memory.
    pub fn copy(&self) -> Result<Amount, AllocError>
        ensures { IfOk result (λ amount. amount ≡ self.now) }
    {
        let cost = match &self.cost {
            Some(cost) => Some(cost.copy()?),
            None => None,
        };
        let price = match &self.price {
            Some(price) => Some(price.copy()?),
            None => None,
        };
        Ok(Amount {
            units: self.units,
            commodity: self.commodity.copy()?,
            cost,
            price,
        })
    }
}

impl Drop for Amount {
    /// It is written out, so that callers don't prove again how each part is dropped.
    fn drop(self) {
        let Amount {
            units: _units,
            commodity: _commodity,
            cost: _cost,
            price: _price,
        } = self;
    }
}
