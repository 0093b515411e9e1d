ghost use Rattle.std.specs.Prelude.{◌≡◌, IfOk};

use lot_base::{Account, Commodity};
use lot_num::Units;
use std::alloc::AllocError;

/// Cash that comes in from an account, or goes out to it.
pub struct Movement {
    /// What the cash got, below zero where it was paid.
    pub amount: Units,
    pub currency: Commodity,
    /// The account of the cash.
    pub cash: Account,
    /// Where it comes from, or goes to.
    pub account: Account,
}

impl Movement {
    /// Returns a copy. The only error is out of memory.
    pub(crate) fn copy(&self) -> Result<Movement, AllocError>
        ensures { IfOk result (λ movement. movement ≡ self.now) }
    {
        Ok(Movement {
            amount: self.amount,
            currency: self.currency.copy()?,
            cash: self.cash.copy()?,
            account: self.account.copy()?,
        })
    }
}

impl Drop for Movement {
    /// It is written out, so that callers don't prove again how each part is dropped.
    fn drop(self) {
        let Movement {
            amount: _amount,
            currency: _currency,
            cash: _cash,
            account: _account,
        } = self;
    }
}

/// A fee, in the currency of what it is paid beside.
pub struct Fee {
    /// Above zero where it is paid. It isn't zero.
    pub amount: Units,
    /// The account of fees.
    pub account: Account,
}

impl Fee {
    /// Returns a copy. The only error is out of memory.
    pub(crate) fn copy(&self) -> Result<Fee, AllocError>
        ensures { IfOk result (λ fee. fee ≡ self.now) }
    {
        Ok(Fee {
            amount: self.amount,
            account: self.account.copy()?,
        })
    }
}

impl Drop for Fee {
    /// It is written out, so that callers don't prove again how each part is dropped.
    fn drop(self) {
        let Fee {
            amount: _amount,
            account: _account,
        } = self;
    }
}

/// A dividend or interest.
pub struct Income {
    /// What came in, less the tax in its currency.
    pub movement: Movement,
    /// What was withheld, or `None` where nothing was.
    pub tax: Option<Tax>,
    /// What the cash got in another currency.
    pub booked: Option<Booked>,
}

impl Drop for Income {
    /// It is written out, so that callers don't prove again how each part is dropped.
    fn drop(self) {
        let Income {
            movement: _movement,
            tax: _tax,
            booked: _booked,
        } = self;
    }
}

/// A tax that was withheld.
pub struct Tax {
    /// Above zero where it was paid. It isn't zero.
    pub amount: Units,
    /// The account of taxes.
    pub account: Account,
    /// Where the tax isn't in the currency of what came in.
    pub apart: Option<TaxApart>,
}

impl Drop for Tax {
    /// It is written out, so that callers don't prove again how each part is dropped.
    fn drop(self) {
        let Tax {
            amount: _amount,
            account: _account,
            apart: _apart,
        } = self;
    }
}

/// The currency of a tax, and what is taxed in it.
pub struct TaxApart {
    pub currency: Commodity,
    /// The account of the income in that currency.
    pub income: Account,
}

impl Drop for TaxApart {
    /// It is written out, so that callers don't prove again how each part is dropped.
    fn drop(self) {
        let TaxApart {
            currency: _currency,
            income: _income,
        } = self;
    }
}

/// What the cash got in another currency than the amount's.
pub struct Booked {
    /// It has the sign of the amount.
    pub amount: Units,
    pub currency: Commodity,
}

impl Drop for Booked {
    /// It is written out, so that callers don't prove again how each part is dropped.
    fn drop(self) {
        let Booked {
            amount: _amount,
            currency: _currency,
        } = self;
    }
}

/// One currency becomes another, in one row or in two.
pub struct Exchange {
    pub movement: Movement,
    /// What was paid for it, in the currency of the movement and in its amount, or `None` where nothing was.
    pub fee: Option<Fee>,
    /// The other currency, where the row has it.
    pub other: Option<Movement>,
    /// A fee in another currency than the movement's: it left the cash of its own currency for the account of fees.
    pub beside: Option<Movement>,
}

impl Drop for Exchange {
    /// It is written out, so that callers don't prove again how each part is dropped.
    fn drop(self) {
        let Exchange {
            movement: _movement,
            fee: _fee,
            other: _other,
            beside: _beside,
        } = self;
    }
}
