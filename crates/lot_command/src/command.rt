ghost use Rattle.std.specs.Prelude.{◌≡◌, IfOk};

use crate::currencies::Currencies;
use crate::transaction::Transaction;
use lot_base::{Account, Commodity, Day};
use lot_cost::Method;
use lot_num::Rate;
use std::alloc::{AllocError, Global};

/// What a ledger text asks for (docs/RULES.md, Commands).
pub enum Command {
    /// To open an account.
    Opening(Opening),
    /// To close an account.
    Closing(Closing),
    /// To declare a commodity.
    Declaring(Declaring),
    /// To note a price.
    Quoting(Quoting),
    /// To move amounts.
    Transaction(Transaction),
}

impl Command {
    /// Returns a copy. The only error is out of memory.
    pub fn copy(&self, alloc: Global) -> Result<Command, AllocError>
        ensures { IfOk result (λ command. command ≡ self.now) }
    {
        Ok(match self {
            Command::Opening(opening) => Command::Opening(opening.copy(alloc)?),
            Command::Closing(closing) => Command::Closing(closing.copy()?),
            Command::Declaring(declaring) => Command::Declaring(declaring.copy()?),
            Command::Quoting(quoting) => Command::Quoting(quoting.copy()?),
            Command::Transaction(transaction) => Command::Transaction(transaction.copy(alloc)?),
        })
    }
}

impl Drop for Command {
    /// It is written out, so that callers don't prove again how each part is dropped.
    fn drop(self) {
        match self {
            Command::Opening(_opening) => {}
            Command::Closing(_closing) => {}
            Command::Declaring(_declaring) => {}
            Command::Quoting(_quoting) => {}
            Command::Transaction(_transaction) => {}
        }
    }
}

/// An account is opened. From that day on it may be posted to, in the currencies given. Where none are given, every commodity
/// is allowed.
#[derive(Drop)]
pub struct Opening {
    pub day: Day,
    pub account: Account,
    pub currencies: Currencies,
    /// How a reduction in the account chooses its lots.
    pub method: Method,
}

impl Opening {
    /// Returns a copy. The only error is out of memory.
    pub fn copy(&self, alloc: Global) -> Result<Opening, AllocError>
        ensures { IfOk result (λ opening. opening ≡ self.now) }
    {
        Ok(Opening {
            day: self.day,
            account: self.account.copy()?,
            currencies: self.currencies.copy(alloc)?,
            method: self.method,
        })
    }
}

/// An account is closed. After that day it may no longer be posted to.
#[derive(Drop)]
pub struct Closing {
    pub day: Day,
    pub account: Account,
}

impl Closing {
    /// Returns a copy. The only error is out of memory.
    pub fn copy(&self) -> Result<Closing, AllocError>
        ensures { IfOk result (λ closing. closing ≡ self.now) }
    {
        Ok(Closing {
            day: self.day,
            account: self.account.copy()?,
        })
    }
}

/// A commodity is declared.
#[derive(Drop)]
pub struct Declaring {
    pub day: Day,
    pub commodity: Commodity,
}

impl Declaring {
    /// Returns a copy. The only error is out of memory.
    pub fn copy(&self) -> Result<Declaring, AllocError>
        ensures { IfOk result (λ declaring. declaring ≡ self.now) }
    {
        Ok(Declaring {
            day: self.day,
            commodity: self.commodity.copy()?,
        })
    }
}

/// On a day one unit of a commodity is worth so much of a currency.
#[derive(Drop)]
pub struct Quoting {
    pub day: Day,
    pub base: Commodity,
    pub rate: Rate,
    pub quote: Commodity,
}

impl Quoting {
    /// Returns a copy. The only error is out of memory.
    pub fn copy(&self) -> Result<Quoting, AllocError>
        ensures { IfOk result (λ quoting. quoting ≡ self.now) }
    {
        Ok(Quoting {
            day: self.day,
            base: self.base.copy()?,
            rate: self.rate,
            quote: self.quote.copy()?,
        })
    }
}
