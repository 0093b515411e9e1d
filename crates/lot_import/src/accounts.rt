ghost use Rattle.std.specs.Prelude.{◌≡◌, IfOk};

use lot_base::Account;
use std::alloc::AllocError;

/// The accounts that the rows of a broker file are posted to.
#[derive(Debug, Drop)]
pub struct Accounts {
    /// The account of what is bought and sold.
    pub invest: Account,
    /// The account of the cash that is paid and received.
    pub cash: Account,
    /// The account of fees.
    pub fees: Account,
    /// The account of the gains of sales.
    pub gains: Account,
}

impl Accounts {
    /// Returns a copy. The only error is out of memory.
    pub fn copy(&self) -> Result<Accounts, AllocError>
        ensures { IfOk result (λ accounts. accounts ≡ self.now) }
    {
        Ok(Accounts {
            invest: self.invest.copy()?,
            cash: self.cash.copy()?,
            fees: self.fees.copy()?,
            gains: self.gains.copy()?,
        })
    }
}
