use crate::role::Role;
use lot_command::Items;
use lot_rounding::{Bound, Decimals};

/// What counts as the cost of a purchase.
#[derive(Clone, Copy, Debug, PartialEq, Eq)]
pub enum CostBasis {
    /// `amount`: what was paid, fees in it.
    Amount,
    /// `price`: the units at their price; the fee goes to its account.
    Price,
}

/// What units that come in for no cash count as.
#[derive(Clone, Copy, Debug, PartialEq, Eq)]
pub enum Rewards {
    /// `value`: what they are worth.
    Value,
    /// `zero`: nothing.
    Zero,
}

/// To how many decimals the broker rounds what it prints.
#[derive(Clone, Copy)]
pub struct Rounded {
    pub role: Role,
    pub decimals: Decimals,
}

/// What counts as cost, and how far amounts may differ.
pub struct Basis {
    pub cost: CostBasis,
    /// How large a crumb may be.
    pub within: Bound,
    /// What the broker rounds, each role at most once.
    pub rounded: Items<Rounded>,
    pub rewards: Rewards,
}

impl Drop for Basis {
    /// It is written out, so that callers don't prove again how each part is dropped.
    fn drop(self) {
        let Basis {
            cost: _cost,
            within: _within,
            rounded: _rounded,
            rewards: _rewards,
        } = self;
    }
}
