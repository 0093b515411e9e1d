ghost use Rattle.std.specs.Prelude.{◌≡◌, IfOk};

use crate::leg::{Leg, Position};
use crate::sale::Sale;
use lot_base::{Account, Commodity, Day};
use lot_command::Items;
use lot_num::Units;
use std::alloc::AllocError;
use std::collections::BTreeMap;

/// A commodity in an account.
#[derive(Debug, PartialEq, Eq, PartialOrd, Ord, Drop)]
pub struct Pair {
    pub account: Account,
    pub commodity: Commodity,
}

impl Pair {
    /// Returns a copy. The only error is out of memory.
    pub fn copy(&self) -> Result<Pair, AllocError>
        ensures { IfOk result (λ pair. pair ≡ self.now) }
    {
        Ok(Pair {
            account: self.account.copy()?,
            commodity: self.commodity.copy()?,
        })
    }
}

/// What an accepted command changes beside its entry: all other rows are the command's own.
#[derive(Drop)]
pub struct Change {
    /// The legs, in the order of their postings. The legs of the elided posting are the last.
    pub legs: Items<Leg>,
    /// The postings that took lots away, each with its place in the transaction, from 1.
    pub sales: Items<(usize, Sale)>,
    /// The units that each position touched by a leg holds after all legs. A position at zero holds nothing.
    pub positions: BTreeMap<Position, Units>,
    /// The opening number of each lot that a leg opens. Where several legs open it, the last one counts. A lot that is held
    /// before the legs and never emptied by them keeps its number, and isn't listed.
    pub openings: BTreeMap<Position, u64>,
    /// The pairs that are posted to with braces. Each is listed with the day of the transaction, which is the latest such day
    /// of the pair.
    pub heads: BTreeMap<Pair, Day>,
}
