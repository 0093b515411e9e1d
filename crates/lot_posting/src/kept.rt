ghost use Rattle.std.specs.Prelude.{◌≡◌, [], ◌∷◌, ◌++◌, List, OnOk, Some, IsTrue};
ghost use Rattle.lot_book.specs.declared.leg.Leg.{Leg};
ghost use Rattle.lot_book.specs.OpeningNumber.{HasNumber};
ghost use Rattle.lot_book.specs.Openings.{FactsWithOpenings};
ghost use Rattle.lot_posting.specs.Tally.{KeepsLots};

use crate::tally::is_lot_of;
use lot_base::{Account, Commodity};
use lot_book::{Leg, Pair};
use lot_inv::{Inventory, InventoryFault};

/// The lots that an account holds of a commodity after the legs so far, kept for the next posting of the pair.
#[derive(Drop)]
pub struct KeptLots {
    pub pair: Pair,
    /// It has these lots, and nothing else.
    pub lots: Inventory,
}

impl KeptLots {
    /// Returns whether they are the lots of that account and commodity.
    pub(crate) fn are_of(&self, account: &Account, commodity: &Commodity) -> bool
        ensures { IsTrue result
            → self.now.pair ≡ record { account = account.now; commodity = commodity.now } }
    {
        self.pair.account == *account && self.pair.commodity == *commodity
    }

    /// Adds one more leg, which changes them where it is at a lot of the pair.
    pub(crate) fn add(&mut self, leg: &Leg) -> Result<(), InventoryFault>
        requires number { HasNumber leg.now.entry leg.now.posting }
        ensures { OnOk result ((known : FactsWithOpenings) (legs : List Leg)
            → KeepsLots known legs (Some self.old)
            → KeepsLots known (legs ++ leg.now ∷ []) (Some self.new)) }
    {
        let Pair { account, commodity } = &self.pair;
        if !is_lot_of(&leg.position, account, commodity) {
            return Ok(());
        }
        self.lots.has_no_zeros();
        let lot = leg.position.lot.as_ref();
        self.lots.add(commodity, lot, leg.units, leg.number())
    }
}
