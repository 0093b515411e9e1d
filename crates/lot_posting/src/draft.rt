ghost use Rattle.std.specs.Prelude.{◌≡◌, ◌≤◌, ◌-◌, [], ◌++◌, IfErr, IsErrOf, OnOk, ℕ, suc, ℤ, false, List};
ghost use Rattle.lot_num.specs.Amount.{units_limit};
ghost use Rattle.lot_book.specs.Balance.{AreWithin, residuals, weights_by};
ghost use Rattle.lot_book.specs.Leg.{leave_range, units_moved, with_legs};
ghost use Rattle.lot_book.specs.Openings.{FactsWithOpenings};
ghost use Rattle.lot_book.specs.Refusals.{most_postings};
ghost use Rattle.lot_book.specs.declared.refusal.Stop.TheVariants.{Memory};
ghost use Rattle.lot_posting.specs.Tally.{AreOf, HaveNumbers, IsFirstInRange, ListsTally, StopsAt};
ghost use Rattle.lot_view.specs.View.{known, known_with_openings};

use crate::balance::Residuals;
use crate::tally::Tally;
use lot_book::{Leg, Sale, Stop};
use lot_command::{Amount, Items};
use lot_view::View;
use std::alloc::Global;

/// What is booked so far of a transaction.
#[derive(Drop)]
pub struct Draft {
    pub tally: Tally,
    pub residuals: Residuals,
    /// The postings that took lots away, each with its place in the transaction, from 1.
    pub sales: Items<(usize, Sale)>,
}

impl Draft {
    /// Returns a draft with nothing booked.
    pub fn new(alloc: Global) -> Draft
        ensures legs { result.tally.legs ≡ [] }
        ensures lists { (known : FactsWithOpenings) → ListsTally known result.tally }
        ensures residuals { result.residuals ≡ [] }
        ensures sales { result.sales ≡ [] }
    {
        Draft {
            tally: Tally::new(alloc),
            residuals: Residuals::new(alloc),
            sales: Items::new(alloc),
        }
    }

    /// Adds the legs of a posting and their weights. The refusal is `Range` where a position is out of the range of units
    /// after one of them, and needs no memory where that is the first leg.
    pub(crate) fn add(&mut self, view: &View, amount: &Amount, legs: Vec<Leg>) -> Result<(), Stop>
        requires lists { ListsTally (known_with_openings view.now) self.old.tally }
        requires numbers { HaveNumbers legs.items }
        requires moved { units_moved legs.items ≤ units_limit }
        requires room { AreWithin (most_postings - 1) self.old.residuals }
        ensures legs { OnOk result (self.new.tally.legs ≡ self.old.tally.legs ++ legs.items) }
        ensures lists { OnOk result (ListsTally (known_with_openings view.now) self.new.tally) }
        ensures sum { OnOk result ((weights : List (List ℕ × ℤ))
            → self.old.residuals ≡ residuals weights
            → self.new.residuals
            ≡ residuals (weights ++ weights_by amount.now.cost amount.now legs.items)) }
        ensures within { OnOk result ((count : ℕ) → AreWithin count self.old.residuals
            → AreWithin (suc count) self.new.residuals) }
        ensures sales { OnOk result (self.new.sales ≡ self.old.sales) }
        ensures in_range { OnOk result ((account : List ℕ) (posting : ℕ)
            → AreOf account posting legs.items
            → leave_range (with_legs account ((known view.now).held account) self.old.tally.legs)
            legs.items ≡ false) }
        ensures stops { IfErr result
            (λ stop. (account : List ℕ) (posting : ℕ) → AreOf account posting legs.items
            → StopsAt (with_legs account ((known view.now).held account) self.old.tally.legs)
            posting legs.items stop) }
        ensures memory { IsErrOf result Memory → (account : List ℕ) (posting : ℕ)
            → AreOf account posting legs.items
            → IsFirstInRange (with_legs account ((known view.now).held account)
            self.old.tally.legs) legs.items }
    {
        let before = self.tally.legs.as_slice().len();
        self.tally.post_all(view, legs)?;
        self.residuals
            .weigh(amount, &self.tally.legs.as_slice()[before..])?;
        Ok(())
    }
}
