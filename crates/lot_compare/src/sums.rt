ghost use Rattle.std.specs.Prelude.{◌≡◌, ◌≢◌, ◌∷◌, [], List, ℤ, ◌+ℤ◌, IfErr, IsErrOf, OnOk, FitsSigned, SomeIff};
ghost use Rattle.std.specs.Int.{w128};
ghost use Rattle.lot_compare.specs.Sums.{AddsAmounts, Amounts, AreSums, no_amounts, plus, sides_at, sides_in, sum_on};

use crate::subject::Subject;
use lot_report::ReportFault;
use std::alloc::Global;
use std::collections::BTreeMap;

/// Which of two books.
#[derive(Clone, Copy, Debug, PartialEq, Eq)]
pub(crate) enum Side {
    New,
    Old,
}

/// A sum of each of two books, as mantissas of one scale.
#[derive(Clone, Copy)]
pub(crate) struct Sides {
    pub new: i128,
    pub old: i128,
}

impl Sides {
    /// The sums of nothing.
    const NONE: Sides = Sides { new: 0, old: 0 };

    /// Returns the sums with an amount more on one side, or `None` where that sum leaves the range of `i128`.
    fn plus(self, side: Side, amount: i128) -> Option<Sides>
        ensures { SomeIff result (FitsSigned w128 (sum_on side self +ℤ amount))
            (plus side self amount) }
    {
        match side {
            Side::New => Some(Sides {
                new: self.new.checked_add(amount)?,
                old: self.old,
            }),
            Side::Old => Some(Sides {
                new: self.new,
                old: self.old.checked_add(amount)?,
            }),
        }
    }
}

/// The sums of the amounts of two books, side by side. Its memory grows with what there is a sum of.
#[derive(Drop)]
pub(crate) struct Sums {
    pub sums: BTreeMap<Subject, Sides>,
}

impl Sums {
    /// The sums of no amounts.
    pub(crate) fn new(alloc: Global) -> Sums
        ensures { AreSums no_amounts result.sums.entries }
    {
        Sums {
            sums: BTreeMap::new(alloc),
        }
    }

    /// Adds an amount of one book. Returns `Range` where a sum leaves the range of `i128`.
    pub(crate) fn add(
        &mut self,
        side: Side,
        subject: Subject,
        amount: i128,
    ) -> Result<(), ReportFault>
        ensures added { OnOk result (AddsAmounts side ((subject, amount) ∷ [])
            self.old.sums.entries self.new.sums.entries) }
        ensures range { (amounts : Amounts) → AreSums amounts self.old.sums.entries
            → IsErrOf result ReportFault.Range
            → FitsSigned w128 (sum_on side (sides_at amounts subject) +ℤ amount) → ⊥ }
        ensures memory { (amounts : Amounts) → AreSums amounts self.old.sums.entries
            → IsErrOf result ReportFault.Memory
            → FitsSigned w128 (sum_on side (sides_at amounts subject) +ℤ amount) }
        ensures cause { IfErr result (λ fault. fault ≢ ReportFault.Write) }
    {
        let Some(sides) = self.sides(&subject).plus(side, amount) else {
            return Err(ReportFault::Range);
        };
        self.sums.insert(subject, sides)?;
        Ok(())
    }

    /// Returns the sums of a subject. A sum that a book lacks is zero.
    fn sides(&self, subject: &Subject) -> Sides
        ensures { result ≡ sides_in self.now.sums.entries subject.now }
    {
        self.sums.get(subject).copied().unwrap_or(Sides::NONE)
    }
}
