//! The sums of amounts in each of their currencies.

ghost use Rattle.std.specs.Prelude.{◌≡◌, List, [], ◌∷◌, ◌++◌, ℕ, ℤ, ◌+ℤ◌, IsErrOf, OnOk, SomeIff};
ghost use Rattle.lot_book.specs.Currencies.{sum_in};
ghost use Rattle.lot_num.specs.Amount.{IsWide};
ghost use Rattle.lot_report.specs.Report.{AreSums};

use lot_base::Commodity;
use lot_num::Wide;
use std::alloc::{AllocError, AllocFailed, Global};
use std::collections::BTreeMap;

/// Why a sum isn't known.
#[derive(Clone, Copy, Debug, PartialEq, Eq)]
pub(crate) enum SumFault {
    /// It is out of range.
    Range,
    /// Out of memory.
    Memory,
}

impl From<AllocError> for SumFault {
    ghost use Rattle.std.specs.Prelude.{◌≡◌};
    ghost use Rattle.lot_call.specs.declared.sums.SumFault.TheVariants.{Memory};

    ghost from_gives = { λ _ fault. fault ≡ Memory };

    fn from(_error: AllocError) -> SumFault {
        SumFault::Memory
    }
}

impl<T: Drop> From<AllocFailed<T>> for SumFault {
    ghost use Rattle.std.specs.Prelude.{◌≡◌};
    ghost use Rattle.lot_call.specs.declared.sums.SumFault.TheVariants.{Memory};

    ghost from_gives = { λ _ fault. fault ≡ Memory };

    fn from(_failed: AllocFailed<T>) -> SumFault {
        SumFault::Memory
    }
}

/// The sums of amounts in each of their currencies, in the order of the bytes of these.
#[derive(Drop)]
pub(crate) struct Sums {
    pub(crate) by_currency: BTreeMap<Commodity, Wide>,
}

impl Sums {
    /// Returns those of no amounts.
    pub(crate) fn new(alloc: Global) -> Sums
        ensures { AreSums [] result.by_currency.entries }
    {
        Sums {
            by_currency: BTreeMap::new(alloc),
        }
    }

    /// Adds an amount. The error is `Range` exactly where that takes the sum in its currency out of the
    /// range of weights, else it is out of memory.
    pub(crate) fn add(&mut self, currency: &Commodity, amount: Wide) -> Result<(), SumFault>
        ensures added { (amounts : List (List ℕ × ℤ))
            → AreSums amounts self.old.by_currency.entries
            → OnOk result (AreSums (amounts ++ (currency.now, amount) ∷ [])
            self.new.by_currency.entries) }
        ensures range { (amounts : List (List ℕ × ℤ))
            → AreSums amounts self.old.by_currency.entries
            → IsErrOf result SumFault.Range → IsWide (sum_in amounts currency.now +ℤ amount) → ⊥ }
        ensures memory { (amounts : List (List ℕ × ℤ))
            → AreSums amounts self.old.by_currency.entries
            → IsErrOf result SumFault.Memory → IsWide (sum_in amounts currency.now +ℤ amount) }
    {
        match self.sum_with(currency, amount) {
            Some(sum) => self.set(currency, sum),
            None => Err(SumFault::Range),
        }
    }

    /// Returns the sum in a currency with one more amount, where it is in range.
    fn sum_with(&self, currency: &Commodity, amount: Wide) -> Option<Wide>
        ensures { (amounts : List (List ℕ × ℤ)) → AreSums amounts self.now.by_currency.entries
            → SomeIff result (IsWide (sum_in amounts currency.now +ℤ amount))
            (sum_in amounts currency.now +ℤ amount) }
    {
        let sum = self
            .by_currency
            .get(currency)
            .copied()
            .unwrap_or(Wide::ZERO);
        sum.checked_add(amount)
    }

    /// Returns the sums as a text, which is empty where there is none. The only error is out of memory.
    pub(crate) fn text(&self, alloc: Global) -> Result<String, AllocError> {
        let mut text = String::new(alloc);
        for (currency, sum) in &self.by_currency {
            push_amount(alloc, &mut text, currency, *sum)?;
        }
        Ok(text)
    }

    /// Sets the sum in a currency. The only error is out of memory.
    fn set(&mut self, currency: &Commodity, sum: Wide) -> Result<(), SumFault>
        ensures sums { (amounts : List (List ℕ × ℤ)) (amount : ℤ)
            → AreSums amounts self.old.by_currency.entries
            → sum ≡ sum_in amounts currency.now +ℤ amount
            → OnOk result (AreSums (amounts ++ (currency.now, amount) ∷ [])
            self.new.by_currency.entries) }
        ensures cause { IsErrOf result SumFault.Range → ⊥ }
    {
        self.by_currency.insert(currency.copy()?, sum)?;
        Ok(())
    }
}

/// Appends an amount to those of a text. The only error is out of memory.
pub(crate) fn push_amount(
    alloc: Global,
    text: &mut String,
    currency: &Commodity,
    amount: Wide,
) -> Result<(), AllocError> {
    let before = if text.is_empty() { "" } else { ", " };
    let amount = amount.text_money(alloc)?;
    write!(text, "{before}{amount} {currency}")
}
