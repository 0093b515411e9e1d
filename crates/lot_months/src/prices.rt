ghost use Rattle.std.specs.Prelude.{◌≡◌, ◌∷◌, ◌++◌, [], ℕ, ◌&&◌, IfErr, List, OnOk, Some, cond};
ghost use Rattle.std.specs.BTreeMap.{get};
ghost use Rattle.std.specs.Option.{option_copied};
ghost use Rattle.std.specs.Ordering.{is_eq, nat_cmp};
ghost use Rattle.lot_months.specs.Lots.{Pair, pair_cmp};
ghost use Rattle.lot_months.specs.Prices.{HasPrices, rate_in, rate_kept};
ghost use Rattle.lot_months.specs.declared.range.MonthRange.{MonthRange as MonthRangeOf};
ghost use Rattle.lot_report.specs.declared.fault.ReportFault.TheVariants.{Memory};
ghost use Rattle.lot_rows.specs.declared.price.PriceRow.{PriceRow as PriceRowOf};

use crate::flows::LotPair;
use crate::range::MonthRange;
use lot_num::Rate;
use lot_quote::PriceRow;
use lot_report::ReportFault;
use std::alloc::Global;
use std::collections::BTreeMap;

/// The last price of each month, by the place of the month.
pub(crate) type Rates = BTreeMap<u32, Rate>;

/// The last prices of each pair.
pub(crate) type PairRates = BTreeMap<LotPair, Rates>;

/// The last price of each pair in each month. It takes the prices of a book one after another, those
/// of a pair in the order of days.
#[derive(Drop)]
pub struct MonthPrices {
    alloc: Global,
    range: MonthRange,
    pairs: PairRates,
}

impl MonthPrices {
    /// Returns the prices of those months, before the first one. It takes no memory.
    pub fn new(alloc: Global, range: MonthRange) -> MonthPrices
        ensures { HasPrices range [] result }
    {
        MonthPrices {
            alloc,
            range,
            pairs: BTreeMap::new(alloc),
        }
    }

    /// Returns the prices of a pair.
    pub(crate) fn of(&self, pair: &LotPair) -> Option<&Rates>
        ensures { option_copied result ≡ get pair_cmp self.now.pairs pair.now }
    {
        self.pairs.get(pair)
    }

    /// Takes one more price. One behind the last day is passed over. The only error is out of
    /// memory.
    pub fn add(&mut self, row: PriceRow) -> Result<(), ReportFault>
        ensures adds { OnOk result ((range : MonthRangeOf) (quotes : List PriceRowOf)
            → HasPrices range quotes self.old → HasPrices range (quotes ++ row ∷ []) self.new) }
        ensures cause { IfErr result (λ fault. fault ≡ Memory) }
    {
        let PriceRow {
            base,
            quote,
            day,
            rate,
        } = row;
        let Some(at) = self.range.place(day) else {
            return Ok(());
        };
        set_rate(self.alloc, &mut self.pairs, (base, quote), at, rate)
    }
}

/// Sets the price of a pair in a month. The only error is out of memory.
fn set_rate(
    alloc: Global,
    pairs: &mut PairRates,
    pair: LotPair,
    at: u32,
    rate: Rate,
) -> Result<(), ReportFault>
    ensures sets { OnOk result ((other : Pair) (place : ℕ) → rate_kept pairs.new other place
        ≡ cond (is_eq (pair_cmp pair other) && is_eq (nat_cmp at place)) (Some rate)
        (rate_kept pairs.old other place)) }
    ensures cause { IfErr result (λ fault. fault ≡ Memory) }
{
    match pairs.get_mut(&pair) {
        Some(rates) => {
            rates.insert(at, rate)?;
        }
        None => {
            let mut rates = BTreeMap::new(alloc);
            rates.insert(at, rate)?;
            pairs.insert(pair, rates)?;
        }
    }
    Ok(())
}

/// Returns the last price of a month, where there is one.
pub(crate) fn rate_at(rates: Option<&Rates>, at: u32) -> Option<Rate>
    ensures { result ≡ rate_in (option_copied rates.entry) at }
{
    rates?.get(&at).copied()
}
