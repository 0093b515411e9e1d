ghost use Rattle.std.specs.Prelude.{◌≡◌, ◌&&◌, if◌then◌else◌, ℕ, IfErr, IfOk, List, OnOk, Some};
ghost use Rattle.lot_base.specs.Text.{same_text};
ghost use Rattle.lot_book_report.specs.Holdings.{KeepsPrices, KeepsRowPrices, kept, rate_in, valuation_at, valued_with};
ghost use Rattle.lot_book_report.specs.Show.{HoldsOfBook, HoldsOfTables, IsOfBook, ReadsBook};

use crate::fault::ShowFault;
use lot_base::{Commodity, Day};
use lot_book::Holding;
use lot_num::Rate;
use lot_report::{Valuation, ValuedHolding};
use lot_store::{Book, PairPrice, StoreFault};
use sqlite::Alter;
use std::alloc::{AllocError, Global};
use std::collections::BTreeMap;

/// The prices of a book at a day.
#[derive(Drop)]
pub struct DayPrices {
    /// By base, then by quote.
    rates: BTreeMap<Commodity, BTreeMap<Commodity, Rate>>,
}

impl DayPrices {
    /// Reads the prices of a book at a day. A fault is one of the book.
    pub fn read<S: Alter>(
        alloc: Global,
        book: &mut Book<S>,
        day: Day,
    ) -> Result<DayPrices, ShowFault>
        ensures prices { IfOk result (λ prices.
            HoldsOfBook S.Store book.old book.new (λ entries. KeepsPrices entries day prices)) }
        ensures rows { IfOk result (λ prices.
            HoldsOfTables S.Store book.old book.new (λ tables. KeepsRowPrices tables day prices)) }
        ensures fault { IfErr result IsOfBook }
        ensures reads { ReadsBook S.Store book.old book.new result }
    {
        let mut rates = BTreeMap::new(alloc);
        let mut walk = book.prices(day);
        'prices: for _ in 0..u64::MAX {
            let Some(price) = walk.next()? else {
                return Ok(DayPrices { rates });
            };
            keep(&mut rates, alloc, price)?;
        }
        // No book has so many prices.
        Err(ShowFault::from(StoreFault::Memory))
    }

    /// Returns a holding with its valuation.
    pub fn valued(&self, holding: Holding) -> ValuedHolding
        ensures { result ≡ valued_with (Some self.now) holding }
    {
        let valuation = self.valuation(&holding);
        ValuedHolding { holding, valuation }
    }

    /// Returns the valuation of a holding. A lot is valued at the price of its commodity in the currency of its cost.
    pub(crate) fn valuation(&self, holding: &Holding) -> Valuation
        ensures { result ≡ valuation_at (kept self.now) holding.now.commodity holding.now.lot }
    {
        let Some(lot) = &holding.lot else {
            return Valuation::Unasked;
        };
        match self.price(&holding.commodity, &lot.currency) {
            Some(rate) => Valuation::At(rate),
            None => Valuation::Missing,
        }
    }

    fn price(&self, base: &Commodity, quote: &Commodity) -> Option<Rate>
        ensures { result ≡ kept self.now base.now quote.now }
    {
        self.rates.get(base)?.get(quote).copied()
    }
}

/// Keeps a price. The error is out of memory.
fn keep(
    rates: &mut BTreeMap<Commodity, BTreeMap<Commodity, Rate>>,
    alloc: Global,
    price: PairPrice,
) -> Result<(), AllocError>
    ensures { OnOk result ((base quote : List ℕ) → rate_in rates.new base quote
        ≡ if same_text base price.base && same_text quote price.quote then Some price.rate
        else rate_in rates.old base quote) }
{
    let PairPrice { base, quote, rate } = price;
    match rates.get_mut(&base) {
        Some(quotes) => {
            quotes.insert(quote, rate)?;
        }
        None => {
            let mut quotes = BTreeMap::new(alloc);
            quotes.insert(quote, rate)?;
            rates.insert(base, quotes)?;
        }
    }
    Ok(())
}
