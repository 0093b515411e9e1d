ghost use Rattle.std.specs.Prelude.{◌≡◌, [], ℕ, ℤ, List, OnOk};
ghost use Rattle.std.specs.Option.{option_or};
ghost use Rattle.lot_stored.specs.Kept.{rate_by};
ghost use Rattle.lot_audit.specs.Rates.{KeepsRates, rate_in};

use crate::agree::ToldRow;
use crate::pass::Replayed;
use lot_base::{Commodity, Day};
use lot_command::Command;
use lot_num::Rate;
use lot_rows::price::PriceRow;
use std::alloc::{AllocError, Global};
use std::collections::BTreeMap;

/// A pair of commodities and a day.
#[derive(PartialEq, Eq, PartialOrd, Ord, Drop)]
struct PriceKey {
    base: Commodity,
    quote: Commodity,
    day: Day,
}

/// The last rate of each pair on each day, of those that the entries so far quoted.
#[derive(Drop)]
pub(crate) struct Rates {
    rates: BTreeMap<PriceKey, Rate>,
}

impl Rates {
    /// Returns the rates of a book without entries. It takes no memory.
    pub(crate) fn new(alloc: Global) -> Rates
        ensures { KeepsRates result [] }
    {
        Rates {
            rates: BTreeMap::new(alloc),
        }
    }

    /// Keeps the rate that a command quotes, if it does. The error is out of memory.
    pub(crate) fn quote(&mut self, command: &Command) -> Result<(), AllocError>
        ensures { OnOk result ((base quote : List ℕ) (day : ℤ)
            → rate_in self.new base quote day
            ≡ option_or (rate_by base quote day command.now) (rate_in self.old base quote day)) }
    {
        if let Command::Quoting(quoting) = command {
            let key = PriceKey {
                base: quoting.base.copy()?,
                quote: quoting.quote.copy()?,
                day: quoting.day,
            };
            self.rates.insert(key, quoting.rate)?;
        }
        Ok(())
    }
}

/// The last rate of the pair and the day is that of the row.
impl ToldRow for PriceRow {
    ghost use Rattle.lot_audit.specs.Told.{TellsPrice};

    ghost rows = { λ b. b.price };

    ghost Tells = { λ known. TellsPrice known.rates };

    fn agrees(self, known: &Replayed) -> bool {
        let PriceRow {
            base,
            quote,
            day,
            rate,
        } = self;
        let key = PriceKey { base, quote, day };
        known.rates.rates.get(&key).copied() == Some(rate)
    }
}
