//! Parts that are the currencies of an opening. What they mean isn't kept yet.
ghost use Rattle.std.specs.Prelude.{◌≡◌, ◌≤◌, [], ◌∷◌, length, flat_map, map, IfErr, IfOk};
ghost use Rattle.std.specs.List.{AllZip, list_all};
ghost use Rattle.lot_base.specs.Name.{is_commodity};
ghost use Rattle.lot_command.specs.Currencies.{most_currencies};
ghost use Rattle.lot_syntax.specs.Header.{seen_text};
ghost use Rattle.lot_read.specs.Meaning.{FirstOutside, Names, commodity_item};

use crate::fault::ValueFault;
use crate::known::KnownNames;
use lot_base::Commodity;
use lot_command::Currencies;
use std::alloc::AllocError;
use std::marker::Model;

/// Parts that are commodities, at most 64.
#[derive(Drop)]
pub(crate) struct CurrencyParts<'w, 'a> {
    words: &'w [&'a str],
}

impl<'w, 'a> Model for CurrencyParts<'w, 'a> {
    ghost use Rattle.std.specs.Prelude.{ℕ, List, IsTrue, ◌≤◌, length, map};
    ghost use Rattle.std.specs.List.{list_all};
    ghost use Rattle.lot_base.specs.Name.{is_commodity};
    ghost use Rattle.lot_command.specs.Currencies.{most_currencies};
    ghost use Rattle.lot_syntax.specs.Header.{seen_text};

    ghost Value = { List (List ℕ) };

    ghost view = { λ p. map seen_text p.words.now };

    ghost invariant = { λ p. IsTrue (list_all (λ word. is_commodity word.now) p.words.now)
        × (length p.words.now ≤ most_currencies) };
}

impl<'w, 'a> CurrencyParts<'w, 'a> {
    /// Returns the currencies that the parts mean. The error is `BadName`, exactly where one of them means none.
    pub(crate) fn new(words: &'w [&'a str]) -> Result<CurrencyParts<'w, 'a>, ValueFault>
        requires { length words.now ≤ most_currencies }
        ensures means { IfOk result
            (λ currencies. AllZip (Names is_commodity) (map seen_text words.now) currencies) }
        ensures outside { IfErr result (λ fault.
            FirstOutside (flat_map (λ c. commodity_item c ∷ []) (map seen_text words.now)) fault) }
    {
        if !are_commodities(words) {
            return Err(ValueFault::BadName);
        }
        Ok(CurrencyParts { words })
    }

    /// Returns the currencies, which are kept. The only error is out of memory.
    pub(crate) fn keep(&self, names: &mut KnownNames) -> Result<Currencies, AllocError>
        ensures { IfOk result (λ currencies. currencies ≡ self.now) }
    {
        let mut items = Vec::new(names.alloc);
        for word in self.words {
            items.push(names.commodities.keep(word)?)?;
        }
        Ok(Currencies::new(items).unwrap())
    }
}

/// Returns whether each part is a commodity.
fn are_commodities(words: &[&str]) -> bool
    ensures { result ≡ list_all (λ word. is_commodity word.now) words.now }
{
    words.iter().all(|word| Commodity::is_name(word))
}
