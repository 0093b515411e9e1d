//! The price of a commodity that a row says.
ghost use Rattle.std.specs.Prelude.{◌≡◌};
ghost use Rattle.lot_roles.specs.Reading.{Gives};
ghost use Rattle.lot_deal_read.specs.Incoming.{quote_of};

use crate::needed::{currency_in, price_in, symbol_in};
use lot_deal::Quote;
use lot_profile::Role;
use lot_roles::{RowFault, Rules, commodity};
use lot_sheet::Row;
use std::alloc::Global;

/// Returns the price of a commodity that a row says.
#[tactic(auto, unfolding(crate::specs::Incoming::quote_of))]
pub(crate) fn quote(alloc: Global, rules: &Rules, row: &Row) -> Result<Quote, RowFault>
    ensures { Gives result (quote_of rules.now row.now) }
{
    let symbol = symbol_in(alloc, rules, row)?;
    let rate = price_in(rules, row)?;
    let currency = match commodity(alloc, rules, row, Role::PriceCurrency)? {
        Some(currency) => currency,
        None => currency_in(alloc, rules, row, Role::Currency)?,
    };
    Ok(Quote {
        symbol,
        rate,
        currency,
    })
}
