ghost use Rattle.std.specs.Prelude.{◌≡◌, ◌≢◌, [], ◌∷◌, IfErr, IfOk, OnOk, option_map};
ghost use Rattle.lot_book.specs.Gain.{currency_of};
ghost use Rattle.lot_compare.specs.Amounts.{IsOfSum, held_amount, year_amounts, year_text};
ghost use Rattle.lot_compare.specs.Sums.{AddsAmounts};
ghost use Rattle.lot_report.specs.Gains.{gained};

use crate::subject::{Subject, Text};
use crate::sums::{Side, Sums};
use lot_base::{Commodity, Day};
use lot_book::{Gain, Holding, Sale};
use lot_command::Price;
use lot_report::{ReportFault, RowFault};
use std::alloc::{AllocError, Global};

/// Adds the gain of a sale to its year and the currency of its price; an unpriced one has none. The error is `Range` where a
/// sum leaves the range of `i128`, else out of memory.
pub(crate) fn add_sale(
    alloc: Global,
    side: Side,
    sale: &Sale,
    sums: &mut Sums,
) -> Result<(), RowFault>
    ensures added { OnOk result
        (AddsAmounts side (year_amounts sale.now) sums.old.sums.entries sums.new.sums.entries) }
    ensures cause { IfErr result IsOfSum }
{
    let Some((currency, gain)) = priced(sale) else {
        return Ok(());
    };
    Ok(add_gain(alloc, side, sale.day(), currency, gain, sums)?)
}

/// Adds a gain to the year of a day and a currency.
fn add_gain(
    alloc: Global,
    side: Side,
    day: Day,
    currency: &Commodity,
    gain: Gain,
    sums: &mut Sums,
) -> Result<(), ReportFault>
    ensures added { OnOk result (AddsAmounts side
        ((record { what = year_text day; commodity = currency.now }, gain.gain) ∷ [])
        sums.old.sums.entries sums.new.sums.entries) }
    ensures cause { IfErr result (λ fault. fault ≢ ReportFault.Write) }
{
    let subject = Subject {
        what: year_of(alloc, day)?,
        commodity: currency.copy()?,
    };
    sums.add(side, subject, gain.gain.mantissa())
}

/// Adds the units of a holding to its account and its commodity. The error is `Range` where a sum leaves the range of `i128`,
/// else out of memory.
pub(crate) fn add_holding(
    alloc: Global,
    side: Side,
    holding: &Holding,
    sums: &mut Sums,
) -> Result<(), RowFault>
    ensures added { OnOk result (AddsAmounts side (held_amount holding.now ∷ [])
        sums.old.sums.entries sums.new.sums.entries) }
    ensures cause { IfErr result IsOfSum }
{
    Ok(add_units(alloc, side, holding, sums)?)
}

/// Adds the units of a holding, with the fault of a report.
fn add_units(
    alloc: Global,
    side: Side,
    holding: &Holding,
    sums: &mut Sums,
) -> Result<(), ReportFault>
    ensures added { OnOk result (AddsAmounts side (held_amount holding.now ∷ [])
        sums.old.sums.entries sums.new.sums.entries) }
    ensures cause { IfErr result (λ fault. fault ≢ ReportFault.Write) }
{
    let subject = Subject {
        what: Text::new(alloc, holding.account.as_str())?,
        commodity: holding.commodity.copy()?,
    };
    sums.add(side, subject, i128::from(holding.units.mantissa()))
}

/// Returns the gain of a sale with the currency of its price, or `None` where the sale is unpriced.
fn priced(sale: &Sale) -> Option<(&Commodity, Gain)>
    ensures { option_map (λ priced. (priced.0.now, priced.1)) result ≡ gained sale.now }
{
    let price = sale.price()?;
    let gain = sale.gain()?;
    Some((currency_of(price), gain))
}

/// Returns the currency of a price.
fn currency_of(price: &Price) -> &Commodity
    ensures { result.now ≡ currency_of price.now }
{
    match price {
        Price::Each(price) => &price.currency,
        Price::Whole(price) => price.currency(),
    }
}

/// Returns the year of a day in four digits. The only error is out of memory.
fn year_of(alloc: Global, day: Day) -> Result<Text, AllocError>
    ensures { IfOk result (λ year. year ≡ year_text day) }
{
    let text = day.text(alloc)?;
    let (year, _) = text.as_str().split_at(4);
    Text::new(alloc, year)
}
