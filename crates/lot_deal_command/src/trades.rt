//! The postings of what is bought, sold or taken back.
ghost use Rattle.std.specs.Prelude.{◌≡◌, IfOk, IfErr};
ghost use Rattle.lot_deal_command.specs.declared.fault.CommandFault.TheVariants.{Memory};
ghost use Rattle.lot_deal_command.specs.Trade.{at_cost, at_price, cancellation_postings, cost_by, price_by, purchase_postings, sale_postings};

use crate::fault::CommandFault;
use crate::posting::{any_cost, elided, held, unit_cost, whole_cost, whole_price};
use crate::settlement::{currency, push_settlement};
use lot_base::Day;
use lot_command::{Cost, Items, Posting, Price, UnitPrice};
use lot_deal::{Cancellation, Sale, Trade};
use std::alloc::{AllocError, Global};

/// Returns the postings of a purchase. The only error is out of memory.
pub(crate) fn purchase(alloc: Global, trade: &Trade) -> Result<Items<Posting>, CommandFault>
    ensures ok { IfOk result (λ all. all ≡ purchase_postings trade.now) }
    ensures memory { IfErr result (λ fault. fault ≡ Memory) }
{
    let mut all = Items::new(alloc);
    all.push(at_cost(trade, None)?)?;
    push_settlement(&mut all, trade)?;
    Ok(all)
}

/// Returns the postings of a purchase that is taken back. The only error is out of memory.
pub(crate) fn cancellation(
    alloc: Global,
    back: &Cancellation,
) -> Result<Items<Posting>, CommandFault>
    ensures ok { IfOk result (λ all. all ≡ cancellation_postings back.now) }
    ensures memory { IfErr result (λ fault. fault ≡ Memory) }
{
    let mut all = Items::new(alloc);
    all.push(at_cost(&back.trade, Some(back.bought))?)?;
    push_settlement(&mut all, &back.trade)?;
    Ok(all)
}

/// Returns the postings of a sale. The only error is out of memory.
pub(crate) fn sale(alloc: Global, sale: &Sale) -> Result<Items<Posting>, CommandFault>
    ensures ok { IfOk result (λ all. all ≡ sale_postings sale.now) }
    ensures memory { IfErr result (λ fault. fault ≡ Memory) }
{
    let mut all = Items::new(alloc);
    all.push(at_price(&sale.trade)?)?;
    push_settlement(&mut all, &sale.trade)?;
    all.push(elided(&sale.gains)?)?;
    Ok(all)
}

/// Returns the posting of units at their cost, whose lot is of that day where one is given.
fn at_cost(trade: &Trade, day: Option<Day>) -> Result<Posting, AllocError>
    ensures { IfOk result (λ posting. posting ≡ at_cost trade.now day) }
{
    let cost = cost(trade, day)?;
    held(&trade.invest, trade.units, &trade.symbol, cost, None)
}

/// Returns the cost of the units of a trade.
fn cost(trade: &Trade, day: Option<Day>) -> Result<Cost, AllocError>
    ensures { IfOk result (λ cost. cost ≡ cost_by trade.now.price trade.now day) }
{
    match &trade.price {
        Some(price) => unit_cost(price.rate, currency(&price.worth, &trade.currency), day),
        None => whole_cost(trade.amount, &trade.currency, day),
    }
}

/// Returns the posting of units of any cost, at what they are sold for.
fn at_price(trade: &Trade) -> Result<Posting, AllocError>
    ensures { IfOk result (λ posting. posting ≡ at_price trade.now) }
{
    let price = price(trade)?;
    held(
        &trade.invest,
        trade.units,
        &trade.symbol,
        any_cost(),
        Some(price),
    )
}

/// Returns what the units of a trade are sold for.
fn price(trade: &Trade) -> Result<Price, AllocError>
    ensures { IfOk result (λ price. price ≡ price_by trade.now.price trade.now) }
{
    match &trade.price {
        Some(price) => Ok(Price::Each(UnitPrice {
            rate: price.rate,
            currency: currency(&price.worth, &trade.currency).copy()?,
        })),
        None => whole_price(trade.amount, &trade.currency),
    }
}
