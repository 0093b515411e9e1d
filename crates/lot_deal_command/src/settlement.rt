//! How the cash of a trade is posted.
ghost use Rattle.std.specs.Prelude.{◌≡◌, ◌++◌, IfOk, OnOk};
ghost use Rattle.lot_deal_command.specs.Trade.{cash_by, cash_for, currency_by, price_fee, settled};

use crate::cash::push_beside;
use crate::posting::{exchanged, plain, push_fee};
use lot_base::Commodity;
use lot_command::{Items, Posting};
use lot_deal::{Trade, TradePrice, Worth};
use std::alloc::AllocError;

/// Appends the fees and the cash of a trade.
pub(crate) fn push_settlement(all: &mut Items<Posting>, trade: &Trade) -> Result<(), AllocError>
    ensures { OnOk result (all.new ≡ all.old ++ settled trade.now) }
{
    push_price_fee(all, trade)?;
    push_beside(all, &trade.beside)?;
    all.push(cash(trade)?)?;
    Ok(())
}

/// Appends the fee beside the price of a trade, where there is one.
fn push_price_fee(all: &mut Items<Posting>, trade: &Trade) -> Result<(), AllocError>
    ensures { OnOk result (all.new ≡ all.old ++ price_fee trade.now.price trade.now) }
{
    if let Some(price) = &trade.price {
        push_fee(all, &price.fee, currency(&price.worth, &trade.currency))?;
    }
    Ok(())
}

/// Returns the posting of the cash of a trade.
fn cash(trade: &Trade) -> Result<Posting, AllocError>
    ensures { IfOk result (λ posting. posting ≡ cash_by trade.now.price trade.now) }
{
    match &trade.price {
        Some(
            TradePrice {
                worth: Some(worth),
                ..
            },
        ) => exchanged(
            &trade.cash,
            trade.amount,
            &trade.currency,
            worth.amount,
            &worth.currency,
        ),
        _ => plain(&trade.cash, trade.amount, &trade.currency),
    }
}

/// Returns the currency of a price: that of what the units are worth, else that of the cash.
pub(crate) fn currency<'a>(worth: &'a Option<Worth>, cash: &'a Commodity) -> &'a Commodity
    ensures { result.now ≡ currency_by worth.now cash.now }
{
    match worth {
        Some(worth) => &worth.currency,
        None => cash,
    }
}
