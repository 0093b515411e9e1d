//! The trade that a row of a purchase or of a sale comes to.
ghost use Rattle.std.specs.Prelude.{◌≡◌, IfOk};
ghost use Rattle.lot_roles.specs.Reading.{Gives, if_any};
ghost use Rattle.lot_deal_read.specs.Signs.{GoesWith, HasNumbers, IsPaid, IsSold, Keeps};
ghost use Rattle.lot_deal_read.specs.Trade.{account_currency_by, are_opposite, by_amount, by_price, compared_of, exchanged, goes, paid_beside, posted, sale_of, settled, trade_of};
ghost use Rattle.lot_deal_read.specs.TradeRow.{third_fee};

use crate::comparison::compare;
use crate::fees::{fee_apart, fee_within, paid_beside};
use crate::pricing::worth;
use crate::says::Compared;
use crate::trade_row::{
    Pricing, TradeRow, amount_for, cash_fee, has_one_currency, price_fee, price_of, trade_row,
};
use lot_base::Commodity;
use lot_deal::{Movement, Sale, Trade, TradePrice, Worth};
use lot_num::{Rate, Units};
use lot_profile::{AccountRole, Role};
use lot_roles::{RowFault, Rules, account};
use lot_sheet::Row;
use std::alloc::{AllocError, Global};

/// Which way the units go.
#[derive(Clone, Copy)]
pub(crate) enum Direction {
    /// They come in, and cash goes out.
    In,
    /// They go out, and no cash does.
    Out,
}

/// A trade, and what it is compared with.
#[derive(Drop)]
pub(crate) struct Traded {
    pub trade: Trade,
    pub compared: Compared,
}

/// How the cash settles a trade.
#[derive(Drop)]
pub(crate) struct Settled {
    /// The price of one unit.
    pub price: Rate,
    /// What the cash got.
    pub amount: Units,
    /// What that is exchanged for, where the price is in another currency.
    pub worth: Option<Worth>,
}

/// Returns the sale that a row comes to.
pub(crate) fn sale(alloc: Global, rules: &Rules, row: &Row) -> Result<Sale, RowFault>
    ensures gives { Gives result (sale_of rules.now row.now) }
    ensures signs { IfOk result (λ sale. IsSold sale.trade) }
{
    let Traded { trade, compared: _ } = trade(alloc, rules, row, Direction::Out)?;
    let gains = account(
        alloc,
        rules,
        row,
        AccountRole::Gains,
        account_currency(&trade).as_str(),
    )?;
    Ok(Sale { trade, gains })
}

/// Returns the trade that a row comes to: units and cash go that way, and the numbers agree.
#[tactic(auto, unfolding(crate::specs::Trade::trade_of))]
pub(crate) fn trade(
    alloc: Global,
    rules: &Rules,
    row: &Row,
    direction: Direction,
) -> Result<Traded, RowFault>
    ensures gives { Gives result (trade_of direction rules.now row.now) }
    ensures signs { IfOk result (λ traded. GoesWith direction traded.trade) }
    ensures paid { IfOk result (λ traded. IsPaid direction traded.compared) }
{
    let said = trade_row(alloc, rules, row)?;
    let amount = amount_for(rules, row, &said)?;
    if !goes(direction, said.units, amount) {
        return Err(RowFault::Signs);
    }
    compare(rules, row, &said, amount)?;
    let trade = posted(alloc, rules, row, &said, amount)?;
    Ok(Traded {
        trade,
        compared: compared(&said, amount)?,
    })
}

/// Returns whether units and cash go that way.
fn goes(direction: Direction, units: Units, amount: Units) -> bool
    ensures { result ≡ goes direction units amount }
{
    match direction {
        Direction::In => units > Units::ZERO && amount < Units::ZERO,
        Direction::Out => units < Units::ZERO && amount >= Units::ZERO,
    }
}

/// Returns what a purchase and its cancellation have in common. The only error is out of memory.
fn compared(said: &TradeRow, amount: Units) -> Result<Compared, AllocError>
    ensures { IfOk result (λ compared. compared ≡ compared_of said.now amount) }
{
    Ok(Compared {
        symbol: said.symbol.copy()?,
        units: said.units,
        price: price_of(said.pricing),
        amount,
        currency: said.currency.copy()?,
    })
}

/// Returns the trade of a row as it is posted, by what counts as its cost.
#[tactic(auto, unfolding(crate::specs::Trade::posted))]
fn posted(
    alloc: Global,
    rules: &Rules,
    row: &Row,
    said: &TradeRow,
    amount: Units,
) -> Result<Trade, RowFault>
    ensures gives { Gives result (posted rules.now row.now said.now amount) }
    ensures units { IfOk result (λ trade. trade.units ≡ said.now.units) }
    ensures keeps { IfOk result (λ trade. Keeps said.now.units amount trade.amount) }
{
    match said.pricing {
        Pricing::Printed(_) => by_amount(alloc, rules, row, said, amount),
        Pricing::Cost(price) => by_price(alloc, rules, row, said, settle(said, amount, price)?),
    }
}

/// Returns the trade of a row whose amount counts as cost.
#[tactic(auto, unfolding(crate::specs::Trade::by_amount))]
fn by_amount(
    alloc: Global,
    rules: &Rules,
    row: &Row,
    said: &TradeRow,
    amount: Units,
) -> Result<Trade, RowFault>
    ensures gives { Gives result (by_amount rules.now row.now said.now amount) }
    ensures numbers { IfOk result (HasNumbers said.now.units amount) }
{
    let currency = said.currency.as_str();
    let invest = account(alloc, rules, row, AccountRole::Invest, currency)?;
    let cash = account(alloc, rules, row, AccountRole::Cash, currency)?;
    let beside = third_fee(alloc, rules, row, said)?;
    Ok(Trade {
        symbol: said.symbol.copy()?,
        units: said.units,
        amount,
        currency: said.currency.copy()?,
        price: None,
        beside,
        invest,
        cash,
    })
}

/// Returns the fee of a row out of the cash of its currency, where that is a third.
fn third_fee(
    alloc: Global,
    rules: &Rules,
    row: &Row,
    said: &TradeRow,
) -> Result<Option<Movement>, RowFault>
    ensures { Gives result (if_any (paid_beside rules.now row.now) (third_fee said.now)) }
{
    match &said.fee {
        Some(fee) if fee.currency != said.currency && fee.currency != said.price_currency => Ok(
            Some(paid_beside(alloc, rules, row, fee)?),
        ),
        _ => Ok(None),
    }
}

/// Returns the trade of a row whose price counts as cost.
#[tactic(auto, unfolding(crate::specs::Trade::by_price))]
fn by_price(
    alloc: Global,
    rules: &Rules,
    row: &Row,
    said: &TradeRow,
    settled: Settled,
) -> Result<Trade, RowFault>
    ensures gives { Gives result (by_price rules.now row.now said.now settled) }
    ensures numbers { IfOk result (HasNumbers said.now.units settled.amount) }
{
    let currency = &said.price_currency;
    let invest = account(alloc, rules, row, AccountRole::Invest, currency.as_str())?;
    let cash = account(alloc, rules, row, AccountRole::Cash, said.currency.as_str())?;
    let fee = fee_within(alloc, rules, row, currency, &said.fee)?;
    let beside = fee_apart(alloc, rules, row, currency, &said.fee)?;
    Ok(Trade {
        symbol: said.symbol.copy()?,
        units: said.units,
        amount: settled.amount,
        currency: said.currency.copy()?,
        price: Some(TradePrice {
            rate: settled.price,
            fee,
            worth: settled.worth,
        }),
        beside,
        invest,
        cash,
    })
}

/// Returns how the cash settles a trade whose price counts as cost.
fn settle(said: &TradeRow, amount: Units, price: Rate) -> Result<Settled, RowFault>
    ensures gives { Gives result (settled said.now amount price) }
    ensures keeps { IfOk result (λ settled. Keeps said.now.units amount settled.amount) }
{
    if has_one_currency(said) {
        Ok(Settled {
            price,
            amount,
            worth: None,
        })
    } else {
        exchanged(said, amount, price)
    }
}

/// Returns what the cash got without a fee in its currency, and what the units are worth in the currency of their price.
fn exchanged(said: &TradeRow, amount: Units, price: Rate) -> Result<Settled, RowFault>
    ensures gives { Gives result (exchanged said.now amount price) }
    ensures keeps { IfOk result (λ settled. Keeps said.now.units amount settled.amount) }
{
    let Some(rest) = amount.checked_add(cash_fee(said)) else {
        return Err(RowFault::TooLarge(Role::Amount));
    };
    let Some(worth) = worth(said.units, price, price_fee(said)) else {
        return Err(RowFault::TooLarge(Role::Amount));
    };
    if !are_opposite(rest, worth) {
        return Err(RowFault::PriceSign);
    }
    Ok(Settled {
        price,
        amount: rest,
        worth: Some(Worth {
            amount: worth,
            currency: said.price_currency.copy()?,
        }),
    })
}

/// Returns whether two amounts have opposite signs, or are both zero.
fn are_opposite(a: Units, b: Units) -> bool
    ensures { result ≡ are_opposite a b }
{
    a > Units::ZERO && b < Units::ZERO
        || a < Units::ZERO && b > Units::ZERO
        || a == Units::ZERO && b == Units::ZERO
}

/// Returns the currency in which a trade is accounted: that of the price where it is the cost, else that of the cash.
fn account_currency(trade: &Trade) -> &Commodity
    ensures { result.now ≡ account_currency_by trade.now.price trade.now.currency }
{
    match &trade.price {
        Some(
            TradePrice {
                worth: Some(worth),
                ..
            },
        ) => &worth.currency,
        _ => &trade.currency,
    }
}
