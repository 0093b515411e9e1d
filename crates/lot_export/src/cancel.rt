//! Which purchase a cancellation takes back.
ghost use Rattle.std.specs.Prelude.{◌≡◌, IfOk, map};
ghost use Rattle.std.specs.Option.{option_copied};
ghost use Rattle.lot_export.specs.Cancels.{bought_on, day_of, neither, plain, plain_trade, trade_by, trade_of, trades_of};

use crate::entry::{Entry, dated_at};
use crate::named::{Named, is_left_out};
use lot_base::{Day, Label};
use lot_deal_read::{Compared, Saying};
use lot_num::Units;
use lot_sequence::{Side, Trade};
use std::alloc::{AllocError, Global};

/// Returns what each row does with a purchase, in the order of the rows. The only error is out of memory.
pub(crate) fn trades<'a>(
    alloc: Global,
    entries: &'a [Entry],
    rows: &[Named],
) -> Result<Vec<Trade<'a>>, AllocError>
    ensures { IfOk result (λ trades. map plain trades.items ≡ trades_of entries.now rows.now) }
{
    let mut trades = Vec::new(alloc);
    for named in rows {
        let trade = trade(entries, named);
        if trades.push(trade).is_err() {
            return Err(AllocError);
        }
    }
    Ok(trades)
}

/// Returns what a row does with a purchase.
fn trade<'a>(entries: &'a [Entry], named: &Named) -> Trade<'a>
    ensures { plain result ≡ trade_of entries.now named.now }
{
    match dated_at(entries, named.number) {
        Some(dated) => trade_by(&dated.saying),
        None => neither(),
    }
}

/// Returns what a row does with a purchase that says that.
fn trade_by(saying: &Saying) -> Trade<'_>
    ensures { plain result ≡ trade_by saying.now }
{
    match saying {
        Saying::Deal {
            bought: Some(compared),
            ..
        } => compared_trade(Side::Buys, compared),
        Saying::CancelBuy { compared, .. } => compared_trade(Side::Cancels, compared),
        _ => neither(),
    }
}

/// Returns what a purchase and its cancellation have in common.
fn compared_trade(side: Side, compared: &Compared) -> Trade<'_>
    ensures { plain result ≡ plain_trade side compared.now }
{
    Trade {
        side,
        symbol: compared.symbol.as_str(),
        units: compared.units,
        price: compared.price,
        amount: compared.amount,
        currency: compared.currency.as_str(),
    }
}

/// Returns what a row says that does nothing with a purchase.
fn neither<'a>() -> Trade<'a>
    ensures { plain result ≡ neither }
{
    Trade {
        side: Side::Neither,
        symbol: "",
        units: Units::ZERO,
        price: None,
        amount: Units::ZERO,
        currency: "",
    }
}

/// Returns the day of the purchase at a place among the rows that are judged, which another row takes back. There is none where that
/// row takes none back, or where the purchase is left out.
pub(crate) fn bought_on(rows: &[Named], except: &[Label], partner: Option<usize>) -> Option<Day>
    ensures { result ≡ bought_on rows.now except.now partner }
{
    match partner {
        Some(place) => day_of(except, rows.get(place)),
        None => None,
    }
}

/// Returns the day of a purchase, if there is one that isn't left out.
fn day_of(except: &[Label], purchase: Option<&Named>) -> Option<Day>
    ensures { result ≡ day_of except.now (option_copied purchase.entry) }
{
    match purchase {
        Some(purchase) if !is_left_out(except, purchase) => Some(purchase.day),
        _ => None,
    }
}
