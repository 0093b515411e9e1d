//! Each row is one that a book can have. The functions do nothing: their contracts state this for a caller.
ghost use Rattle.std.specs.Prelude.{All};
ghost use Rattle.lot_write.specs.Write.{IsGood};
ghost use Rattle.lot_rows.specs.Account.{IsAccountRow};
ghost use Rattle.lot_rows.specs.Allowed.{IsAllowedRow};
ghost use Rattle.lot_rows.specs.Commodity.{IsCommodityRow};
ghost use Rattle.lot_rows.specs.Entry.{IsEntryRow};
ghost use Rattle.lot_rows.specs.Head.{IsHeadRow};
ghost use Rattle.lot_rows.specs.Leg.{IsLegRow};
ghost use Rattle.lot_rows.specs.Lot.{IsLotRow};
ghost use Rattle.lot_rows.specs.LotKey.{IsLotKey};
ghost use Rattle.lot_rows.specs.Opening.{IsOpeningRow};
ghost use Rattle.lot_rows.specs.Plain.{IsPlainRow};
ghost use Rattle.lot_rows.specs.Price.{IsPriceRow};
ghost use Rattle.lot_rows.specs.Sale.{IsPriceOrNone, IsSaleRow};

use crate::write::Write;
use lot_command::Price;
use lot_cost::LotKey;
use lot_rows::account::AccountRow;
use lot_rows::allowed::AllowedRow;
use lot_rows::commodity::CommodityRow;
use lot_rows::entry::EntryRow;
use lot_rows::head::HeadRow;
use lot_rows::leg::LegRow;
use lot_rows::lot::LotRow;
use lot_rows::opening::OpeningRow;
use lot_rows::plain::PlainRow;
use lot_rows::price::PriceRow;
use lot_rows::sale::SaleRow;

/// States for a caller that each row that is written is one that a book can have. It does nothing.
pub fn are_good(writes: &[Write])
    ensures { All IsGood writes.now }
{
    for write in writes {
        is_good(write);
    }
}

fn is_good(write: &Write)
    ensures { IsGood write.now }
{
    match write {
        Write::Account(row) => is_account_row(row),
        Write::Allowed(row) => is_allowed_row(row),
        Write::Commodity(row) => is_commodity_row(row),
        Write::Price(row) => is_price_row(row),
        Write::Entry(row) => is_entry_row(row),
        Write::Leg(row) => is_leg_row(row),
        Write::Sale(row) => is_sale_row(row),
        Write::Lot(row) | Write::SetLot(row) => is_lot_row(row),
        Write::NoLot(_, _, lot) => is_lot_key(lot),
        Write::Opening(row) => is_opening_row(row),
        Write::NoOpening(_, _, lot) => is_lot_key(lot),
        Write::Plain(row) | Write::SetPlain(row) => is_plain_row(row),
        Write::NoPlain(_, _) => {}
        Write::Head(row) | Write::SetHead(row) => is_head_row(row),
    }
}

fn is_account_row(row: &AccountRow)
    ensures { IsAccountRow row.now }
{
    let _ = row.name.as_str();
    let _ = row.opened.number();
    if let Some(closed) = row.closed {
        let _ = closed.number();
    }
}

fn is_allowed_row(row: &AllowedRow)
    ensures { IsAllowedRow row.now }
{
    let _ = row.account.as_str();
    let _place = row.place;
    let _ = row.commodity.as_str();
}

fn is_commodity_row(row: &CommodityRow)
    ensures { IsCommodityRow row.now }
{
    let _ = row.name.as_str();
    let _ = row.day.number();
}

fn is_price_row(row: &PriceRow)
    ensures { IsPriceRow row.now }
{
    let _ = row.base.as_str();
    let _ = row.quote.as_str();
    let _ = row.day.number();
    let _ = row.rate.mantissa();
}

fn is_entry_row(row: &EntryRow)
    ensures { IsEntryRow row.now }
{
    let _ = row.number.number();
    let _ = row.source.as_str();
    let _ = row.name.as_str();
    let _ = row.body.as_str();
}

fn is_leg_row(row: &LegRow)
    ensures { IsLegRow row.now }
{
    let _ = row.entry.number();
    let _ = row.posting.number();
    let _place = row.place;
    let _ = row.account.as_str();
    let _ = row.commodity.as_str();
    let _ = row.units.mantissa();
    if let Some(lot) = &row.lot {
        is_lot_key(lot);
    }
}

fn is_sale_row(row: &SaleRow)
    ensures { IsSaleRow row.now }
{
    let _ = row.entry.number();
    let _ = row.posting.number();
    let _ = row.day.number();
    let _ = row.account.as_str();
    let _ = row.commodity.as_str();
    let _ = row.units.units();
    is_price(&row.price);
}

fn is_lot_row(row: &LotRow)
    ensures { IsLotRow row.now }
{
    let _ = row.account.as_str();
    let _ = row.commodity.as_str();
    is_lot_key(&row.lot);
    let _ = row.units.units();
}

fn is_opening_row(row: &OpeningRow)
    ensures { IsOpeningRow row.now }
{
    let _ = row.account.as_str();
    let _ = row.commodity.as_str();
    is_lot_key(&row.lot);
    let _ = row.opening.number();
}

fn is_plain_row(row: &PlainRow)
    ensures { IsPlainRow row.now }
{
    let _ = row.account.as_str();
    let _ = row.commodity.as_str();
    let _ = row.units.units();
}

fn is_head_row(row: &HeadRow)
    ensures { IsHeadRow row.now }
{
    let _ = row.account.as_str();
    let _ = row.commodity.as_str();
    let _ = row.day.number();
}

fn is_lot_key(lot: &LotKey)
    ensures { IsLotKey lot.now }
{
    let _ = lot.day.number();
    let _ = lot.currency.as_str();
    let _ = lot.number.mantissa();
    if let Some(label) = &lot.label {
        let _ = label.as_str();
    }
}

fn is_price(price: &Option<Price>)
    ensures { IsPriceOrNone price.now }
{
    match price {
        Some(Price::Each(price)) => {
            let _ = price.rate.mantissa();
            let _ = price.currency.as_str();
        }
        Some(Price::Whole(price)) => {
            let _ = price.total().mantissa();
            let _ = price.currency().as_str();
        }
        None => {}
    }
}
