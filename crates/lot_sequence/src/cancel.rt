//! Cancelled purchases.
ghost use Rattle.std.specs.Prelude.{◌≡◌, length, IfOk, OnOk};
ghost use Rattle.lot_sequence.specs.Cancel.{IsMatching, bought};
ghost use Rattle.lot_sequence.specs.Left.{KeepsOthers, Moves, MovesAs, bought_of, left_at};

use lot_num::{Rate, Units};
use std::alloc::{AllocError, Global};
use std::collections::BTreeMap;

/// What a row does with a purchase.
#[derive(Clone, Copy)]
pub enum Side {
    /// It is one.
    Buys,
    /// It takes one back.
    Cancels,
    /// It does nothing with one.
    Neither,
}

/// What a row does with a purchase, and what is compared of it: of a row that does nothing with one nothing.
#[derive(Clone, Copy)]
pub struct Trade<'a> {
    pub side: Side,
    pub symbol: &'a str,
    pub units: Units,
    pub price: Option<Rate>,
    pub amount: Units,
    pub currency: &'a str,
}

/// What a purchase and what takes it back have in common, as the purchase says it.
#[derive(Clone, Copy, PartialEq, Eq, PartialOrd, Ord)]
struct Mark<'a> {
    symbol: &'a str,
    units: Units,
    price: Option<Rate>,
    amount: Units,
    currency: &'a str,
}

/// Returns which purchase each row takes back, by its place among these, which stand in the order of judging. A row that is no
/// cancellation takes none back.
///
/// A cancellation takes back the last purchase before it that has its symbol, price and currency and opposite units and amount,
/// of those that no earlier one takes back; none, where none is left. The only error is out of memory.
pub fn taken_back(alloc: Global, rows: &[Trade<'_>]) -> Result<Vec<Option<usize>>, AllocError>
    ensures { IfOk result (λ partners. IsMatching rows.now (length rows.now) partners.items) }
{
    let mut left = BTreeMap::new(alloc);
    let mut partners = Vec::with_capacity(alloc, rows.len())?;
    for (place, trade) in rows.iter().enumerate() {
        let partner = take_back(alloc, &mut left, place, trade)?;
        partners.push(partner)?;
    }
    Ok(partners)
}

/// Returns the place of the purchase that the row at a place takes back, if it takes one back. The places of the purchases before
/// it that are left are given, and kept.
fn take_back<'a>(
    alloc: Global,
    left: &mut BTreeMap<Mark<'a>, Vec<usize>>,
    place: usize,
    trade: &Trade<'a>,
) -> Result<Option<usize>, AllocError>
    ensures { IfOk result (Moves left.old left.new place trade.now) }
{
    let mut places = take_out(alloc, left, trade);
    let partner = pair(&mut places, trade.side, place)?;
    put_back(left, trade, places)?;
    Ok(partner)
}

/// Keeps the place of a purchase among those that are left, or takes out the last of them for a cancellation, and returns that.
fn pair(places: &mut Vec<usize>, side: Side, place: usize) -> Result<Option<usize>, AllocError>
    ensures { IfOk result (MovesAs side place places.old.items places.new.items) }
{
    match side {
        Side::Buys => {
            places.push(place)?;
            Ok(None)
        }
        Side::Cancels => Ok(places.pop()),
        Side::Neither => Ok(None),
    }
}

/// Takes out the places of the purchases that are left of what a row buys or takes back.
fn take_out<'a>(
    alloc: Global,
    left: &mut BTreeMap<Mark<'a>, Vec<usize>>,
    trade: &Trade<'a>,
) -> Vec<usize>
    ensures places { result.items ≡ left_at left.old (bought trade.now) }
    ensures others { KeepsOthers left.old left.new (bought trade.now) }
{
    match left.remove(&mark_of(trade)) {
        Some(places) => places,
        None => Vec::new(alloc),
    }
}

/// Puts in the places of the purchases that are left of what a row buys or takes back. The only error is out of memory.
fn put_back<'a>(
    left: &mut BTreeMap<Mark<'a>, Vec<usize>>,
    trade: &Trade<'a>,
    places: Vec<usize>,
) -> Result<(), AllocError>
    ensures places { OnOk result (left_at left.new (bought trade.now) ≡ places.items) }
    ensures others { OnOk result (KeepsOthers left.old left.new (bought trade.now)) }
{
    left.insert(mark_of(trade), places)?;
    Ok(())
}

/// Returns the mark of a purchase, or of those that a cancellation may take back.
fn mark_of<'a>(trade: &Trade<'a>) -> Mark<'a>
    ensures { bought_of result ≡ bought trade.now }
{
    let (units, amount) = match trade.side {
        Side::Buys | Side::Neither => (trade.units, trade.amount),
        Side::Cancels => (trade.units.negated(), trade.amount.negated()),
    };
    Mark {
        symbol: trade.symbol,
        units,
        price: trade.price,
        amount,
        currency: trade.currency,
    }
}
