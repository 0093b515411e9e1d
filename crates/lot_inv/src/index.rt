ghost use Rattle.std.specs.Prelude.{◌≡◌, IfSome, List, None, cond};
ghost use Rattle.std.specs.BTreeMap.{get};
ghost use Rattle.lot_cost.specs.declared.lot_key.LotKey.{LotKey};
ghost use Rattle.lot_inv.specs.declared.lots.OpenLot.{OpenLot};
ghost use Rattle.lot_inv.specs.Index.{IsIndex, IsSet, Place, is_own, place_cmp, with_own};
ghost use Rattle.lot_inv.specs.Holding.{kept};

use crate::foremost::Foremost;
use crate::lots::OpenLot;
use lot_cost::LotKey;
use std::alloc::Global;
use std::collections::BTreeMap;

/// The lots of one commodity in the order in which they are lent, each under its rank and its key.
pub(crate) type Index = BTreeMap<((i64, u64), LotKey), OpenLot>;

/// Returns the index of lots of which one was set, from that of the lots before. Where there was none it is made anew, if there is
/// an allocator for it. It is `None` where memory lacks for it.
pub(crate) fn renewed(
    index: Option<Index>,
    alloc: Option<Global>,
    foremost: Foremost,
    lots: &BTreeMap<LotKey, OpenLot>,
    key: &LotKey,
    before: &Option<OpenLot>,
    lot: &OpenLot,
) -> Option<Index>
    ensures { (old : List (LotKey × OpenLot))
        → IfSome index (λ index. IsIndex foremost index.entries old)
        → IsSet key.now before.now (kept lot.now.units lot.now.opening) old lots.now.entries
        → IfSome result (λ new. IsIndex foremost new.entries lots.now.entries) }
{
    match index {
        Some(index) => with_lot(
            without(index, foremost, key, before, lot)?,
            foremost,
            key,
            lot,
        ),
        None => indexed(alloc?, foremost, lots),
    }
}

/// Returns an index without what was kept under a key. That stays where the lot takes the same place, and is replaced there. It is
/// `None` where memory lacks for a copy of the key.
fn without(
    mut index: Index,
    foremost: Foremost,
    key: &LotKey,
    before: &Option<OpenLot>,
    lot: &OpenLot,
) -> Option<Index>
    ensures { IfSome result (λ new. (at : Place)
        → with_own foremost key.now (kept lot.now.units lot.now.opening) at (get place_cmp new at)
        ≡ with_own foremost key.now (kept lot.now.units lot.now.opening) at
        (cond (is_own foremost key.now before.now at) None (get place_cmp index at))) }
{
    let Some(held) = before else {
        return Some(index);
    };
    if held.opening == lot.opening && lot.units.mantissa() != 0 {
        return Some(index);
    }
    let at = (foremost.rank(key, held.opening), key.copy().ok()?);
    index.remove(&at);
    Some(index)
}

/// Returns an index with a lot under a key, unless it has zero units. It is `None` where memory lacks for it.
fn with_lot(mut index: Index, foremost: Foremost, key: &LotKey, lot: &OpenLot) -> Option<Index>
    ensures { IfSome result (λ new. (at : Place) → get place_cmp new at
        ≡ with_own foremost key.now (kept lot.now.units lot.now.opening) at
        (get place_cmp index at)) }
{
    if lot.units.mantissa() == 0 {
        return Some(index);
    }
    let at = (foremost.rank(key, lot.opening), key.copy().ok()?);
    index.insert(at, *lot).ok()?;
    Some(index)
}

/// Returns the index of lots, or `None` where memory lacks for it.
fn indexed(alloc: Global, foremost: Foremost, lots: &BTreeMap<LotKey, OpenLot>) -> Option<Index>
    ensures { IfSome result (λ index. IsIndex foremost index.entries lots.now.entries) }
{
    let mut index = BTreeMap::new(alloc);
    for (key, lot) in lots {
        let at = (foremost.rank(key, lot.opening), key.copy().ok()?);
        index.insert(at, *lot).ok()?;
    }
    Some(index)
}
