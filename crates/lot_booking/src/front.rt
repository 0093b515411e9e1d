ghost use Rattle.std.specs.Prelude.{◌≡◌, ◌∷◌, ◌++◌, ◌<◌, ◌≤◌, ℕ, List, false, length, map, unsigned_abs, IfOk, IsPermutation, OnOk};
ghost use Rattle.std.specs.List.{AllByRecursion, IsFirstBest};
ghost use Rattle.lot_inv.specs.declared.lot.Lot.{Lot};
ghost use Rattle.lot_inv.specs.Inventory.{held_in};
ghost use Rattle.lot_inv.specs.Lot.{AreNumberedBy, key_and_units};
ghost use Rattle.lot_cost.specs.declared.lot_key.LotKey.{LotKey};
ghost use Rattle.lot_booking.specs.Choice.{HaveDistinctKeys, InTurn, Takes};
ghost use Rattle.lot_booking.specs.Front.{ComeFirstOf, IsFrontOf, Lead, is_earlier};
ghost use Rattle.lot_booking.specs.OpeningOrder.{by_numbers};

use crate::choice::{compare, held_in, in_turn};
use crate::order::LotOrder;
use lot_cost::LotKey;
use lot_inv::{LentLot, Lot};
use lot_num::Units;
use std::alloc::{AllocError, Global};

/// How many lots are looked for one by one, each among all that are left, before the others are sorted.
const FEW: usize = 8;

/// Returns the legs that units take of lots that hold enough, in an order: each lot whole before the next one, until the units
/// are used up. They are those of any lots with distinct keys of which these come first. The only error is out of memory.
pub(crate) fn take_enough<O: LotOrder>(
    alloc: Global,
    lots: Vec<LentLot<'_>>,
    units: Units,
) -> Result<Vec<(LotKey, Units)>, AllocError>
    requires { unsigned_abs units ≤ held_in (map key_and_units lots.items) }
    ensures { IfOk result (λ legs. (opening : LotKey → ℕ) (all : List Lot)
        → HaveDistinctKeys (map key_and_units all) → AreNumberedBy opening all
        → ComeFirstOf (is_earlier O.before) all lots.entry.items
        → Takes (InTurn (by_numbers O.before opening)) (by_numbers O.before opening)
        (map key_and_units all) units legs.items) }
{
    let front = front::<O>(alloc, lots, units.mantissa().unsigned_abs())?;
    in_turn(alloc, front, units)
}

/// Returns the lots that come first in an order, in that order, as many as hold an amount together. Where a few do, the others
/// are neither sorted nor copied. The only error is out of memory.
fn front<O: LotOrder>(
    alloc: Global,
    lots: Vec<LentLot<'_>>,
    wanted: u64,
) -> Result<Vec<Lot>, AllocError>
    requires { wanted ≤ held_in (map key_and_units lots.items) }
    ensures front { IfOk result (λ front.
        IsFrontOf (is_earlier O.before) lots.entry.items front.items) }
    ensures enough { IfOk result (λ front. wanted ≤ held_in (map key_and_units front.items)) }
{
    let mut rest = lots;
    let mut front = few_first::<O>(alloc, &mut rest, wanted)?;
    if held_in(&front) < u128::from(wanted) {
        rest.sort_unstable_by(|a, b| compare::<O>(a, b));
        add_copies(&mut front, &rest)?;
    }
    Ok(front)
}

/// Takes those that come first in an order out of lots, one after another, until they hold an amount together, there are a
/// few, or none is left. The only error is out of memory.
fn few_first<O: LotOrder>(
    alloc: Global,
    lots: &mut Vec<LentLot<'_>>,
    wanted: u64,
) -> Result<Vec<Lot>, AllocError>
    ensures same { IfOk result (λ front.
        IsPermutation lots.old.items (front.items ++ lots.new.items)) }
    ensures lead { IfOk result (λ front. Lead (is_earlier O.before) front.items lots.new.items) }
{
    let mut front = Vec::new(alloc);
    let mut left = wanted;
    for _ in 0..FEW {
        if 0 < left && !lots.is_empty() {
            let lot = remove_first::<O>(lots);
            left -= left.min(lot.units.mantissa().unsigned_abs());
            front.push(lot.copy()?)?;
        }
    }
    Ok(front)
}

/// Adds copies of lots behind others. The only error is out of memory.
fn add_copies(lots: &mut Vec<Lot>, others: &[LentLot<'_>]) -> Result<(), AllocError>
    ensures { OnOk result (lots.new.items ≡ lots.old.items ++ others.now) }
{
    for other in others {
        lots.push(other.copy()?)?;
    }
    Ok(())
}

/// Takes the lot out of lots that comes first in an order.
fn remove_first<'a, O: LotOrder>(lots: &mut Vec<LentLot<'a>>) -> LentLot<'a>
    requires { 0 < length lots.old.items }
    ensures same { IsPermutation lots.old.items (result ∷ lots.new.items) }
    ensures first { AllByRecursion
        (λ (lot : Lot). is_earlier O.before lot result ≡ false) lots.new.items }
{
    let place = place_of_first::<O>(lots);
    lots.swap_remove(place)
}

/// Returns where in a list the lot stands that comes first in an order.
fn place_of_first<O: LotOrder>(lots: &[LentLot<'_>]) -> usize
    requires { 0 < length lots.now }
    ensures { IsFirstBest (is_earlier O.before) lots.now (length lots.now) result }
{
    let mut first = 0;
    for place in 1..lots.len() {
        if O::before(&lots[place], &lots[first]) {
            first = place;
        }
    }
    first
}
