ghost use Rattle.std.specs.Prelude.{◌≡◌, true, map, Bool, IfOk, IsOk, IsErrOf, OnErr, ℕ, ℤ, ◌<◌, ◌≤◌, unsigned_abs};
ghost use Rattle.std.specs.List.{AllByRecursion};
ghost use Rattle.std.specs.Ordering.{is_lt};
ghost use Rattle.lot_cost.specs.declared.lot_key.LotKey.{LotKey};
ghost use Rattle.lot_inv.specs.Inventory.{held_in, other_sign};
ghost use Rattle.lot_inv.specs.Lot.{AreNumberedBy, key_and_units};
ghost use Rattle.lot_booking.specs.Choice.{HasNoChoice, HaveDistinctKeys, InTurn, Takes, with_sign_of};
ghost use Rattle.lot_booking.specs.OpeningOrder.{by_numbers};
ghost use Rattle.lot_booking.specs.Way.{walked};
ghost use Rattle.lot_booking.specs.declared.fault.TakeFault.TheVariants.{Memory, NotEnough};

use crate::fault::TakeFault;
use crate::order::LotOrder;
use lot_cost::LotKey;
use lot_inv::{LentLot, Lot};
use lot_num::Units;
use std::alloc::{AllocError, Global};
use std::cmp::Ordering;

/// Returns the legs that units take of lots in an order. Each lot is taken whole before the next one, until the units are used
/// up. The legs have the sign of the units, and stand in the order.
///
/// The lots have distinct keys, and each has the other sign than the units. The error is `NotEnough` only where the lots hold
/// less than the units: then no order has a choice, and no memory is needed. The error is `Memory` only where they hold enough,
/// the units aren't zero, and there is no memory for the legs.
pub fn take<O: LotOrder>(
    alloc: Global,
    lots: Vec<Lot>,
    units: Units,
) -> Result<Vec<(LotKey, Units)>, TakeFault>
    requires distinct { HaveDistinctKeys (map key_and_units lots.items) }
    requires signs { AllByRecursion (λ (lot : LotKey × ℤ). other_sign lot.1 units ≡ true)
        (map key_and_units lots.items) }
    ensures taken { IfOk result (λ legs. (opening : LotKey → ℕ) → AreNumberedBy opening lots.items
        → Takes (InTurn (by_numbers O.before opening)) (by_numbers O.before opening)
        (map key_and_units lots.items) units legs.items) }
    ensures enough { IsOk result → unsigned_abs units ≤ held_in (map key_and_units lots.items) }
    ensures less { IsErrOf result NotEnough
        → held_in (map key_and_units lots.items) < unsigned_abs units }
    ensures not_enough { IsErrOf result NotEnough → (before : LotKey → LotKey → Bool)
        → HasNoChoice (InTurn before) (map key_and_units lots.items) (unsigned_abs units) }
    ensures memory { IsErrOf result Memory
        → (0 < unsigned_abs units) × (unsigned_abs units ≤ held_in (map key_and_units lots.items)) }
{
    if held_in(&lots) < u128::from(units.mantissa().unsigned_abs()) {
        return Err(TakeFault::NotEnough);
    }
    Ok(take_sorted::<O>(alloc, lots, units)?)
}

/// The same of lots that hold enough, which are sorted. The only error is out of memory.
fn take_sorted<O: LotOrder>(
    alloc: Global,
    lots: Vec<Lot>,
    units: Units,
) -> Result<Vec<(LotKey, Units)>, AllocError>
    requires distinct { HaveDistinctKeys (map key_and_units lots.items) }
    requires enough { unsigned_abs units ≤ held_in (map key_and_units lots.items) }
    ensures taken { IfOk result (λ legs. (opening : LotKey → ℕ) → AreNumberedBy opening lots.items
        → Takes (InTurn (by_numbers O.before opening)) (by_numbers O.before opening)
        (map key_and_units lots.items) units legs.items) }
    ensures memory { OnErr result (0 < unsigned_abs units) }
{
    let mut lots = lots;
    lots.sort_unstable_by(|a, b| compare::<O>(&a.lend(), &b.lend()));
    in_turn(alloc, lots, units)
}

/// Returns what the lots hold, sign aside.
pub(crate) fn held_in(lots: &[Lot]) -> u128
    ensures { result ≡ held_in (map key_and_units lots.now) }
{
    let mut held = 0;
    for lot in lots {
        held += u128::from(lot.units.mantissa().unsigned_abs());
    }
    held
}

/// Returns how an order compares two lots.
pub(crate) fn compare<O: LotOrder>(a: &LentLot<'_>, b: &LentLot<'_>) -> Ordering
    ensures { is_lt result ≡ O.before (a.now.key, a.now.opening) (b.now.key, b.now.opening) }
{
    if O::before(a, b) {
        Ordering::Less
    } else if O::before(b, a) {
        Ordering::Greater
    } else {
        Ordering::Equal
    }
}

/// Returns the legs that take lots as they stand in the list, each whole before the next one, until the units are used up.
pub(crate) fn in_turn(
    alloc: Global,
    lots: Vec<Lot>,
    units: Units,
) -> Result<Vec<(LotKey, Units)>, AllocError>
    ensures legs { IfOk result (λ legs. legs.items
        ≡ walked units (unsigned_abs units) (map key_and_units lots.items)) }
    ensures memory { OnErr result (0 < unsigned_abs units) }
{
    let mut legs = Vec::new(alloc);
    let mut left = units.mantissa().unsigned_abs();
    for lot in lots {
        let part = left.min(lot.units.mantissa().unsigned_abs());
        if part == 0 {
            continue;
        }
        legs.push((lot.key, with_sign_of(units, part)))?;
        left -= part;
    }
    Ok(legs)
}

/// Returns a part of units, with their sign.
fn with_sign_of(units: Units, part: u64) -> Units
    requires { part ≤ unsigned_abs units }
    ensures { result ≡ with_sign_of units part }
{
    let amount = part as i64;
    let mantissa = if units.mantissa() < 0 {
        -amount
    } else {
        amount
    };
    match Units::from_mantissa(mantissa) {
        Some(units) => units,
        None => unreachable!(),
    }
}
