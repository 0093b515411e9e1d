//! The lots once they are split.
ghost use Rattle.std.specs.Prelude.{◌≡◌, ◌≤◌, ◌*◌, ◌⊎◌, ℕ, ℤ, pos, ◌*ℤ◌, not, position, None, IfOk, IfErr, IfSome, SomeIff, unsigned_abs, ◌<◌, ◌^◌};
ghost use Rattle.std.specs.List.{AllZip};
ghost use Rattle.lot_num.specs.Amount.{IsUnits, one};
ghost use Rattle.lot_rounding.specs.Nearest.{IsNearestRate};
ghost use Rattle.lot_split.specs.Lots.{Becomes, OneBecomesNone, divides};
ghost use Rattle.lot_rounding.specs.Ratio.{IsProper, most_in_ratio};
ghost use Rattle.lot_split.specs.declared.fault.SplitFault.TheVariants.{Memory, OutOfRange};
ghost use Rattle.lot_split.specs.declared.lot.HeldLot.{HeldLot};

use crate::fault::SplitFault;
use crate::lot::{HeldLot, label_of};
use lot_command::Items;
use lot_cost::LotKey;
use lot_num::{Rate, Units};
use lot_rounding::{Ratio, nearest_rate};
use std::alloc::{AllocError, Global};

/// Returns the place of the first lot whose units can't be divided in a ratio, if there is one.
pub(crate) fn undivided(lots: &[HeldLot], ratio: Ratio) -> Option<usize>
    requires { IsProper ratio }
    ensures { result ≡ position (λ l. not (divides ratio l.units)) lots.now }
{
    lots.iter().position(|lot| !divides(lot.units, ratio))
}

/// Returns whether units can be divided in a ratio, at eight decimals.
fn divides(units: Units, ratio: Ratio) -> bool
    requires { IsProper ratio }
    ensures { result ≡ divides ratio units }
{
    let product = u128::from(units.mantissa().unsigned_abs()) * u128::from(ratio.new);
    product % u128::from(ratio.old) == 0
}

/// Returns what each lot becomes in a ratio. The error is `OutOfRange` where one becomes none, or out of memory.
pub(crate) fn divided(
    alloc: Global,
    lots: &[HeldLot],
    ratio: Ratio,
) -> Result<Items<HeldLot>, SplitFault>
    requires { IsProper ratio }
    ensures ok { IfOk result (λ split. AllZip (Becomes ratio) lots.now split) }
    ensures fault { IfErr result (λ fault. (fault ≡ Memory)
        ⊎ ((fault ≡ OutOfRange) × OneBecomesNone ratio lots.now)) }
{
    let mut split = Items::new(alloc);
    for lot in lots {
        let Some(divided) = divided_lot(lot, ratio)? else {
            return Err(SplitFault::OutOfRange);
        };
        split.push(divided)?;
    }
    Ok(split)
}

/// Returns what a lot becomes in a ratio, or `None` where it becomes none. The only error is out of memory.
fn divided_lot(lot: &HeldLot, ratio: Ratio) -> Result<Option<HeldLot>, AllocError>
    requires { IsProper ratio }
    ensures some { IfOk result (λ found. IfSome found (Becomes ratio lot.now)) }
    ensures none { IfOk result (λ found. found ≡ None
        → (split : HeldLot) → Becomes ratio lot.now split → ⊥) }
{
    let Some(units) = divided_units(lot.units, ratio) else {
        return Ok(None);
    };
    let Some(number) = divided_number(lot.key.number, ratio) else {
        return Ok(None);
    };
    let key = LotKey {
        day: lot.key.day,
        currency: lot.key.currency.copy()?,
        number,
        label: label_of(&lot.key)?,
    };
    Ok(Some(HeldLot { key, units }))
}

/// Returns units once they are split in a ratio, or `None` where they can't be divided, or are out of range.
fn divided_units(units: Units, ratio: Ratio) -> Option<Units>
    requires { IsProper ratio }
    ensures some { IfSome result (λ split. split *ℤ pos ratio.old ≡ units *ℤ pos ratio.new) }
    ensures none { result ≡ None → (split : ℤ) → IsUnits split
        → split *ℤ pos ratio.old ≡ units *ℤ pos ratio.new → ⊥ }
{
    units_in(quotient(times(units, ratio.new), ratio.old)?)
}

/// Returns the mantissa of so many times the units.
fn times(units: Units, number: u64) -> i128
    requires { number ≤ most_in_ratio }
    ensures value { result ≡ units *ℤ pos number }
    ensures small { unsigned_abs result < 10 ^ 20 }
{
    i128::from(units.mantissa()) * i128::from(number)
}

/// Returns the units with that mantissa, or `None` where it is out of range.
pub(crate) fn units_in(mantissa: i128) -> Option<Units>
    ensures { SomeIff result (IsUnits mantissa) mantissa }
{
    Units::from_mantissa(i64::try_from(mantissa).ok()?)
}

/// Returns the quotient of two numbers, or `None` where it isn't whole.
fn quotient(dividend: i128, divisor: u64) -> Option<i128>
    requires some { 1 ≤ divisor }
    requires few { divisor ≤ most_in_ratio }
    requires small { unsigned_abs dividend < 10 ^ 20 }
    ensures some { IfSome result (λ whole. whole *ℤ pos divisor ≡ dividend) }
    ensures none { result ≡ None → (whole : ℤ) → whole *ℤ pos divisor ≡ dividend → ⊥ }
{
    let divisor = i128::from(divisor);
    if dividend % divisor == 0 {
        Some(dividend / divisor)
    } else {
        None
    }
}

/// Returns the number of a lot once it is split in a ratio, or `None` where it is out of range.
fn divided_number(number: Rate, ratio: Ratio) -> Option<Rate>
    requires { IsProper ratio }
    ensures some { IfSome result
        (IsNearestRate (pos (ratio.new * one)) (pos (number * ratio.old))) }
    ensures none { result ≡ None → (split : ℕ)
        → IsNearestRate (pos (ratio.new * one)) (pos (number * ratio.old)) split → ⊥ }
{
    let total = units_of(number.mantissa() * ratio.old);
    nearest_rate(units_of(ratio.new * 100_000_000), total)
}

/// Returns the units with that mantissa, which is in range.
fn units_of(mantissa: u64) -> Units
    requires { IsUnits (pos mantissa) }
    ensures { result ≡ pos mantissa }
{
    match Units::from_mantissa(mantissa as i64) {
        Some(units) => units,
        None => unreachable!(),
    }
}
