//! The nearest whole number to a quotient, and the amounts that are rounded by it.
ghost use Rattle.std.specs.Prelude.{◌≡◌, ◌≤◌, ◌<◌, ◌^◌, ◌-◌, ◌*◌, ◌%◌, ◌+◌, ℕ, ℤ, pos, Some, IfSome, SomeIff, unsigned_abs, ◌≤ℤ◌, ◌*ℤ◌};
ghost use Rattle.lot_num.specs.Amount.{IsRate, IsWide, greatest_wide};
ghost use Rattle.lot_rounding.specs.Nearest.{IsNearest, IsNearestRate, IsRounded, most_decimals, step};

use lot_num::{Rate, Units, Wide};
use std::marker::Model;

/// How many decimals an amount is rounded to, 0 to 8. A contract sees the number.
#[derive(Clone, Copy, Debug, PartialEq, Eq)]
pub struct Decimals {
    count: u32,
}

impl Model for Decimals {
    ghost use Rattle.std.specs.Prelude.{ℕ, ◌≤◌};
    ghost use Rattle.lot_rounding.specs.Nearest.{most_decimals};

    ghost Value = { ℕ };

    ghost view = { λ d. d.count };

    ghost invariant = { λ d. d.count ≤ most_decimals };

    ghost inverse = { λ n. record { count = n } };
}

impl Decimals {
    /// Returns as many as units have.
    pub fn of_units() -> Decimals
        ensures { result ≡ most_decimals }
    {
        Decimals { count: 8 }
    }

    /// Returns so many decimals, or `None` where they are more than 8.
    pub fn new(count: u32) -> Option<Decimals>
        ensures { SomeIff result (count ≤ most_decimals) count }
    {
        if count <= 8 {
            Some(Decimals { count })
        } else {
            None
        }
    }

    /// Returns the step from one amount with so many decimals to the next, at scale 16.
    fn step(self) -> u64
        ensures value { result ≡ step self }
        ensures some { 0 < result }
        ensures few { result ≤ 10 ^ 16 }
    {
        10u64.pow(16 - self.count)
    }
}

/// Returns the nearest amount with so many decimals, at scale 16. Of two that are equally near, it is
/// the one whose last decimal is even.
pub fn rounded(amount: Wide, decimals: Decimals) -> Wide
    ensures { IsRounded decimals amount result }
{
    let step = decimals.step();
    in_steps(nearest(amount.mantissa(), step), step)
}

/// Returns the amount of so many steps, at scale 16.
fn in_steps(steps: i128, step: u64) -> Wide
    requires { IsWide (steps *ℤ pos step) }
    ensures { result ≡ steps *ℤ pos step }
{
    match Wide::from_mantissa(steps * i128::from(step)) {
        Some(amount) => amount,
        None => unreachable!(),
    }
}

/// Returns the nearest rate at which units, sign aside, come to a total that isn't below zero. Of two
/// that are equally near, it is the one whose last decimal is even. It is `None` where the units are
/// zero, or where that is too large for a rate.
pub fn nearest_rate(units: Units, total: Units) -> Option<Rate>
    requires { pos 0 ≤ℤ total }
    ensures some { IfSome result (IsNearestRate units total) }
    ensures every { (rate : ℕ) → IsNearestRate units total rate → result ≡ Some rate }
{
    let divisor = units.mantissa().unsigned_abs();
    if divisor == 0 {
        return None;
    }
    let total = total.wide().mantissa().unsigned_abs();
    rate_of(nearest_magnitude(total, u128::from(divisor)))
}

/// Returns the rate with that mantissa, at scale 8, where there is one.
fn rate_of(mantissa: u128) -> Option<Rate>
    ensures { SomeIff result (IsRate mantissa) mantissa }
{
    Rate::from_mantissa(u64::try_from(mantissa).ok()?)
}

/// Returns the nearest whole number to a quotient, of two that are equally near the even one.
fn nearest(dividend: i128, divisor: u64) -> i128
    requires some { 0 < divisor }
    requires in_range { IsWide dividend }
    ensures { IsNearest dividend divisor result }
{
    let quotient = nearest_magnitude(dividend.unsigned_abs(), u128::from(divisor)) as i128;
    if dividend < 0 { -quotient } else { quotient }
}

/// Returns the same of numbers that aren't below zero.
fn nearest_magnitude(dividend: u128, divisor: u128) -> u128
    requires some { 0 < divisor }
    requires few { divisor < 2 ^ 64 }
    requires in_range { dividend ≤ greatest_wide }
    ensures nearest { IsNearest (pos dividend) divisor (pos result) }
    ensures bound { result ≤ dividend }
{
    let (quotient, rest) = (dividend / divisor, dividend % divisor);
    let is_up = 2 * rest > divisor || (2 * rest == divisor && quotient % 2 == 1);
    quotient + u128::from(is_up)
}
