//! Laws of the definitions, each the contract of a function that does nothing.
ghost use Rattle.std.specs.Prelude.{◌≡◌, ◌<◌, ℕ, ℤ};
ghost use Rattle.lot_rounding.specs.Nearest.{IsNearest, IsNearestRate, IsRounded};

/// No other whole number is the nearest to a quotient, so no other amount is rounded, and no other
/// rate is the nearest.
pub fn there_is_one_nearest()
    ensures nearest { (dividend : ℤ) (divisor : ℕ) (one other : ℤ) → 0 < divisor
        → IsNearest dividend divisor one → IsNearest dividend divisor other → one ≡ other }
    ensures rounded { (decimals : ℕ) (amount one other : ℤ)
        → IsRounded decimals amount one → IsRounded decimals amount other → one ≡ other }
    ensures rate { (units total : ℤ) (one other : ℕ)
        → IsNearestRate units total one → IsNearestRate units total other → one ≡ other }
{}
