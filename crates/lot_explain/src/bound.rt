//! The bound of crumbs that one wants, and by how much one is beyond a bound.

ghost use Rattle.std.specs.Prelude.{◌≡◌, ℤ, IfSome, IsNone};
ghost use Rattle.lot_rounding.specs.Rounding.{IsBound, IsWithin};
ghost use Rattle.lot_explain.specs.Crumbs.{IsLeastBound, excess};

use lot_num::{Units, Wide};
use lot_rounding::Bound;

/// One, at the scale of units.
const ONE: u128 = 100_000_000;

/// Returns the least bound that a crumb is within, or `None` where it is above the greatest.
pub(crate) fn least_bound(crumb: Wide) -> Option<Bound>
    ensures some { IfSome result (IsLeastBound crumb) }
    ensures none { IsNone result → (bound : ℤ) → IsBound bound → IsWithin bound crumb → ⊥ }
{
    let units = crumb.mantissa().unsigned_abs().div_ceil(ONE);
    Bound::new(Units::from_mantissa(i64::try_from(units).ok()?)?)
}

/// Returns by how much a crumb is more than a bound that it is beyond, sign aside, at scale 16.
pub(crate) fn excess(bound: Bound, crumb: Wide) -> Wide
    requires { IsWithin bound crumb → ⊥ }
    ensures { result ≡ excess bound crumb }
{
    let size = if crumb < Wide::ZERO {
        crumb.negated()
    } else {
        crumb
    };
    match size.checked_add(bound.units().wide().negated()) {
        Some(excess) => excess,
        None => unreachable!(),
    }
}
