//! How a broker gives a split, and its ratio in lowest terms.
ghost use Rattle.std.specs.Prelude.{◌≡◌, ◌≤◌, ℕ, pos, ◌*ℤ◌, IfSome, None, unsigned_abs, ◌^◌, ◌<◌};
ghost use Rattle.lot_rounding.specs.Ratio.{AreInRatio, IsLowest, amounts_of, most_in_ratio};
ghost use Rattle.lot_rounding.specs.declared.ratio.Ratio.{Ratio};

use lot_num::Units;

/// The most that a number of a ratio in lowest terms may be (`most_in_ratio` of the definitions).
const MOST_IN_RATIO: u64 = 100;

/// How a broker gives a split.
#[derive(Clone, Copy, Debug, PartialEq, Eq)]
pub enum Change {
    /// By its ratio, as `4:1`.
    InRatio(Ratio),
    /// By the units that were added, which are below zero where several units become one.
    ByUnits(Units),
}

/// How many new units stand for how many old ones: of `4:1` four for one.
#[derive(Clone, Copy, Debug, PartialEq, Eq)]
pub struct Ratio {
    pub new: u64,
    pub old: u64,
}

/// Returns the ratio in lowest terms in which units are split, of which so many are held, or `None` where it isn't above zero, or
/// has a number above 100.
pub fn lowest_ratio(change: Change, held: Units) -> Option<Ratio>
    ensures some { IfSome result (IsLowest (amounts_of change held)) }
    ensures none { result ≡ None → (ratio : Ratio) → AreInRatio (amounts_of change held) ratio → ⊥ }
{
    match change {
        Change::InRatio(ratio) => lowest(i128::from(ratio.new), i128::from(ratio.old)),
        Change::ByUnits(added) => {
            let held = i128::from(held.mantissa());
            lowest(held + i128::from(added.mantissa()), held)
        }
    }
}

/// Returns the ratio of two amounts in lowest terms.
fn lowest(new: i128, old: i128) -> Option<Ratio>
    requires new_in_range { unsigned_abs new < 2 ^ 64 }
    requires old_in_range { unsigned_abs old < 2 ^ 64 }
    ensures some { IfSome result (IsLowest (new, old)) }
    ensures none { result ≡ None → (ratio : Ratio) → AreInRatio (new, old) ratio → ⊥ }
{
    if old == 0 {
        return None;
    }
    for part in 1..MOST_IN_RATIO + 1 {
        if let Some(ratio) = with_old(new, old, part) {
            return Some(ratio);
        }
    }
    None
}

/// Returns the ratio of two amounts whose old number is that.
fn with_old(new: i128, old: i128, part: u64) -> Option<Ratio>
    requires new_in_range { unsigned_abs new < 2 ^ 64 }
    requires old_in_range { unsigned_abs old < 2 ^ 64 }
    requires few { part ≤ most_in_ratio }
    ensures part { IfSome result (λ ratio. ratio.old ≡ part) }
    ensures range { IfSome result (λ ratio. (1 ≤ ratio.new) × (ratio.new ≤ most_in_ratio)) }
    ensures same { IfSome result (λ ratio. new *ℤ pos part ≡ old *ℤ pos ratio.new) }
    ensures none { result ≡ None → (n : ℕ) → 1 ≤ n → n ≤ most_in_ratio
        → new *ℤ pos part ≡ old *ℤ pos n → ⊥ }
{
    let product = new * i128::from(part);
    for candidate in 1..MOST_IN_RATIO + 1 {
        if product == old * i128::from(candidate) {
            return Some(Ratio {
                new: candidate,
                old: part,
            });
        }
    }
    None
}
