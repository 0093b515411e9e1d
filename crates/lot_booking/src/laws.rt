//! What holds of the definitions that the contracts of this crate cite, and of the orders. Each law is a function that does
//! nothing, or that returns what the law is about.
ghost use Rattle.std.specs.Prelude.{◌≡◌, Bool, true, ℕ, ℤ, List};
ghost use Rattle.std.specs.List.{AllByRecursion};
ghost use Rattle.lot_cost.specs.declared.lot_key.LotKey.{LotKey};
ghost use Rattle.lot_booking.specs.Booking.{ComesTo, Braced, Legs, Outcome, TakesFrom, candidates, units_in};
ghost use Rattle.lot_booking.specs.Choice.{Choice, HaveDistinctKeys, InTurn, IsChoice, OneOrWhole};
ghost use Rattle.lot_booking.specs.OpeningOrder.{oldest_opened_first, newest_opened_first, highest_opened_first};
ghost use Rattle.lot_booking.specs.Order.{IsOrder, oldest_first, newest_first, highest_first};

use crate::{Highest, HighestOpened, LotOrder, Newest, NewestOpened, Oldest, OldestOpened};
use lot_inv::Lot;
use lot_inv::laws::matching_lots_are_distinct;

/// Among lots there is at most one choice of an amount: under STRICT, and in each order.
pub fn there_is_at_most_one_choice()
    ensures strict { (lots : List (LotKey × ℤ)) (amount : ℕ) (one other : Choice)
        → IsChoice OneOrWhole lots amount one → IsChoice OneOrWhole lots amount other
        → AllByRecursion (λ (lot : LotKey × ℤ). one lot.0 ≡ other lot.0) lots }
    ensures in_turn { (before : LotKey → LotKey → Bool) (lots : List (LotKey × ℤ)) (amount : ℕ)
        (one other : Choice)
        → IsOrder before
        → IsChoice (InTurn before) lots amount one → IsChoice (InTurn before) lots amount other
        → AllByRecursion (λ (lot : LotKey × ℤ). one lot.0 ≡ other lot.0) lots }
{}

/// Returns whether one lot is before another in each of the six orders: those of edition 1, then those of edition 2. In each
/// triple the oldest lot, the newest lot, or the lot of the highest cost is first.
pub fn orders_are_those_of_their_names(a: &Lot, b: &Lot) -> ((bool, bool, bool), (bool, bool, bool))
    ensures by_key { result.0 ≡ (
      oldest_first a.now.key b.now.key,
      newest_first a.now.key b.now.key,
      highest_first a.now.key b.now.key,
    ) }
    ensures by_opening { result.1 ≡ (
      oldest_opened_first (a.now.key, a.now.opening) (b.now.key, b.now.opening),
      newest_opened_first (a.now.key, a.now.opening) (b.now.key, b.now.opening),
      highest_opened_first (a.now.key, a.now.opening) (b.now.key, b.now.opening),
    ) }
{
    let (a, b) = (&a.lend(), &b.lend());
    (
        (
            Oldest::before(a, b),
            Newest::before(a, b),
            Highest::before(a, b),
        ),
        (
            OldestOpened::before(a, b),
            NewestOpened::before(a, b),
            HighestOpened::before(a, b),
        ),
    )
}

/// A posting with braces comes to exactly one outcome: one list of legs, or one refusal.
pub fn a_posting_has_one_outcome()
    ensures some { (posting : Braced) → (outcome : Outcome) × ComesTo posting outcome }
    ensures one { (posting : Braced) (one other : Outcome) → ComesTo posting one
        → ComesTo posting other → one ≡ other }
{
    matching_lots_are_distinct();
}

/// The legs of a posting add up to its units.
pub fn legs_add_up_to_the_posting()
    ensures { (posting : Braced) (reduces : Bool) (legs : List (LotKey × ℤ))
        → ComesTo posting (Legs reduces legs) → units_in legs ≡ posting.units }
{}

/// A reduction never crosses zero. Each leg takes from a lot of the other sign that fits, and no more than it holds. No two
/// legs take from one lot.
pub fn a_reduction_never_crosses_zero()
    ensures takes_from { (posting : Braced) (legs : List (LotKey × ℤ))
        → ComesTo posting (Legs true legs) → AllByRecursion (TakesFrom (candidates posting)) legs }
    ensures distinct { (posting : Braced) (legs : List (LotKey × ℤ))
        → ComesTo posting (Legs true legs) → HaveDistinctKeys legs }
{
    matching_lots_are_distinct();
}
