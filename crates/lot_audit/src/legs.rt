ghost use Rattle.std.specs.List.{AllByRecursion};
ghost use Rattle.std.specs.Prelude.{◌≡◌, ◌+◌, ◌≤◌, ◌<◌, ◌↔◌, ◌∷◌, ℕ, All, IsTrue, List, MatchOption, drop, get_or, length};
ghost use Rattle.lot_book.specs.OpeningNumber.{IsNumbered};
ghost use Rattle.lot_book.specs.Refusals.{most_postings};
ghost use Rattle.lot_rows.specs.Leg.{IsLegRow};
ghost use Rattle.lot_book.specs.declared.leg.Leg.{Leg as LegOf};
ghost use Rattle.lot_rows.specs.declared.leg.LegRow.{LegRow as LegRowOf};
ghost use Rattle.lot_stored.specs.Rows.{leg_row};
ghost use Rattle.lot_audit.specs.Legs.{AreAlike, legs_at};

use lot_book::{Leg, MOST_POSTINGS};
use lot_rows::leg::LegRow;

/// Returns whether the rows of each posting are those of its legs, which are numbered as in a book.
pub(crate) fn legs_agree(rows: &[LegRow], legs: &[Leg]) -> bool
    ensures { All IsLegRow rows.now → AllByRecursion IsNumbered legs.now
        → IsTrue result ↔ ((posting : ℕ) → AreAlike posting rows.now legs.now) }
{
    are_of_postings(rows) && postings_agree(rows, legs, MOST_POSTINGS)
}

/// Returns whether no row is of a posting that is behind the last one that a transaction can have.
fn are_of_postings(rows: &[LegRow]) -> bool
    ensures { IsTrue result ↔ All (λ (row : LegRowOf). row.posting ≤ most_postings) rows.now }
{
    rows.iter()
        .all(|row| row.posting.number() as usize <= MOST_POSTINGS)
}

/// Returns whether the rows of each of the first postings are those of its legs.
fn postings_agree(rows: &[LegRow], legs: &[Leg], postings: usize) -> bool
    ensures { IsTrue result ↔ ((posting : ℕ) → posting < postings
        → AreAlike (posting + 1) rows.now legs.now) }
{
    'postings: for index in 0..postings {
        if !posting_agrees(rows, legs, index + 1) {
            return false;
        }
    }
    true
}

/// Returns whether the rows of a posting are those of its legs, in their order.
fn posting_agrees(rows: &[LegRow], legs: &[Leg], posting: usize) -> bool
    ensures { IsTrue result ↔ AreAlike posting rows.now legs.now }
{
    let mut at = 0;
    'rows: for row in rows {
        let Some(next) = place_behind(row, legs, at, posting) else {
            return false;
        };
        at = next;
    }
    next_of(legs, at, posting) == legs.len()
}

/// Compares the rows from this row on with the legs from a leg on. Returns from which leg on the
/// rows behind this one have to be alike, or `None` where the two differ, whatever those rows are.
fn place_behind(row: &LegRow, legs: &[Leg], at: usize, posting: usize) -> Option<usize>
    requires { at ≤ length legs.now }
    ensures { MatchOption result
        ((rows : List LegRowOf) → ¬ AreAlike posting (row.now ∷ rows) (drop at legs.now))
        (λ next. (next ≤ length legs.now) × ((rows : List LegRowOf)
        → AreAlike posting (row.now ∷ rows) (drop at legs.now)
        ↔ AreAlike posting rows (drop next legs.now))) }
{
    if row.posting.number() as usize != posting {
        return Some(at);
    }
    let next = next_of(legs, at, posting);
    if next == legs.len() || !is_row_of(row, &legs[next]) {
        return None;
    }
    Some(next + 1)
}

/// Returns the place of the first leg of a posting from a place on, or how many legs there are.
fn next_of(legs: &[Leg], from: usize, posting: usize) -> usize
    requires { from ≤ length legs.now }
    ensures within { result ≤ length legs.now }
    ensures skips { legs_at posting (drop from legs.now) ≡ legs_at posting (drop result legs.now) }
    ensures found { (leg : LegOf) → result < length legs.now → leg ≡ get_or legs.now result leg
        → leg.posting ≡ posting }
{
    'legs: for at in from..legs.len() {
        if legs[at].posting == posting {
            return at;
        }
    }
    legs.len()
}

/// Returns whether a row is that of a leg.
fn is_row_of(row: &LegRow, leg: &Leg) -> bool
    ensures { IsTrue result ↔ (row.now ≡ leg_row leg.now) }
{
    u64::from(row.entry.number()) == leg.entry
        && row.posting.number() as usize == leg.posting
        && row.place as usize == leg.place
        && row.account == leg.position.account
        && row.commodity == leg.position.commodity
        && row.units == leg.units
        && row.lot == leg.position.lot
}
