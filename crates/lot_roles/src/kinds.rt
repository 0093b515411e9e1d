//! Of which kind a row is.
ghost use Rattle.std.specs.Prelude.{◌≡◌, ◌≤◌, ◌<◌, ℕ, IfErr, IfNone, IfOk, IfSome, length};
ghost use Rattle.lot_roles.specs.Kinds.{HoldsAt, IsKindFault, IsOnly};

use crate::fault::RowFault;
use lot_profile::{FileForm, KindRule, Table};
use lot_sheet::{Row, meets};

/// Returns the kind of a row of a table: the one whose conditions the row meets.
///
/// The error is `NoKind` where it meets those of none, and `TwoKinds` where it meets those of two or more.
pub fn kind_of<'a>(form: &FileForm, table: &'a Table, row: &Row) -> Result<&'a KindRule, RowFault>
    ensures ok { IfOk result
        (λ kind. IsOnly form.now row.now table.now.kinds kind.now) }
    ensures fault { IfErr result (IsKindFault form.now row.now table.now.kinds) }
{
    let kinds = table.kinds.as_slice();
    let Some(first) = next_kind(form, row, kinds, 0) else {
        return Err(RowFault::NoKind);
    };
    match next_kind(form, row, kinds, first + 1) {
        None => Ok(&kinds[first]),
        Some(second) => Err(RowFault::TwoKinds {
            first: first + 1,
            second: second + 1,
        }),
    }
}

/// Returns the place of the next kind of a row, from a place on, counted from 0.
fn next_kind(form: &FileForm, row: &Row, kinds: &[KindRule], from: usize) -> Option<usize>
    ensures bound { IfSome result (λ place. place < length kinds.now) }
    ensures some { IfSome result (HoldsAt form.now row.now kinds.now) }
    ensures behind { IfSome result (λ place. from ≤ place) }
    ensures next { IfSome result (λ place. (other : ℕ) → from ≤ other → other < place
        → HoldsAt form.now row.now kinds.now other → ⊥) }
    ensures none { IfNone result ((other : ℕ) → from ≤ other
        → HoldsAt form.now row.now kinds.now other → ⊥) }
{
    for place in from..kinds.len() {
        if meets(form, row, &kinds[place].when) {
            return Some(place);
        }
    }
    None
}
