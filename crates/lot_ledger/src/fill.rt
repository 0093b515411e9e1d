ghost use Rattle.std.specs.Prelude.{◌≡◌, ◌≢◌, ◌≤◌, ◌∷◌, [], ◌++◌, suc, None, Some, not, IfErr, IfOk, IsErrOf, IsOk, OnErr, OnOk};
ghost use Rattle.std.specs.Option.{option_map, option_or};
ghost use Rattle.lot_book.specs.declared.refusal.Refusal.TheVariants.{FillNotAllowed};
ghost use Rattle.lot_book.specs.declared.refusal.Stop.TheVariants.{Memory};
ghost use Rattle.lot_book.specs.Balance.{fill_of, fits_units, left_over};
ghost use Rattle.lot_ledger.specs.Decide.{FillMayLackMemory, filled, first_barred};
ghost use Rattle.lot_book.specs.Refusals.{Stops, fill_not_allowed, fill_out_of_range, first_currency, inexact_fill, most_postings};
ghost use Rattle.lot_posting.specs.Tally.{HaveNumbers, ListsTally};
ghost use Rattle.lot_view.specs.View.{known, known_with_openings};

use crate::checks::Elided;
use lot_base::{Account, Commodity};
use lot_book::{Leg, Position, Refusal, Stop};
use lot_num::Units;
use lot_posting::{Draft, Residuals};
use lot_view::View;
use std::alloc::{AllocError, Global};
use std::mem;

/// Adds the legs of the elided posting, which take the residuals.
///
/// The refusal is `InexactFill`, `FillNotAllowed` or `Range`. Each is tested on all residuals before the next. Memory may lack
/// only where all residuals are those of units, some residual isn't zero, and the account allows each such currency.
pub(crate) fn fill(
    alloc: Global,
    view: &View,
    elided: Elided<'_>,
    draft: &mut Draft,
) -> Result<(), Stop>
    requires few { elided.0 ≤ most_postings }
    requires lists { ListsTally (known_with_openings view.now) draft.old.tally }
    ensures exact { OnOk result (inexact_fill (elided.entry ∷ []) draft.old.residuals ≡ None) }
    ensures allowed { OnOk result
        (fill_not_allowed (known view.now) (elided.entry ∷ []) draft.old.residuals ≡ None) }
    ensures in_range { OnOk result
        (fill_out_of_range (known view.now) (elided.entry ∷ []) draft.old.tally.legs
        (fill_of (suc (known view.now).entries) (elided.entry ∷ []) draft.old.residuals) ≡ None) }
    ensures legs { OnOk result (draft.new.tally.legs ≡ draft.old.tally.legs
        ++ fill_of (suc (known view.now).entries) (elided.entry ∷ []) draft.old.residuals) }
    ensures lists { OnOk result (ListsTally (known_with_openings view.now) draft.new.tally) }
    ensures sales { OnOk result (draft.new.sales ≡ draft.old.sales) }
    ensures stops { IfErr result
        (λ stop. Stops (option_or (inexact_fill (elided.entry ∷ []) draft.old.residuals)
        (option_or (fill_not_allowed (known view.now) (elided.entry ∷ []) draft.old.residuals)
        (fill_out_of_range (known view.now) (elided.entry ∷ []) draft.old.tally.legs
        (fill_of (suc (known view.now).entries) (elided.entry ∷ []) draft.old.residuals)))) stop) }
    ensures memory { IsErrOf result Memory
        → FillMayLackMemory (known view.now) (elided.entry ∷ []) draft.old.residuals }
{
    if draft.residuals.are_units() {
        return fill_exactly(alloc, view, elided, draft);
    }
    let residuals = mem::replace(&mut draft.residuals, Residuals::new(alloc));
    match residuals.exact() {
        Ok(()) => unreachable!(),
        Err(refusal) => Err(refusal.into()),
    }
}

/// The same where each residual is that of units.
fn fill_exactly(
    alloc: Global,
    view: &View,
    elided: Elided<'_>,
    draft: &mut Draft,
) -> Result<(), Stop>
    requires few { elided.0 ≤ most_postings }
    requires lists { ListsTally (known_with_openings view.now) draft.old.tally }
    requires exact { first_currency (λ r. not (fits_units r.1)) draft.old.residuals ≡ None }
    ensures exact { OnOk result (inexact_fill (elided.entry ∷ []) draft.old.residuals ≡ None) }
    ensures allowed { OnOk result
        (fill_not_allowed (known view.now) (elided.entry ∷ []) draft.old.residuals ≡ None) }
    ensures in_range { OnOk result
        (fill_out_of_range (known view.now) (elided.entry ∷ []) draft.old.tally.legs
        (fill_of (suc (known view.now).entries) (elided.entry ∷ []) draft.old.residuals) ≡ None) }
    ensures legs { OnOk result (draft.new.tally.legs ≡ draft.old.tally.legs
        ++ fill_of (suc (known view.now).entries) (elided.entry ∷ []) draft.old.residuals) }
    ensures lists { OnOk result (ListsTally (known_with_openings view.now) draft.new.tally) }
    ensures sales { OnOk result (draft.new.sales ≡ draft.old.sales) }
    ensures stops { IfErr result (λ stop. Stops
        (option_or (inexact_fill (elided.entry ∷ []) draft.old.residuals)
        (option_or (fill_not_allowed (known view.now) (elided.entry ∷ []) draft.old.residuals)
        (fill_out_of_range (known view.now) (elided.entry ∷ []) draft.old.tally.legs
        (fill_of (suc (known view.now).entries) (elided.entry ∷ []) draft.old.residuals)))) stop) }
    ensures memory { IsErrOf result Memory
        → FillMayLackMemory (known view.now) (elided.entry ∷ []) draft.old.residuals }
{
    every_fill_allowed(alloc, view, elided.account, &mut draft.residuals)?;
    let fills = draft.residuals.fills(alloc)?;
    let legs = legs_of_fills(alloc, view, &elided, fills)?;
    draft.tally.post_all(view, legs)
}

/// Returns `FillNotAllowed` with the first currency whose residual isn't zero and which the account's opening doesn't allow, if
/// there is one. Only then are the residuals used up, so that the refusal needs no memory.
fn every_fill_allowed(
    alloc: Global,
    view: &View,
    account: &Account,
    residuals: &mut Residuals,
) -> Result<(), Refusal>
    ensures same { OnOk result (residuals.new ≡ residuals.old) }
    ensures ok { OnOk result (first_barred ((known view.now).standing account.now)
        (left_over residuals.old) ≡ None) }
    ensures refused { IfErr result (λ refusal. option_map FillNotAllowed
        (first_barred ((known view.now).standing account.now) (left_over residuals.old))
        ≡ Some refusal) }
{
    let Some(standing) = view.standing(account) else {
        return Ok(());
    };
    if residuals.are_allowed(standing) {
        return Ok(());
    }
    mem::replace(residuals, Residuals::new(alloc)).allowed(standing)
}

/// Returns the legs of the elided posting: one plain leg for each fill.
fn legs_of_fills(
    alloc: Global,
    view: &View,
    elided: &Elided<'_>,
    fills: Vec<(Commodity, Units)>,
) -> Result<Vec<Leg>, AllocError>
    requires few { elided.now.0 ≤ most_postings }
    ensures legs { IfOk result (λ legs. legs.items
        ≡ filled (suc (known view.now).entries) elided.now.0 elided.now.1 0 fills.items) }
    ensures numbers { IfOk result (λ legs. HaveNumbers legs.items) }
    ensures memory { OnErr result (fills.items ≢ []) }
{
    let entry = u64::from(view.entries()) + 1;
    let mut legs = Vec::new(alloc);
    for (place, (commodity, units)) in fills.into_iter().enumerate() {
        let position = Position {
            account: elided.account.copy()?,
            commodity,
            lot: None,
        };
        legs.push(Leg {
            entry,
            posting: elided.posting,
            place,
            position,
            units,
        })?;
    }
    Ok(legs)
}
