//! The lots that an account holds of a commodity, and the split of them on what is known of a book.
ghost use Rattle.std.specs.Prelude.{◌≡◌, [], IfOk, IfErr, map};
ghost use Rattle.lot_inv.specs.Inventory.{opening_at};
ghost use Rattle.lot_inv.specs.Lot.{key_and_units as listed};
ghost use Rattle.lot_booking.specs.Method.{ByOpening};
ghost use Rattle.lot_booking.specs.OpeningOrder.{opened_cmp};
ghost use Rattle.lot_book.specs.Openings.{ties_on};
ghost use Rattle.lot_view.specs.View.{known, known_with_openings};
ghost use Rattle.lot_split.specs.Held.{AreHeld, HasFaultOn, IsSplitOn, key_and_units};

use crate::fault::SplitFault;
use crate::lot::HeldLot;
use crate::transaction::{Split, each_lot, split_lots};
use lot_base::Commodity;
use lot_command::{Items, Transaction};
use lot_inv::{Inventory, Lot};
use lot_view::View;
use std::alloc::{AllocError, Global};
use std::cmp::Ordering;

/// Returns the transaction that splits all lots of the commodity that the account holds, on what is known of a book.
///
/// The error is `NotOpened` where the account isn't opened, else the first fault of its lots.
pub fn split_on(alloc: Global, view: &View, asked: &Split) -> Result<Transaction, SplitFault>
    ensures ok { IfOk result (IsSplitOn (ties_on (known_with_openings view.now)) (known view.now)
        asked.now) }
    ensures fault { IfErr result (HasFaultOn (ties_on (known_with_openings view.now))
        (known view.now) asked.now) }
{
    let Some(standing) = view.standing(&asked.account) else {
        return Err(SplitFault::NotOpened);
    };
    let lots = held_lots(alloc, view, asked)?;
    split_lots(alloc, asked, standing.method, lots.as_slice())
}

/// Returns all lots of the commodity that the account holds, the one that was opened first before the others. The only error is
/// out of memory.
fn held_lots(alloc: Global, view: &View, asked: &Split) -> Result<Items<HeldLot>, AllocError>
    ensures { IfOk result (AreHeld
        (ties_on (known_with_openings view.now) [] asked.now.account asked.now.commodity)
        ((known view.now).held asked.now.account) asked.now.commodity) }
{
    match view.held(&asked.account) {
        Some(inventory) => lots_in(alloc, inventory, &asked.commodity),
        None => Ok(Items::new(alloc)),
    }
}

/// Returns all lots of a commodity in an inventory, the one that was opened first before the others. The only error is out of
/// memory.
fn lots_in(
    alloc: Global,
    inventory: &Inventory,
    commodity: &Commodity,
) -> Result<Items<HeldLot>, AllocError>
    ensures { IfOk result (AreHeld (ByOpening (opening_at inventory.now commodity.now))
        inventory.now.held commodity.now) }
{
    let mut lots = inventory.matching(commodity, &each_lot())?;
    lots.sort_unstable_by(|a, b| compare(a, b));
    held(alloc, lots)
}

/// Returns how two lots compare: the one that was opened first is less, and of lots with one opening number the first by key.
fn compare(a: &Lot, b: &Lot) -> Ordering
    ensures { result ≡ opened_cmp (a.now.key, a.now.opening) (b.now.key, b.now.opening) }
{
    a.opening.cmp(&b.opening).then_with(|| a.key.cmp(&b.key))
}

/// Returns lots without their opening numbers. The only error is out of memory.
fn held(alloc: Global, lots: Vec<Lot>) -> Result<Items<HeldLot>, AllocError>
    ensures { IfOk result (λ held. map key_and_units held ≡ map listed lots.items) }
{
    let mut held = Items::new(alloc);
    for lot in lots {
        held.push(HeldLot {
            key: lot.key,
            units: lot.units,
        })?;
    }
    Ok(held)
}
