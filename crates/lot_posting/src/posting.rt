ghost use Rattle.std.specs.Prelude.{◌≡◌, ◌-◌, ◌&&◌, suc, false, IfErr, IfOk, IsErrOf, IsFalse, OnOk, Some, None};
ghost use Rattle.lot_inv.specs.Inventory.{reduces};
ghost use Rattle.lot_booking.specs.Booking.{ComesTo, ComesToLegs, Legs, posting_on};
ghost use Rattle.lot_booking.specs.Method.{may_reduce};
ghost use Rattle.lot_book.specs.declared.refusal.Stop.TheVariants.{Memory};
ghost use Rattle.lot_book.specs.Balance.{AreWithin};
ghost use Rattle.lot_book.specs.Booking.{braced, method_of};
ghost use Rattle.lot_book.specs.Leg.{leg_at, legs_at_lots, with_legs};
ghost use Rattle.lot_posting.specs.Posting.{BooksAt, IsStopOf, MayLackMemory, StopsOn, StopsPosting, StopsWithoutLegs, line_at};
ghost use Rattle.lot_book.specs.Refusals.{most_postings};
ghost use Rattle.lot_book.specs.Sale.{AreLegsOf};
ghost use Rattle.lot_book.specs.OpeningNumber.{HasNumber};
ghost use Rattle.lot_posting.specs.Tally.{ListsTally};
ghost use Rattle.lot_view.specs.View.{known, known_with_openings};

use crate::draft::Draft;
use crate::tally::Tally;
use lot_base::{Account, Day};
use lot_book::{Edition, Leg, Position, Refusal, Sale, Stop};
use lot_booking::{Booked, BookingFault, Selection, book};
use lot_command::{Amount, Cost, Method};
use lot_cost::LotKey;
use lot_inv::Inventory;
use lot_num::Units;
use lot_view::View;
use std::alloc::{AllocError, Global};

/// A posting with an amount, and where it stands.
#[derive(Drop)]
pub struct Site<'a> {
    /// By which edition it is booked.
    pub edition: Edition,
    /// The number of its entry, from 1.
    pub entry: u64,
    pub day: Day,
    /// Its place in the transaction, from 1.
    pub posting: usize,
    pub account: &'a Account,
    pub amount: &'a Amount,
}

/// Books a posting with an amount on what is booked so far. The error is its refusal, or out of memory (`MayLackMemory`).
///
/// A posting without braces may lack memory only where it is booked, so none of its refusals is told as out of memory. A
/// posting with braces may lack memory only where it has legs, or where legs stand before it, since lots may then be copied.
/// Where no legs stand before it, `Range` is its only refusal that may be told as out of memory.
pub fn book_posting(
    alloc: Global,
    view: &View,
    site: &Site<'_>,
    draft: &mut Draft,
) -> Result<(), Stop>
    requires entry { site.now.entry ≡ suc (known view.now).entries }
    requires number { HasNumber site.now.entry site.now.posting }
    requires lists { ListsTally (known_with_openings view.now) draft.old.tally }
    requires room { AreWithin (most_postings - 1) draft.old.residuals }
    ensures books { OnOk result
        (BooksAt (known_with_openings view.now) site.now draft.old draft.new) }
    ensures lists { OnOk result (ListsTally (known_with_openings view.now) draft.new.tally) }
    ensures stops { IfErr result (λ stop.
        StopsPosting (line_at (known_with_openings view.now) site.now draft.old.tally.legs) stop) }
    ensures memory { IsErrOf result Memory → MayLackMemory draft.old.tally.legs
        (line_at (known_with_openings view.now) site.now draft.old.tally.legs) }
{
    match &site.amount.cost {
        Some(cost) => book_at_cost(alloc, view, site, cost, draft),
        None => book_plain(view, site, draft),
    }
}

/// Books a posting without braces. Its refusal needs no memory.
fn book_plain(view: &View, site: &Site<'_>, draft: &mut Draft) -> Result<(), Stop>
    requires plain { site.now.amount.now.cost ≡ None }
    requires entry { site.now.entry ≡ suc (known view.now).entries }
    requires number { HasNumber site.now.entry site.now.posting }
    requires lists { ListsTally (known_with_openings view.now) draft.old.tally }
    requires room { AreWithin (most_postings - 1) draft.old.residuals }
    ensures books { OnOk result
        (BooksAt (known_with_openings view.now) site.now draft.old draft.new) }
    ensures lists { OnOk result (ListsTally (known_with_openings view.now) draft.new.tally) }
    ensures stops { IfErr result (λ stop.
        StopsPosting (line_at (known_with_openings view.now) site.now draft.old.tally.legs) stop) }
    ensures memory { IsErrOf result Memory → MayLackMemory draft.old.tally.legs
        (line_at (known_with_openings view.now) site.now draft.old.tally.legs) }
{
    let amount = site.amount;
    let _in_range = amount.units.mantissa(); // says to the prover that they are below the limit of units
    let held = draft
        .tally
        .plain_units(view, site.account, &amount.commodity);
    let Some(after) = held.checked_add(amount.units) else {
        let posting = site.posting;
        return Err(Refusal::Range { posting }.into());
    };
    let leg = leg_of(site, 0, None, amount.units)?;
    draft.tally.put(leg, held, after)?;
    draft.residuals.weigh(amount, &[])?;
    Ok(())
}

/// Books a posting with braces.
fn book_at_cost(
    alloc: Global,
    view: &View,
    site: &Site<'_>,
    cost: &Cost,
    draft: &mut Draft,
) -> Result<(), Stop>
    requires cost { site.now.amount.now.cost ≡ Some cost.now }
    requires entry { site.now.entry ≡ suc (known view.now).entries }
    requires number { HasNumber site.now.entry site.now.posting }
    requires lists { ListsTally (known_with_openings view.now) draft.old.tally }
    requires room { AreWithin (most_postings - 1) draft.old.residuals }
    ensures books { OnOk result
        (BooksAt (known_with_openings view.now) site.now draft.old draft.new) }
    ensures lists { OnOk result (ListsTally (known_with_openings view.now) draft.new.tally) }
    ensures stops { IfErr result (λ stop.
        StopsPosting (line_at (known_with_openings view.now) site.now draft.old.tally.legs) stop) }
    ensures memory { IsErrOf result Memory → MayLackMemory draft.old.tally.legs
        (line_at (known_with_openings view.now) site.now draft.old.tally.legs) }
{
    let _in_range = site.amount.units.mantissa(); // says to the prover that they are below the limit of units
    let Booked {
        reduces,
        legs: lots,
    } = book_lots(alloc, view, &mut draft.tally, site, cost)?;
    let legs = legs_of_lots(alloc, site, &lots)?;
    draft.add(view, site.amount, legs)?;
    if reduces {
        let sale = sale_of(site, lots)?;
        draft.sales.push((site.posting, sale))?;
    }
    Ok(())
}

/// Returns the lots that a posting with braces takes or opens, on what its account holds after the legs so far.
fn book_lots(
    alloc: Global,
    view: &View,
    tally: &mut Tally,
    site: &Site<'_>,
    cost: &Cost,
) -> Result<Booked, Stop>
    requires cost { site.now.amount.now.cost ≡ Some cost.now }
    requires lists { ListsTally (known_with_openings view.now) tally.old }
    ensures booked { IfOk result (λ booked. ComesTo
        (braced (line_at (known_with_openings view.now) site.now tally.old.legs) cost.now)
        (Legs booked.reduces booked.legs.items)) }
    ensures legs { OnOk result (tally.new.legs ≡ tally.old.legs) }
    ensures lists { OnOk result (ListsTally (known_with_openings view.now) tally.new) }
    ensures stops { IfErr result (λ stop. StopsWithoutLegs
        (line_at (known_with_openings view.now) site.now tally.old.legs) stop) }
    ensures memory { IsErrOf result Memory → MayLackMemory tally.old.legs
        (line_at (known_with_openings view.now) site.now tally.old.legs) }
{
    let selection = Selection {
        edition: site.edition,
        method: method_of(view, site.account),
    };
    if !may_reduce(view, tally, site, selection.method) {
        // It opens a lot or adds to one, whatever lots there are.
        return book_on(alloc, selection, &Inventory::new(alloc), site, cost);
    }
    if tally.has_changed(site.account, &site.amount.commodity) {
        let kept = tally.take_lots(alloc, view, site.account, &site.amount.commodity)?;
        let booked = book_on(alloc, selection, &kept.lots, site, cost);
        tally.kept = Some(kept);
        return booked;
    }
    match view.held(site.account) {
        Some(held) => book_on(alloc, selection, held, site, cost),
        None => book_on(alloc, selection, &Inventory::new(alloc), site, cost),
    }
}

/// Returns whether a posting under a method may take lots away, on what its account holds after the legs so far.
fn may_reduce(view: &View, tally: &Tally, site: &Site<'_>, method: Method) -> bool
    requires { ListsTally (known_with_openings view.now) tally.now }
    ensures never { IsFalse result
        → (may_reduce method && reduces
        (with_legs site.now.account.now ((known view.now).held site.now.account.now) tally.now.legs)
        site.now.amount.now.commodity site.now.amount.now.units) ≡ false }
{
    let amount = site.amount;
    method != Method::Unmatched
        && tally.may_reduce(view, site.account, &amount.commodity, amount.units)
}

/// Returns the method of an account, STRICT where it isn't known.
fn method_of(view: &View, account: &Account) -> Method
    ensures { result ≡ method_of ((known view.now).standing account.now) }
{
    match view.standing(account) {
        Some(standing) => standing.method,
        None => Method::Strict,
    }
}

/// Returns the lots that a posting with braces takes of an inventory, or opens in it.
fn book_on(
    alloc: Global,
    selection: Selection,
    held: &Inventory,
    site: &Site<'_>,
    cost: &Cost,
) -> Result<Booked, Stop>
    ensures booked { IfOk result (λ booked. ComesTo
        (posting_on selection held.now site.now.amount.now.commodity site.now.amount.now.units
        cost.now site.now.day)
        (Legs booked.reduces booked.legs.items)) }
    ensures stops { IfErr result (λ stop. StopsOn
        (posting_on selection held.now site.now.amount.now.commodity site.now.amount.now.units
        cost.now site.now.day)
        site.now.posting stop) }
    ensures memory { IsErrOf result Memory → ComesToLegs
        (posting_on selection held.now site.now.amount.now.commodity site.now.amount.now.units
        cost.now site.now.day) }
{
    let amount = site.amount;
    match book(
        alloc,
        selection,
        held,
        &amount.commodity,
        amount.units,
        cost,
        site.day,
    ) {
        Ok(booked) => Ok(booked),
        Err(fault) => Err(refused(site.posting, fault)),
    }
}

/// Returns the fault of a booking as the refusal of the posting at that place, or out of memory.
fn refused(posting: usize, fault: BookingFault) -> Stop
    ensures { IsStopOf posting fault result }
{
    Stop::Refused(match fault {
        BookingFault::ZeroUnits => Refusal::ZeroUnits { posting },
        BookingFault::InexactCost => Refusal::InexactCost { posting },
        BookingFault::IncompleteCost => Refusal::IncompleteCost { posting },
        BookingFault::NoMatch => Refusal::NoMatch { posting },
        BookingFault::Ambiguous => Refusal::Ambiguous { posting },
        BookingFault::NotEnough => Refusal::NotEnough { posting },
        BookingFault::Memory => return Stop::Memory,
    })
}

/// Returns one leg of a posting.
fn leg_of(
    site: &Site<'_>,
    place: usize,
    lot: Option<LotKey>,
    units: Units,
) -> Result<Leg, AllocError>
    ensures { IfOk result (λ leg. leg ≡ leg_at site.now.entry site.now.posting place
        site.now.account.now site.now.amount.now.commodity lot units) }
{
    let position = Position {
        account: site.account.copy()?,
        commodity: site.amount.commodity.copy()?,
        lot,
    };
    Ok(Leg {
        entry: site.entry,
        posting: site.posting,
        place,
        position,
        units,
    })
}

/// Returns the legs of a posting at these lots, in their order.
fn legs_of_lots(
    alloc: Global,
    site: &Site<'_>,
    lots: &[(LotKey, Units)],
) -> Result<Vec<Leg>, AllocError>
    ensures { IfOk result (λ legs. legs.items ≡ legs_at_lots site.now.entry site.now.posting
        site.now.account.now site.now.amount.now.commodity 0 lots.now) }
{
    let mut legs = Vec::new(alloc);
    for (place, lot) in lots.iter().enumerate() {
        legs.push(leg_of(site, place, Some(lot.0.copy()?), lot.1)?)?;
    }
    Ok(legs)
}

/// Returns a posting that takes these lots away as a sale.
fn sale_of(site: &Site<'_>, lots: Vec<(LotKey, Units)>) -> Result<Sale, AllocError>
    requires { AreLegsOf site.now.amount.now.units lots.items }
    ensures { IfOk result (λ sale. sale ≡ record {
      day = site.now.day;
      account = site.now.account.now;
      commodity = site.now.amount.now.commodity;
      units = site.now.amount.now.units;
      price = site.now.amount.now.price;
      legs = lots.items;
    }) }
{
    let amount = site.amount;
    let price = match &amount.price {
        Some(price) => Some(price.copy()?),
        None => None,
    };
    let account = site.account.copy()?;
    let commodity = amount.commodity.copy()?;
    match Sale::new(site.day, account, commodity, amount.units, price, lots) {
        Some(sale) => Ok(sale),
        None => unreachable!(),
    }
}
