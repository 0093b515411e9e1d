ghost use Rattle.std.specs.Prelude.{◌≡◌, ◌≢◌, ◌≤◌, map, IfOk, IfErr, IsOk, OnErr, ℕ, ℤ, [], ◌∷◌, true, unsigned_abs};
ghost use Rattle.std.specs.List.{AllByRecursion};
ghost use Rattle.lot_cost.specs.declared.lot_key.LotKey.{LotKey};
ghost use Rattle.lot_inv.specs.Inventory.{fitting, held_in, matching, opening_at, other_sign, with_number};
ghost use Rattle.lot_inv.specs.Lot.{AreNumberedBy, key_and_units};
ghost use Rattle.lot_cost.specs.declared.method.Method.{Method};
ghost use Rattle.lot_cost.specs.declared.cost.Cost.{Cost};
ghost use Rattle.lot_booking.specs.Booking.{ComesTo, IsOneLeg, Legs, Stops, posting_on};
ghost use Rattle.lot_booking.specs.Choice.{HaveDistinctKeys};
ghost use Rattle.lot_booking.specs.Method.{may_reduce};
ghost use Rattle.lot_booking.specs.Way.{FallShort, StopsOpening, Suffice, TakesLent, foremost_of};

use crate::cost::{given, number};
use crate::edition::Edition;
use crate::fault::BookingFault;
use crate::front::take_enough;
use crate::order::{Highest, HighestOpened, Newest, NewestOpened, Oldest, OldestOpened};
use crate::selection::Selection;
use lot_base::{Commodity, Day};
use lot_cost::{Cost, CostSpec, LotKey, Method};
use lot_inv::{Available, Foremost, Inventory, LentLot, Lot, is_other_sign};
use lot_num::{Rate, Units};
use std::alloc::{AllocError, Global};

/// The legs of a posting with braces, and whether they take lots away or open one.
#[derive(Debug, Drop)]
pub struct Booked {
    /// Whether the legs take lots away.
    pub reduces: bool,
    /// The units of each leg, under the key of its lot. They have the sign of the posting's units, and add up to them.
    pub legs: Vec<(LotKey, Units)>,
}

/// Returns the legs of a posting with braces on the inventory of its account, by a selection.
///
/// The posting takes lots away where some lot of the commodity has the other sign, unless the method is NONE. Else it opens a
/// lot or adds to one, on the given day, or without one on the day of the transaction.
///
/// The error is the first of these that holds:
///
/// - `ZeroUnits`: the units are zero;
/// - `InexactCost`: a whole cost, divided by the units, isn't exactly a rate;
/// - `IncompleteCost`: the posting takes no lots away, and gives no number or no currency;
/// - `NoMatch`: no lot of the other sign fits;
/// - `Ambiguous`: the method is STRICT, several lots fit, and they don't hold exactly the units;
/// - `NotEnough`: the lots that fit hold less than the units.
///
/// Each of these is told without memory. `Memory` comes only where the posting has legs.
pub fn book(
    alloc: Global,
    selection: Selection,
    inventory: &Inventory,
    commodity: &Commodity,
    units: Units,
    cost: &Cost,
    day: Day,
) -> Result<Booked, BookingFault>
    ensures booked { IfOk result (λ b. ComesTo
        (posting_on selection inventory.now commodity.now units cost.now day)
        (Legs b.reduces b.legs.items)) }
    ensures stops { IfErr result (λ fault. Stops
        (posting_on selection inventory.now commodity.now units cost.now day) fault) }
{
    if units == Units::ZERO {
        return Err(BookingFault::ZeroUnits);
    }
    let number = number(cost, units)?;
    let spec = given(cost);
    let reduces = selection.method != Method::Unmatched && inventory.reduces(commodity, units);
    if !reduces {
        let legs = open(alloc, number, spec, units, day)?;
        return Ok(Booked { reduces, legs });
    }
    let available = inventory.available(commodity, units, &number, spec);
    ensure_enough(selection.method, &available, units)?;
    if let Some(lot) = available.only {
        let legs = take_one(alloc, lot, units)?;
        return Ok(Booked { reduces, legs });
    }
    let foremost = foremost_of(selection);
    let lots = inventory.takeable(commodity, foremost, units, &number, spec)?;
    let legs = take_by(alloc, selection, lots, units)?;
    Ok(Booked { reduces, legs })
}

/// Returns the one leg of a posting that opens a lot of that number, or adds to one.
fn open(
    alloc: Global,
    number: Option<Rate>,
    spec: &CostSpec,
    units: Units,
    day: Day,
) -> Result<Vec<(LotKey, Units)>, BookingFault>
    ensures leg { IfOk result (λ legs.
        IsOneLeg (with_number number spec.now) units day legs.items) }
    ensures stops { IfErr result (λ fault. StopsOpening (with_number number spec.now) fault) }
{
    let (Some(number), Some(currency)) = (number, &spec.currency) else {
        return Err(BookingFault::IncompleteCost);
    };
    let label = match &spec.label {
        Some(label) => Some(label.copy()?),
        None => None,
    };
    let key = LotKey {
        day: spec.day.unwrap_or(day),
        currency: currency.copy()?,
        number,
        label,
    };
    Ok(vec![in alloc; (key, units)]?)
}

/// Returns the one leg of units of which a lot holds as many. The only error is out of memory.
fn take_one(
    alloc: Global,
    lot: LentLot<'_>,
    units: Units,
) -> Result<Vec<(LotKey, Units)>, AllocError>
    ensures { IfOk result (λ legs. legs.items ≡ (lot.entry.key, units) ∷ []) }
{
    Ok(vec![in alloc; (lot.key.copy()?, units)]?)
}

/// Returns why units take none of the lots that there are for them, where these don't suffice. It takes no memory.
fn ensure_enough(
    method: Method,
    available: &Available<'_>,
    units: Units,
) -> Result<(), BookingFault>
    ensures suffice { IsOk result
        → Suffice method available.now.lots available.now.held (unsigned_abs units) }
    ensures short { IfErr result (λ fault.
        FallShort method available.now.lots available.now.held (unsigned_abs units) fault) }
{
    let wanted = u128::from(units.mantissa().unsigned_abs());
    if available.lots == 0 {
        return Err(BookingFault::NoMatch);
    }
    if method == Method::Strict && 1 < available.lots && available.held != wanted {
        return Err(BookingFault::Ambiguous);
    }
    if available.held < wanted {
        return Err(BookingFault::NotEnough);
    }
    Ok(())
}

/// Returns the lots that a reduction may take, in the order of their keys: those of the other sign that fit. They meet what
/// `take` requires. The only error is out of memory. It comes only where some lot of either sign fits.
pub fn fitting(
    inventory: &Inventory,
    commodity: &Commodity,
    units: Units,
    spec: &CostSpec,
) -> Result<Vec<Lot>, AllocError>
    ensures all { IfOk result (λ lots. map key_and_units lots.items
        ≡ fitting inventory.now.held commodity.now units spec.now) }
    ensures numbers { IfOk result (λ lots.
        AreNumberedBy (opening_at inventory.now commodity.now) lots.items) }
    ensures distinct { IfOk result (λ lots. HaveDistinctKeys (map key_and_units lots.items)) }
    ensures signs { IfOk result (λ lots. AllByRecursion
        (λ (lot : LotKey × ℤ). other_sign lot.1 units ≡ true) (map key_and_units lots.items)) }
    ensures memory { OnErr result (matching inventory.now.held commodity.now spec.now ≢ []) }
{
    let mut lots = inventory.matching(commodity, spec)?;
    lots.retain(|lot| is_other_sign(lot.units, units));
    Ok(lots)
}

/// Returns which lots a selection takes first.
fn foremost_of(selection: Selection) -> Foremost
    ensures { result ≡ foremost_of selection.method selection.edition }
{
    match (selection.method, selection.edition) {
        (Method::Strict | Method::Unmatched, _) => Foremost::Oldest,
        (Method::Fifo, Edition::First) => Foremost::Oldest,
        (Method::Fifo, Edition::Second) => Foremost::OldestOpened,
        (Method::Lifo, Edition::First) => Foremost::Newest,
        (Method::Lifo, Edition::Second) => Foremost::NewestOpened,
        (Method::Hifo, Edition::First) => Foremost::Highest,
        (Method::Hifo, Edition::Second) => Foremost::HighestOpened,
    }
}

/// Returns the legs that units take by a selection of lots that suffice for them, of which these are lent. The only error is out
/// of memory.
fn take_by(
    alloc: Global,
    selection: Selection,
    lots: Vec<LentLot<'_>>,
    units: Units,
) -> Result<Vec<(LotKey, Units)>, AllocError>
    requires reduces { may_reduce selection.method ≡ true }
    requires enough { unsigned_abs units ≤ held_in (map key_and_units lots.items) }
    ensures { IfOk result (λ legs. TakesLent selection.method selection.edition lots.entry.items
        units legs.items) }
{
    match (selection.method, selection.edition) {
        // It lists its legs in the order of the keys in both editions.
        (Method::Strict, _) => take_enough::<Oldest>(alloc, lots, units),
        (Method::Fifo, Edition::First) => take_enough::<Oldest>(alloc, lots, units),
        (Method::Fifo, Edition::Second) => take_enough::<OldestOpened>(alloc, lots, units),
        (Method::Lifo, Edition::First) => take_enough::<Newest>(alloc, lots, units),
        (Method::Lifo, Edition::Second) => take_enough::<NewestOpened>(alloc, lots, units),
        (Method::Hifo, Edition::First) => take_enough::<Highest>(alloc, lots, units),
        (Method::Hifo, Edition::Second) => take_enough::<HighestOpened>(alloc, lots, units),
        // It never reduces.
        (Method::Unmatched, _) => unreachable!(),
    }
}
