ghost use Rattle.std.specs.Prelude.{◌≡◌, ◌≢◌, ◌∷◌, ◌++◌, [], ℤ, ◌+ℤ◌, cond, Err, IfErr, IfOk, List, OnErr, OnOk, SomeIff};
ghost use Rattle.std.specs.BTreeMap.{get};
ghost use Rattle.lot_book.specs.Leg.{position_cmp, same_position};
ghost use Rattle.lot_inv.specs.Inventory.{non_zero};
ghost use Rattle.lot_legs.specs.Legs.{leg_in};
ghost use Rattle.lot_legs.specs.declared.leg.DatedLeg.{DatedLeg as DatedLegOf};
ghost use Rattle.lot_num.specs.Amount.{IsUnits};
ghost use Rattle.lot_position.specs.Held.{AreInRange, Keeps, ListsHeld, NeedsMemory, NeedsRoom, PushesRow, holding_at, kept_at};
ghost use Rattle.lot_report.specs.declared.fault.ReportFault.TheVariants.{Memory, Range, Write};

use lot_base::Day;
use lot_book::{Holding, Position};
use lot_legs::DatedLeg;
use lot_num::Units;
use lot_report::ReportFault;
use std::alloc::Global;
use std::collections::BTreeMap;

/// The sums that aren't zero, as mantissas of units. They may be out of the range of units.
type Sums = BTreeMap<Position, i128>;

/// What was held at the end of a day. It takes legs one after another, in any order, and gives the positions in which those up
/// to the day leave some units.
///
/// Memory is needed for each position that holds some so far, not for each leg.
#[derive(Drop)]
pub struct Positions {
    day: Day,
    sums: Sums,
}

impl Positions {
    /// Returns the positions at the end of a day, before the first leg: none. It takes no memory.
    pub fn new(alloc: Global, day: Day) -> Positions
        ensures { Keeps day [] result }
    {
        Positions {
            day,
            sums: BTreeMap::new(alloc),
        }
    }

    /// Adds one more leg. One of a later day is passed over. Sums on the way may leave the range of units.
    ///
    /// The only error is out of memory. It comes only where nothing was held at the position of the leg before, or where its sum
    /// leaves 128 bits, for which more legs are needed than a `u64` counts.
    pub fn add(&mut self, leg: DatedLeg) -> Result<(), ReportFault>
        ensures adds { OnOk result ((day : ℤ) (legs : List DatedLegOf) → Keeps day legs self.old
            → Keeps day (legs ++ leg ∷ []) self.new) }
        ensures cause { IfErr result (λ fault. fault ≡ Memory) }
        ensures needs { OnErr result ((day : ℤ) (legs : List DatedLegOf)
            → Keeps day legs self.old → NeedsMemory day legs leg) }
        ensures unchanged { OnErr result ((day : ℤ) (legs : List DatedLegOf)
            → Keeps day legs self.old → Keeps day legs self.new) }
    {
        if leg.day > self.day {
            return Ok(());
        }
        let (position, units) = move_of(leg);
        put(&mut self.sums, position, units)
    }

    /// Returns each position that holds some units at the end of the day, in the order of account, commodity and lot, the plain
    /// units before the lots. The error is one of these:
    ///
    /// - `Range`: the sum of a position is out of the range of units at the end of the day.
    /// - `Memory`: out of memory.
    pub fn into_holdings(self, alloc: Global) -> Result<Vec<Holding>, ReportFault>
        ensures lists { IfOk result (λ rows. (day : ℤ) (legs : List DatedLegOf)
            → Keeps day legs self → ListsHeld day legs rows.items) }
        ensures in_range { OnOk result ((day : ℤ) (legs : List DatedLegOf)
            → Keeps day legs self → AreInRange day legs) }
        ensures range { result ≡ Err Range → (day : ℤ) (legs : List DatedLegOf)
            → Keeps day legs self → ¬ AreInRange day legs }
        ensures cause { IfErr result (λ fault. fault ≢ Write) }
    {
        let mut rows = Vec::new(alloc);
        for (position, units) in self.sums {
            push_row(&mut rows, position, units)?;
        }
        Ok(rows)
    }
}

/// Returns the position of a leg, and the units that it puts there.
fn move_of(leg: DatedLeg) -> (Position, Units)
    ensures { result ≡ ((leg_in leg).position, leg.units) }
{
    let DatedLeg {
        entry: _entry,
        day: _day,
        posting: _posting,
        place: _place,
        account,
        commodity,
        units,
        lot,
    } = leg;
    let position = Position {
        account,
        commodity,
        lot,
    };
    (position, units)
}

/// Adds units to the sum of a position, which is kept no more where it is zero. The only error is out of memory. It is returned
/// also where the sum leaves 128 bits.
fn put(sums: &mut Sums, position: Position, units: Units) -> Result<(), ReportFault>
    ensures puts { OnOk result ((other : Position) → get position_cmp sums.new other
        ≡ cond (same_position position other) (non_zero (kept_at sums.old position +ℤ units))
        (get position_cmp sums.old other)) }
    ensures cause { IfErr result (λ fault. fault ≡ Memory) }
    ensures needs { OnErr result (NeedsRoom (kept_at sums.old position) units) }
    ensures unchanged { OnErr result (sums.new.entries ≡ sums.old.entries) }
{
    let before = sums.get(&position).copied().unwrap_or(0);
    let Some(after) = before.checked_add(i128::from(units.mantissa())) else {
        return Err(ReportFault::Memory);
    };
    if after == 0 {
        sums.remove(&position);
        return Ok(());
    }
    match sums.insert(position, after) {
        Ok(_) => Ok(()),
        Err(_) => Err(ReportFault::Memory),
    }
}

/// Adds the row of a position with so many units behind others. The error is `Range` where they are
/// out of the range of units, else `Memory`.
fn push_row(rows: &mut Vec<Holding>, position: Position, units: i128) -> Result<(), ReportFault>
    ensures { PushesRow position units rows.old.items rows.new.items result }
{
    let Some(row) = holding_at(position, units) else {
        return Err(ReportFault::Range);
    };
    rows.push(row)?;
    Ok(())
}

/// Returns the row of a position with so many units, or `None` where they are out of range.
fn holding_at(position: Position, units: i128) -> Option<Holding>
    ensures { SomeIff result (IsUnits units) (holding_at position units) }
{
    let Position {
        account,
        commodity,
        lot,
    } = position;
    let units = Units::from_mantissa(i64::try_from(units).ok()?)?;
    Some(Holding {
        account,
        commodity,
        lot,
        units,
    })
}
