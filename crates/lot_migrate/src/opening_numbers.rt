ghost use Rattle.std.specs.Prelude.{◌≡◌, ◌↔◌, [], ◌∷◌, ◌++◌, All, Any, Err, IfOk, IsSome, List, OnErr, OnOk, SomeIff, ◌+ℤ◌};
ghost use Rattle.lot_num.specs.Amount.{IsUnits};
ghost use Rattle.lot_book.specs.declared.leg.Leg.{Leg};
ghost use Rattle.lot_book.specs.OpeningNumber.{IsNumbered, StayInRange};
ghost use Rattle.lot_migrate.specs.LotOpenings.{Keeps, LeavesRange, ListsOpenings, lot_with, row_of};
ghost use Rattle.lot_migrate.specs.declared.opening_numbers.LegFault.TheVariants.{Memory, Range};

use lot_base::{Account, Commodity};
use lot_book::{Leg, Position};
use lot_cost::LotKey;
use lot_num::Units;
use std::alloc::{AllocError, Global};
use std::collections::BTreeMap;

/// A lot in which some units are left, and its opening number.
#[derive(Debug, PartialEq, Eq, Drop)]
pub struct LotOpening {
    pub account: Account,
    pub commodity: Commodity,
    pub lot: LotKey,
    /// The number of the posting that opened the lot last: 64 for each entry before its own, plus its place in its own, from 1.
    pub opening: u64,
}

/// Returns each lot in which legs leave some units, with its opening number, in the order of account, commodity and key. The
/// legs are those of a book, in its order. Legs at plain positions don't count. The only error is out of memory. It comes only
/// where a leg is at a lot.
///
/// A leg opens a lot that holds nothing before it. So a lot that is emptied and opened again has the number of its last
/// opening, and a lot that is added to keeps its own.
pub fn openings(alloc: Global, legs: &[Leg]) -> Result<Vec<LotOpening>, AllocError>
    requires numbered { All IsNumbered legs.now }
    requires in_range { StayInRange legs.now }
    ensures lists { IfOk result (λ rows. ListsOpenings legs.now rows.items) }
    ensures memory { OnErr result (Any (λ leg. IsSome leg.position.lot) legs.now) }
{
    let mut lots = OpenLots::new(alloc);
    for leg in legs {
        match lots.post(leg) {
            Ok(()) => {}
            Err(LegFault::Memory) => return Err(AllocError),
            Err(LegFault::Range) => unreachable!(),
        }
    }
    lots.into_openings(alloc)
}

/// What legs leave in each lot, and the number of the posting that opened it last. The legs are given one after another, in the
/// order of their book. Memory is needed for each lot that is held, not for each leg, and not for a lot that was emptied.
#[derive(Drop)]
pub struct OpenLots {
    lots: BTreeMap<Position, OpenLot>,
}

/// Why a leg isn't added to the lots.
#[derive(Clone, Copy, Debug, PartialEq, Eq)]
pub enum LegFault {
    /// The leg takes the units of its lot out of their range.
    Range,
    /// Out of memory.
    Memory,
}

impl OpenLots {
    /// Returns the lots before the first leg: none.
    pub fn new(alloc: Global) -> OpenLots
        ensures { Keeps [] result }
    {
        OpenLots {
            lots: BTreeMap::new(alloc),
        }
    }

    /// Adds one more leg, behind those so far. A leg at a plain position leaves the lots as they were, and so does an error.
    ///
    /// The error is `Range` only where the sum of the leg's lot is out of range; sums at plain positions are not kept, and not
    /// tested. It is `Memory` only for a leg at a lot.
    pub fn post(&mut self, leg: &Leg) -> Result<(), LegFault>
        requires numbered { IsNumbered leg.now }
        ensures adds { OnOk result ((legs : List Leg) → Keeps legs self.old
            → Keeps (legs ++ leg.now ∷ []) self.new) }
        ensures range { (legs : List Leg) → Keeps legs self.old
            → (result ≡ Err Range) ↔ LeavesRange legs leg.now }
        ensures memory { result ≡ Err Memory → IsSome leg.now.position.lot }
        ensures unchanged { OnErr result ((legs : List Leg) → Keeps legs self.old
            → Keeps legs self.new) }
    {
        if leg.position.lot.is_none() {
            return Ok(());
        }
        let before = self.lots.get(&leg.position).copied();
        let Some(after) = before.unwrap_or(OpenLot::EMPTY).with(leg) else {
            return Err(LegFault::Range);
        };
        if after.units == Units::ZERO {
            self.lots.remove(&leg.position);
            return Ok(());
        }
        let Ok(position) = leg.position.copy() else {
            return Err(LegFault::Memory);
        };
        match self.lots.insert(position, after) {
            Ok(_) => Ok(()),
            Err(_) => Err(LegFault::Memory),
        }
    }

    /// Returns each lot in which the legs leave some units, with its opening number, in the order of account, commodity and
    /// key. The only error is out of memory. It comes only where a leg was at a lot.
    pub fn into_openings(self, alloc: Global) -> Result<Vec<LotOpening>, AllocError>
        ensures lists { IfOk result (λ rows. (legs : List Leg) → Keeps legs self
            → ListsOpenings legs rows.items) }
        ensures memory { OnErr result ((legs : List Leg) → Keeps legs self
            → Any (λ leg. IsSome leg.position.lot) legs) }
    {
        let mut rows = Vec::new(alloc);
        for (position, lot) in self.lots {
            if let Some(row) = row_of(position, lot) {
                rows.push(row)?;
            }
        }
        Ok(rows)
    }
}

/// The units that legs leave in a lot, and the number of the posting that opened it last. Those that
/// are kept hold some units.
#[derive(Clone, Copy)]
struct OpenLot {
    units: Units,
    opening: u64,
}

impl OpenLot {
    /// A lot that no leg is at.
    const EMPTY: OpenLot = OpenLot {
        units: Units::ZERO,
        opening: 0,
    };

    /// Returns the lot with one more leg, or `None` where the sum is out of range. The leg opens the lot where it holds nothing
    /// before.
    fn with(self, leg: &Leg) -> Option<OpenLot>
        requires { IsNumbered leg.now }
        ensures { SomeIff result (IsUnits (self.units +ℤ leg.now.units)) (lot_with self leg.now) }
    {
        let units = self.units.checked_add(leg.units)?;
        let opening = if self.units == Units::ZERO {
            leg.number()
        } else {
            self.opening
        };
        Some(OpenLot { units, opening })
    }
}

/// Returns the row of what is kept of a position, where that is a lot.
fn row_of(position: Position, lot: OpenLot) -> Option<LotOpening>
    ensures { result ≡ row_of (position, lot) }
{
    Some(LotOpening {
        account: position.account,
        commodity: position.commodity,
        lot: position.lot?,
        opening: lot.opening,
    })
}
