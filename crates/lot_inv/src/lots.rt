ghost use Rattle.std.specs.Prelude.{◌≡◌, ◌≢◌, ◌⊎◌, ◌∷◌, IfNone, ℤ, Bool, [], ◌++◌, pos, ◌+ℤ◌, ◌+◌, ◌*◌, ◌^◌, ◌<◌, ◌≤◌, length, option_copied, unsigned_abs, IfOk, IfSome, OnOk, OnErr, None, cond, filter};
ghost use Rattle.std.specs.List.{list_any};
ghost use Rattle.std.specs.List.Sorted.{IsStrictlySortedBy};
ghost use Rattle.std.specs.Map.{keys_of, values_of};
ghost use Rattle.std.specs.BTreeMap.{IsOrdered, get};
ghost use Rattle.std.specs.Ordering.{is_eq};
ghost use Rattle.lot_num.specs.Amount.{units_limit};
ghost use Rattle.lot_num.specs.Sum.{sum_of};
ghost use Rattle.lot_cost.specs.CostSpec.{fits};
ghost use Rattle.lot_cost.specs.LotKey.{lot_cmp};
ghost use Rattle.lot_cost.specs.declared.lot_key.LotKey.{LotKey};
ghost use Rattle.lot_inv.specs.declared.foremost.Foremost.TheVariants.{Highest};
ghost use Rattle.lot_inv.specs.declared.lot.Lot.{Lot};
ghost use Rattle.lot_inv.specs.Foremost.{AreLentOf, Counts, HoldsAtHighest, gone_through, only_of, opened, together};
ghost use Rattle.lot_inv.specs.Inventory.{as_entries, other_sign, with_number};
ghost use Rattle.lot_inv.specs.Index.{IsIndex};
ghost use Rattle.lot_inv.specs.Holding.{kept, listed, lot_rows, takeable, takeable_lots, units_in};
ghost use Rattle.lot_inv.specs.Lots.{count_of, counted_in, is_below, lot_at};

use crate::foremost::Foremost;
use crate::index::{Index, renewed};
use crate::inventory::is_other_sign;
use crate::lot::{LentLot, Lot};
use lot_base::Commodity;
use lot_cost::{CostSpec, LotKey};
use lot_num::{Rate, Units};
use std::alloc::{AllocError, Global};
use std::collections::BTreeMap;
use std::collections::btree_map::Iter;
use std::marker::Model;
use std::mem;

/// With more lots than these there are indexes of them.
const MANY: usize = 64;

/// What is kept of a lot under its key.
#[derive(Clone, Copy)]
pub(crate) struct OpenLot {
    pub(crate) units: Units,
    pub(crate) opening: u64,
}

impl OpenLot {
    ghost use Rattle.lot_inv.specs.declared.lot.Lot.{Lot};

    /// Returns the lot under a key, which is lent.
    pub(crate) fn lend(self, key: &LotKey) -> LentLot<'_>
        ensures { result ≡ record { key = key.now; units = self.units; opening = self.opening } }
    {
        LentLot {
            key,
            units: self.units,
            opening: self.opening,
        }
    }
}

/// Lots that units may take: all of them, or several that hold more than the units.
#[derive(Drop)]
pub struct Available<'a> {
    /// How many they are.
    pub lots: u64,
    /// What they hold together: the sum of the mantissas of their units, sign aside.
    pub held: u128,
    /// The lot, where it is the only one.
    pub only: Option<LentLot<'a>>,
}

/// The lots of one commodity, each under its key. None of them has zero units.
///
/// A contract sees them as a list, in the order of their keys.
pub(crate) struct Lots {
    alloc: Global,
    by_key: BTreeMap<LotKey, OpenLot>,
    /// The same lots in the order in which the oldest ones are lent, once they were many. Each of these indexes is left out where
    /// memory lacks for it.
    oldest_first: Option<Index>,
    /// The same for the newest ones.
    newest_first: Option<Index>,
    /// The same for those of the highest number.
    highest_first: Option<Index>,
    /// How many of them are below zero. The others are above it.
    below: u64,
}

impl Model for Lots {
    ghost use Rattle.std.specs.Prelude.{IfSome, List};
    ghost use Rattle.lot_cost.specs.declared.lot_key.LotKey.{LotKey};
    ghost use Rattle.lot_inv.specs.declared.lots.OpenLot.{OpenLot};
    ghost use Rattle.lot_inv.specs.declared.foremost.Foremost.TheVariants.{HighestOpened, NewestOpened, OldestOpened};
    ghost use Rattle.lot_inv.specs.Index.{IsIndex};
    ghost use Rattle.lot_inv.specs.Lots.{AreCounted};

    ghost Value = { List (LotKey × OpenLot) };

    ghost view = { λ l. l.by_key.entries };

    ghost invariant = { λ l. record {
      counted : AreCounted l.below l.by_key.entries;
      oldest : IfSome l.oldest_first
          (λ index. IsIndex OldestOpened index.entries l.by_key.entries);
      newest : IfSome l.newest_first
          (λ index. IsIndex NewestOpened index.entries l.by_key.entries);
      highest : IfSome l.highest_first
          (λ index. IsIndex HighestOpened index.entries l.by_key.entries);
    } };
}

impl Lots {
    /// Returns no lots.
    pub(crate) fn new(alloc: Global) -> Lots
        ensures { result ≡ [] }
    {
        Lots {
            alloc,
            by_key: BTreeMap::new(alloc),
            oldest_first: None,
            newest_first: None,
            highest_first: None,
            below: 0,
        }
    }

    /// Returns the lot of that key, or `None` where it isn't held.
    pub(crate) fn get(&self, key: &LotKey) -> Option<&OpenLot>
        ensures { option_copied result ≡ lot_at self.now key.now }
    {
        self.by_key.get(key)
    }

    /// Returns how many lots there are.
    pub(crate) fn len(&self) -> usize
        ensures { result ≡ length self.now }
    {
        self.by_key.len()
    }

    /// Returns an iterator over the lots, in the order of their keys.
    pub(crate) fn iter(&self) -> Iter<'_, LotKey, OpenLot>
        ensures rest { result ≡ self.now }
        ensures fits { length self.now < 2 ^ 63 }
    {
        self.by_key.iter()
    }

    /// Returns whether some lot has the other sign than the units.
    pub(crate) fn has_other_sign(&self, units: Units) -> bool
        ensures { result ≡ list_any (λ held. other_sign held units)
            (values_of (units_in self.now)) }
    {
        let units = units.mantissa();
        if units < 0 {
            return self.below < self.by_key.len() as u64;
        }
        0 < units && 0 < self.below
    }

    /// Returns the sum of the mantissas of all lots, at scale 8.
    pub(crate) fn total(&self) -> i128
        ensures { result ≡ sum_of (values_of (units_in self.now)) }
    {
        let mut total = 0;
        for (_, lot) in self.iter() {
            total = plus(total, lot.units);
        }
        total
    }

    /// Returns the lots that a specification fits, in the order of their keys.
    pub(crate) fn matching(&self, alloc: Global, spec: &CostSpec) -> Result<Vec<Lot>, AllocError>
        ensures all { IfOk result (λ lots. lots.items
            ≡ filter (λ (lot : Lot). fits spec.now lot.key) (listed self.now)) }
        ensures memory { OnErr result
            (filter (λ (lot : Lot). fits spec.now lot.key) (listed self.now) ≢ []) }
    {
        let mut fitting = Vec::new(alloc);
        for (key, lot) in self.iter() {
            if spec.fits(key) {
                fitting.push(Lot {
                    key: key.copy()?,
                    units: lot.units,
                    opening: lot.opening,
                })?;
            }
        }
        Ok(fitting)
    }

    /// Returns how many of the lots units may take at a number, what these hold, and the lot where it is the only one. All of
    /// them are counted, or several that hold more than the units.
    pub(crate) fn available(
        &self,
        units: Units,
        number: &Option<Rate>,
        spec: &CostSpec,
    ) -> Available<'_>
        requires { (spec.now.number ≡ None) ⊎ (spec.now.number ≡ number.now) }
        ensures counted { Counts (unsigned_abs units) result.lots result.held
            (takeable units (with_number number.now spec.now) (units_in self.now)) }
        ensures only { result.only ≡ only_of (takeable_lots units (with_number number.now spec.now)
            (listed self.now)) }
    {
        let wanted = u128::from(units.mantissa().unsigned_abs());
        let mut available = Available {
            lots: 0,
            held: 0,
            only: None,
        };
        for (key, lot) in self.iter() {
            if 1 < available.lots && wanted < available.held {
                return available;
            }
            if is_other_sign(lot.units, units) && fits_at(number, spec, key) {
                available.only = if available.lots == 0 {
                    Some(lot.lend(key))
                } else {
                    None
                };
                available.lots += 1;
                available.held += u128::from(lot.units.mantissa().unsigned_abs());
            }
        }
        available
    }

    /// Returns the lots that units may take at a number, the foremost ones.
    pub(crate) fn takeable(
        &self,
        alloc: Global,
        foremost: Foremost,
        units: Units,
        number: &Option<Rate>,
        spec: &CostSpec,
    ) -> Result<Vec<LentLot<'_>>, AllocError>
        requires number { (spec.now.number ≡ None) ⊎ (spec.now.number ≡ number.now) }
        requires sorted { IsStrictlySortedBy lot_cmp (keys_of self.now) }
        ensures { IfOk result (λ lots. AreLentOf foremost (unsigned_abs units)
            (takeable_lots units (with_number number.now spec.now) (listed self.now))
            lots.items) }
    {
        if let Some(lots) = self.in_turn(alloc, foremost, units, number, spec)? {
            return Ok(lots);
        }
        match foremost.together() {
            Foremost::Highest => self.at_highest(alloc, units, number, spec),
            together => self.by_day(alloc, together, units, number, spec),
        }
    }

    /// Returns the lots that units may take at a number, the foremost ones, as they stand in an index. It is `None` where there is
    /// no index.
    fn in_turn(
        &self,
        alloc: Global,
        foremost: Foremost,
        units: Units,
        number: &Option<Rate>,
        spec: &CostSpec,
    ) -> Result<Option<Vec<LentLot<'_>>>, AllocError>
        requires number { (spec.now.number ≡ None) ⊎ (spec.now.number ≡ number.now) }
        requires sorted { IsStrictlySortedBy lot_cmp (keys_of self.now) }
        ensures { IfOk result (λ found. IfSome found (λ lots.
            AreLentOf foremost (unsigned_abs units)
            (takeable_lots units (with_number number.now spec.now) (listed self.now))
            lots.items)) }
    {
        let Some(index) = self.index(foremost) else {
            return Ok(None);
        };
        let mut left = units.mantissa().unsigned_abs();
        let mut lots = Vec::new(alloc);
        for (at, lot) in index {
            let key = &at.1;
            if left == 0 && foremost.is_past(&lots, &lot.lend(key)) {
                return Ok(Some(lots));
            }
            if is_other_sign(lot.units, units) && fits_at(number, spec, key) {
                lots.push(lot.lend(key))?;
                left = left.saturating_sub(lot.units.mantissa().unsigned_abs());
            }
        }
        Ok(Some(lots))
    }

    /// Returns the index in which the foremost lots come first, or `None` where there is none.
    fn index(&self, foremost: Foremost) -> Option<&Index>
        ensures { IfSome result (λ index. IsIndex (opened foremost) index.now.entries self.now) }
    {
        match foremost {
            Foremost::Oldest | Foremost::OldestOpened => self.oldest_first.as_ref(),
            Foremost::Newest | Foremost::NewestOpened => self.newest_first.as_ref(),
            Foremost::Highest | Foremost::HighestOpened => self.highest_first.as_ref(),
        }
    }

    /// Returns the lots of the first or the last days that units may take at a number, day by day until they hold the units.
    fn by_day(
        &self,
        alloc: Global,
        foremost: Foremost,
        units: Units,
        number: &Option<Rate>,
        spec: &CostSpec,
    ) -> Result<Vec<LentLot<'_>>, AllocError>
        requires days { foremost ≢ Highest }
        requires together { together foremost ≡ foremost }
        requires number { (spec.now.number ≡ None) ⊎ (spec.now.number ≡ number.now) }
        requires sorted { IsStrictlySortedBy lot_cmp (keys_of self.now) }
        ensures { IfOk result (λ lots. AreLentOf foremost (unsigned_abs units)
            (takeable_lots units (with_number number.now spec.now) (listed self.now))
            lots.items) }
    {
        let mut left = units.mantissa().unsigned_abs();
        let mut lots = Vec::new(alloc);
        let mut entries = self.iter();
        while let Some((key, lot)) = next(foremost, &mut entries) {
            if left == 0 && foremost.is_past(&lots, &lot.lend(key)) {
                return Ok(lots);
            }
            if is_other_sign(lot.units, units) && fits_at(number, spec, key) {
                lots.push(lot.lend(key))?;
                left = left.saturating_sub(lot.units.mantissa().unsigned_abs());
            }
        }
        Ok(lots)
    }

    /// Returns the lots that units may take at a number, those of the highest number or all of them.
    fn at_highest(
        &self,
        alloc: Global,
        units: Units,
        number: &Option<Rate>,
        spec: &CostSpec,
    ) -> Result<Vec<LentLot<'_>>, AllocError>
        requires { (spec.now.number ≡ None) ⊎ (spec.now.number ≡ number.now) }
        ensures { IfOk result (λ lots. AreLentOf Highest (unsigned_abs units)
            (takeable_lots units (with_number number.now spec.now) (listed self.now))
            lots.items) }
    {
        match number {
            Some(_) => self.takeable_at(alloc, units, number, spec),
            None => {
                let highest = self.highest(units, spec);
                self.takeable_at(alloc, units, &highest, spec)
            }
        }
    }

    /// Returns the highest number of the lots that units may take, where the lots of that number hold the units.
    fn highest(&self, units: Units, spec: &CostSpec) -> Option<Rate>
        requires { spec.now.number ≡ None }
        ensures { IfSome result (λ number. HoldsAtHighest (unsigned_abs units) number
            (takeable_lots units spec.now (listed self.now))) }
    {
        let wanted = units.mantissa().unsigned_abs();
        let mut highest = 0;
        let mut left = wanted;
        for (key, lot) in self.iter() {
            let number = key.number.mantissa();
            if highest <= number && is_other_sign(lot.units, units) && spec.fits(key) {
                if highest < number {
                    highest = number;
                    left = wanted;
                }
                left = left.saturating_sub(lot.units.mantissa().unsigned_abs());
            }
        }
        if left == 0 {
            Rate::from_mantissa(highest)
        } else {
            None
        }
    }

    /// Returns the lots that units may take at a number, in the order of their keys.
    fn takeable_at(
        &self,
        alloc: Global,
        units: Units,
        number: &Option<Rate>,
        spec: &CostSpec,
    ) -> Result<Vec<LentLot<'_>>, AllocError>
        requires { (spec.now.number ≡ None) ⊎ (spec.now.number ≡ number.now) }
        ensures { IfOk result (λ lots. lots.items
            ≡ takeable_lots units (with_number number.now spec.now) (listed self.now)) }
    {
        let mut lots = Vec::new(alloc);
        for (key, lot) in self.iter() {
            if fits_at(number, spec, key) && is_other_sign(lot.units, units) {
                lots.push(lot.lend(key))?;
            }
        }
        Ok(lots)
    }

    /// Lists the lots of a commodity behind other rows, in the order of their keys.
    pub(crate) fn list(
        &self,
        commodity: &Commodity,
        rows: &mut Vec<(Commodity, Option<LotKey>, Units)>,
    ) -> Result<(), AllocError>
        ensures all { OnOk result (as_entries rows.new.items
            ≡ as_entries rows.old.items ++ units_in (lot_rows commodity.now self.now)) }
        ensures memory { OnErr result (lot_rows commodity.now self.now ≢ []) }
    {
        for (key, lot) in self.iter() {
            rows.push((commodity.copy()?, Some(key.copy()?), lot.units))?;
        }
        Ok(())
    }

    /// Sets the units of a lot and its opening number. At zero units the lot is no longer held. A lot that is held already
    /// changes in place.
    pub(crate) fn set(&mut self, key: &LotKey, units: Units, opening: u64) -> Result<(), AllocError>
        ensures ordered { IsStrictlySortedBy lot_cmp (keys_of self.new) }
        ensures each { OnOk result ((other : LotKey) → lot_at self.new other
            ≡ cond (is_eq (lot_cmp key.now other)) (kept units opening) (lot_at self.old other)) }
        ensures err { OnErr result (self.new ≡ self.old) }
        ensures memory { OnErr result (lot_at self.old key.now ≡ None) }
        ensures some { OnErr result (units ≢ pos 0) }
    {
        let before = put(&mut self.by_key, key, units, opening)?;
        let lot = OpenLot { units, opening };
        let alloc = if MANY < self.by_key.len() {
            Some(self.alloc)
        } else {
            None
        };
        self.below += one_if_below(&Some(OpenLot { units, opening }));
        self.below -= one_if_below(&before);
        self.oldest_first = renewed(
            self.oldest_first.take(),
            alloc,
            Foremost::OldestOpened,
            &self.by_key,
            key,
            &before,
            &lot,
        );
        self.newest_first = renewed(
            self.newest_first.take(),
            alloc,
            Foremost::NewestOpened,
            &self.by_key,
            key,
            &before,
            &lot,
        );
        self.highest_first = renewed(
            self.highest_first.take(),
            alloc,
            Foremost::HighestOpened,
            &self.by_key,
            key,
            &before,
            &lot,
        );
        Ok(())
    }
}

impl Drop for Lots {
    /// It is written out, so that callers don't prove again how each part is dropped.
    fn drop(self) {
        let Lots {
            alloc: _alloc,
            by_key: _by_key,
            oldest_first: _oldest_first,
            newest_first: _newest_first,
            highest_first: _highest_first,
            below: _below,
        } = self;
    }
}

/// Sets the units of a lot and its opening number. At zero units the lot is no longer held. A lot that is held already changes
/// in place. Returns what was kept of the lot before.
fn put(
    lots: &mut BTreeMap<LotKey, OpenLot>,
    key: &LotKey,
    units: Units,
    opening: u64,
) -> Result<Option<OpenLot>, AllocError>
    ensures ordered { IsOrdered lot_cmp lots.new }
    ensures each { OnOk result ((other : LotKey) → get lot_cmp lots.new other
        ≡ cond (is_eq (lot_cmp key.now other)) (kept units opening) (get lot_cmp lots.old other)) }
    ensures counts { IfOk result (λ before. (test : ℤ → Bool)
        → count_of test lots.new.entries + counted_in test before
        ≡ count_of test lots.old.entries + counted_in test (kept units opening)) }
    ensures before { IfOk result (λ before. get lot_cmp lots.old key.now ≡ before) }
    ensures err { OnErr result (lots.new.entries ≡ lots.old.entries) }
    ensures memory { OnErr result (get lot_cmp lots.old key.now ≡ None) }
    ensures some { OnErr result (units ≢ pos 0) }
{
    if units.mantissa() == 0 {
        return Ok(lots.remove(key));
    }
    let lot = OpenLot { units, opening };
    match lots.get_mut(key) {
        Some(held) => Ok(Some(mem::replace(held, lot))),
        None => {
            lots.insert(key.copy()?, lot)?;
            Ok(None)
        }
    }
}

/// Returns 1 for a lot below zero, 0 for another, and for none.
fn one_if_below(lot: &Option<OpenLot>) -> u64
    ensures { result ≡ counted_in is_below lot.now }
{
    match lot {
        Some(lot) => u64::from(lot.units.mantissa() < 0),
        None => 0,
    }
}

/// Returns the lot that comes next as lots are gone through, by which of them are foremost.
fn next<'a>(
    foremost: Foremost,
    lots: &mut Iter<'a, LotKey, OpenLot>,
) -> Option<(&'a LotKey, &'a OpenLot)>
    ensures none { IfNone result (gone_through foremost lots.old ≡ []) }
    ensures some { IfSome result (λ lot. gone_through foremost lots.old
        ≡ (lot.0.now, lot.1.now) ∷ gone_through foremost lots.new) }
{
    match foremost {
        Foremost::Newest | Foremost::NewestOpened => lots.next_back(),
        Foremost::Oldest | Foremost::OldestOpened => lots.next(),
        Foremost::Highest | Foremost::HighestOpened => lots.next(),
    }
}

/// Returns whether a specification fits a key, and the key has that number where one is given. The specification has that
/// number itself, or none.
fn fits_at(number: &Option<Rate>, spec: &CostSpec, key: &LotKey) -> bool
    requires { (spec.now.number ≡ None) ⊎ (spec.now.number ≡ number.now) }
    ensures { result ≡ fits (with_number number.now spec.now) key.now }
{
    match number {
        Some(number) => key.number == *number && spec.fits(key),
        None => spec.fits(key),
    }
}

/// Returns a sum of mantissas and the mantissa of further units. The sum is that of at most 2^63 units.
fn plus(total: i128, units: Units) -> i128
    requires { unsigned_abs total ≤ 2 ^ 63 * units_limit }
    ensures value { result ≡ total +ℤ units }
    ensures bound { unsigned_abs result ≤ unsigned_abs total + units_limit }
{
    total + i128::from(units.mantissa())
}
