ghost use Rattle.std.specs.Prelude.{◌≡◌, ◌≢◌, ◌⊎◌, [], ◌++◌, map, ℤ, pos, ◌+ℤ◌, ◌*ℤ◌, length, option_copied, unsigned_abs, SomeIff, Option, None, cond, ◌↔◌, IsTrue, IsFalse, IsOk, IsErrOf, IfOk, OnOk, OnErr};
ghost use Rattle.std.specs.FinMap as finite;
ghost use Rattle.std.specs.List.Sorted.{IsStrictlySortedBy};
ghost use Rattle.std.specs.Map.{keys_of};
ghost use Rattle.std.specs.Option.{option_cmp, unwrap_or};
ghost use Rattle.std.specs.Ordering.{is_eq};
ghost use Rattle.lot_num.specs.Amount.{IsUnits, IsWide, one};
ghost use Rattle.lot_inv.specs.Inventory.{NumbersLots, StoresMore, added_lot, as_entries, fitting, lots_of, matching, non_zero, nothing, only_lots, opened_at, opening_at, other_sign, reduces, sum, units_at, with_lot, with_number};
ghost use Rattle.lot_inv.specs.Foremost.{AreLentOf, Counts, numbered, only_of};
ghost use Rattle.lot_inv.specs.Lot.{AreNumberedBy, key_and_units};
ghost use Rattle.lot_inv.specs.Zeros.{HasNoZeros};
ghost use Rattle.lot_cost.specs.LotKey.{lot_cmp};
ghost use Rattle.lot_inv.specs.Holding.{AreAlike, AreHoldings, ChangesPosition, NeedsPosition, NoneIsEmpty, NoOtherIsEmpty, kept_at, plain_rows, rows_of, units_in, with_lots};
ghost use Rattle.lot_cost.specs.declared.lot_key.LotKey.{LotKey};
ghost use Rattle.lot_inv.specs.declared.fault.InventoryFault.TheVariants.{Memory, Range};

use crate::fault::InventoryFault;
use crate::foremost::Foremost;
use crate::lot::{LentLot, Lot};
use crate::lots::{Available, Lots};
use lot_base::Commodity;
use lot_cost::{CostSpec, LotKey};
use lot_num::{Rate, Units, Wide};
use std::alloc::{AllocError, Global};
use std::collections::BTreeMap;
use std::marker::Model;

/// What is held of each commodity, plain and lot by lot, and the opening number of each lot.
///
/// A contract sees an inventory as two finite maps. One has the units of each position, which are never zero. A position is a
/// commodity with the key of a lot, or without one. The other map has the opening numbers of the lots.
pub struct Inventory {
    alloc: Global,
    held: BTreeMap<Commodity, Holding>,
}

/// What is held of one commodity.
struct Holding {
    plain: Units,
    lots: Lots,
}

impl Model for Inventory {
    ghost use Rattle.std.specs.FinMap as finite;
    ghost use Rattle.lot_inv.specs.Holding.{AreHoldings, NoneIsEmpty, openings_in, rows, units_in};
    ghost use Rattle.lot_inv.specs.Inventory.{Stock, coded_stock};

    ghost Value = { Stock };

    ghost coded = { coded_stock };

    ghost view = { λ i. record {
      held = finite.from_entries (units_in (rows i.held.entries));
      opened = finite.from_entries (openings_in (rows i.held.entries));
    } };

    ghost invariant = { λ i. AreHoldings i.held.entries × NoneIsEmpty i.held.entries };
}

impl Inventory {
    /// Returns an inventory that holds nothing.
    pub fn new(alloc: Global) -> Inventory
        ensures { result ≡ nothing }
    {
        Inventory {
            alloc,
            held: BTreeMap::new(alloc),
        }
    }

    /// Returns the units of a commodity in the lot of that key. Without a key it is the plain units. They are zero where none
    /// are held.
    pub fn units(&self, commodity: &Commodity, key: Option<&LotKey>) -> Units
        ensures value { result ≡ units_at self.now.held (commodity.now, option_copied key.entry) }
        ensures held { finite.get self.now.held (commodity.now, option_copied key.entry)
            ≡ non_zero result }
    {
        match self.held.get(commodity) {
            Some(holding) => holding.units(key),
            None => Units::ZERO,
        }
    }

    /// Returns the opening number of a lot, or `None` where it isn't held. It takes no memory.
    pub fn opening(&self, commodity: &Commodity, key: &LotKey) -> Option<u64>
        ensures { result ≡ opened_at self.now commodity.now key.now }
    {
        match self.held.get(commodity) {
            Some(holding) => holding.opening(key),
            None => None,
        }
    }

    /// States for a caller that no position holds zero units, and that each lot that is held has an opening number. It does
    /// nothing.
    pub fn has_no_zeros(&self)
        ensures no_zeros { HasNoZeros self.now.held }
        ensures numbered { NumbersLots self.now }
    {
        let _ = &self.held;
    }

    /// Returns how many lots of a commodity are held.
    pub fn lots(&self, commodity: &Commodity) -> u64
        ensures { result ≡ length (lots_of self.now.held commodity.now) }
    {
        match self.held.get(commodity) {
            Some(holding) => holding.lots.len() as u64,
            None => 0,
        }
    }

    /// Returns whether some lot of the commodity has the other sign than the units. Plain units don't count.
    pub fn reduces(&self, commodity: &Commodity, units: Units) -> bool
        ensures { result ≡ reduces self.now.held commodity.now units }
    {
        match self.held.get(commodity) {
            Some(holding) => holding.lots.has_other_sign(units),
            None => false,
        }
    }

    /// Returns the sum of the units of all lots of a commodity, at scale 16, or `None` where it is out of range.
    pub fn sum(&self, commodity: &Commodity) -> Option<Wide>
        ensures { SomeIff result (IsWide (sum self.now.held commodity.now *ℤ pos one))
            (sum self.now.held commodity.now *ℤ pos one) }
    {
        wide(self.total(commodity))
    }

    /// Returns the sum of the mantissas of all lots of a commodity, at scale 8.
    fn total(&self, commodity: &Commodity) -> i128
        ensures { result ≡ sum self.now.held commodity.now }
    {
        match self.held.get(commodity) {
            Some(holding) => holding.lots.total(),
            None => 0,
        }
    }

    /// Returns the lots of a commodity that a specification fits, in the order of their keys. The only error is out of memory.
    /// It comes only where some lot fits.
    pub fn matching(&self, commodity: &Commodity, spec: &CostSpec) -> Result<Vec<Lot>, AllocError>
        ensures all { IfOk result
            (λ lots. map key_and_units lots.items ≡ matching self.now.held commodity.now spec.now) }
        ensures numbers { IfOk result
            (λ lots. AreNumberedBy (opening_at self.now commodity.now) lots.items) }
        ensures distinct { IfOk result
            (λ lots. IsStrictlySortedBy lot_cmp (keys_of (map key_and_units lots.items))) }
        ensures memory { OnErr result (matching self.now.held commodity.now spec.now ≢ []) }
    {
        match self.held.get(commodity) {
            Some(holding) => holding.lots.matching(self.alloc, spec),
            None => Ok(Vec::new(self.alloc)),
        }
    }

    /// Returns how many lots of a commodity units may take at a number, what these lots hold, and the lot where it is the only
    /// one. They are the lots of the other sign that the specification fits. Where a number is given they have that number. All
    /// of them are counted, or only the first ones, where these are two or more and hold more than the units. It takes no memory.
    ///
    /// The specification has that number itself, or none.
    pub fn available(
        &self,
        commodity: &Commodity,
        units: Units,
        number: &Option<Rate>,
        spec: &CostSpec,
    ) -> Available<'_>
        requires { (spec.now.number ≡ None) ⊎ (spec.now.number ≡ number.now) }
        ensures counted { Counts (unsigned_abs units) result.lots result.held
            (fitting self.now.held commodity.now units (with_number number.now spec.now)) }
        ensures only { let all = fitting self.now.held commodity.now units
            (with_number number.now spec.now)
            in result.only ≡ only_of (numbered (opening_at self.now commodity.now) all) }
    {
        match self.held.get(commodity) {
            Some(holding) => holding.lots.available(units, number, spec),
            None => Available {
                lots: 0,
                held: 0,
                only: None,
            },
        }
    }

    /// Returns the lots that units may take at a number, the foremost ones, until they hold the units: those of a day or of a
    /// number together, or by their opening numbers. Their keys are lent, not copied. The only error is out of memory.
    ///
    /// The specification has that number itself, or none.
    pub fn takeable(
        &self,
        commodity: &Commodity,
        foremost: Foremost,
        units: Units,
        number: &Option<Rate>,
        spec: &CostSpec,
    ) -> Result<Vec<LentLot<'_>>, AllocError>
        requires { (spec.now.number ≡ None) ⊎ (spec.now.number ≡ number.now) }
        ensures { let all = fitting self.now.held commodity.now units
            (with_number number.now spec.now)
            in IfOk result (λ lots. AreLentOf foremost (unsigned_abs units)
            (numbered (opening_at self.now commodity.now) all) lots.items) }
    {
        match self.held.get(commodity) {
            Some(holding) => holding
                .lots
                .takeable(self.alloc, foremost, units, number, spec),
            None => Ok(Vec::new(self.alloc)),
        }
    }

    /// Returns an inventory of the lots of a commodity alone, each with its units and its opening number. It has no plain
    /// units, and no other commodity. The only error is out of memory. It comes only where there is such a lot.
    pub fn only_lots(&self, commodity: &Commodity) -> Result<Inventory, AllocError>
        ensures lots { IfOk result
            (λ inventory. inventory.held ≡ only_lots self.now.held commodity.now) }
        ensures openings { IfOk result (λ inventory. (lot : LotKey)
            → opened_at inventory commodity.now lot ≡ opened_at self.now commodity.now lot) }
        ensures memory { OnErr result (lots_of self.now.held commodity.now ≢ []) }
    {
        match self.held.get(commodity) {
            Some(holding) => holding.only_lots(self.alloc, commodity),
            None => Ok(Inventory::new(self.alloc)),
        }
    }

    /// Returns all that is held, a row for each position: by commodity, the plain units first, then the lots in the order of
    /// their keys. The only error is out of memory. It comes only where something is held.
    pub fn rows(&self) -> Result<Vec<(Commodity, Option<LotKey>, Units)>, AllocError>
        ensures all { IfOk result (λ rows. as_entries rows.items ≡ finite.entries self.now.held) }
        ensures memory { OnErr result (finite.entries self.now.held ≢ []) }
    {
        let mut rows = Vec::new(self.alloc);
        for (commodity, holding) in &self.held {
            holding.list(commodity, &mut rows)?;
        }
        Ok(rows)
    }

    /// Adds units to the lot of that key. Without a key it adds them to the plain units. A position that becomes zero is no
    /// longer held. A lot that isn't held is opened under the opening number. A lot that is held keeps its own, and plain units
    /// have none.
    ///
    /// The error is `Range` exactly where the sum is out of range. It is `Memory` only where units that aren't zero are added
    /// to a lot that isn't held, or to plain units of a commodity of which nothing is held. On an error nothing changes.
    pub fn add(
        &mut self,
        commodity: &Commodity,
        key: Option<&LotKey>,
        units: Units,
        opening: u64,
    ) -> Result<(), InventoryFault>
        ensures ok { OnOk result
            (self.new ≡ added_lot self.old (commodity.now, option_copied key.entry) units opening) }
        ensures good { IsOk result
            → IsUnits (units_at self.old.held (commodity.now, option_copied key.entry) +ℤ units) }
        ensures range { IsErrOf result Range ↔ (IsUnits
            (units_at self.old.held (commodity.now, option_copied key.entry) +ℤ units) → ⊥) }
        ensures memory { IsErrOf result Memory
            → StoresMore self.old.held (commodity.now, option_copied key.entry) units }
        ensures err { OnErr result (self.new ≡ self.old) }
    {
        let sum = match self.units(commodity, key).checked_add(units) {
            Some(sum) => sum,
            None => return Err(InventoryFault::Range),
        };
        let opening = match key {
            Some(key) => self.opening(commodity, key).unwrap_or(opening),
            None => opening,
        };
        self.set(commodity, key, sum, opening)?;
        Ok(())
    }

    /// Sets the units in the lot of that key, and its opening number. Without a key it sets the plain units, which have no
    /// opening number. A position that is set to zero is no longer held.
    ///
    /// The only error is out of memory. It comes only where units that aren't zero are set in a lot that isn't held, or as
    /// plain units of a commodity of which nothing is held. On an error nothing changes.
    pub fn set(
        &mut self,
        commodity: &Commodity,
        key: Option<&LotKey>,
        units: Units,
        opening: u64,
    ) -> Result<(), AllocError>
        ensures ok { OnOk result
            (self.new ≡ with_lot self.old (commodity.now, option_copied key.entry) units opening) }
        ensures memory { OnErr result
            (StoresMore self.old.held (commodity.now, option_copied key.entry) units) }
        ensures err { OnErr result (self.new ≡ self.old) }
    {
        set(&mut self.held, self.alloc, commodity, key, units, opening)
    }
}

impl Drop for Inventory {
    /// It is written out, so that callers don't prove again how each part is dropped.
    fn drop(self) {
        let Inventory {
            alloc: _alloc,
            held: _held,
        } = self;
    }
}

impl Holding {
    ghost use Rattle.lot_inv.specs.Holding.{HoldsSomething, IsHolding, NeedsLot, held_at, listed, opening_of, units_of};
    ghost use Rattle.lot_inv.specs.Lots.{lot_at};
    ghost use Rattle.lot_inv.specs.declared.lot.Lot.{Lot};

    /// Returns the units in the lot of that key, or the plain ones. They are zero where none are held.
    fn units(&self, key: Option<&LotKey>) -> Units
        ensures { result
            ≡ unwrap_or (units_of (held_at self.now (option_copied key.entry))) (pos 0) }
    {
        match key {
            Some(key) => self.lots.get(key).map_or(Units::ZERO, |lot| lot.units),
            None => self.plain,
        }
    }

    /// Returns the opening number of the lot of that key, or `None` where it isn't held.
    fn opening(&self, key: &LotKey) -> Option<u64>
        ensures { result ≡ opening_of (lot_at self.now.lots key.now) }
    {
        self.lots.get(key).map(|lot| lot.opening)
    }

    /// Returns a holding that holds nothing.
    fn new(alloc: Global) -> Holding
        ensures holding { IsHolding result }
        ensures nothing { (key : Option LotKey) → held_at result key ≡ None }
    {
        Holding {
            plain: Units::ZERO,
            lots: Lots::new(alloc),
        }
    }

    /// Returns whether it holds nothing.
    fn is_empty(&self) -> bool
        ensures nothing { IsTrue result → (key : Option LotKey) → held_at self.now key ≡ None }
        ensures something { IsFalse result → HoldsSomething self.now }
    {
        self.plain == Units::ZERO && self.lots.len() == 0
    }

    /// Sets the units in the lot of that key and its opening number, or the plain units. A lot of zero units is held no more.
    /// Only a lot that isn't held yet needs memory.
    fn set(&mut self, key: Option<&LotKey>, units: Units, opening: u64) -> Result<(), AllocError>
        requires { IsHolding self.old }
        ensures holding { IsHolding self.new }
        ensures ok { OnOk result ((other : Option LotKey) → held_at self.new other
            ≡ cond (is_eq (option_cmp lot_cmp (option_copied key.entry) other))
            (kept_at (option_copied key.entry) units opening) (held_at self.old other)) }
        ensures err { OnErr result ((other : Option LotKey)
            → held_at self.new other ≡ held_at self.old other) }
        ensures memory { OnErr result (NeedsLot self.old (option_copied key.entry)) }
        ensures some { OnErr result (units ≢ pos 0) }
    {
        match key {
            Some(key) => self.lots.set(key, units, opening)?,
            None => self.plain = units,
        }
        Ok(())
    }

    /// Returns an inventory of these lots, as lots of the commodity.
    fn only_lots(&self, alloc: Global, commodity: &Commodity) -> Result<Inventory, AllocError>
        ensures lots { IfOk result
            (λ inventory. inventory ≡ with_lots nothing commodity.now self.now.lots) }
        ensures memory { OnErr result (self.now.lots ≢ []) }
    {
        let mut lots = Inventory::new(alloc);
        for (key, lot) in self.lots.iter() {
            lots.set(commodity, Some(key), lot.units, lot.opening)?;
        }
        Ok(lots)
    }

    /// Lists what is held of the commodity behind other rows: the plain units, then the lots in the order of their keys.
    fn list(
        &self,
        commodity: &Commodity,
        rows: &mut Vec<(Commodity, Option<LotKey>, Units)>,
    ) -> Result<(), AllocError>
        ensures all { OnOk result (as_entries rows.new.items ≡ as_entries rows.old.items
            ++ units_in (rows_of commodity.now self.now)) }
        ensures memory { OnErr result (rows_of commodity.now self.now ≢ []) }
    {
        list_plain(self.plain, commodity, rows)?;
        self.lots.list(commodity, rows)
    }
}

impl Drop for Holding {
    /// It is written out, so that callers don't prove again how each part is dropped.
    fn drop(self) {
        let Holding {
            plain: _plain,
            lots: _lots,
        } = self;
    }
}

/// Lists the plain units of a commodity behind other rows, unless they are zero.
fn list_plain(
    units: Units,
    commodity: &Commodity,
    rows: &mut Vec<(Commodity, Option<LotKey>, Units)>,
) -> Result<(), AllocError>
    ensures all { OnOk result (as_entries rows.new.items ≡ as_entries rows.old.items
        ++ units_in (plain_rows commodity.now units)) }
    ensures memory { OnErr result (plain_rows commodity.now units ≢ []) }
{
    if units.mantissa() != 0 {
        rows.push((commodity.copy()?, None, units))?;
    }
    Ok(())
}

/// Sets the units at a position and, for a lot, its opening number. It needs memory only for a lot that isn't held yet, or for
/// a commodity of which nothing is held.
fn set(
    held: &mut BTreeMap<Commodity, Holding>,
    alloc: Global,
    commodity: &Commodity,
    key: Option<&LotKey>,
    units: Units,
    opening: u64,
) -> Result<(), AllocError>
    requires holdings { AreHoldings held.old.entries }
    requires none_empty { NoneIsEmpty held.old.entries }
    ensures holdings { AreHoldings held.new.entries }
    ensures none_empty { NoneIsEmpty held.new.entries }
    ensures ok { OnOk result
        (ChangesPosition held.old.entries held.new.entries (commodity.now, option_copied key.entry)
        (kept_at (option_copied key.entry) units opening)) }
    ensures memory { OnErr result
        (NeedsPosition held.old.entries (commodity.now, option_copied key.entry)) }
    ensures some { OnErr result (units ≢ pos 0) }
    ensures err { OnErr result (AreAlike held.old.entries held.new.entries) }
{
    match held.get_mut(commodity) {
        Some(holding) => {
            holding.set(key, units, opening)?;
            forget_if_empty(held, commodity);
        }
        // Nothing is held there, and nothing is to be.
        None if units.mantissa() == 0 => {}
        None => {
            let mut holding = Holding::new(alloc);
            holding.set(key, units, opening)?;
            held.insert(commodity.copy()?, holding)?;
        }
    }
    Ok(())
}

/// Removes a commodity of which nothing is held any more.
fn forget_if_empty(held: &mut BTreeMap<Commodity, Holding>, commodity: &Commodity)
    requires holdings { AreHoldings held.old.entries }
    requires no_other_empty { NoOtherIsEmpty commodity.now held.old.entries }
    ensures holdings { AreHoldings held.new.entries }
    ensures none_empty { NoneIsEmpty held.new.entries }
    ensures alike { AreAlike held.old.entries held.new.entries }
{
    let Some(holding) = held.get(commodity) else {
        return;
    };
    if holding.is_empty() {
        held.remove(commodity);
    }
}

/// Returns the units of a mantissa at scale 16, or `None` where they are out of range.
fn wide(mantissa: i128) -> Option<Wide>
    ensures { SomeIff result (IsWide (mantissa *ℤ pos one)) (mantissa *ℤ pos one) }
{
    Wide::from_mantissa(mantissa.checked_mul(100_000_000)?)
}

/// Returns whether one of the two is below zero and the other above it.
pub fn is_other_sign(a: Units, b: Units) -> bool
    ensures { result ≡ other_sign a b }
{
    let (a, b) = (a.mantissa(), b.mantissa());
    (a < 0 && 0 < b) || (0 < a && b < 0)
}
