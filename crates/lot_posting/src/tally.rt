ghost use Rattle.std.specs.Prelude.{◌≡◌, ◌≢◌, ◌≤◌, [], ◌∷◌, ◌++◌, ◌+ℤ◌, IfErr, IfOk, IsErrOf, OnOk, Some, IsFalse, IsTrue, true, false, length, ℕ, List};
ghost use Rattle.std.specs.List.{list_any};
ghost use Rattle.lot_book.specs.declared.refusal.Stop.TheVariants.{Memory};
ghost use Rattle.lot_cost.specs.declared.lot_key.LotKey.{LotKey};
ghost use Rattle.lot_inv.specs.Inventory.{Held, lots_of, opening_at, reduces};
ghost use Rattle.lot_num.specs.Amount.{IsUnits};
ghost use Rattle.lot_book.specs.Change.{listed_or, units_after};
ghost use Rattle.lot_book.specs.declared.leg.Leg.{Leg};
ghost use Rattle.lot_book.specs.Leg.{leave_range, with_legs};
ghost use Rattle.lot_book.specs.OpeningNumber.{HasNumber, opening_with_legs};
ghost use Rattle.lot_book.specs.Openings.{FactsWithOpenings};
ghost use Rattle.lot_posting.specs.Tally.{AreOf, BeginInRange, HasLotsAfter, HaveNumbers, KeepsLots, ListsTally, StopsAt, StopsAtLeg, is_lot_of, is_lot_against, is_plain_of, lot_count, plain};
ghost use Rattle.lot_view.specs.View.{known, known_with_openings};

use crate::kept::KeptLots;
use lot_base::{Account, Commodity};
use lot_book::{Leg, Pair, Position, Refusal, Stop};
use lot_command::Items;
use lot_inv::{Inventory, is_other_sign};
use lot_num::Units;
use lot_view::View;
use std::alloc::{AllocError, Global};
use std::collections::BTreeMap;

/// The legs of a transaction so far, what each touched position holds after them, and the opening number of each lot that they
/// open.
#[derive(Drop)]
pub struct Tally {
    pub legs: Items<Leg>,
    pub positions: BTreeMap<Position, Units>,
    pub openings: BTreeMap<Position, u64>,
    /// The lots of the pair that was copied last, if they are kept.
    pub kept: Option<KeptLots>,
}

impl Tally {
    /// Returns a tally without legs.
    pub(crate) fn new(alloc: Global) -> Tally
        ensures legs { result.legs ≡ [] }
        ensures lists { (known : FactsWithOpenings) → ListsTally known result }
    {
        Tally {
            legs: Items::new(alloc),
            positions: BTreeMap::new(alloc),
            openings: BTreeMap::new(alloc),
            kept: None,
        }
    }

    /// Returns what a position holds after the legs so far.
    fn units(&self, view: &View, position: &Position) -> Units
        requires { ListsTally (known_with_openings view.now) self.now }
        ensures { result ≡ units_after (known view.now) self.now.legs position.now }
    {
        match self.positions.get(position) {
            Some(units) => *units,
            None => view.units(
                &position.account,
                &position.commodity,
                position.lot.as_ref(),
            ),
        }
    }

    /// Returns the plain units that an account holds of a commodity after the legs so far.
    pub fn plain_units(&self, view: &View, account: &Account, commodity: &Commodity) -> Units
        requires { ListsTally (known_with_openings view.now) self.now }
        ensures { result ≡ units_after (known view.now) self.now.legs
            (plain account.now commodity.now) }
    {
        for (position, units) in &self.positions {
            if is_plain_of(position, account, commodity) {
                return *units;
            }
        }
        view.units(account, commodity, None)
    }

    /// Adds one more leg. The refusal is `Range` where its position is out of the range of units after it, and needs no
    /// memory.
    fn post(&mut self, view: &View, leg: Leg) -> Result<(), Stop>
        requires number { HasNumber leg.entry leg.posting }
        requires lists { ListsTally (known_with_openings view.now) self.old }
        ensures legs { OnOk result (self.new.legs ≡ self.old.legs ++ leg ∷ []) }
        ensures lists { OnOk result (ListsTally (known_with_openings view.now) self.new) }
        ensures in_range { OnOk result
            (IsUnits (units_after (known view.now) self.old.legs leg.position +ℤ leg.units)) }
        ensures stops { IfErr result (λ stop. StopsAtLeg (known view.now) self.old.legs leg stop) }
        ensures memory { IsErrOf result Memory
            → IsUnits (units_after (known view.now) self.old.legs leg.position +ℤ leg.units) }
    {
        let before = self.units(view, &leg.position);
        let Some(after) = before.checked_add(leg.units) else {
            let posting = leg.posting;
            return Err(Refusal::Range { posting }.into());
        };
        self.put(leg, before, after)?;
        Ok(())
    }

    /// Adds one more leg, whose position holds so many units before it and so many after it. The error is out of memory.
    pub(crate) fn put(&mut self, leg: Leg, before: Units, after: Units) -> Result<(), AllocError>
        requires { HasNumber leg.entry leg.posting }
        ensures legs { OnOk result (self.new.legs ≡ self.old.legs ++ leg ∷ []) }
        ensures lists { OnOk result ((known : FactsWithOpenings) → ListsTally known self.old
            → before ≡ units_after known.facts self.old.legs leg.position
            → after ≡ before +ℤ leg.units → ListsTally known self.new) }
    {
        if before == Units::ZERO && leg.position.lot.is_some() {
            self.openings.insert(leg.position.copy()?, leg.number())?;
        }
        self.positions.insert(leg.position.copy()?, after)?;
        self.add_to_kept(&leg);
        self.legs.push(leg)?;
        Ok(())
    }

    /// Adds one more leg to the kept lots. They are kept no more where there is no memory for it.
    fn add_to_kept(&mut self, leg: &Leg)
        requires { HasNumber leg.now.entry leg.now.posting }
        ensures kept { (known : FactsWithOpenings) (legs : List Leg)
            → KeepsLots known legs self.old.kept
            → KeepsLots known (legs ++ leg.now ∷ []) self.new.kept }
        ensures others { self.new ≡ record self.old { kept = self.new.kept } }
    {
        if let Some(kept) = &mut self.kept {
            if kept.add(leg).is_err() {
                self.kept = None;
            }
        }
    }

    /// Adds the legs of a posting. The refusal is `Range` where, after one of them, a position is out of the range of units. It
    /// needs no memory where that is the first leg.
    pub fn post_all(&mut self, view: &View, legs: Vec<Leg>) -> Result<(), Stop>
        requires numbers { HaveNumbers legs.items }
        requires lists { ListsTally (known_with_openings view.now) self.old }
        ensures legs { OnOk result (self.new.legs ≡ self.old.legs ++ legs.items) }
        ensures lists { OnOk result (ListsTally (known_with_openings view.now) self.new) }
        ensures in_range { OnOk result ((account : List ℕ) (posting : ℕ)
            → AreOf account posting legs.items
            → leave_range
            (with_legs account ((known view.now).held account) self.old.legs) legs.items ≡ false) }
        ensures stops { IfErr result
            (λ stop. (account : List ℕ) (posting : ℕ) → AreOf account posting legs.items
            → StopsAt (with_legs account ((known view.now).held account) self.old.legs) posting
            legs.items stop) }
        ensures memory { IsErrOf result Memory → (account : List ℕ) (posting : ℕ)
            → AreOf account posting legs.items
            → BeginInRange (with_legs account ((known view.now).held account) self.old.legs)
            legs.items }
    {
        for leg in legs {
            self.post(view, leg)?;
        }
        Ok(())
    }

    /// Returns whether units may take lots away from an account after the legs so far. They may where some lot of the commodity
    /// had the other sign before the legs, or has it after one of them. It copies no lot.
    pub(crate) fn may_reduce(
        &self,
        view: &View,
        account: &Account,
        commodity: &Commodity,
        units: Units,
    ) -> bool
        requires { ListsTally (known_with_openings view.now) self.now }
        ensures never { IsFalse result
            → reduces (with_legs account.now ((known view.now).held account.now) self.now.legs)
            commodity.now units ≡ false }
    {
        let reduced = match view.held(account) {
            Some(held) => held.reduces(commodity, units),
            None => false,
        };
        reduced || self.lists_lot_against(account, commodity, units)
    }

    /// Returns whether some leg so far is in a lot of that account and commodity that has the other sign than the units.
    fn lists_lot_against(&self, account: &Account, commodity: &Commodity, units: Units) -> bool
        ensures { result ≡ list_any (is_lot_against account.now commodity.now units)
            self.now.positions.entries }
    {
        for (position, sum) in &self.positions {
            if is_lot_of(position, account, commodity) && is_other_sign(*sum, units) {
                return true;
            }
        }
        false
    }

    /// Returns whether a leg so far is in a lot of that account and commodity.
    pub(crate) fn has_changed(&self, account: &Account, commodity: &Commodity) -> bool
        ensures lots { IsFalse result → (held : Held)
            → lots_of (with_legs account.now held self.now.legs) commodity.now
            ≡ lots_of held commodity.now }
        ensures openings { IsFalse result → (held : Held) (opening : LotKey → ℕ) (lot : LotKey)
            → opening_with_legs account.now commodity.now held opening self.now.legs lot
            ≡ opening lot }
        ensures begun { IsTrue result → self.now.legs ≢ [] }
    {
        for leg in self.legs.as_slice() {
            if is_lot_of(&leg.position, account, commodity) {
                return true;
            }
        }
        false
    }

    /// Takes out the lots that an account holds of a commodity after the legs so far, or copies them where they aren't kept.
    /// None are kept then. The only error is out of memory.
    pub(crate) fn take_lots(
        &mut self,
        alloc: Global,
        view: &View,
        account: &Account,
        commodity: &Commodity,
    ) -> Result<KeptLots, AllocError>
        requires { ListsTally (known_with_openings view.now) self.old }
        ensures pair { IfOk result (λ kept. kept.pair
            ≡ record { account = account.now; commodity = commodity.now }) }
        ensures lots { IfOk result (λ kept. HasLotsAfter (known_with_openings view.now)
            self.old.legs account.now commodity.now kept.lots) }
        ensures others { OnOk result (self.new ≡ record self.old { kept = None }) }
    {
        if let Some(kept) = self.kept.take() {
            if kept.are_of(account, commodity) {
                return Ok(kept);
            }
        }
        let lots = self.copy_lots(alloc, view, account, commodity)?;
        let pair = Pair {
            account: account.copy()?,
            commodity: commodity.copy()?,
        };
        Ok(KeptLots { pair, lots })
    }

    /// Returns a copy of the lots that an account holds of a commodity after the legs so far, and nothing else. The only error
    /// is out of memory.
    fn copy_lots(
        &self,
        alloc: Global,
        view: &View,
        account: &Account,
        commodity: &Commodity,
    ) -> Result<Inventory, AllocError>
        requires { ListsTally (known_with_openings view.now) self.now }
        ensures { IfOk result (λ lots. HasLotsAfter (known_with_openings view.now)
            self.now.legs account.now commodity.now lots) }
    {
        let mut lots = match view.held(account) {
            Some(held) => held.only_lots(commodity)?,
            None => Inventory::new(alloc),
        };
        for leg in self.legs.as_slice() {
            let position = &leg.position;
            if is_lot_of(position, account, commodity) {
                let units = self.units(view, position);
                let opening = self.opening(&lots, position);
                lots.set(commodity, position.lot.as_ref(), units, opening)?;
            }
        }
        Ok(lots)
    }

    /// Returns the opening number of a lot after the legs so far: the one that is listed, or else the lot's own among lots of
    /// its commodity. It is 0 where the lot isn't held there.
    fn opening(&self, lots: &Inventory, position: &Position) -> u64
        ensures { (lot : LotKey) → position.now.lot ≡ Some lot
            → result ≡ listed_or self.now.openings position.now.account position.now.commodity lot
            (opening_at lots.now position.now.commodity lot) }
    {
        match (self.openings.get(position), &position.lot) {
            (Some(number), _) => *number,
            (None, Some(lot)) => lots.opening(&position.commodity, lot).unwrap_or(0),
            (None, None) => 0,
        }
    }

    /// Returns a number that the lots of a commodity in an account don't exceed after the legs so far: those before them, and
    /// one for each position that they touch. It looks at none of these.
    pub fn bound_lots(&self, view: &View, account: &Account, commodity: &Commodity) -> u128
        requires { ListsTally (known_with_openings view.now) self.now }
        ensures { length (lots_of
            (with_legs account.now ((known view.now).held account.now) self.now.legs)
            commodity.now) ≤ result }
    {
        let before = match view.held(account) {
            Some(held) => u128::from(held.lots(commodity)),
            None => 0,
        };
        before + self.positions.len() as u128
    }

    /// Returns how many lots of a commodity an account holds after the legs so far.
    pub fn count_lots(&self, view: &View, account: &Account, commodity: &Commodity) -> u128
        requires { ListsTally (known_with_openings view.now) self.now }
        ensures { result ≡ length (lots_of (with_legs account.now
            ((known view.now).held account.now) self.now.legs) commodity.now) }
    {
        let before = match view.held(account) {
            Some(held) => u128::from(held.lots(commodity)),
            None => 0,
        };
        let mut had = 0u128;
        let mut listed = 0u128;
        for (position, units) in &self.positions {
            if is_lot_of(position, account, commodity) {
                had += lot_count(view.units(account, commodity, position.lot.as_ref()));
                listed += lot_count(*units);
            }
        }
        before + listed - had
    }
}

/// Returns how many lots units make: none where they are zero.
fn lot_count(units: Units) -> u128
    ensures { result ≡ lot_count units }
{
    u128::from(units != Units::ZERO)
}

/// Returns whether a position is that of the plain units of that account and commodity.
fn is_plain_of(position: &Position, account: &Account, commodity: &Commodity) -> bool
    ensures { result ≡ is_plain_of account.now commodity.now position.now }
{
    position.lot.is_none() && position.account == *account && position.commodity == *commodity
}

/// Returns whether a position is a lot of that account and commodity.
pub(crate) fn is_lot_of(position: &Position, account: &Account, commodity: &Commodity) -> bool
    ensures { result ≡ is_lot_of account.now commodity.now position.now }
{
    position.lot.is_some() && position.account == *account && position.commodity == *commodity
}
