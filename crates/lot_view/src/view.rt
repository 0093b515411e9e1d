ghost use Rattle.std.specs.Prelude.{◌≡◌, ℕ, ◌+ℤ◌, ◌<◌, ◌&&◌, ◌||◌, ◌↔◌, if◌then◌else◌, List, None, Some, MatchOption, IfOk, IfSome, OnOk, OnErr, IsOk, IsErrOf, option_and_then, option_copied};
ghost use Rattle.std.specs.BTreeMap.{get};
ghost use Rattle.std.specs.BTreeSet.{contains};
ghost use Rattle.std.specs.FinMap as finite;
ghost use Rattle.std.specs.Option.{option_map, option_or};
ghost use Rattle.std.specs.String.{string_bytes};
ghost use Rattle.lot_num.specs.Amount.{IsUnits};
ghost use Rattle.lot_base.specs.Text.{same_text, text_cmp};
ghost use Rattle.lot_cost.specs.declared.lot_key.LotKey.{LotKey};
ghost use Rattle.lot_inv.specs.Inventory.{NumbersLots, non_zero, opened_at, opening_at, units_at, with_lot};
ghost use Rattle.lot_inv.specs.Zeros.{HasNoZeros};
ghost use Rattle.lot_inv.specs.declared.fault.InventoryFault.TheVariants.{Range};
ghost use Rattle.lot_book.specs.Facts.{declares, standing_by};
ghost use Rattle.lot_book.specs.Holding.{ListsHoldings};
ghost use Rattle.lot_book.specs.Refusals.{most_entries};
ghost use Rattle.lot_book.specs.Openings.{HaveSameOpenings, with_listed, with_opening};
ghost use Rattle.lot_view.specs.View.{day_in, held_in, known, known_with_openings, openings_in, stock_in};
ghost use Rattle.lot_book.specs.Recorded.{closed_on, nothing_but, recorded, standing_after, with_declared, with_head, with_position, with_rows, with_standing, with_text, without_text};
ghost use Rattle.lot_book.specs.Change.{day_listed};

use crate::holdings::list_account;
use lot_base::{Account, Commodity, Day};
use lot_book::{Change, Holding, Pair, Position, Standing};
use lot_command::{Closing, Command, Opening};
use lot_cost::LotKey;
use lot_inv::{Inventory, InventoryFault};
use lot_num::Units;
use std::alloc::{AllocError, Global};
use std::collections::{BTreeMap, BTreeSet};

/// What is known of a book, to judge commands on: the facts that were put in, and those of the commands recorded since.
#[derive(Drop)]
pub struct View {
    alloc: Global,
    /// The number of entries.
    entries: u32,
    /// The canonical text that stands under the command's key.
    text: Option<String>,
    /// The state of each account that was opened.
    standings: BTreeMap<Account, Standing>,
    declared: BTreeSet<Commodity>,
    /// For each account and commodity the latest day of a posting with braces.
    heads: BTreeMap<Account, BTreeMap<Commodity, Day>>,
    held: BTreeMap<Account, Inventory>,
}

impl View {
    /// Returns a view of a book with so many entries, of which nothing else is known.
    pub fn new(alloc: Global, entries: u32) -> View
        ensures { known result ≡ nothing_but entries }
    {
        View {
            alloc,
            entries,
            text: None,
            standings: BTreeMap::new(alloc),
            declared: BTreeSet::new(alloc),
            heads: BTreeMap::new(alloc),
            held: BTreeMap::new(alloc),
        }
    }

    /// Puts the canonical text that stands under the command's key.
    pub fn put_text(&mut self, text: String)
        ensures facts { known self.new ≡ with_text (string_bytes text) (known self.old) }
        ensures openings { (known_with_openings self.new).opening
            ≡ (known_with_openings self.old).opening }
    {
        self.text = Some(text);
    }

    /// Forgets the text, before a command with another key.
    pub fn clear_text(&mut self)
        ensures facts { known self.new ≡ without_text (known self.old) }
        ensures openings { (known_with_openings self.new).opening
            ≡ (known_with_openings self.old).opening }
    {
        self.text = None;
    }

    /// Puts the state of an account. The error is out of memory; nothing changes then.
    pub fn put_account(&mut self, account: &Account, standing: Standing) -> Result<(), AllocError>
        ensures ok { OnOk result
            (known self.new ≡ with_standing account.now standing (known self.old)) }
        ensures openings { (known_with_openings self.new).opening
            ≡ (known_with_openings self.old).opening }
        ensures err { OnErr result (known self.new ≡ known self.old) }
    {
        self.standings.insert(account.copy()?, standing)?;
        Ok(())
    }

    /// Puts the latest day on which the account and the commodity were posted to with braces. The error is out of memory;
    /// nothing changes then.
    pub fn put_head(
        &mut self,
        account: &Account,
        commodity: &Commodity,
        day: Day,
    ) -> Result<(), AllocError>
        ensures ok { OnOk result
            (known self.new ≡ with_head account.now commodity.now day (known self.old)) }
        ensures openings { (known_with_openings self.new).opening
            ≡ (known_with_openings self.old).opening }
        ensures err { OnErr result (known self.new ≡ known self.old) }
    {
        set_day(&mut self.heads, self.alloc, account, commodity, day)
    }

    /// Puts that a commodity is declared. The error is out of memory; nothing changes then.
    pub fn put_declared(&mut self, commodity: &Commodity) -> Result<(), AllocError>
        ensures ok { OnOk result (known self.new ≡ with_declared commodity.now (known self.old)) }
        ensures openings { (known_with_openings self.new).opening
            ≡ (known_with_openings self.old).opening }
        ensures err { OnErr result (known self.new ≡ known self.old) }
    {
        self.declared.insert(commodity.copy()?)?;
        Ok(())
    }

    /// Puts further units at a position. A lot that holds nothing is opened under the opening number. A lot that holds some
    /// keeps its own. The error is `Range` exactly where the sum is out of range, else out of memory; nothing changes then.
    pub fn put_position(
        &mut self,
        account: &Account,
        commodity: &Commodity,
        lot: Option<&LotKey>,
        units: Units,
        opening: u64,
    ) -> Result<(), InventoryFault>
        ensures ok { OnOk result
            (known self.new ≡ with_position account.now commodity.now
            (option_copied lot.entry) units (known self.old)) }
        ensures openings { OnOk result ((other what : List ℕ)
            → HaveSameOpenings what ((known self.new).held other)
            (with_opening (known_with_openings self.old)
            (record {
              account = account.now;
              commodity = commodity.now;
              lot = option_copied lot.entry;
            })
            opening other what)
            ((known_with_openings self.new).opening other what)) }
        ensures good { IsOk result
            → IsUnits (units_at ((known self.old).held account.now)
            (commodity.now, option_copied lot.entry) +ℤ units) }
        ensures range { IsErrOf result Range
            ↔ (IsUnits (units_at ((known self.old).held account.now)
            (commodity.now, option_copied lot.entry) +ℤ units) → ⊥) }
        ensures err { OnErr result (known_with_openings self.new ≡ known_with_openings self.old) }
    {
        let sum = match self.units(account, commodity, lot).checked_add(units) {
            Some(sum) => sum,
            None => return Err(InventoryFault::Range),
        };
        let number = opening_of(&self.held, account, commodity, lot).unwrap_or(opening);
        set_units(
            &mut self.held,
            self.alloc,
            account,
            commodity,
            lot,
            sum,
            number,
        )?;
        Ok(())
    }

    /// Records an accepted command and what it changes. The view then has one entry more, and no text under the next command's
    /// key. The error is out of memory, and the view is then lost.
    pub fn record(mut self, command: &Command, change: &Change) -> Result<View, AllocError>
        requires { (known self).entries < most_entries }
        ensures facts { IfOk result
            (λ view. known view ≡ recorded (known self) command.now change.now) }
        ensures openings { IfOk result (λ view. (account commodity : List ℕ)
            → HaveSameOpenings commodity ((known view).held account)
            (with_listed change.now.openings (known_with_openings self).opening account commodity)
            ((known_with_openings view).opening account commodity)) }
    {
        keep_standing(&mut self.standings, self.alloc, command)?;
        keep_declared(&mut self.declared, command)?;
        keep_heads(&mut self.heads, self.alloc, &change.heads)?;
        keep_held(
            &mut self.held,
            self.alloc,
            &change.positions,
            &change.openings,
        )?;
        keep_openings(&mut self.held, self.alloc, &change.openings)?;
        self.entries += 1;
        Ok(View { text: None, ..self })
    }

    /// Returns the number of entries.
    pub fn entries(&self) -> u32
        ensures { result ≡ (known self.now).entries }
    {
        self.entries
    }

    /// Returns the canonical text that stands under the command's key, if there is one.
    pub fn text(&self) -> Option<&str>
        ensures { option_copied result ≡ (known self.now).text }
    {
        self.text.as_deref()
    }

    /// Returns the state of an account, if it was opened.
    pub fn standing(&self, account: &Account) -> Option<&Standing>
        ensures { option_copied result ≡ (known self.now).standing account.now }
    {
        self.standings.get(account)
    }

    /// Returns whether a commodity is declared.
    pub fn is_declared(&self, commodity: &Commodity) -> bool
        ensures { result ≡ (known self.now).is_declared commodity.now }
    {
        self.declared.contains(commodity)
    }

    /// Returns the latest day on which the account and the commodity were posted to with braces.
    pub fn latest_at_cost(&self, account: &Account, commodity: &Commodity) -> Option<Day>
        ensures { result ≡ (known self.now).latest_at_cost account.now commodity.now }
    {
        self.heads.get(account)?.get(commodity).copied()
    }

    /// Returns the units at a position, zero where it holds none.
    pub fn units(&self, account: &Account, commodity: &Commodity, lot: Option<&LotKey>) -> Units
        ensures { result ≡ units_at ((known self.now).held account.now)
            (commodity.now, option_copied lot.entry) }
    {
        units_of(&self.held, account, commodity, lot)
    }

    /// Returns the inventory of an account, or `None` where nothing is known of what it holds.
    pub fn held(&self, account: &Account) -> Option<&Inventory>
        ensures value { MatchOption result ((known self.now).held account.now ≡ finite.empty)
            (λ held. held.now.held ≡ (known self.now).held account.now) }
        ensures openings { IfSome result (λ held. (commodity : List ℕ)
            → opening_at held.now commodity
            ≡ (known_with_openings self.now).opening account.now commodity) }
        ensures no_zeros { HasNoZeros ((known self.now).held account.now) }
        ensures numbered { IfSome result (λ held. NumbersLots held.now) }
    {
        let held = self.held.get(account)?;
        held.has_no_zeros();
        Some(held)
    }

    /// Returns what all accounts hold, a row for each position: by account, then commodity, the plain units first, then the
    /// lots in the order of their keys. The only error is out of memory.
    pub fn holdings(&self) -> Result<Vec<Holding>, AllocError>
        ensures { IfOk result (λ rows. ListsHoldings (known self.now) rows.items) }
    {
        let mut rows = Vec::new(self.alloc);
        for (account, inventory) in &self.held {
            inventory.has_no_zeros();
            list_account(account, inventory.rows()?, &mut rows)?;
        }
        Ok(rows)
    }
}

/// Keeps the standing of an account that a command opens or closes. The error is out of memory.
fn keep_standing(
    standings: &mut BTreeMap<Account, Standing>,
    alloc: Global,
    command: &Command,
) -> Result<(), AllocError>
    ensures { OnOk result ((account : List ℕ) → get text_cmp standings.new account
        ≡ standing_after account command.now (get text_cmp standings.old account)) }
{
    match command {
        Command::Opening(opening) => open(standings, alloc, opening)?,
        Command::Closing(closing) => close(standings, closing),
        _ => {}
    }
    Ok(())
}

/// Opens an account. The error is out of memory.
fn open(
    standings: &mut BTreeMap<Account, Standing>,
    alloc: Global,
    opening: &Opening,
) -> Result<(), AllocError>
    ensures { OnOk result ((account : List ℕ) → get text_cmp standings.new account
        ≡ if same_text account opening.now.account then Some (standing_by None opening.now)
        else get text_cmp standings.old account) }
{
    let standing = Standing {
        opened: opening.day,
        closed: None,
        method: opening.method,
        allowed: opening.currencies.copy(alloc)?,
    };
    standings.insert(opening.account.copy()?, standing)?;
    Ok(())
}

/// Closes an account, where it was opened and isn't closed already.
fn close(standings: &mut BTreeMap<Account, Standing>, closing: &Closing)
    ensures { (account : List ℕ) → get text_cmp standings.new account
        ≡ if same_text account closing.now.account
        then option_map (closed_on closing.now.day) (get text_cmp standings.old account)
        else get text_cmp standings.old account }
{
    if let Some(standing) = standings.get_mut(&closing.account) {
        standing.closed = standing.closed.or(Some(closing.day));
    }
}

/// Keeps the commodity that a command declares. The error is out of memory.
fn keep_declared(declared: &mut BTreeSet<Commodity>, command: &Command) -> Result<(), AllocError>
    ensures { OnOk result ((commodity : List ℕ) → contains text_cmp declared.new commodity
        ≡ (declares commodity command.now || contains text_cmp declared.old commodity)) }
{
    if let Command::Declaring(declaring) = command {
        declared.insert(declaring.commodity.copy()?)?;
    }
    Ok(())
}

/// Keeps the days that are listed. The error is out of memory.
fn keep_heads(
    heads: &mut BTreeMap<Account, BTreeMap<Commodity, Day>>,
    alloc: Global,
    listed: &BTreeMap<Pair, Day>,
) -> Result<(), AllocError>
    ensures { OnOk result ((account commodity : List ℕ) → day_in heads.new account commodity
        ≡ option_or (day_listed listed.now account commodity)
        (day_in heads.old account commodity)) }
{
    for (pair, day) in listed {
        set_day(heads, alloc, &pair.account, &pair.commodity, *day)?;
    }
    Ok(())
}

/// Keeps the units that are listed. A lot has the opening number that is listed for it then, or else keeps its own. The error
/// is out of memory.
fn keep_held(
    held: &mut BTreeMap<Account, Inventory>,
    alloc: Global,
    listed: &BTreeMap<Position, Units>,
    openings: &BTreeMap<Position, u64>,
) -> Result<(), AllocError>
    ensures units { OnOk result ((account : List ℕ) → held_in held.new account
        ≡ with_rows account (held_in held.old account) listed.now.entries) }
    ensures openings { OnOk result ((account commodity : List ℕ)
        → HaveSameOpenings commodity (held_in held.new account)
        (with_listed openings.now (openings_in held.old) account commodity)
        (with_listed openings.now (openings_in held.new) account commodity)) }
{
    for (position, units) in listed {
        let opening = number_of(held, openings, position);
        set_units(
            held,
            alloc,
            &position.account,
            &position.commodity,
            position.lot.as_ref(),
            *units,
            opening,
        )?;
    }
    Ok(())
}

/// Returns the opening number that a lot is to have: the one that is listed for it, or else its own. It is 0 where the lot holds
/// nothing.
fn number_of(
    held: &BTreeMap<Account, Inventory>,
    openings: &BTreeMap<Position, u64>,
    position: &Position,
) -> u64
    ensures { (lot : LotKey) → position.now.lot ≡ Some lot → result
        ≡ with_listed openings.now (openings_in held.now) position.now.account
        position.now.commodity lot }
{
    let Some(lot) = &position.lot else {
        return 0;
    };
    match openings.get(position) {
        Some(number) => *number,
        None => opening_of(held, &position.account, &position.commodity, Some(lot)).unwrap_or(0),
    }
}

/// Keeps the opening numbers that are listed, of the lots that hold something. The error is out of memory.
fn keep_openings(
    held: &mut BTreeMap<Account, Inventory>,
    alloc: Global,
    listed: &BTreeMap<Position, u64>,
) -> Result<(), AllocError>
    ensures units { OnOk result ((account : List ℕ)
        → held_in held.new account ≡ held_in held.old account) }
    ensures openings { OnOk result ((account commodity : List ℕ)
        → HaveSameOpenings commodity (held_in held.new account)
        (with_listed listed.now (openings_in held.old) account commodity)
        (openings_in held.new account commodity)) }
{
    for (position, opening) in listed {
        let lot = position.lot.as_ref();
        if opening_of(held, &position.account, &position.commodity, lot) == Some(*opening) {
            continue;
        }
        let units = units_of(held, &position.account, &position.commodity, lot);
        set_units(
            held,
            alloc,
            &position.account,
            &position.commodity,
            lot,
            units,
            *opening,
        )?;
    }
    Ok(())
}

/// Sets the day of an account and a commodity. The error is out of memory; nothing changes then.
fn set_day(
    heads: &mut BTreeMap<Account, BTreeMap<Commodity, Day>>,
    alloc: Global,
    account: &Account,
    commodity: &Commodity,
    day: Day,
) -> Result<(), AllocError>
    ensures ok { OnOk result ((other what : List ℕ) → day_in heads.new other what
        ≡ if same_text other account.now && same_text what commodity.now then Some day
        else day_in heads.old other what) }
    ensures err { OnErr result ((other what : List ℕ)
        → day_in heads.new other what ≡ day_in heads.old other what) }
{
    match heads.get_mut(account) {
        Some(days) => {
            days.insert(commodity.copy()?, day)?;
        }
        None => {
            let mut days = BTreeMap::new(alloc);
            days.insert(commodity.copy()?, day)?;
            heads.insert(account.copy()?, days)?;
        }
    }
    Ok(())
}

/// Returns the units at a position of an account, zero where it holds none.
fn units_of(
    held: &BTreeMap<Account, Inventory>,
    account: &Account,
    commodity: &Commodity,
    lot: Option<&LotKey>,
) -> Units
    ensures value { result
        ≡ units_at (held_in held.now account.now) (commodity.now, option_copied lot.entry) }
    ensures held { finite.get (held_in held.now account.now)
        (commodity.now, option_copied lot.entry) ≡ non_zero result }
{
    match held.get(account) {
        Some(inventory) => inventory.units(commodity, lot),
        None => Units::ZERO,
    }
}

/// Returns the opening number of a lot of an account, or `None` where it holds nothing. Plain units have none.
fn opening_of(
    held: &BTreeMap<Account, Inventory>,
    account: &Account,
    commodity: &Commodity,
    lot: Option<&LotKey>,
) -> Option<u64>
    ensures value { result
        ≡ option_and_then (opened_at (stock_in held.now account.now) commodity.now)
        (option_copied lot.entry) }
    ensures numbered { NumbersLots (stock_in held.now account.now) }
    ensures no_zeros { HasNoZeros (held_in held.now account.now) }
{
    let inventory = held.get(account)?;
    inventory.has_no_zeros();
    inventory.opening(commodity, lot?)
}

/// Sets the units at a position of an account, and the opening number of a lot. The error is out of memory; nothing changes
/// then.
fn set_units(
    held: &mut BTreeMap<Account, Inventory>,
    alloc: Global,
    account: &Account,
    commodity: &Commodity,
    lot: Option<&LotKey>,
    units: Units,
    opening: u64,
) -> Result<(), AllocError>
    ensures ok { OnOk result ((other : List ℕ) → stock_in held.new other
        ≡ if same_text other account.now
        then with_lot (stock_in held.old other) (commodity.now, option_copied lot.entry) units opening
        else stock_in held.old other) }
    ensures err { OnErr result ((other : List ℕ)
        → stock_in held.new other ≡ stock_in held.old other) }
{
    match held.get_mut(account) {
        Some(inventory) => inventory.set(commodity, lot, units, opening)?,
        None => {
            let mut inventory = Inventory::new(alloc);
            inventory.set(commodity, lot, units, opening)?;
            held.insert(account.copy()?, inventory)?;
        }
    }
    Ok(())
}
