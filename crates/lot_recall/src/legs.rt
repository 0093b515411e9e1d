ghost use Rattle.std.specs.Prelude.{◌≡◌, ◌≢◌, [], Err, IfOk, find, option_copied};
ghost use Rattle.lot_recall.specs.Recall.{LooksUpLegs, ReadsLegs, Recalls, TakesLegs, is_leg_at, recalled};
ghost use Rattle.sqlite.specs.Held.{state};

use lot_base::{Day, Note};
use lot_cost::LotKey;
use lot_noted::LegKey;
use lot_register::NotedLeg;
use lot_rows::leg::{self, LegRow, list_of};
use lot_table::{Cell, Fault, Ordinal, ask, read_all};
use sqlite::{Alter, Connection, Row};
use std::alloc::{AllocError, Global};

/// How many legs are read at a time, from those of the entry on that is looked up.
const FEW_LEGS: u32 = 16;

/// The legs that were read last: some from those of an entry on, or all of a posting.
#[derive(Drop)]
pub(crate) struct FewLegs {
    rows: Vec<LegRow>,
}

impl FewLegs {
    /// Returns no legs, before a posting is looked up. It takes no memory.
    pub fn new(alloc: Global) -> FewLegs
        ensures { result.rows.items ≡ [] }
    {
        FewLegs {
            rows: Vec::new(alloc),
        }
    }

    /// Reads some legs from those of the entry of a key on, unless the leg at the key is among those
    /// that were read last. Where it isn't among these either, those of its posting are read.
    ///
    /// The error is `Damaged` only where the table has no leg at the key, or not all of its rows are
    /// those that a book can have.
    pub fn read_legs<S: Alter>(
        &mut self,
        alloc: Global,
        conn: &mut Connection<S>,
        key: &LegKey,
    ) -> Result<(), Fault>
        ensures looks { LooksUpLegs key.now self.old.rows.items self.new.rows.items
            (state S.Store conn.old) (state S.Store conn.new) result }
    {
        if self.at(key).is_some() {
            return Ok(());
        }
        let Some(entry) = Ordinal::new(key.entry) else {
            return Err(Fault::Damaged);
        };
        let Some(posting) = Ordinal::new(key.posting) else {
            return Err(Fault::Damaged);
        };
        self.rows = legs_from(alloc, conn, entry)?;
        if self.at(key).is_some() {
            return Ok(());
        }
        self.rows = list_of(alloc, conn, entry, posting)?;
        Ok(())
    }

    /// Returns the leg at a key, whose posting was read, with the narration of its entry.
    ///
    /// The error is `Damaged` where it isn't among these, else `Memory`.
    pub fn recall(&self, key: &LegKey, narration: Option<Note>) -> Result<NotedLeg, Fault>
        ensures recalls { Recalls key.now self.now.rows.items narration result }
        ensures no_device { result ≢ Err Fault.Device }
    {
        match self.at(key) {
            Some(row) => Ok(recalled(row, key.day, narration)?),
            None => Err(Fault::Damaged),
        }
    }

    /// Returns the row of the leg at a key, if it is among these.
    fn at(&self, key: &LegKey) -> Option<&LegRow>
        ensures { option_copied result ≡ find (is_leg_at key.now) self.now.rows.items }
    {
        self.rows.iter().find(|row| is_leg_at(row, key))
    }
}

/// Returns whether a row has the entry, the posting and the place of a key.
fn is_leg_at(row: &LegRow, key: &LegKey) -> bool
    ensures { result ≡ is_leg_at key.now row.now }
{
    row.entry.number() == key.entry
        && (row.posting.number() == key.posting && row.place == key.place)
}

/// Returns the first legs of the entries from a number on.
fn legs_from<S: Alter>(
    alloc: Global,
    conn: &mut Connection<S>,
    first: Ordinal,
) -> Result<Vec<LegRow>, Fault>
    ensures reads { ReadsLegs first (state S.Store conn.old) (state S.Store conn.new) result }
{
    let rows = page_from(conn, first)?;
    read_all(alloc, &rows)
}

/// Returns the columns of the first legs of the entries from a number on.
fn page_from<S: Alter>(conn: &mut Connection<S>, first: Ordinal) -> Result<Vec<Row>, Fault>
    ensures takes { TakesLegs first (state S.Store conn.old) (state S.Store conn.new) result }
{
    ask(
        conn,
        leg::PAGE_FROM_ENTRY,
        &[FEW_LEGS.to_cell(), first.to_cell()],
    )
}

/// Returns the leg of a row, on a day, with the narration of its entry. The only error is out of
/// memory.
fn recalled(row: &LegRow, day: Day, narration: Option<Note>) -> Result<NotedLeg, AllocError>
    ensures { IfOk result (λ leg. leg ≡ recalled row.now day narration) }
{
    Ok(NotedLeg {
        day,
        entry: row.entry.number(),
        posting: row.posting.number(),
        place: row.place,
        account: row.account.copy()?,
        commodity: row.commodity.copy()?,
        units: row.units,
        lot: copy_of(&row.lot)?,
        narration,
    })
}

/// Returns a copy of a lot, or none for plain units. The only error is out of memory.
fn copy_of(lot: &Option<LotKey>) -> Result<Option<LotKey>, AllocError>
    ensures { IfOk result (λ copy. copy ≡ lot.now) }
{
    match lot {
        Some(lot) => Ok(Some(lot.copy()?)),
        None => Ok(None),
    }
}
