ghost use Rattle.std.specs.Prelude.{◌≡◌, ◌∷◌, [], IsTrue, pos};
ghost use Rattle.lot_rows.specs.Leg.{IsLegRow, leg_cells};
ghost use Rattle.lot_rows.specs.Tables.{layout, leg_table};
ghost use Rattle.lot_table.specs.Call.{Adds, ListsColumns};
ghost use Rattle.lot_table.specs.Rows.{with_key};
ghost use Rattle.sqlite.specs.Held.{state};
ghost use Rattle.sqlite.specs.State.{HasCleanDisk};
ghost use Rattle.sqlite.specs.declared.types.Value.TheVariants.{Int};

use crate::columns::leg_text;
use crate::cost;
use lot_base::{Account, Commodity};
use lot_cost::LotKey;
use lot_num::Units;
use lot_table::{Cell, Fault, Ordinal, Queryable, TableRow, change, column, select};
use sqlite::{Alter, Row, Transaction};
use std::alloc::Global;

/// The query for the rows of an entry, by their key.
pub const LIST_OF_ENTRY: &str = leg_text!(list of "entry = ?1");

/// The query for the last row of a commodity in an account that is of a lot.
pub const LAST_AT_COST: &str =
    leg_text!(last of "account = ?1 AND commodity = ?2 AND cost_day IS NOT NULL");

/// The query for the next rows from an entry on.
pub const PAGE_FROM_ENTRY: &str = leg_text!(page of "entry >= ?2");

/// The query for the next rows of an entry behind a posting.
pub const PAGE_BEHIND_POSTING: &str = leg_text!(page of "entry = ?2 AND posting > ?3");

/// The query for the next rows of a posting behind a place.
pub const PAGE_BEHIND_PLACE: &str = leg_text!(page of "entry = ?2 AND posting = ?3 AND place > ?4");

/// A row of the table `leg`: units that a posting of an entry put into a position. Below zero it took them out.
#[derive(Drop)]
pub struct LegRow {
    pub entry: Ordinal,
    pub posting: Ordinal,
    /// The place of the leg among those of its posting, from 0.
    pub place: u32,
    pub account: Account,
    pub commodity: Commodity,
    pub units: Units,
    /// The lot, or none for plain units.
    pub lot: Option<LotKey>,
}

impl TableRow for LegRow {
    ghost encode = { leg_cells };

    ghost IsGood = { IsLegRow };

    fn read(alloc: Global, row: &Row) -> Result<LegRow, Fault> {
        if row.column_count() != 10 {
            return Err(Fault::Damaged);
        }
        Ok(LegRow {
            entry: column(alloc, row, 0)?,
            posting: column(alloc, row, 1)?,
            place: column(alloc, row, 2)?,
            account: column(alloc, row, 3)?,
            commodity: column(alloc, row, 4)?,
            units: column(alloc, row, 5)?,
            lot: cost::lot(alloc, row)?,
        })
    }
}

/// Adds a row. No row may have its entry, posting and place.
pub fn add<S: Alter>(tx: &mut Transaction<'_, S>, row: &LegRow) -> Result<(), Fault>
    requires { HasCleanDisk (state S.Store tx.old.conn.now)
        → IsTrue (state S.Store tx.old.conn.now).in_transaction }
    ensures same_reference { tx.new.conn.ghost_name ≡ tx.old.conn.ghost_name }
    ensures adds { Adds layout leg_table row.now
        (state S.Store tx.old.conn.now) (state S.Store tx.new.conn.now) result }
{
    change(
        tx,
        leg_text!(insert),
        &[
            row.entry.to_cell(),
            row.posting.to_cell(),
            row.place.to_cell(),
            row.account.to_cell(),
            row.commodity.to_cell(),
            row.units.to_cell(),
            cost::number_cell(&row.lot),
            cost::currency_cell(&row.lot),
            cost::day_cell(&row.lot),
            cost::label_cell(&row.lot),
        ],
    )
}

/// Returns the legs of a posting, by place.
pub fn list_of<D: Queryable>(
    alloc: Global,
    conn: &mut D,
    entry: Ordinal,
    posting: Ordinal,
) -> Result<Vec<LegRow>, Fault>
    ensures same_reference { D.reference conn.new ≡ D.reference conn.old }
    ensures lists { ListsColumns layout leg_cells IsLegRow
        (λ b. with_key leg_cells 2 (Int (pos entry) ∷ Int (pos posting) ∷ []) b.leg)
        (D.shown conn.old) (D.shown conn.new) result }
{
    select(
        alloc,
        conn,
        leg_text!(list of "entry = ?1 AND posting = ?2"),
        &[entry.to_cell(), posting.to_cell()],
    )
}
