ghost use Rattle.std.specs.Prelude.{◌≡◌, ◌∷◌, [], IsTrue};
ghost use Rattle.lot_rows.specs.Commodity.{IsCommodityRow, commodity_cells};
ghost use Rattle.lot_rows.specs.Tables.{layout, commodity_table};
ghost use Rattle.lot_table.specs.Call.{Finds, Puts};
ghost use Rattle.lot_table.specs.Rows.{with_key};
ghost use Rattle.sqlite.specs.Held.{state};
ghost use Rattle.sqlite.specs.State.{HasCleanDisk};
ghost use Rattle.sqlite.specs.declared.types.Value.TheVariants.{Text};

use crate::columns::commodity_text;
use lot_base::{Commodity, Day};
use lot_table::{Cell, Fault, Queryable, TableRow, change, column, find as find_row};
use sqlite::{Alter, Row, Transaction};
use std::alloc::Global;

/// The query for all rows, by their key.
pub const LIST: &str = commodity_text!(list);

/// The query for what tells the row at a place.
pub const SHOW: &str = commodity_text!(show of "name");

/// A row of the table `commodity`: a commodity, and the day on which it was declared.
#[derive(Drop)]
pub struct CommodityRow {
    pub name: Commodity,
    pub day: Day,
}

impl TableRow for CommodityRow {
    ghost encode = { commodity_cells };

    ghost IsGood = { IsCommodityRow };

    fn read(alloc: Global, row: &Row) -> Result<CommodityRow, Fault> {
        if row.column_count() != 2 {
            return Err(Fault::Damaged);
        }
        Ok(CommodityRow {
            name: column(alloc, row, 0)?,
            day: column(alloc, row, 1)?,
        })
    }
}

/// Puts a row. It replaces the row of the same key, if there is one.
pub fn put<S: Alter>(tx: &mut Transaction<'_, S>, row: &CommodityRow) -> Result<(), Fault>
    requires { HasCleanDisk (state S.Store tx.old.conn.now)
        → IsTrue (state S.Store tx.old.conn.now).in_transaction }
    ensures same_reference { tx.new.conn.ghost_name ≡ tx.old.conn.ghost_name }
    ensures puts { Puts layout commodity_table row.now
        (state S.Store tx.old.conn.now) (state S.Store tx.new.conn.now) result }
{
    change(
        tx,
        commodity_text!(put),
        &[row.name.to_cell(), row.day.to_cell()],
    )
}

/// Returns the row of a commodity, or `None` where there is none.
pub fn find<D: Queryable>(
    alloc: Global,
    conn: &mut D,
    name: &Commodity,
) -> Result<Option<CommodityRow>, Fault>
    ensures same_reference { D.reference conn.new ≡ D.reference conn.old }
    ensures finds { Finds layout IsCommodityRow
        (λ b. with_key commodity_cells 1 (Text name.now ∷ []) b.commodity)
        (D.shown conn.old) (D.shown conn.new) result }
{
    find_row(alloc, conn, commodity_text!(find), &[name.to_cell()])
}
