ghost use Rattle.std.specs.Prelude.{◌≡◌, IsTrue};
ghost use Rattle.lot_rows.specs.Price.{IsPriceRow, price_cells};
ghost use Rattle.lot_rows.specs.Tables.{layout, price_table};
ghost use Rattle.lot_table.specs.Call.{Puts};
ghost use Rattle.sqlite.specs.Held.{state};
ghost use Rattle.sqlite.specs.State.{HasCleanDisk};

use crate::columns::price_text;
use lot_base::{Commodity, Day};
use lot_num::Rate;
use lot_table::{Cell, Fault, TableRow, change, column};
use sqlite::{Alter, Row, Transaction};
use std::alloc::Global;

/// The query for all rows, by their key.
pub const LIST: &str = price_text!(list);

/// The query for the row of a key.
pub const FIND: &str = price_text!(find);

/// The query for the next rows from a base on.
pub const PAGE_FROM_BASE: &str = price_text!(page of "base >= ?2");

/// The query for the next rows of a base from a quote on.
pub const PAGE_FROM_QUOTE: &str = price_text!(page of "base = ?2 AND quote >= ?3");

/// The query for the next rows of a pair behind a day.
pub const PAGE_BEHIND_DAY: &str = price_text!(page of "base = ?2 AND quote = ?3 AND day > ?4");

/// The query for what tells the row at a place.
pub const SHOW: &str = price_text!(show of "base || ' ' || quote || ' ' || day");

/// A row of the table `price`: the last accepted price of a pair and a day.
#[derive(Drop)]
pub struct PriceRow {
    pub base: Commodity,
    pub quote: Commodity,
    pub day: Day,
    pub rate: Rate,
}

impl TableRow for PriceRow {
    ghost encode = { price_cells };

    ghost IsGood = { IsPriceRow };

    fn read(alloc: Global, row: &Row) -> Result<PriceRow, Fault> {
        if row.column_count() != 4 {
            return Err(Fault::Damaged);
        }
        Ok(PriceRow {
            base: column(alloc, row, 0)?,
            quote: column(alloc, row, 1)?,
            day: column(alloc, row, 2)?,
            rate: column(alloc, row, 3)?,
        })
    }
}

/// Puts a row. It replaces the row of the same key, if there is one.
pub fn put<S: Alter>(tx: &mut Transaction<'_, S>, row: &PriceRow) -> Result<(), Fault>
    requires { HasCleanDisk (state S.Store tx.old.conn.now)
        → IsTrue (state S.Store tx.old.conn.now).in_transaction }
    ensures same_reference { tx.new.conn.ghost_name ≡ tx.old.conn.ghost_name }
    ensures puts { Puts layout price_table row.now
        (state S.Store tx.old.conn.now) (state S.Store tx.new.conn.now) result }
{
    change(
        tx,
        price_text!(put),
        &[
            row.base.to_cell(),
            row.quote.to_cell(),
            row.day.to_cell(),
            row.rate.to_cell(),
        ],
    )
}
