ghost use Rattle.std.specs.Prelude.{◌≡◌, IsTrue};
ghost use Rattle.lot_rows.specs.Sale.{IsSaleRow, sale_cells};
ghost use Rattle.lot_rows.specs.Tables.{layout, sale_table};
ghost use Rattle.lot_table.specs.Call.{Adds};
ghost use Rattle.sqlite.specs.Held.{state};
ghost use Rattle.sqlite.specs.State.{HasCleanDisk};

use crate::columns::sale_text;
use crate::sale_price;
use lot_base::{Account, Commodity, Day};
use lot_command::Price;
use lot_table::{Cell, Fault, Ordinal, Sum, TableRow, change, column};
use sqlite::{Alter, Row, Transaction};
use std::alloc::Global;

/// The query for the next rows from an entry on.
pub const PAGE_FROM_ENTRY: &str = sale_text!(page of "entry >= ?2");

/// The query for the next rows of an entry behind a posting.
pub const PAGE_BEHIND_POSTING: &str = sale_text!(page of "entry = ?2 AND posting > ?3");

/// A row of the table `sale`: a posting that took lots away, with its price, if it has one.
#[derive(Drop)]
pub struct SaleRow {
    pub entry: Ordinal,
    pub posting: Ordinal,
    pub day: Day,
    pub account: Account,
    pub commodity: Commodity,
    pub units: Sum,
    pub price: Option<Price>,
}

impl TableRow for SaleRow {
    ghost encode = { sale_cells };

    ghost IsGood = { IsSaleRow };

    fn read(alloc: Global, row: &Row) -> Result<SaleRow, Fault> {
        if row.column_count() != 9 {
            return Err(Fault::Damaged);
        }
        Ok(SaleRow {
            entry: column(alloc, row, 0)?,
            posting: column(alloc, row, 1)?,
            day: column(alloc, row, 2)?,
            account: column(alloc, row, 3)?,
            commodity: column(alloc, row, 4)?,
            units: column(alloc, row, 5)?,
            price: sale_price::price(alloc, row)?,
        })
    }
}

/// Adds a row. No row may have its entry and posting.
pub fn add<S: Alter>(tx: &mut Transaction<'_, S>, row: &SaleRow) -> Result<(), Fault>
    requires { HasCleanDisk (state S.Store tx.old.conn.now)
        → IsTrue (state S.Store tx.old.conn.now).in_transaction }
    ensures same_reference { tx.new.conn.ghost_name ≡ tx.old.conn.ghost_name }
    ensures adds { Adds layout sale_table row.now
        (state S.Store tx.old.conn.now) (state S.Store tx.new.conn.now) result }
{
    change(
        tx,
        sale_text!(insert),
        &[
            row.entry.to_cell(),
            row.posting.to_cell(),
            row.day.to_cell(),
            row.account.to_cell(),
            row.commodity.to_cell(),
            row.units.to_cell(),
            sale_price::kind_cell(&row.price),
            sale_price::amount_cell(&row.price),
            sale_price::currency_cell(&row.price),
        ],
    )
}
