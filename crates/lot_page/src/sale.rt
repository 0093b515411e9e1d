ghost use Rattle.std.specs.Prelude.{◌≡◌, ℤ, filter};
ghost use Rattle.lot_page.specs.Page.{PagesOf, is_from, page_rows};
ghost use Rattle.lot_page.specs.Rise.{sales_rise};
ghost use Rattle.lot_rows.specs.Sale.{sale_cells};
ghost use Rattle.sqlite.specs.Held.{state};
ghost use Rattle.sqlite.specs.declared.types.Value.TheVariants.{Int};
ghost use Rattle.sqlite_value.specs.Value.{owned};

use crate::cursor::Cursor;
use crate::paged::{PAGE_ROWS, PagedRow, number_behind};
use lot_rows::sale::{self, SaleRow};
use lot_table::{Cell, Fault, ask};
use sqlite::types::ValueRef;
use sqlite::{Alter, Connection, Row};
use std::alloc::Global;

/// A cursor over all sales, by entry and posting.
pub type SaleCursor = Cursor<SaleRow>;

impl PagedRow for SaleRow {
    ghost rows = { λ b. b.sale };

    ghost width = { 2 };

    ghost most = { page_rows };

    fn page<S: Alter>(
        _alloc: Global,
        conn: &mut Connection<S>,
        last: &Option<SaleRow>,
    ) -> Result<Vec<Row>, Fault> {
        let Some(row) = last else {
            return sales_from(conn, ValueRef::Int(0));
        };
        let rest = ask(
            conn,
            sale::PAGE_BEHIND_POSTING,
            &[
                PAGE_ROWS.to_cell(),
                row.entry.to_cell(),
                row.posting.to_cell(),
            ],
        )?;
        if !rest.is_empty() {
            return Ok(rest);
        }
        sales_from(conn, number_behind(row.entry))
    }

    ghost rises = { sales_rise };
}

/// Returns the next sales of the entries from a number on.
fn sales_from<S: Alter>(conn: &mut Connection<S>, first: ValueRef<'_>) -> Result<Vec<Row>, Fault>
    ensures pages { (n : ℤ) → owned first.entry ≡ Int n
        → PagesOf sale_cells (λ b. b.sale) page_rows (filter (is_from (Int n)))
        (state S.Store conn.old) (state S.Store conn.new) result }
{
    ask(conn, sale::PAGE_FROM_ENTRY, &[PAGE_ROWS.to_cell(), first])
}
