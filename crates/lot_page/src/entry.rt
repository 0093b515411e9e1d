ghost use Rattle.std.specs.Prelude.{◌≡◌, ℤ, filter};
ghost use Rattle.lot_page.specs.Page.{PagesOf, entry_page_rows, is_from};
ghost use Rattle.lot_page.specs.Rise.{entries_rise};
ghost use Rattle.lot_rows.specs.Entry.{entry_cells};
ghost use Rattle.sqlite.specs.Held.{state};
ghost use Rattle.sqlite.specs.declared.types.Value.TheVariants.{Int};
ghost use Rattle.sqlite_value.specs.Value.{owned};

use crate::cursor::Cursor;
use crate::paged::{ENTRY_PAGE_ROWS, PagedRow, number_behind};
use lot_rows::entry::{self, EntryRow};
use lot_table::{Cell, Fault, ask};
use sqlite::types::ValueRef;
use sqlite::{Alter, Connection, Row};
use std::alloc::Global;

/// A cursor over all entries, by their numbers.
pub type EntryCursor = Cursor<EntryRow>;

impl PagedRow for EntryRow {
    ghost rows = { λ b. b.entry };

    ghost width = { 1 };

    ghost most = { entry_page_rows };

    fn page<S: Alter>(
        _alloc: Global,
        conn: &mut Connection<S>,
        last: &Option<EntryRow>,
    ) -> Result<Vec<Row>, Fault> {
        match last {
            Some(row) => entries_from(conn, number_behind(row.number)),
            // a number that no entry has is met, too
            None => entries_from(conn, ValueRef::Int(i64::MIN)),
        }
    }

    ghost rises = { entries_rise };
}

/// Returns the next entries from a number on.
fn entries_from<S: Alter>(conn: &mut Connection<S>, first: ValueRef<'_>) -> Result<Vec<Row>, Fault>
    ensures pages { (n : ℤ) → owned first.entry ≡ Int n
        → PagesOf entry_cells (λ b. b.entry) entry_page_rows (filter (is_from (Int n)))
        (state S.Store conn.old) (state S.Store conn.new) result }
{
    ask(
        conn,
        entry::PAGE_FROM_NUMBER,
        &[ENTRY_PAGE_ROWS.to_cell(), first],
    )
}
