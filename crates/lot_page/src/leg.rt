ghost use Rattle.std.specs.Prelude.{◌≡◌, ℤ, filter, option_map};
ghost use Rattle.lot_page.specs.Page.{Pages, PagesOf, is_from, is_past, page_rows};
ghost use Rattle.lot_page.specs.Rise.{legs_rise};
ghost use Rattle.lot_rows.specs.Leg.{leg_cells};
ghost use Rattle.sqlite.specs.declared.types.Value.TheVariants.{Int};
ghost use Rattle.sqlite_value.specs.Value.{owned};

use crate::cursor::Cursor;
use crate::paged::{PAGE_ROWS, PagedRow, number_behind};
use lot_rows::leg::{self, LegRow};
use lot_table::{Cell, Fault, Queryable, ask};
use sqlite::types::ValueRef;
use sqlite::{Alter, Connection, Row};
use std::alloc::Global;

/// A cursor over all legs, by entry, posting and place.
pub type LegCursor = Cursor<LegRow>;

impl PagedRow for LegRow {
    ghost rows = { λ b. b.leg };

    ghost width = { 3 };

    ghost most = { page_rows };

    fn page<S: Alter>(
        _alloc: Global,
        conn: &mut Connection<S>,
        last: &Option<LegRow>,
    ) -> Result<Vec<Row>, Fault> {
        legs_behind(conn, last)
    }

    ghost rises = { legs_rise };
}

/// Returns the next legs behind the last one given, by entry, posting and place. Before the first leg it is the first ones. There is
/// none only where all legs are given.
///
/// The queries change nothing. After an error nothing changed, or a transaction that was open is rolled back.
pub fn legs_behind<D: Queryable>(conn: &mut D, last: &Option<LegRow>) -> Result<Vec<Row>, Fault>
    ensures same_reference { D.reference conn.new ≡ D.reference conn.old }
    ensures pages { Pages leg_cells (λ b. b.leg) 3 page_rows (option_map leg_cells last.now)
        (D.shown conn.old) (D.shown conn.new) result }
{
    let Some(row) = last else {
        // a number that no entry has is met, too
        return legs_from(conn, ValueRef::Int(i64::MIN));
    };
    let rest = ask(
        conn,
        leg::PAGE_BEHIND_PLACE,
        &[
            PAGE_ROWS.to_cell(),
            row.entry.to_cell(),
            row.posting.to_cell(),
            row.place.to_cell(),
        ],
    )?;
    if !rest.is_empty() {
        return Ok(rest);
    }
    behind_posting(conn, row)
}

/// Returns the next legs behind those of the posting of this one.
fn behind_posting<D: Queryable>(conn: &mut D, row: &LegRow) -> Result<Vec<Row>, Fault>
    ensures same_reference { D.reference conn.new ≡ D.reference conn.old }
    ensures pages { PagesOf leg_cells
        (λ b. b.leg) page_rows (filter (is_past 2 (leg_cells row.now)))
        (D.shown conn.old) (D.shown conn.new) result }
{
    let rest = ask(
        conn,
        leg::PAGE_BEHIND_POSTING,
        &[
            PAGE_ROWS.to_cell(),
            row.entry.to_cell(),
            row.posting.to_cell(),
        ],
    )?;
    if !rest.is_empty() {
        return Ok(rest);
    }
    legs_from(conn, number_behind(row.entry))
}

/// Returns the next legs of the entries from a number on.
fn legs_from<D: Queryable>(conn: &mut D, first: ValueRef<'_>) -> Result<Vec<Row>, Fault>
    ensures same_reference { D.reference conn.new ≡ D.reference conn.old }
    ensures pages { (n : ℤ) → owned first.entry ≡ Int n
        → PagesOf leg_cells (λ b. b.leg) page_rows (filter (is_from (Int n)))
        (D.shown conn.old) (D.shown conn.new) result }
{
    ask(conn, leg::PAGE_FROM_ENTRY, &[PAGE_ROWS.to_cell(), first])
}
