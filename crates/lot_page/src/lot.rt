ghost use Rattle.std.specs.Prelude.{◌≡◌, ◌≤◌, [], ◌∷◌, ◌++◌, ◌+ℤ◌, pos, suc, IfOk, filter};
ghost use Rattle.lot_page.specs.Page.{PagesOf, Takes, is_from, is_past, level, page_rows};
ghost use Rattle.lot_page.specs.Rise.{lots_rise};
ghost use Rattle.lot_page.specs.Lots.{AreBehind};
ghost use Rattle.lot_rows.specs.Lot.{lot_cells};
ghost use Rattle.sqlite.specs.Held.{state};
ghost use Rattle.sqlite.specs.declared.types.Value.TheVariants.{Int, Text};
ghost use Rattle.sqlite_value.specs.Value.{owned};

use crate::cursor::Cursor;
use crate::paged::{PAGE_ROWS, PagedRow, text_behind};
use lot_base::Day;
use lot_num::Rate;
use lot_rows::lot::{self, LotRow};
use lot_table::{Cell, Fault, ask};
use sqlite::types::ValueRef;
use sqlite::{Alter, Connection, Row};
use std::alloc::{AllocError, Global};

/// A cursor over all lots, by account, commodity and lot.
pub type LotCursor = Cursor<LotRow>;

impl PagedRow for LotRow {
    ghost rows = { λ b. b.lot };

    ghost width = { 6 };

    ghost most = { page_rows };

    fn page<S: Alter>(
        alloc: Global,
        conn: &mut Connection<S>,
        last: &Option<LotRow>,
    ) -> Result<Vec<Row>, Fault> {
        let Some(row) = last else {
            return lots_from(conn, &[]);
        };
        let rest = ask(
            conn,
            lot::PAGE_BEHIND_LABEL,
            &[
                PAGE_ROWS.to_cell(),
                row.account.to_cell(),
                row.commodity.to_cell(),
                row.lot.day.to_cell(),
                row.lot.currency.to_cell(),
                row.lot.number.to_cell(),
                row.lot.label.to_cell(),
            ],
        )?;
        if !rest.is_empty() {
            return Ok(rest);
        }
        let texts = texts_behind(alloc, row)?;
        behind(conn, row, &texts, 4)
    }

    ghost rises = { lots_rise };
}

/// The first texts behind those of a lot.
#[derive(Drop)]
struct Texts {
    account: Vec<u8>,
    commodity: Vec<u8>,
    currency: Vec<u8>,
}

/// Returns the texts behind those of the lot.
fn texts_behind(alloc: Global, row: &LotRow) -> Result<Texts, AllocError>
    ensures ok { IfOk result (λ texts. AreBehind texts row.now) }
{
    Ok(Texts {
        account: text_behind(alloc, row.account.as_str())?,
        commodity: text_behind(alloc, row.commodity.as_str())?,
        currency: text_behind(alloc, row.lot.currency.as_str())?,
    })
}

/// Returns the next lots that are past this one by its first `same + 1` columns of the key. Lots with `same` first columns in
/// common are looked for first, then those with fewer.
fn behind<S: Alter>(
    conn: &mut Connection<S>,
    row: &LotRow,
    texts: &Texts,
    same: usize,
) -> Result<Vec<Row>, Fault>
    requires texts { AreBehind texts.now row.now }
    requires same { same ≤ 4 }
    ensures pages { PagesOf lot_cells
        (λ b. b.lot) page_rows (filter (is_past (suc same) (lot_cells row.now)))
        (state S.Store conn.old) (state S.Store conn.new) result }
{
    let page = level(conn, row, texts, same)?;
    if same == 0 || !page.is_empty() {
        return Ok(page);
    }
    behind(conn, row, texts, same - 1)
}

/// Returns the next lots among those that have so many first columns of the key in common with this one and come after it by
/// the next column.
fn level<'a, S: Alter>(
    conn: &mut Connection<S>,
    row: &'a LotRow,
    texts: &'a Texts,
    same: usize,
) -> Result<Vec<Row>, Fault>
    requires texts { AreBehind texts.now row.now }
    requires same { same ≤ 4 }
    ensures takes { Takes lot_cells (λ b. b.lot) page_rows (level same 0 (lot_cells row.now))
        (state S.Store conn.old) (state S.Store conn.new) result }
{
    let next = [
        ValueRef::Text(texts.account.as_slice()),
        ValueRef::Text(texts.commodity.as_slice()),
        day_behind(row.lot.day),
        ValueRef::Text(texts.currency.as_slice()),
        rate_behind(row.lot.number),
    ];
    let mut key = [
        PAGE_ROWS.to_cell(),
        row.account.to_cell(),
        row.commodity.to_cell(),
        row.lot.day.to_cell(),
        row.lot.currency.to_cell(),
        row.lot.number.to_cell(),
    ];
    key[same + 1] = next[same];
    ask(conn, lot::PAGES_FROM[same], &key[..same + 2])
}

/// Returns the next lots of the accounts from a text on.
fn lots_from<S: Alter>(conn: &mut Connection<S>, text: &[u8]) -> Result<Vec<Row>, Fault>
    ensures pages { PagesOf lot_cells (λ b. b.lot) page_rows (filter (is_from (Text text.now)))
        (state S.Store conn.old) (state S.Store conn.new) result }
{
    ask(
        conn,
        lot::PAGES_FROM[0],
        &[PAGE_ROWS.to_cell(), ValueRef::Text(text)],
    )
}

/// Returns what a column holds for the next day.
fn day_behind(day: Day) -> ValueRef<'static>
    ensures { owned result ≡ Int (day +ℤ pos 1) }
{
    ValueRef::Int(i64::from(day.number()) + 1)
}

/// Returns what a column holds for the next rate.
fn rate_behind(rate: Rate) -> ValueRef<'static>
    ensures { owned result ≡ Int (pos rate +ℤ pos 1) }
{
    ValueRef::Int(rate.mantissa() as i64 + 1)
}
