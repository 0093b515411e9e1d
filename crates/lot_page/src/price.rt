ghost use Rattle.std.specs.Prelude.{◌≡◌, [], ◌∷◌, ◌++◌, filter};
ghost use Rattle.lot_page.specs.Page.{PagesOf, is_from, is_past, page_rows};
ghost use Rattle.lot_page.specs.Rise.{prices_rise};
ghost use Rattle.lot_rows.specs.Price.{price_cells};
ghost use Rattle.sqlite.specs.Held.{state};
ghost use Rattle.sqlite.specs.declared.types.Value.TheVariants.{Text};

use crate::cursor::Cursor;
use crate::paged::{PAGE_ROWS, PagedRow, text_behind};
use lot_rows::price::{self, PriceRow};
use lot_table::{Cell, Fault, ask};
use sqlite::types::ValueRef;
use sqlite::{Alter, Connection, Row};
use std::alloc::Global;

/// A cursor over all prices, by base, quote and day.
pub type PriceCursor = Cursor<PriceRow>;

impl PagedRow for PriceRow {
    ghost rows = { λ b. b.price };

    ghost width = { 3 };

    ghost most = { page_rows };

    fn page<S: Alter>(
        alloc: Global,
        conn: &mut Connection<S>,
        last: &Option<PriceRow>,
    ) -> Result<Vec<Row>, Fault> {
        let Some(row) = last else {
            return prices_from(conn, &[]);
        };
        let rest = ask(
            conn,
            price::PAGE_BEHIND_DAY,
            &[
                PAGE_ROWS.to_cell(),
                row.base.to_cell(),
                row.quote.to_cell(),
                row.day.to_cell(),
            ],
        )?;
        if !rest.is_empty() {
            return Ok(rest);
        }
        let base = text_behind(alloc, row.base.as_str())?;
        let quote = text_behind(alloc, row.quote.as_str())?;
        behind_quote(conn, row, base.as_slice(), quote.as_slice())
    }

    ghost rises = { prices_rise };
}

/// Returns the next prices behind those of the pair, whose texts are followed by those two.
fn behind_quote<S: Alter>(
    conn: &mut Connection<S>,
    row: &PriceRow,
    base: &[u8],
    quote: &[u8],
) -> Result<Vec<Row>, Fault>
    requires base { base.now ≡ row.now.base ++ 0 ∷ [] }
    requires quote { quote.now ≡ row.now.quote ++ 0 ∷ [] }
    ensures pages { PagesOf price_cells
        (λ b. b.price) page_rows (filter (is_past 2 (price_cells row.now)))
        (state S.Store conn.old) (state S.Store conn.new) result }
{
    let rest = ask(
        conn,
        price::PAGE_FROM_QUOTE,
        &[
            PAGE_ROWS.to_cell(),
            row.base.to_cell(),
            ValueRef::Text(quote),
        ],
    )?;
    if !rest.is_empty() {
        return Ok(rest);
    }
    prices_from(conn, base)
}

/// Returns the next prices of the bases from a text on.
fn prices_from<S: Alter>(conn: &mut Connection<S>, text: &[u8]) -> Result<Vec<Row>, Fault>
    ensures pages { PagesOf price_cells (λ b. b.price) page_rows (filter (is_from (Text text.now)))
        (state S.Store conn.old) (state S.Store conn.new) result }
{
    ask(
        conn,
        price::PAGE_FROM_BASE,
        &[PAGE_ROWS.to_cell(), ValueRef::Text(text)],
    )
}
