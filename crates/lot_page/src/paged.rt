ghost use Rattle.std.specs.Prelude.{◌≡◌, ℕ, [], ◌∷◌, ◌++◌, ◌+ℤ◌, pos, IfOk, List, map, option_map};
ghost use Rattle.lot_page.specs.Cursor.{Rises};
ghost use Rattle.lot_page.specs.Page.{Pages};
ghost use Rattle.lot_rows.specs.Tables.{Tables, layout};
ghost use Rattle.lot_table.specs.Book.{Holds};
ghost use Rattle.sqlite.specs.Held.{state};
ghost use Rattle.sqlite.specs.Tree.{Trees};
ghost use Rattle.sqlite.specs.declared.types.Value.TheVariants.{Int};
ghost use Rattle.sqlite_value.specs.Value.{owned};

use lot_table::{Fault, Ordinal, TableRow};
use sqlite::types::ValueRef;
use sqlite::{Alter, Connection, Row};
use std::alloc::{AllocError, Global};

/// How many rows a page has at most: 3 MB.
pub(crate) const PAGE_ROWS: u32 = 5_000;

/// The same for entries, each of which has the text of its command.
pub(crate) const ENTRY_PAGE_ROWS: u32 = 100;

/// A row of a table that is read a page at a time.
pub trait PagedRow: TableRow {
    // The rows of the table in a book, how many columns their key has, and how many rows a page has at most.
    ghost rows: { Tables → List Self };

    ghost width: { ℕ };

    ghost most: { ℕ };

    /// Returns the next rows behind the last one given, in the order of the key. Before the first row it is the first ones.
    /// There is none only where all rows are given.
    ///
    /// The queries change nothing. After an error nothing changed, or a transaction that was open is rolled back.
    fn page<S: Alter>(
        alloc: Global,
        conn: &mut Connection<S>,
        last: &Option<Self>,
    ) -> Result<Vec<Row>, Fault>
        ensures pages { Pages Self.encode rows width most (option_map Self.encode last.now)
            (state S.Store conn.old) (state S.Store conn.new) result };

    // The rows of a book rise by the columns of their key.
    ghost rises: { (trees : Trees) (tables : Tables) → Holds layout trees tables
        → Rises width (map Self.encode (rows tables)) };
}

/// Returns the first text behind this one: no other text is between them. A query from it on skips all rows that have this
/// text. A query for the texts that are greater would read these rows.
pub(crate) fn text_behind(alloc: Global, text: &str) -> Result<Vec<u8>, AllocError>
    ensures ok { IfOk result (λ behind. behind.items ≡ text.now ++ 0 ∷ []) }
{
    let mut behind = Vec::from_slice(alloc, text.as_bytes())?;
    behind.push(0)?;
    Ok(behind)
}

/// Returns what a column holds for the next number.
pub(crate) fn number_behind(number: Ordinal) -> ValueRef<'static>
    ensures { owned result ≡ Int (pos number +ℤ pos 1) }
{
    ValueRef::Int(i64::from(number.number()) + 1)
}
