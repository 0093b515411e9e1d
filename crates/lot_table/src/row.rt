ghost use Rattle.std.specs.Prelude.{◌≡◌, ◌≢◌, All, IfOk, IfSome, List, map, slice_get};
ghost use Rattle.sqlite.specs.Order.{Row as Cells};
ghost use Rattle.sqlite.specs.Values.{bound};
ghost use Rattle.lot_table.specs.Call.{Selects};
ghost use Rattle.lot_table.specs.Statement.{IsSelect};

use crate::fault::Fault;
use crate::statement::{Queryable, ask};
use sqlite::Row;
use sqlite::types::ValueRef;
use std::alloc::Global;

/// A row of one table.
pub trait TableRow: Sized + Drop {
    // The columns of the row, those of the key first, and which rows a book can have.
    ghost encode: { Self → Cells };

    ghost IsGood: { Self → Type 0 };

    /// Returns the row that the columns say. Each column is tested.
    ///
    /// The error is `Memory`, or `Damaged` exactly where the columns say no row that a book can have.
    fn read(alloc: Global, row: &Row) -> Result<Self, Fault>
        ensures ok { IfOk result (λ x. row.now ≡ Self.encode x) }
        ensures good { IfOk result IsGood }
        ensures damaged { result ≡ Err Fault.Damaged → (x : Self) → IsGood x
            → row.now ≢ Self.encode x }
        ensures no_device { result ≢ Err Fault.Device };
}

/// Returns the rows that these columns say, in their order.
///
/// The error is `Memory`, or `Damaged` exactly where some of them say no row that a book can have.
pub fn read_all<R: TableRow>(alloc: Global, rows: &[Row]) -> Result<Vec<R>, Fault>
    ensures ok { IfOk result (λ found. rows.now ≡ map R.TableRow.encode found.items) }
    ensures good { IfOk result (λ found. All R.TableRow.IsGood found.items) }
    ensures damaged { result ≡ Err Fault.Damaged → (xs : List R) → All R.TableRow.IsGood xs
        → rows.now ≢ map R.TableRow.encode xs }
    ensures no_device { result ≢ Err Fault.Device }
{
    let mut found = Vec::new(alloc);
    'rows: for row in rows {
        found.push(R::read(alloc, row)?)?;
    }
    Ok(found)
}

/// Returns the rows that a query answers.
///
/// The query changes nothing. After an error nothing changed, or a transaction that was open is rolled back.
pub fn select<D: Queryable, R: TableRow>(
    alloc: Global,
    conn: &mut D,
    text: &str,
    params: &[ValueRef<'_>],
) -> Result<Vec<R>, Fault>
    requires { IsSelect text.now }
    ensures same_reference { D.reference conn.new ≡ D.reference conn.old }
    ensures selects { Selects R.TableRow.encode R.TableRow.IsGood (λ rows found. found.items ≡ rows)
        (λ found. All R.TableRow.IsGood found.items)
        text.now (bound params.now) (D.shown conn.old) (D.shown conn.new) result }
{
    let rows = ask(conn, text, params)?;
    read_all(alloc, &rows)
}

/// Returns the first row that a query answers, or `None` where it answers none.
///
/// The query changes nothing. After an error nothing changed, or a transaction that was open is rolled back.
pub fn find<D: Queryable, R: TableRow>(
    alloc: Global,
    conn: &mut D,
    text: &str,
    params: &[ValueRef<'_>],
) -> Result<Option<R>, Fault>
    requires { IsSelect text.now }
    ensures same_reference { D.reference conn.new ≡ D.reference conn.old }
    ensures selects { Selects R.TableRow.encode R.TableRow.IsGood
        (λ rows found. found ≡ slice_get rows 0) (λ found. IfSome found R.TableRow.IsGood)
        text.now (bound params.now) (D.shown conn.old) (D.shown conn.new) result }
{
    let rows = select(alloc, conn, text, params)?;
    Ok(first(rows))
}

/// Returns the first of the rows.
fn first<R: TableRow>(rows: Vec<R>) -> Option<R>
    ensures { result ≡ slice_get rows.items 0 }
{
    rows.into_iter().next()
}
