ghost use Rattle.std.specs.Prelude.{◌≡◌, ◌≢◌, Err, IfOk, OnOk, length, option_map};
ghost use Rattle.std.specs.String.{string_bytes};
ghost use Rattle.lot_book.specs.Facts.{text_under};
ghost use Rattle.lot_load.specs.Damage.{FindsDamage, FindsText};
ghost use Rattle.lot_load.specs.Tells.{Tells};
ghost use Rattle.lot_print.specs.Canonical.{IsCanonical};

use lot_command::Key;
use lot_print::is_canonical;
use lot_rows::entry::{self, EntryRow};
use lot_table::{Fault, Queryable};
use std::alloc::Global;

/// Returns the number of entries, which are numbered from 1.
pub(crate) fn count<D: Queryable>(alloc: Global, conn: &mut D) -> Result<u32, Fault>
    ensures same_reference { D.reference conn.new ≡ D.reference conn.old }
    ensures tells { Tells (λ count entries. count ≡ length entries)
        (D.shown conn.old) (D.shown conn.new) result }
{
    match entry::greatest(alloc, conn)? {
        Some(number) => Ok(number.number()),
        None => Ok(0),
    }
}

/// Returns the canonical text that stands under a key.
///
/// The error is `Damaged` where the text there is the canonical text of no command.
pub(crate) fn find_text<D: Queryable>(
    alloc: Global,
    conn: &mut D,
    key: &Key,
) -> Result<Option<String>, Fault>
    ensures same_reference { D.reference conn.new ≡ D.reference conn.old }
    ensures tells { Tells
        (λ text entries. option_map string_bytes text ≡ text_under entries key.now)
        (D.shown conn.old) (D.shown conn.new) result }
    ensures damage { FindsDamage key.now (D.shown conn.old) (D.shown conn.new) result }
    ensures text { FindsText (λ text. option_map string_bytes text) key.now
        (D.shown conn.old) (D.shown conn.new) result }
{
    match entry::find(alloc, conn, &key.source, &key.name)? {
        Some(row) => Ok(Some(text_of(alloc, &row)?)),
        None => Ok(None),
    }
}

/// Returns the text of an entry.
///
/// The error is `Damaged` where it is the canonical text of no command, or `Memory`.
fn text_of(alloc: Global, row: &EntryRow) -> Result<String, Fault>
    ensures ok { IfOk result (λ text. string_bytes text ≡ row.now.body) }
    ensures canonical { OnOk result (IsCanonical row.now.body) }
    ensures damaged { result ≡ Err Fault.Damaged → ¬ IsCanonical row.now.body }
    ensures no_device { result ≢ Err Fault.Device }
{
    let body = row.body.as_str();
    if !is_canonical(alloc, body)? {
        return Err(Fault::Damaged);
    }
    Ok(String::from_str(alloc, body)?)
}
