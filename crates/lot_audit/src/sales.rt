ghost use Rattle.std.specs.Prelude.{◌≡◌, ◌↔◌, IsTrue, false, Some, map};
ghost use Rattle.std.specs.Option.{option_copied};
ghost use Rattle.lot_stored.specs.Kept.{numbered};
ghost use Rattle.lot_stored.specs.Rows.{sale_row};
ghost use Rattle.lot_audit.specs.Checks.{ChecksWhere};
ghost use Rattle.lot_audit.specs.Pass.{GoesOnBy, HasOthersNext, IsAmongSales};
ghost use Rattle.sqlite.specs.Held.{state};

use lot_book::Sale;
use lot_command::Price;
use lot_page::SaleCursor;
use lot_rows::sale::SaleRow;
use lot_table::{Fault, Ordinal};
use sqlite::{Alter, Connection};

/// Returns whether the next rows behind a cursor are those of the sales of an entry. It is behind
/// them then.
pub(crate) fn sales_follow<S: Alter>(
    conn: &mut Connection<S>,
    cursor: &mut SaleCursor,
    number: Ordinal,
    sales: &[(usize, Sale)],
) -> Result<bool, Fault>
    ensures follow { ChecksWhere (IsAmongSales cursor.old) (λ follow tables.
        (IsTrue follow → GoesOnBy cursor.old cursor.new
        (map sale_row (numbered number sales.now)) tables)
        × (follow ≡ false → HasOthersNext cursor.old
        (map sale_row (numbered number sales.now)) tables))
        (state S.Store conn.old) (state S.Store conn.new) result }
{
    'sales: for sale in sales {
        let row = cursor.next(conn)?;
        if !is_row_of(&row, number, sale) {
            return Ok(false);
        }
    }
    Ok(true)
}

/// Returns whether a row is that of a sale of an entry.
fn is_row_of(row: &Option<SaleRow>, number: Ordinal, sale: &(usize, Sale)) -> bool
    ensures { IsTrue result ↔ (row.now ≡ Some (sale_row (number, sale.now))) }
{
    let Some(row) = row else {
        return false;
    };
    row.entry == number
        && row.posting.number() as usize == sale.0
        && row.day == sale.1.day()
        && row.account == *sale.1.account()
        && row.commodity == *sale.1.commodity()
        && row.units.units() == sale.1.units()
        && is_same_price(&row.price, sale.1.price())
}

fn is_same_price(a: &Option<Price>, b: Option<&Price>) -> bool
    ensures { IsTrue result ↔ (a.now ≡ option_copied b.entry) }
{
    match (a, b) {
        (Some(Price::Each(a)), Some(Price::Each(b))) => {
            a.rate == b.rate && a.currency == b.currency
        }
        (Some(Price::Whole(a)), Some(Price::Whole(b))) => {
            a.total() == b.total() && *a.currency() == *b.currency()
        }
        (None, None) => true,
        _ => false,
    }
}
