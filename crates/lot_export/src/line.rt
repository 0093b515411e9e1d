//! The rows that have a day, and the order in which they are judged.
ghost use Rattle.std.specs.Prelude.{◌≡◌, ◌++◌, ◌∷◌, [], IfOk, OnOk, map};
ghost use Rattle.std.specs.Option.{option_map};
ghost use Rattle.lot_export.specs.Lines.{lines_of, line_of, orders_of, plain};

use crate::entry::Entry;
use lot_deal_read::RowSays;
use lot_field::Time;
use lot_profile::{Order, Table};
use lot_sequence::Row as Line;
use std::alloc::{AllocError, Global};

/// Returns the rows that have a day, in the order of the file. The only error is out of memory.
pub(crate) fn lines<'a>(alloc: Global, entries: &'a [Entry]) -> Result<Vec<Line<'a>>, AllocError>
    ensures { IfOk result (λ lines. map plain lines.items ≡ lines_of entries.now) }
{
    let mut lines = Vec::new(alloc);
    for entry in entries {
        push_line(&mut lines, entry)?;
    }
    Ok(lines)
}

/// Appends a row, if it has a day. The only error is out of memory.
fn push_line<'a>(lines: &mut Vec<Line<'a>>, entry: &'a Entry) -> Result<(), AllocError>
    ensures { OnOk result (map plain lines.new.items
        ≡ map plain lines.old.items ++ lines_of (entry.now ∷ [])) }
{
    if let Some(line) = line(entry) {
        if lines.push(line).is_err() {
            return Err(AllocError);
        }
    }
    Ok(())
}

/// Returns a row, if it has a day.
fn line(entry: &Entry) -> Option<Line<'_>>
    ensures { option_map plain result ≡ line_of entry.now }
{
    match &entry.says {
        RowSays::Dated(dated) => Some(Line {
            number: entry.number,
            table: entry.table,
            day: dated.day,
            time: seconds(dated.time),
            text: dated.text.as_str(),
        }),
        RowSays::Skipped => None,
    }
}

/// Returns how many seconds since midnight a time is.
fn seconds(time: Option<Time>) -> Option<u32>
    ensures { result ≡ time }
{
    Some(time?.seconds())
}

/// Returns the orders of tables. The only error is out of memory.
pub(crate) fn orders(alloc: Global, tables: &[Table]) -> Result<Vec<Order>, AllocError>
    ensures { IfOk result (λ orders. orders.items ≡ orders_of tables.now) }
{
    let mut orders = Vec::new(alloc);
    for table in tables {
        orders.push(table.order)?;
    }
    Ok(orders)
}
