ghost use Rattle.std.specs.Prelude.{◌≡◌, ◌++◌, map, OnOk};
ghost use Rattle.lot_inv.specs.Inventory.{as_entries};
ghost use Rattle.lot_book.specs.Holding.{entry_of};
ghost use Rattle.lot_view.specs.Holdings.{entries_in};

use lot_base::{Account, Commodity};
use lot_book::Holding;
use lot_cost::LotKey;
use lot_num::Units;
use std::alloc::AllocError;

/// Lists what an account holds, which is given, behind other rows. The only error is out of memory.
pub(crate) fn list_account(
    account: &Account,
    held: Vec<(Commodity, Option<LotKey>, Units)>,
    rows: &mut Vec<Holding>,
) -> Result<(), AllocError>
    ensures { OnOk result
        (map entry_of rows.new.items ≡ map entry_of rows.old.items
        ++ entries_in account.now (as_entries held.items)) }
{
    for (commodity, lot, units) in held {
        rows.push(Holding {
            account: account.copy()?,
            commodity,
            lot,
            units,
        })?;
    }
    Ok(())
}
