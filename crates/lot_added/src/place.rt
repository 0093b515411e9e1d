ghost use Rattle.std.specs.Prelude.{ℕ, ◌≡◌};
ghost use Rattle.lot_added.specs.Added.{AreAddedSaleRows, AreAddedSales, IsBehindAdded, IsBehindAddedRows, is_added};
ghost use Rattle.lot_walk.specs.Gains.{HasLegs};
ghost use Rattle.lot_walk.specs.Step.{HasGivenNoRows, HasGivenNone};
ghost use Rattle.lot_walk.specs.declared.gains.NumberedSale.{NumberedSale as NumberedSaleOf};

use lot_table::Fault;
use lot_walk::{GainsPlace, NumberedSale, Place};
use sqlite::{Alter, Connection};
use std::alloc::Global;

/// The place of a walk over the sales of the entries of a book behind a number of them, in their order, each with its legs.
#[derive(Drop)]
pub struct AddedPlace {
    sales: GainsPlace,
    behind: u32,
}

impl AddedPlace {
    /// Returns the place before the first sale of an entry behind so many. It takes no memory.
    pub fn new(alloc: Global, behind: u32) -> AddedPlace
        ensures begun { HasGivenNone AreAddedSales IsBehindAdded result behind }
        ensures rows { HasGivenNoRows IsBehindAddedRows result behind }
    {
        AddedPlace {
            sales: GainsPlace::new(alloc, None, None),
            behind,
        }
    }
}

impl Place for AddedPlace {
    type Row = NumberedSale;

    ghost Asked = { ℕ };

    ghost Shown = { NumberedSaleOf };

    ghost shown = { λ sold. sold };

    ghost IsGood = { HasLegs };

    ghost AreAll = { AreAddedSales };

    ghost IsBehind = { IsBehindAdded };

    ghost AreAllRows = { AreAddedSaleRows };

    ghost IsBehindRows = { IsBehindAddedRows };

    /// `Damaged` is returned also for a sale of an earlier entry, which is read before it is passed over, and `Memory` where more
    /// sales are passed over than a `u64` counts.
    fn next<S: Alter>(
        &mut self,
        alloc: Global,
        conn: &mut Connection<S>,
    ) -> Result<Option<NumberedSale>, Fault> {
        'sales: for _ in 0..u64::MAX {
            let Some(sold) = self.sales.next(alloc, conn)? else {
                return Ok(None);
            };
            if is_added(self.behind, sold.entry) {
                return Ok(Some(sold));
            }
        }
        Err(Fault::Memory)
    }
}

/// Returns whether an entry is behind so many.
fn is_added(behind: u32, entry: u32) -> bool
    ensures { result ≡ is_added behind entry }
{
    entry > behind
}
