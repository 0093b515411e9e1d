ghost use Rattle.std.specs.Prelude.{◌≡◌};
ghost use Rattle.lot_legs.specs.Legs.{dated_row};

use lot_base::{Account, Commodity, Day};
use lot_cost::LotKey;
use lot_num::Units;
use lot_rows::leg::LegRow;

/// A leg of a book: units that a posting of an entry put into a position, with the day of the entry. Below zero it took them
/// out.
#[derive(Drop)]
pub struct DatedLeg {
    /// The number of the entry, from 1.
    pub entry: u32,
    /// The day of its command.
    pub day: Day,
    /// The place of the posting in the entry, from 1.
    pub posting: u32,
    /// The place of the leg among those of its posting, from 0.
    pub place: u32,
    pub account: Account,
    pub commodity: Commodity,
    pub units: Units,
    /// The lot, or none for plain units.
    pub lot: Option<LotKey>,
}

/// Returns the leg of a row, on a day.
pub(crate) fn dated_row(row: LegRow, day: Day) -> DatedLeg
    ensures { result ≡ dated_row day row }
{
    let LegRow {
        entry,
        posting,
        place,
        account,
        commodity,
        units,
        lot,
    } = row;
    DatedLeg {
        entry: entry.number(),
        day,
        posting: posting.number(),
        place,
        account,
        commodity,
        units,
        lot,
    }
}
