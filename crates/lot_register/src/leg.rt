use lot_base::{Account, Commodity, Day, Note};
use lot_cost::LotKey;
use lot_num::Units;

/// A leg of a book as a register lists it: units that a posting of an entry put into a position.
/// Below zero it took them out.
#[derive(Drop)]
pub struct NotedLeg {
    /// The day of its entry.
    pub day: Day,
    /// The number of the entry, from 1.
    pub entry: u32,
    /// The place of the posting in the entry, from 1.
    pub posting: u32,
    /// The place of the leg among those of its posting, from 0.
    pub place: u32,
    pub account: Account,
    pub commodity: Commodity,
    pub units: Units,
    /// The lot, or none for plain units.
    pub lot: Option<LotKey>,
    /// The narration of the transaction, if it has one.
    pub narration: Option<Note>,
}
