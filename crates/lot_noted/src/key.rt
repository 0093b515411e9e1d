ghost use Rattle.std.specs.Prelude.{◌≡◌};
ghost use Rattle.lot_noted.specs.Keys.{key_of};

use lot_base::Day;
use lot_register::NotedLeg;

/// Where a leg stands in a register: by its day, its entry, its posting, and its place there. It
/// has 16 bytes.
#[derive(Clone, Copy, Debug, PartialEq, Eq, PartialOrd, Ord)]
pub struct LegKey {
    /// The day of its entry.
    pub day: Day,
    /// The number of the entry, from 1.
    pub entry: u32,
    /// The place of the posting in the entry, from 1.
    pub posting: u32,
    /// The place of the leg among those of its posting, from 0.
    pub place: u32,
}

impl LegKey {
    /// Returns the key of a leg.
    pub fn of(leg: &NotedLeg) -> LegKey
        ensures { result ≡ key_of leg.now }
    {
        LegKey {
            day: leg.day,
            entry: leg.entry,
            posting: leg.posting,
            place: leg.place,
        }
    }
}
