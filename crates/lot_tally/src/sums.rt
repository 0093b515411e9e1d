ghost use Rattle.std.specs.Prelude.{◌≡◌, [], IsTrue, None, Some, SomeIff};
ghost use Rattle.lot_tally.specs.Rows.{has_room, sums_of, with_lot};

use lot_book::Gain;
use lot_num::Wide;

/// What the lots of a row come to: those with a gain, and beside them those without one, whose
/// sales are unpriced.
#[derive(Clone, Copy, Debug, PartialEq, Eq)]
pub struct RowSums {
    /// How many lots have a gain.
    pub priced_lots: u64,
    /// What these went for.
    pub proceeds: Wide,
    /// What they cost.
    pub cost: Wide,
    /// What they gained.
    pub gain: Wide,
    /// How many lots have no gain.
    pub unpriced_lots: u64,
    /// What these cost.
    pub unpriced_cost: Wide,
}

impl RowSums {
    /// Returns the sums over no lots.
    pub fn none() -> RowSums
        ensures { result ≡ sums_of [] }
    {
        RowSums {
            priced_lots: 0,
            proceeds: Wide::ZERO,
            cost: Wide::ZERO,
            gain: Wide::ZERO,
            unpriced_lots: 0,
            unpriced_cost: Wide::ZERO,
        }
    }

    /// Returns the sums with one more lot, of which this is known: what it cost, and what it gained
    /// where its sale is priced. It is `None` where a sum leaves its range.
    pub fn with(self, cost: Wide, gain: Option<Gain>) -> Option<RowSums>
        ensures { SomeIff result (IsTrue (has_room self cost gain)) (with_lot self cost gain) }
    {
        match gain {
            Some(gain) => self.with_priced(gain),
            None => self.with_unpriced(cost),
        }
    }

    /// Returns the sums with one more lot that has a gain.
    fn with_priced(self, gain: Gain) -> Option<RowSums>
        ensures { SomeIff result (IsTrue (has_room self gain.cost (Some gain)))
            (with_lot self gain.cost (Some gain)) }
    {
        let priced_lots = self.priced_lots.checked_add(1)?;
        let proceeds = self.proceeds.checked_add(gain.proceeds)?;
        let cost = self.cost.checked_add(gain.cost)?;
        let gain = self.gain.checked_add(gain.gain)?;
        Some(RowSums {
            priced_lots,
            proceeds,
            cost,
            gain,
            ..self
        })
    }

    /// Returns the sums with one more lot that has none.
    fn with_unpriced(self, cost: Wide) -> Option<RowSums>
        ensures { SomeIff result (IsTrue (has_room self cost None)) (with_lot self cost None) }
    {
        let unpriced_lots = self.unpriced_lots.checked_add(1)?;
        let unpriced_cost = self.unpriced_cost.checked_add(cost)?;
        Some(RowSums {
            unpriced_lots,
            unpriced_cost,
            ..self
        })
    }
}
