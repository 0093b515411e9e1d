use lot_base::Commodity;
use lot_num::Rate;

/// The price of a pair at a day.
#[derive(Debug, PartialEq, Eq, Drop)]
pub struct PairPrice {
    pub base: Commodity,
    /// The currency of the rate.
    pub quote: Commodity,
    /// What one unit of the base is worth.
    pub rate: Rate,
}
