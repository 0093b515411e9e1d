//! What holds of the definitions that the contracts of this crate cite. Each law is a function that does nothing.
ghost use Rattle.lot_inv.specs.Inventory.{LotsAreThoseOfTheMap, MatchingLotsAreDistinct};

/// The lots that a specification fits come in the order of their keys, each once.
pub fn matching_lots_are_distinct()
    ensures { MatchingLotsAreDistinct }
{}

/// The lots of a commodity are what the map holds under their keys.
pub fn lots_are_those_of_the_map()
    ensures { LotsAreThoseOfTheMap }
{}
