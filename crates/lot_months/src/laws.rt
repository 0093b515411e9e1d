//! Laws of the definitions that the contracts of this crate cite. Each is the contract of a function
//! that does nothing.
ghost use Rattle.lot_months.specs.Series.{CostsAddUp};

/// What the commodities of a currency cost adds up to what all its lots cost.
pub fn a_currency_costs_what_its_lots_do()
    ensures { CostsAddUp }
{}
