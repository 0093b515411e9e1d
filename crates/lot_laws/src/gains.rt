//! Laws of sales and of their gains.
ghost use Rattle.std.specs.Prelude.{◌≡◌, ◌↔◌, true, List, Some, ℤ, pos, ◌-ℤ◌, ◌*ℤ◌, neg_ℤ};
ghost use Rattle.std.specs.Option.{IsSome};
ghost use Rattle.lot_cost.specs.declared.lot_key.LotKey.{LotKey};
ghost use Rattle.lot_booking.specs.Booking.{Braced, ComesTo, Legs};
ghost use Rattle.lot_command.specs.declared.price.Price.TheVariants.{Each};
ghost use Rattle.lot_command.specs.declared.price.UnitPrice.{UnitPrice};
ghost use Rattle.lot_book.specs.declared.gain.Gain.{Gain};
ghost use Rattle.lot_book.specs.Gain.{IsPriced, gain_of};
ghost use Rattle.lot_book.specs.Sale.{AreLegsOf, SaleParts};

/// The legs of a posting that takes lots away are those of a sale of its units.
pub fn a_reduction_makes_a_sale()
    ensures { (posting : Braced) (legs : List (LotKey × ℤ)) → ComesTo posting (Legs true legs)
        → AreLegsOf posting.units legs }
{}

/// A sale has a gain exactly where it has a price, and all its lots have the currency of that price.
pub fn priced_sales_have_a_gain()
    ensures { (sale : SaleParts) → IsSome (gain_of sale) ↔ IsPriced sale.price sale.legs }
{}

/// A gain is the proceeds less the cost.
pub fn a_gain_is_proceeds_less_cost()
    ensures { (sale : SaleParts) (gain : Gain) → gain_of sale ≡ Some gain
        → gain.gain ≡ gain.proceeds -ℤ gain.cost }
{}

/// At a price for each unit, the proceeds are all units of the sale at that price, with their sign turned.
pub fn proceeds_are_of_all_units()
    ensures { (sale : SaleParts) (price : UnitPrice) (gain : Gain) → AreLegsOf sale.units sale.legs
        → sale.price ≡ Some (Each price) → gain_of sale ≡ Some gain
        → gain.proceeds ≡ neg_ℤ sale.units *ℤ pos price.rate }
{}
