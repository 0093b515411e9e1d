//! Laws of reconciling. Each is the contract of a function that does nothing.
ghost use Rattle.std.specs.Prelude.{◌↔◌, ℕ, IsTrue, List};
ghost use Rattle.lot_legs.specs.declared.leg.DatedLeg.{DatedLeg};
ghost use Rattle.lot_statement.specs.Line.{Line};
ghost use Rattle.lot_reconcile.specs.Balance.{AreBalances};
ghost use Rattle.lot_reconcile.specs.Table.{IsHeldAsSaid, agree};
ghost use Rattle.lot_reconcile.specs.declared.balance.Balance.{Balance};

/// Nothing differs exactly where each commodity is held as it is said, those too that only one of the two names.
pub fn nothing_differs_where_all_is_held_as_said()
    ensures { (lines : List Line) (legs : List DatedLeg) (rows : List (List ℕ × Balance))
        → AreBalances lines legs rows → IsTrue (agree rows) ↔ IsHeldAsSaid lines legs }
{}
