//! Laws of the rows of a register. Each is the contract of a function that does nothing.
ghost use Rattle.std.specs.Prelude.{◌≡◌, ◌+ℤ◌, ◌∷◌, ◌++◌, List, map};
ghost use Rattle.lot_register.specs.Left.{ArePassedBy, RegisterRow, left_behind, left_in, pair_of, rows_of};
ghost use Rattle.lot_register.specs.declared.leg.NotedLeg.{NotedLeg};

/// The rows are those of the legs: each once, in their order, and no other.
pub fn rows_are_those_of_the_legs()
    ensures { (legs : List NotedLeg) → map (λ (row : RegisterRow). row.leg) (rows_of legs) ≡ legs }
{}

/// What is left behind a leg is what was left behind the last leg of its commodity in its account,
/// with its own units.
pub fn a_row_goes_on_from_the_one_before()
    ensures { (before between : List NotedLeg) (last leg : NotedLeg)
        → pair_of last ≡ pair_of leg → ArePassedBy (pair_of leg) between
        → left_behind (before ++ last ∷ between) leg ≡ left_behind before last +ℤ leg.units }
{}

/// What is left behind the last leg of a commodity in an account is what all legs leave there.
pub fn the_last_row_has_what_all_legs_leave()
    ensures { (before behind : List NotedLeg) (leg : NotedLeg) → ArePassedBy (pair_of leg) behind
        → left_behind before leg ≡ left_in (before ++ leg ∷ behind) (pair_of leg) }
{}
