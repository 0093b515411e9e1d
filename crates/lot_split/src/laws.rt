//! Laws of the definitions, each the contract of a function that does nothing.
ghost use Rattle.std.specs.Prelude.{◌≡◌, ◌≢◌, ◌≤◌, ◌*◌, ◌↔◌, ℕ, ℤ, List, pos, ◌+ℤ◌, ◌*ℤ◌};
ghost use Rattle.lot_num.specs.Amount.{IsRate};
ghost use Rattle.lot_cost.specs.declared.method.Method.{Method};
ghost use Rattle.lot_command.specs.declared.transaction.Transaction.{Transaction};
ghost use Rattle.lot_split.specs.Lots.{Becomes, cost_of, held_of};
ghost use Rattle.lot_rounding.specs.Ratio.{IsProper};
ghost use Rattle.lot_book.specs.Booking.{TieRule};
ghost use Rattle.lot_book.specs.Facts.{Facts};
ghost use Rattle.lot_split.specs.Form.{IsSplitByForm};
ghost use Rattle.lot_split.specs.Held.{HasFaultOn, IsSplitOn};
ghost use Rattle.lot_split.specs.Split.{HasFault, IsSplit, Splits};
ghost use Rattle.lot_split.specs.Weights.{taken_in, weigh_in, weights_of};
ghost use Rattle.lot_split.specs.declared.fault.SplitFault.{SplitFault};
ghost use Rattle.lot_split.specs.declared.fault.SplitFault.TheVariants.{Memory};
ghost use Rattle.lot_split.specs.declared.lot.HeldLot.{HeldLot};
ghost use Rattle.lot_rounding.specs.declared.ratio.Change.TheVariants.{InRatio, ByUnits};
ghost use Rattle.lot_rounding.specs.declared.ratio.Ratio.{Ratio};
ghost use Rattle.lot_split.specs.declared.transaction.Split.{Split};

/// A split balances: in each currency its postings weigh, with the lots that they take, exactly zero.
pub fn a_split_balances()
    ensures { (asked : Split) (method : Method) (lots : List HeldLot) (t : Transaction)
        (currency : List ℕ) → IsSplit asked method lots t
        → weigh_in currency (weights_of t.postings) +ℤ taken_in method lots currency ≡ pos 0 }
{}

/// The units of all lots together are as many times the ratio; where units were added, they are those that were held and
/// these.
pub fn units_come_to_the_ratio()
    ensures ratio { (asked : Split) (method : Method) (lots split : List HeldLot)
        → (s : Splits asked method lots split)
        → held_of split *ℤ pos s.ratio.old ≡ held_of lots *ℤ pos s.ratio.new }
    ensures added { (asked : Split) (method : Method) (lots split : List HeldLot) (added : ℤ)
        → asked.change ≡ ByUnits added → Splits asked method lots split
        → held_of split ≡ held_of lots +ℤ added }
{}

/// Where the divided number of a lot has eight decimals, it is the number, and the lot costs what it did.
pub fn an_exact_number_leaves_no_crumb()
    ensures number { (ratio : Ratio) (lot split : HeldLot) (number : ℕ)
        → IsProper ratio → Becomes ratio lot split → IsRate number
        → number * ratio.new ≡ lot.key.number * ratio.old → split.key.number ≡ number }
    ensures cost { (ratio : Ratio) (lot split : HeldLot) (number : ℕ)
        → IsProper ratio → Becomes ratio lot split → IsRate number
        → number * ratio.new ≡ lot.key.number * ratio.old → cost_of split ≡ cost_of lot }
{}

/// A ratio, and the units that it adds to what is held, come to the same transaction.
pub fn a_ratio_and_its_units_are_one_split()
    ensures { (asked : Split) (method : Method) (lots : List HeldLot) (t : Transaction)
        (ratio : Ratio) (added : ℤ) → held_of lots ≢ pos 0 → 1 ≤ ratio.old
        → (held_of lots +ℤ added) *ℤ pos ratio.old ≡ held_of lots *ℤ pos ratio.new
        → IsSplit (record asked { change = InRatio ratio }) method lots t
        ↔ IsSplit (record asked { change = ByUnits added }) method lots t }
{}

/// There is at most one split of lots. Where there is one, there is no fault but that memory runs out.
pub fn there_is_one_split()
    ensures one { (asked : Split) (method : Method) (lots : List HeldLot) (t other : Transaction)
        → IsSplit asked method lots t → IsSplit asked method lots other → t ≡ other }
    ensures no_fault { (asked : Split) (method : Method) (lots : List HeldLot) (t : Transaction)
        (fault : SplitFault) → IsSplit asked method lots t → HasFault asked method lots fault
        → fault ≡ Memory }
{}

/// A split of lots is one by form, so what was accepted is found again by its text.
pub fn a_split_is_one_by_form()
    ensures of_lots { (asked : Split) (method : Method) (lots : List HeldLot) (t : Transaction)
        → IsSplit asked method lots t → IsSplitByForm asked t }
    ensures on_a_book { (ties : TieRule) (facts : Facts) (asked : Split) (t : Transaction)
        → IsSplitOn ties facts asked t → IsSplitByForm asked t }
{}

/// On what a book says there is at most one split. Where there is one, there is no fault but that memory runs out.
pub fn there_is_one_split_on()
    ensures one { (ties : TieRule) (facts : Facts) (asked : Split) (t other : Transaction)
        → IsSplitOn ties facts asked t → IsSplitOn ties facts asked other → t ≡ other }
    ensures no_fault { (ties : TieRule) (facts : Facts) (asked : Split) (t : Transaction)
        (fault : SplitFault) → IsSplitOn ties facts asked t → HasFaultOn ties facts asked fault
        → fault ≡ Memory }
{}
