//! Laws of the definitions that the contracts of this crate cite. Each law is the contract of a function that does
//! nothing.
ghost use Rattle.lot_sequence.specs.Key.{KeysAreOfTheDay, KeysDiffer};
ghost use Rattle.lot_sequence.specs.Matching.{EachIsTakenOnce, ThereIsOneMatching};
ghost use Rattle.lot_sequence.specs.Order.{ThereIsAnOrder, ThereIsOneOrder, TiesHaveOneNumber};

/// Which of two rows is judged first is a total order, and two rows that tie in it have one number.
pub fn rows_are_ordered()
    ensures order { ThereIsAnOrder }
    ensures ties { TiesHaveOneNumber }
{}

/// Rows whose numbers differ stand in the order of judging in one way only.
pub fn there_is_one_order()
    ensures { ThereIsOneOrder }
{}

/// Two files whose rows of a day say the same, in the order of judging, give them the same keys.
pub fn keys_are_of_the_day()
    ensures { KeysAreOfTheDay }
{}

/// The keys of a file differ, but where the digests of two different texts have the same 32 first digits.
pub fn keys_differ()
    ensures { KeysDiffer }
{}

/// Rows take back what they should in one way, and no purchase is taken back twice.
pub fn there_is_one_matching()
    ensures one { ThereIsOneMatching }
    ensures once { EachIsTakenOnce }
{}
