//! Laws of the definitions that the contracts of this crate cite. Each is the contract of a function
//! that does nothing.
ghost use Rattle.lot_period.specs.Period.{LaterTextIsNotBefore};
ghost use Rattle.lot_period.specs.Term.{HasSameDay, LeapDayIsCutBack};

/// Where the next year has the date, it is the same day of that year.
pub fn the_same_day_is_of_the_same_date()
    ensures { HasSameDay }
{}

/// Of 29 February it is 28 February.
pub fn the_same_day_of_a_leap_day()
    ensures { LeapDayIsCutBack }
{}

/// The text of the period of a later day doesn't sort before that of an earlier one.
pub fn texts_sort_as_days()
    ensures { LaterTextIsNotBefore }
{}
