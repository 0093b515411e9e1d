//! Laws of the definitions, each the contract of a function that does nothing.
ghost use Rattle.std.specs.Prelude.{◌≡◌, ◌≤◌, ℕ, List, [], ◌∷◌, ◌++◌, ◌⊎◌, None, Some, codes, flat_map, length, neg_ℤ, pos};
ghost use Rattle.lot_base.specs.Day.{date_number, day_number};
ghost use Rattle.lot_field.specs.Days.{AreSpelled, HaveEachOnce, moment_at, moment_of, time_behind};
ghost use Rattle.lot_field.specs.Field.{before as before_sign, behind as behind_sign, cut};
ghost use Rattle.lot_field.specs.Numbers.{SaysNumber, ahead_of_sign, past_sign};
ghost use Rattle.lot_field.specs.Written.{AreWritten, Written, date_of, written_part};
ghost use Rattle.lot_field.specs.Tests.{test_of};
ghost use Rattle.lot_field.specs.declared.days.DayPart.{DayPart};
ghost use Rattle.lot_field.specs.declared.days.DayPart.TheVariants.{Day, Month, MonthName, Sign, Year};
ghost use Rattle.lot_field.specs.declared.numbers.DecimalMark.TheVariants.{Comma, Point};
ghost use Rattle.lot_field.specs.declared.numbers.Exactness.TheVariants.{Exact, Rounded};
ghost use Rattle.lot_field.specs.declared.numbers.Number.{Number};
ghost use Rattle.lot_field.specs.declared.numbers.NumberForm.{NumberForm};
ghost use Rattle.lot_field.specs.declared.tests.Test.TheVariants.{Above, Begins, Has, Is};

/// A field says at most one number.
pub fn a_field_says_one_number()
    ensures { (form : NumberForm) (field : List ℕ) (one other : Number)
        → SaysNumber form field one → SaysNumber form field other → one ≡ other }
{}

/// A text is spelled by at most one list of parts of days.
pub fn a_text_has_one_form_of_days()
    ensures { (text : List ℕ) (one other : List DayPart)
        → AreSpelled text one → AreSpelled text other → one ≡ other }
{}

/// Of the signs of currencies that a text begins with, or ends with, none is longer than what is read over, whatever their order.
pub fn the_longest_sign_is_read_over()
    ensures front { (before behind : List (List ℕ)) (sign text rest : List ℕ)
        → behind_sign sign text ≡ Some rest
        → length (past_sign (before ++ sign ∷ behind) text) ≤ length rest }
    ensures back { (before behind : List (List ℕ)) (sign text rest : List ℕ)
        → before_sign sign text ≡ Some rest
        → length (ahead_of_sign (before ++ sign ∷ behind) text) ≤ length rest }
    ensures one { (signs : List (List ℕ)) (text : List ℕ)
        → (past_sign signs text ≡ text)
        ⊎ ((before : List (List ℕ)) × (sign : List ℕ) × (behind : List (List ℕ))
        × (signs ≡ before ++ sign ∷ behind)
        × (behind_sign sign text ≡ Some (past_sign signs text))) }
{}

/// A date that is written by a form of days is read as that date, and what stands behind it is read as its time.
pub fn a_written_day_is_read()
    ensures { (w : Written) (parts : List DayPart) (field rest : List ℕ)
        → AreWritten w → HaveEachOnce parts → cut field ≡ flat_map (written_part w) parts ++ rest
        → moment_of parts field
        ≡ moment_at (date_number ((date_of w).year, (date_of w).month, (date_of w).day))
        (time_behind rest) }
{}

/// Some texts and the numbers that they say.
pub fn rows_of_numbers()
    ensures groups { SaysNumber
        (record { decimal = Comma; grouping = Some (codes "."); signs = [] })
        (codes " -1.234,5 ") (record { units = neg_ℤ (pos 123450000000); exactness = Exact }) }
    ensures parentheses { SaysNumber
        (record { decimal = Point; grouping = Some (codes ","); signs = codes "$" ∷ [] })
        (codes "($5.20)") (record { units = neg_ℤ (pos 520000000); exactness = Exact }) }
    ensures longest { SaysNumber
        (record { decimal = Point; grouping = None; signs = codes "$" ∷ codes "US$" ∷ [] })
        (codes "5 US$") (record { units = pos 500000000; exactness = Exact }) }
    ensures rounded { SaysNumber (record { decimal = Point; grouping = None; signs = [] })
        (codes ".000000015") (record { units = pos 2; exactness = Rounded }) }
{}

/// Some texts and the days and times that they say.
pub fn rows_of_days()
    ensures time { moment_of (Day ∷ Sign 46 ∷ Month ∷ Sign 46 ∷ Year ∷ [])
        (codes " 1.03.2024, 9:05")
        ≡ Some (record { day = day_number (pos 2024) (pos 3) (pos 1); time = Some 32700 }) }
    ensures afternoon { moment_of (Year ∷ Month ∷ Day ∷ []) (codes "20240301T1:30 PM")
        ≡ Some (record { day = day_number (pos 2024) (pos 3) (pos 1); time = Some 48600 }) }
    ensures midnight { moment_of (Year ∷ Month ∷ Day ∷ []) (codes "20240301,12:05:01am.")
        ≡ Some (record { day = day_number (pos 2024) (pos 3) (pos 1); time = Some 301 }) }
    ensures zone { moment_of (Year ∷ Month ∷ Day ∷ []) (codes "20240301 13:30 AMT")
        ≡ Some (record { day = day_number (pos 2024) (pos 3) (pos 1); time = Some 48600 }) }
    ensures hour { moment_of (Year ∷ Month ∷ Day ∷ []) (codes "20240301 13:30 PM") ≡ None }
    ensures short { moment_of (Year ∷ Month ∷ Day ∷ []) (codes "2024301") ≡ None }
    ensures short_day { moment_of (Year ∷ Month ∷ Day ∷ []) (codes "2024112") ≡ None }
    ensures name { moment_of (Day ∷ Sign 45 ∷ MonthName ∷ Sign 45 ∷ Year ∷ []) (codes "01-MAR-2024")
        ≡ Some (record { day = day_number (pos 2024) (pos 3) (pos 1); time = None }) }
    ensures other { moment_of (Year ∷ Sign 45 ∷ Month ∷ Sign 45 ∷ Day ∷ []) (codes "2024-03-01x")
        ≡ None }
    ensures calendar { moment_of (Month ∷ Sign 47 ∷ Day ∷ Sign 47 ∷ Year ∷ []) (codes "02/30/2024")
        ≡ None }
{}

/// Some texts and the tests that they ask.
pub fn rows_of_tests()
    ensures begins { test_of (codes "begins: YOU BOUGHT") ≡ Begins (codes "YOU BOUGHT") }
    ensures has { test_of (codes "has:Split") ≡ Has (codes "Split") }
    ensures above { test_of (codes "> 0") ≡ Above }
    ensures other { test_of (codes "Buy") ≡ Is (codes "Buy") }
{}
