//! Laws of the definitions and of the constants, each the contract of a function that does nothing, or that
//! returns the constant.
ghost use Rattle.std.specs.Prelude.{◌≡◌, ◌≤◌, ◌↔◌, ℕ, ℤ, pos, List, length, IsTrue, Some, Ok};
ghost use Rattle.lot_num.specs.declared.number_text.Sign.{Sign};
ghost use Rattle.lot_num.specs.Amount.{units_limit, rate_limit, greatest_wide, IsUnits, IsRate, IsPerUnit, per_unit};
ghost use Rattle.lot_num.specs.AmountText.{amount_text};
ghost use Rattle.lot_num.specs.NumberGrammar.{IsNumberText};
ghost use Rattle.lot_num.specs.NumberText.{is_number, sign_of, whole_part, decimals, units_of, rate_of};

use crate::{Rate, Units, Wide};

/// The constants of the limits are the limits of the definitions.
pub fn limits_are_those_of_the_definitions()
    ensures units { Units.LIMIT ≡ units_limit }
    ensures rate { Rate.LIMIT ≡ rate_limit }
    ensures wide { Wide.GREATEST ≡ greatest_wide }
{}

/// Returns `Units::ZERO`, which is zero.
pub fn zero_units() -> Units
    ensures { result ≡ pos 0 }
{
    Units::ZERO
}

/// Returns `Wide::ZERO`, which is zero.
pub fn zero_weight() -> Wide
    ensures { result ≡ pos 0 }
{
    Wide::ZERO
}

/// Units have a rate for a total exactly where they come to the total at that rate.
pub fn a_rate_for_each_unit_comes_to_the_total()
    ensures { (units total : ℤ) (rate : ℕ)
        → (per_unit units total ≡ Some rate) ↔ IsPerUnit units total rate }
{}

/// The texts that are read as numbers are those of the grammar. Each is cut into the parts that the grammar gives it,
/// so a number text has one sign, one whole part and one list of decimals.
pub fn number_text_is_its_grammar()
    ensures only { (text : List ℕ) → IsTrue (is_number text)
        → IsNumberText text (sign_of text) (whole_part text) (decimals text) }
    ensures every { (text : List ℕ) (sign : Sign) (whole fraction : List ℕ)
        → IsNumberText text sign whole fraction
        → IsTrue (is_number text)
        × (sign_of text ≡ sign) × (whole_part text ≡ whole) × (decimals text ≡ fraction) }
{}

/// The printed text of an amount is read again as that amount.
pub fn printed_text_reads_back()
    ensures units { (z : ℤ) → IsUnits z → units_of (amount_text 0 8 z) ≡ Ok z }
    ensures money { (z : ℤ) → IsUnits z → units_of (amount_text 2 8 z) ≡ Ok z }
    ensures rate { (n : ℕ) → IsRate n → rate_of (amount_text 0 8 (pos n)) ≡ Ok n }
{}

/// No number text of an amount is shorter than the printed one. No number text of it with at least two decimals is
/// shorter than the one that is printed as money, which has at least two.
pub fn printed_text_is_shortest()
    ensures units { (z : ℤ) (text : List ℕ) → units_of text ≡ Ok z
        → length (amount_text 0 8 z) ≤ length text }
    ensures money { (z : ℤ) (text : List ℕ) → units_of text ≡ Ok z → 2 ≤ length (decimals text)
        → length (amount_text 2 8 z) ≤ length text }
    ensures money_has_two { (z : ℤ) → IsUnits z → 2 ≤ length (decimals (amount_text 2 8 z)) }
    ensures rate { (n : ℕ) (text : List ℕ) → rate_of text ≡ Ok n
        → length (amount_text 0 8 (pos n)) ≤ length text }
{}
