//! Laws of pages. Each is the contract of a function that does nothing.
ghost use Rattle.std.specs.Prelude.{◌≡◌, ◌++◌, ℕ, List};
ghost use Rattle.lot_html.specs.Html.{IsBalanced, StandsAlone, alone_tag, close_tag, open_tag};
ghost use Rattle.lot_html.specs.Number.{grouped_digits, without_commas};
ghost use Rattle.lot_html.specs.Text.{HasNoMarkup, Says, escaped};

/// What is written of a text says that text, byte for byte, and nothing of it is markup.
pub fn written_text_says_it()
    ensures says { (said : List ℕ) → Says (escaped said) said }
    ensures no_markup { (said : List ℕ) → HasNoMarkup (escaped said) }
{}

/// Of balanced texts the one behind the other is balanced, and each is in an element. So is an element
/// that stands alone.
pub fn elements_are_balanced()
    ensures text { (said : List ℕ) → IsBalanced (escaped said) }
    ensures behind { (first second : List ℕ) → IsBalanced first → IsBalanced second
        → IsBalanced (first ++ second) }
    ensures inside { (tag : List ℕ) (attributes : List (List ℕ × List ℕ)) (inner : List ℕ)
        → IsBalanced inner
        → IsBalanced (open_tag tag attributes ++ (inner ++ close_tag tag)) }
    ensures alone { (tag : List ℕ) (attributes : List (List ℕ × List ℕ)) → StandsAlone tag
        → IsBalanced (alone_tag tag attributes) }
{}

/// Without their commas, digits for the eye are the digits.
pub fn commas_change_no_digit()
    ensures { (digits : List ℕ)
        → without_commas (grouped_digits digits) ≡ without_commas digits }
{}
