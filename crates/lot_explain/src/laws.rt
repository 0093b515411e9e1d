//! What holds of the definitions that the contracts of this crate cite. Each law is a function that does nothing.
ghost use Rattle.std.specs.Prelude.{◌≡◌, ℕ, List, Some};
ghost use Rattle.lot_explain.specs.Shell.{quoted, word_of};

/// A shell reads what is written for it back as one word, which is the text.
pub fn a_quoted_text_is_read_back()
    ensures { (text : List ℕ) → word_of (quoted text) ≡ Some text }
{}
