//! Laws of the definitions that the contracts of this crate cite: of lines and tokens. Each is the contract of a function
//! that does nothing.
ghost use Rattle.std.specs.Prelude.{◌≡◌, ◌⊎◌, ℕ, List};
ghost use Rattle.lot_syntax.specs.Line.{AreLines};
ghost use Rattle.lot_syntax.specs.Token.{Lexeme, Cuts};

/// Each text has lines, in one way alone.
pub fn a_text_has_one_list_of_lines()
    ensures some { (text : List ℕ) → (lines : List (List ℕ)) × AreLines lines text }
    ensures one { (text : List ℕ) (a b : List (List ℕ)) → AreLines a text → AreLines b text
        → a ≡ b }
{}

/// A line has one list of tokens, or can't be cut.
pub fn a_line_has_one_list_of_tokens()
    ensures some { (line : List ℕ) → ((tokens : List Lexeme) × Cuts tokens line)
        ⊎ ((tokens : List Lexeme) → Cuts tokens line → ⊥) }
    ensures one { (line : List ℕ) (a b : List Lexeme) → Cuts a line → Cuts b line → a ≡ b }
{}
