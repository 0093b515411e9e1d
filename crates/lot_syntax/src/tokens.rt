ghost use Rattle.std.specs.Prelude.{◌≡◌, ◌∷◌, [], false, IsTrue, List, IfOk, OnOk, OnErr, MatchOption};
ghost use Rattle.std.specs.Option.{is_some};
ghost use Rattle.lot_syntax.specs.Token.{Lexeme, Cuts};
ghost use Rattle.lot_syntax.specs.Cutting.{cut_behind, cut_of, given, lexeme_of};

use crate::front::next_token;
use crate::token::{Token, Uncut};
use std::alloc::Global;
use std::marker::Model;

/// The tokens of a line, from left to right. A contract sees them as a list.
#[derive(Drop)]
pub struct Tokens<'t, 'a> {
    /// The first ones, which are cut already.
    first: &'t [Token<'a>],
    /// What stands behind those.
    rest: &'a str,
}

impl<'t, 'a> Model for Tokens<'t, 'a> {
    ghost use Rattle.std.specs.Prelude.{List, IsTrue};
    ghost use Rattle.std.specs.Option.{is_some};
    ghost use Rattle.lot_syntax.specs.Token.{Lexeme};
    ghost use Rattle.lot_syntax.specs.Cutting.{cut_behind, cut_of};

    ghost Value = { List Lexeme };

    ghost view = { λ t. cut_behind t.first.now t.rest.now };

    ghost invariant = { λ t. IsTrue (is_some (cut_of t.rest.now)) };
}

impl<'t, 'a> Tokens<'t, 'a> {
    /// Returns the tokens of a line without its line end (docs/FORMATS.md, Tokens), or `Uncut` where the line can't be cut into
    /// tokens.
    pub fn new(line: &'a str) -> Result<Tokens<'t, 'a>, Uncut>
        ensures cut { IfOk result (λ tokens. Cuts tokens line.now) }
        ensures uncut { OnErr result ((tokens : List Lexeme) → Cuts tokens line.now → ⊥) }
    {
        can_cut(line)?;
        Ok(Tokens {
            first: &[],
            rest: line,
        })
    }

    /// Returns the first token and those behind it, or none where there is no token left.
    pub fn split_first(&self) -> Option<(Token<'a>, Tokens<'t, 'a>)>
        ensures { MatchOption result (self.now ≡ [])
            (λ next. self.now ≡ lexeme_of next.0 ∷ next.1) }
    {
        let rest = self.rest;
        if let [token, first @ ..] = self.first {
            return Some((*token, Tokens { first, rest }));
        }
        match next_token(rest) {
            Ok(Some((token, rest))) => Some((token, Tokens { first: &[], rest })),
            Ok(None) => None,
            // The line can be cut.
            Err(Uncut) => unreachable!(),
        }
    }
}

/// Returns `Uncut` where a line can't be cut into tokens.
fn can_cut(line: &str) -> Result<(), Uncut>
    ensures cut { OnOk result (IsTrue (is_some (cut_of line.now))) }
    ensures uncut { OnErr result (is_some (cut_of line.now) ≡ false) }
{
    let mut rest = line;
    while let Some((_, behind)) = next_token(rest)? {
        rest = behind;
    }
    Ok(())
}

/// The tokens of a line, each of which is cut once. The next line takes their memory.
///
/// A contract sees them as a list.
#[derive(Drop)]
pub struct LineTokens<'a> {
    /// The first ones: all of them, or as many as there is memory for.
    first: Vec<Token<'a>>,
    /// What stands behind those.
    rest: &'a str,
}

impl<'a> Model for LineTokens<'a> {
    ghost use Rattle.std.specs.Prelude.{List, IsTrue};
    ghost use Rattle.std.specs.Option.{is_some};
    ghost use Rattle.lot_syntax.specs.Token.{Lexeme};
    ghost use Rattle.lot_syntax.specs.Cutting.{cut_behind, cut_of};

    ghost Value = { List Lexeme };

    ghost view = { λ t. cut_behind t.first.items t.rest.now };

    ghost invariant = { λ t. IsTrue (is_some (cut_of t.rest.now)) };
}

impl<'a> LineTokens<'a> {
    /// Returns those of an empty line, of which there is none.
    pub fn new(alloc: Global) -> LineTokens<'a>
        ensures { result ≡ [] }
    {
        LineTokens {
            first: Vec::new(alloc),
            rest: "",
        }
    }

    /// Cuts a line, which is given without its line end, into tokens, or returns `Uncut` where it can't be cut
    /// (docs/FORMATS.md, Tokens), and then has no token.
    pub fn cut(&mut self, line: &'a str) -> Result<(), Uncut>
        ensures cut { OnOk result (Cuts self.new line.now) }
        ensures uncut { OnErr result ((tokens : List Lexeme) → Cuts tokens line.now → ⊥) }
        ensures none { OnErr result (self.new ≡ []) }
    {
        match cut_first(&mut self.first, line) {
            Ok(rest) => {
                self.rest = rest;
                Ok(())
            }
            Err(Uncut) => {
                self.first.clear();
                self.rest = "";
                Err(Uncut)
            }
        }
    }

    /// Returns the tokens.
    pub fn tokens(&self) -> Tokens<'_, 'a>
        ensures { result ≡ self.now }
    {
        Tokens {
            first: self.first.as_slice(),
            rest: self.rest,
        }
    }
}

/// Cuts the first tokens of a line, as many as there is memory for, and returns what stands behind them.
fn cut_first<'a>(first: &mut Vec<Token<'a>>, line: &'a str) -> Result<&'a str, Uncut>
    ensures tokens { IfOk result (λ rest.
        cut_behind first.new.items rest.now ≡ given (cut_of line.now)) }
    ensures rest { IfOk result (λ rest. IsTrue (is_some (cut_of rest.now))) }
    ensures cut { IfOk result (λ _. IsTrue (is_some (cut_of line.now))) }
    ensures uncut { OnErr result (is_some (cut_of line.now) ≡ false) }
{
    first.clear();
    let mut rest = line;
    while let Some((token, behind)) = next_token(rest)? {
        if first.push(token).is_err() {
            can_cut(rest)?;
            return Ok(rest);
        }
        rest = behind;
    }
    Ok(rest)
}
