ghost use Rattle.std.specs.Prelude.{◌≡◌, None, Some, MatchOption, option_map};
ghost use Rattle.lot_syntax.specs.Header.{as_text, last_word, seen_text};
ghost use Rattle.lot_syntax.specs.Shape.{after_close, after_close_close, after_comma, as_number, as_word, is_empty};

use crate::token::{Mark, Token};
use crate::tokens::Tokens;

/// Returns the word at the front and the tokens behind it, or none where the first token is no word.
pub(crate) fn word<'t, 'a>(tokens: &Tokens<'t, 'a>) -> Option<(&'a str, Tokens<'t, 'a>)>
    ensures { MatchOption result (as_word tokens.now ≡ None)
        (λ found. as_word tokens.now ≡ Some (found.0.now, found.1)) }
{
    match tokens.split_first()? {
        (Token::Word(word), rest) => Some((word, rest)),
        _ => None,
    }
}

/// Returns the number at the front and the tokens behind it, or none where the first token is no number.
pub(crate) fn number<'t, 'a>(tokens: &Tokens<'t, 'a>) -> Option<(&'a str, Tokens<'t, 'a>)>
    ensures { MatchOption result (as_number tokens.now ≡ None)
        (λ found. as_number tokens.now ≡ Some (found.0.now, found.1)) }
{
    match tokens.split_first()? {
        (Token::Number(number), rest) => Some((number, rest)),
        _ => None,
    }
}

/// Returns the tokens behind a comma.
pub(crate) fn comma<'t, 'a>(tokens: &Tokens<'t, 'a>) -> Option<Tokens<'t, 'a>>
    ensures { after_comma tokens.now ≡ result }
{
    match tokens.split_first()? {
        (Token::Mark(Mark::Comma), rest) => Some(rest),
        _ => None,
    }
}

/// Returns the tokens behind a closing brace.
pub(crate) fn close<'t, 'a>(tokens: &Tokens<'t, 'a>) -> Option<Tokens<'t, 'a>>
    ensures { after_close tokens.now ≡ result }
{
    match tokens.split_first()? {
        (Token::Mark(Mark::Close), rest) => Some(rest),
        _ => None,
    }
}

/// Returns the tokens behind a closing double brace.
pub(crate) fn close_close<'t, 'a>(tokens: &Tokens<'t, 'a>) -> Option<Tokens<'t, 'a>>
    ensures { after_close_close tokens.now ≡ result }
{
    match tokens.split_first()? {
        (Token::Mark(Mark::CloseClose), rest) => Some(rest),
        _ => None,
    }
}

/// Returns whether no token is left.
pub(crate) fn is_end(tokens: &Tokens<'_, '_>) -> bool
    ensures { result ≡ is_empty tokens.now }
{
    tokens.split_first().is_none()
}

/// Returns the text at the front and the tokens behind it, or none where the first token is no text.
pub(crate) fn text<'t, 'a>(tokens: &Tokens<'t, 'a>) -> Option<(&'a str, Tokens<'t, 'a>)>
    ensures { MatchOption result (as_text tokens.now ≡ None)
        (λ found. as_text tokens.now ≡ Some (found.0.now, found.1)) }
{
    match tokens.split_first()? {
        (Token::Text(text), rest) => Some((text, rest)),
        _ => None,
    }
}

/// Returns the word that is the only token left.
pub(crate) fn last_word<'a>(tokens: &Tokens<'_, 'a>) -> Option<&'a str>
    ensures { last_word tokens.now ≡ option_map seen_text result }
{
    let (word, rest) = word(tokens)?;
    if is_end(&rest) { Some(word) } else { None }
}
