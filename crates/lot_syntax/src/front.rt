ghost use Rattle.std.specs.Prelude.{◌≡◌, ◌⊎◌, ◌∷◌, [], Some, None, drop, IsTrue, IsSome, OnErr, MatchOption, MatchResult, option_map};
ghost use Rattle.std.specs.Char.{is_ascii, is_ascii_digit};
ghost use Rattle.lot_syntax.specs.Token.{begins, is_sign};
ghost use Rattle.lot_syntax.specs.Cutting.{BeginsNumber, date_len, date_or_number, lexeme_of, mark_by, next_of, number_at, run, seen, text_by, token_at, within_len, word_at};

use crate::cut::{
    begins_digit, blanks_len, date_len, is_sign, is_word_start, number_len, within_len, word_len,
};
use crate::token::{Mark, Token, Uncut};

/// Returns the next token of a line and what stands behind it, or none at the end of the line, where a comment may stand.
///
/// The error comes where the line can't be cut there.
#[tactic(auto, unfolding(crate::specs::Cutting::next_of))]
pub(crate) fn next_token(line: &str) -> Result<Option<(Token<'_>, &str)>, Uncut>
    ensures { MatchResult result (λ next. next_of line.now ≡ Some (option_map seen next))
        (λ _. next_of line.now ≡ None) }
{
    let (_, rest) = line.split_at(blanks_len(line.as_bytes()));
    match rest.as_bytes() {
        [] | [b';', ..] => Ok(None),
        _ => match token_at(rest) {
            Some(found) => Ok(Some(found)),
            None => Err(Uncut),
        },
    }
}

/// Returns the token at the front of a text and what stands behind it, or none where no token stands there.
#[tactic(auto, unfolding(crate::specs::Cutting::token_at))]
fn token_at(text: &str) -> Option<(Token<'_>, &str)>
    ensures { token_at text.now ≡ option_map seen result }
{
    let [first, rest @ ..] = text.as_bytes() else {
        return None;
    };
    match *first {
        b'"' => text_at(after_first(text)),
        b'{' => Some(mark_at(text, Mark::Open, Mark::OpenOpen)),
        b'}' => Some(mark_at(text, Mark::Close, Mark::CloseClose)),
        b'@' => Some(mark_at(text, Mark::At, Mark::AtAt)),
        b',' => Some((Token::Mark(Mark::Comma), after_first(text))),
        b'*' => Some((Token::Mark(Mark::Star), after_first(text))),
        b'!' => Some((Token::Mark(Mark::Exclamation), after_first(text))),
        b'0'..=b'9' => Some(date_or_number(text)),
        b if is_sign(b) && begins_digit(rest) => Some(number_at(text)),
        b if is_word_start(b) => Some(word_at(text)),
        _ => None,
    }
}

/// Returns what stands behind the first byte, which is ASCII.
fn after_first(text: &str) -> &str
    requires { IsTrue (begins is_ascii text.now) }
    ensures { result.now ≡ drop 1 text.now }
{
    let (_, rest) = text.split_at(1);
    rest
}

/// Returns a mark of one byte, or one of two where the byte stands there twice.
fn mark_at(text: &str, single: Mark, twice: Mark) -> (Token<'_>, &str)
    requires { IsTrue (begins is_ascii text.now) }
    ensures { mark_by single twice text.now ≡ seen result }
{
    match text.as_bytes() {
        [first, second, ..] if first == second => {
            (Token::Mark(twice), after_first(after_first(text)))
        }
        _ => (Token::Mark(single), after_first(text)),
    }
}

/// Returns the date or, where there is none, the number at the front of a text, which begins with a digit.
fn date_or_number(text: &str) -> (Token<'_>, &str)
    requires { IsTrue (begins is_ascii_digit text.now) }
    ensures { date_or_number text.now (date_len text.now) ≡ seen result }
{
    match date_len(text.as_bytes()) {
        Some(len) => {
            let (date, rest) = text.split_at(len);
            (Token::Date(date), rest)
        }
        None => number_at(text),
    }
}

/// Returns the number at the front of a text, which begins with a digit or with a sign directly before one.
fn number_at(text: &str) -> (Token<'_>, &str)
    requires { BeginsNumber text.now }
    ensures { number_at text.now ≡ seen result }
{
    let (number, rest) = text.split_at(number_len(text.as_bytes()));
    (Token::Number(number), rest)
}

/// Returns the word at the front of a text.
fn word_at(text: &str) -> (Token<'_>, &str)
    ensures { word_at text.now ≡ seen result }
{
    let (word, rest) = text.split_at(word_len(text.as_bytes()));
    (Token::Word(word), rest)
}

/// Returns the text of which the first quote stands before this, or none where it can't be cut.
fn text_at(bytes: &str) -> Option<(Token<'_>, &str)>
    ensures { text_by bytes.now (within_len bytes.now) ≡ option_map seen result }
{
    let (within, quote) = bytes.split_at(within_len(bytes.as_bytes())?);
    Some((Token::Text(within), after_first(quote)))
}
