ghost use Rattle.std.specs.Prelude.{◌≡◌, ◌≢◌, ◌⊎◌, ℕ, List, [], None, Some, MatchOption, MatchResult, Ok, Err, IfOk, OnErr, IsErrOf, map, option_map};
ghost use Rattle.lot_syntax.specs.Form.{Directive, IsHeader, IsUnknown};
ghost use Rattle.lot_syntax.specs.Header.{closing_of, currencies_at, declaring_of, directive_of, directive_seen, fitting, header_of, header_seen, last_text, named, notes_of, notes_seen, opening_of, quoting_of, seen_text, transaction_of};

use crate::fault::FormFault;
use crate::form::{CurrencyWords, DirectiveForm, HeaderForm, NotesForm};
use crate::take::{comma, is_end, last_word, number, text, word};
use crate::token::{Mark, Token};
use crate::tokens::Tokens;
use lot_command::Flag;

/// Returns the parts of a line that isn't indented, by its tokens (docs/FORMATS.md, Forms).
///
/// The error is `UnknownDirective` where there is no token, the first token is no date, or the second is no directive. Else it
/// is `Syntax` where the tokens have none of the forms.
///
/// `room` takes the currencies of an opening.
pub fn header<'w, 'a>(
    room: &'w mut CurrencyWords<'a>,
    tokens: &Tokens<'_, 'a>,
) -> Result<HeaderForm<'w, 'a>, FormFault>
    ensures is { IfOk result
        (λ form. IsHeader tokens.now form.day.now (directive_seen form.directive)) }
    ensures unknown { IsErrOf result FormFault.UnknownDirective
        → (tokens.now ≡ []) ⊎ IsUnknown tokens.now }
    ensures known { IsErrOf result FormFault.Syntax → IsUnknown tokens.now → ⊥ }
    ensures some { IsErrOf result FormFault.Syntax → tokens.now ≢ [] }
    ensures none { OnErr result ((day : List ℕ) (directive : Directive)
        → IsHeader tokens.now day directive → ⊥) }
{
    written(room, tokens)
}

/// Returns the same, by the tokens from the first on.
#[tactic(auto, unfolding(crate::specs::Header::header_of))]
fn written<'w, 'a>(
    room: &'w mut CurrencyWords<'a>,
    tokens: &Tokens<'_, 'a>,
) -> Result<HeaderForm<'w, 'a>, FormFault>
    ensures { MatchResult result (λ header. header_of tokens.now ≡ Ok (header_seen header))
        (λ fault. header_of tokens.now ≡ Err fault) }
{
    match tokens.split_first() {
        Some((Token::Date(day), rest)) => match directive(room, &rest) {
            Ok(directive) => Ok(HeaderForm { day, directive }),
            Err(fault) => Err(fault),
        },
        _ => Err(FormFault::UnknownDirective),
    }
}

/// Returns what is done on a day, by the tokens behind the day.
#[tactic(auto, unfolding(crate::specs::Header::directive_of))]
fn directive<'w, 'a>(
    room: &'w mut CurrencyWords<'a>,
    tokens: &Tokens<'_, 'a>,
) -> Result<DirectiveForm<'w, 'a>, FormFault>
    ensures { MatchResult result (λ form. directive_of tokens.now ≡ Ok (directive_seen form))
        (λ fault. directive_of tokens.now ≡ Err fault) }
{
    match tokens.split_first() {
        None => Err(FormFault::Syntax),
        Some((Token::Word(word), rest)) => named(word, room, &rest),
        Some((Token::Mark(Mark::Star), rest)) => fitting(transaction(Flag::Complete, &rest)),
        Some((Token::Mark(Mark::Exclamation), rest)) => {
            fitting(transaction(Flag::Incomplete, &rest))
        }
        Some(_) => Err(FormFault::UnknownDirective),
    }
}

/// Returns the directive of that word, by the tokens behind it.
#[tactic(auto, unfolding(crate::specs::Header::named))]
fn named<'w, 'a>(
    word: &str,
    room: &'w mut CurrencyWords<'a>,
    rest: &Tokens<'_, 'a>,
) -> Result<DirectiveForm<'w, 'a>, FormFault>
    ensures { MatchResult result (λ form. named word.now rest.now ≡ Ok (directive_seen form))
        (λ fault. named word.now rest.now ≡ Err fault) }
{
    match word {
        "open" => fitting(opening(room, rest)),
        "close" => fitting(closing(rest)),
        "commodity" => fitting(declaring(rest)),
        "price" => fitting(quoting(rest)),
        "txn" => fitting(transaction(Flag::Complete, rest)),
        _ => Err(FormFault::UnknownDirective),
    }
}

/// Returns the form, or `Syntax` where there is none.
fn fitting<'w, 'a>(form: Option<DirectiveForm<'w, 'a>>) -> Result<DirectiveForm<'w, 'a>, FormFault>
    ensures { MatchResult result
        (λ made. fitting (option_map directive_seen form.entry) ≡ Ok (directive_seen made))
        (λ fault. fitting (option_map directive_seen form.entry) ≡ Err fault) }
{
    match form {
        Some(form) => Ok(form),
        None => Err(FormFault::Syntax),
    }
}

/// Returns an opening: an account, its currencies, and a method where there is one.
#[tactic(auto, unfolding(crate::specs::Header::opening_of))]
fn opening<'w, 'a>(
    room: &'w mut CurrencyWords<'a>,
    tokens: &Tokens<'_, 'a>,
) -> Option<DirectiveForm<'w, 'a>>
    ensures { opening_of tokens.now ≡ option_map directive_seen result }
{
    let (account, rest) = word(tokens)?;
    let rest = currencies(room, rest)?;
    let method = last_text(&rest)?;
    Some(DirectiveForm::Opening(account, room, method))
}

/// Puts the currencies at the front into their room, and returns the tokens behind them. There are at most 64.
#[tactic(auto, unfolding(crate::specs::Header::currencies_at))]
fn currencies<'t, 'a>(
    currencies: &mut CurrencyWords<'a>,
    tokens: Tokens<'t, 'a>,
) -> Option<Tokens<'t, 'a>>
    ensures { MatchOption result (currencies_at tokens.entry ≡ None)
        (λ rest. currencies_at tokens.entry ≡ Some (map seen_text currencies.new.items, rest)) }
{
    currencies.clear();
    let Some((first, mut rest)) = word(&tokens) else {
        return Some(tokens);
    };
    currencies.push(first);
    while let Some(behind) = comma(&rest) {
        let (next, after) = word(&behind)?;
        if currencies.is_full() {
            return None;
        }
        currencies.push(next);
        rest = after;
    }
    Some(rest)
}

/// Returns the text at the end of a line, where there is one.
fn last_text<'a>(tokens: &Tokens<'_, 'a>) -> Option<Option<&'a str>>
    ensures { last_text tokens.now ≡ option_map (λ text. option_map seen_text text) result }
{
    if is_end(tokens) {
        return Some(None);
    }
    let (text, rest) = text(tokens)?;
    if is_end(&rest) {
        Some(Some(text))
    } else {
        None
    }
}

/// Returns a closing: an account.
#[tactic(auto, unfolding(crate::specs::Header::closing_of))]
fn closing<'w, 'a>(tokens: &Tokens<'_, 'a>) -> Option<DirectiveForm<'w, 'a>>
    ensures { closing_of tokens.now ≡ option_map directive_seen result }
{
    Some(DirectiveForm::Closing(last_word(tokens)?))
}

/// Returns a declaring: a commodity.
#[tactic(auto, unfolding(crate::specs::Header::declaring_of))]
fn declaring<'w, 'a>(tokens: &Tokens<'_, 'a>) -> Option<DirectiveForm<'w, 'a>>
    ensures { declaring_of tokens.now ≡ option_map directive_seen result }
{
    Some(DirectiveForm::Declaring(last_word(tokens)?))
}

/// Returns a quoting: a base, a rate and a quote.
#[tactic(auto, unfolding(crate::specs::Header::quoting_of))]
fn quoting<'w, 'a>(tokens: &Tokens<'_, 'a>) -> Option<DirectiveForm<'w, 'a>>
    ensures { quoting_of tokens.now ≡ option_map directive_seen result }
{
    let (base, rest) = word(tokens)?;
    let (rate, rest) = number(&rest)?;
    let quote = last_word(&rest)?;
    Some(DirectiveForm::Quoting(base, rate, quote))
}

/// Returns a transaction with that flag, and with notes where there are such.
#[tactic(auto, unfolding(crate::specs::Header::transaction_of))]
fn transaction<'w, 'a>(flag: Flag, tokens: &Tokens<'_, 'a>) -> Option<DirectiveForm<'w, 'a>>
    ensures { transaction_of flag tokens.now ≡ option_map directive_seen result }
{
    Some(DirectiveForm::Transaction(flag, notes(tokens)?))
}

/// Returns the notes at the end of a line: one is the narration, two are payee and narration.
fn notes<'a>(tokens: &Tokens<'_, 'a>) -> Option<Option<NotesForm<'a>>>
    ensures { notes_of tokens.now ≡ option_map (λ notes. option_map notes_seen notes) result }
{
    if is_end(tokens) {
        return Some(None);
    }
    let (first, rest) = text(tokens)?;
    if is_end(&rest) {
        return Some(Some(NotesForm {
            payee: None,
            narration: first,
        }));
    }
    let (second, rest) = text(&rest)?;
    if is_end(&rest) {
        Some(Some(NotesForm {
            payee: Some(first),
            narration: second,
        }))
    } else {
        None
    }
}
