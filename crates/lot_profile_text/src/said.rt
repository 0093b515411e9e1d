//! What is said of a fault of a profile, and of what has to stand under a key.
ghost use Rattle.std.specs.Prelude.{◌≡◌, ◌++◌, ◌∷◌, [], codes, decimal, IfOk, OnOk};
ghost use Rattle.std.specs.List.{flat_map};
ghost use Rattle.std.specs.String.{string_bytes};
ghost use Rattle.lot_profile_text.specs.Said.{fault_text, form_says, form_text, form_words, joined, word_behind, word_written, words_text};

use crate::entry::Form;
use crate::fault::ProfileFault;
use crate::word::Word;
use itoa::Buffer;
use lot_field::DecimalMark;
use lot_profile::{AccountRole, CostBasis, Delimiter, Encoding, Kind, Order, Rewards, Role};
use std::alloc::{AllocError, Global};

/// Returns what is said of a fault, on one line without an end, as `columns, amount is missing`, or
/// `file, order: has to be one of ..`. The only error is out of memory.
#[tactic(auto, unfolding(crate::specs::Said::fault_text))]
pub fn fault_text(alloc: Global, fault: &ProfileFault) -> Result<String, AllocError>
    ensures { IfOk result (λ text. string_bytes text ≡ fault_text fault.now) }
{
    let mut text = String::new(alloc);
    match fault {
        ProfileFault::NoToml(line) => push_line(&mut text, *line)?,
        ProfileFault::Unknown(key) => {
            push_all(&mut text, &["no profile has the key ", key.as_str()])?;
        }
        ProfileFault::Missing(key) => push_all(&mut text, &[key.as_str(), " is missing"])?,
        ProfileFault::Wrong(key, form) => {
            push_all(&mut text, &[key.as_str(), ": has to be "])?;
            push_form(&mut text, *form)?;
        }
        ProfileFault::Memory => text.push_str("out of memory")?,
    }
    Ok(text)
}

/// Appends that a line is no TOML. The only error is out of memory.
fn push_line(text: &mut String, line: usize) -> Result<(), AllocError>
    ensures { OnOk result (string_bytes text.new ≡ string_bytes text.old
        ++ joined (codes "line " ∷ decimal line ∷ codes " is no TOML" ∷ [])) }
{
    let mut buffer = Buffer::new();
    push_all(text, &["line ", buffer.format(line), " is no TOML"])
}

/// Appends texts, one behind another. The only error is out of memory.
pub(crate) fn push_all(text: &mut String, parts: &[&str]) -> Result<(), AllocError>
    ensures { OnOk result (string_bytes text.new
        ≡ string_bytes text.old ++ flat_map (λ part. part.now) parts.now) }
{
    for part in parts {
        text.push_str(*part)?;
    }
    Ok(())
}

/// Appends what has to stand under a key. The only error is out of memory.
#[tactic(auto, unfolding(crate::specs::Said::form_text))]
pub(crate) fn push_form(text: &mut String, form: Form) -> Result<(), AllocError>
    ensures { OnOk result (string_bytes text.new ≡ string_bytes text.old ++ form_text form) }
{
    text.push_str(form_says(form))?;
    push_form_words(text, form)
}

/// Appends the words that may stand under a key, where it is one of some words. The only error is out of memory.
fn push_form_words(text: &mut String, form: Form) -> Result<(), AllocError>
    ensures { OnOk result (string_bytes text.new ≡ string_bytes text.old ++ form_words form) }
{
    match form {
        Form::Encoding => push_words::<Encoding>(text),
        Form::Delimiter => push_words::<Delimiter>(text),
        Form::DecimalMark => push_words::<DecimalMark>(text),
        Form::Order => push_words::<Order>(text),
        Form::CostBasis => push_words::<CostBasis>(text),
        Form::Rewards => push_words::<Rewards>(text),
        Form::Kind => push_words::<Kind>(text),
        Form::AccountRole => push_words::<AccountRole>(text),
        Form::Role => push_words::<Role>(text),
        _ => Ok(()),
    }
}

/// Appends all words of a kind, in quotes, with commas between. The only error is out of memory.
pub(crate) fn push_words<W: Word>(text: &mut String) -> Result<(), AllocError>
    ensures { OnOk result (string_bytes text.new
        ≡ string_bytes text.old ++ words_text W.word W.all) }
{
    let [first, more @ ..] = W::all() else {
        return Ok(());
    };
    push_all(text, &["\"", word_written(first.word()), "\""])?;
    push_more_words(text, more)
}

/// Appends words behind others. The only error is out of memory.
fn push_more_words<W: Word>(text: &mut String, more: &[W]) -> Result<(), AllocError>
    ensures { OnOk result (string_bytes text.new
        ≡ string_bytes text.old ++ flat_map (word_behind W.word) more.now) }
{
    for value in more {
        push_all(text, &[", \"", word_written(value.word()), "\""])?;
    }
    Ok(())
}

/// Returns a word as TOML writes it, without its quotes.
fn word_written(word: &str) -> &str
    ensures { result.now ≡ word_written word.now }
{
    if word == "\t" { "\\t" } else { word }
}

/// Returns what has to stand under a key, without the words of a kind.
fn form_says(form: Form) -> &'static str
    ensures { result.now ≡ form_says form }
{
    match form {
        Form::Text => "a text",
        Form::SomeText => "a text that isn't empty",
        Form::List => "a list",
        Form::Texts => "a list of texts",
        Form::Table => "a table",
        Form::Tables => "a list of tables, one or more",
        Form::Character => "one character or none; no digit, sign, parenthesis or mark",
        Form::CurrencySigns => "a list of signs, without digits, points, commas and blanks",
        Form::Day => "made of YYYY, MM or Mon, DD and the signs between them",
        Form::Header => "how the line begins, or its number from 1, or 0",
        Form::Column => "the name of a column, or its number from 1",
        Form::Sources => "a table: under each role a column, or a list of them",
        Form::OneColumn => "one column alone",
        Form::ColumnNumber => "the number of a column: the table has no header",
        Form::Test => "a text, begins: X, has: X, > 0, < 0, nothing or something",
        Form::Conditions => "a table: under each column a test, or a list of them",
        Form::Account => "an account; {currency}, {symbol}, {account} not in rounding",
        Form::Accounts => "a table: under each purpose an account",
        Form::Bound => "a number in quotes, from 0 to 1",
        Form::Decimals => "0 to 8",
        Form::RoundedRoles => "a table: under amount, fee, price, rate or units 0 to 8",
        Form::Commodity => "a commodity",
        Form::Symbols => "a table: under each field a commodity",
        Form::Encoding => "one of ",
        Form::Delimiter => "one of ",
        Form::DecimalMark => "one of ",
        Form::Order => "one of ",
        Form::CostBasis => "one of ",
        Form::Rewards => "one of ",
        Form::Kind => "one of ",
        Form::AccountRole => "one of ",
        Form::Role => "one of ",
        Form::TurnedRole => "a role: amount, booked, cost, fee, other, price, tax, units",
        Form::TurnedRoles => "a list of amount, booked, cost, fee, other, price, tax, units",
    }
}
