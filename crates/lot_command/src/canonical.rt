ghost use Rattle.std.specs.Prelude.{◌≡◌, ◌++◌, IfOk, OnOk};
ghost use Rattle.std.specs.String.{string_bytes};
ghost use Rattle.std.specs.Char.{encode_utf8};
ghost use Rattle.lot_command.specs.Canonical.{canonical, opening_text, closing_text, declaring_text, quoting_text};
ghost use Rattle.lot_command.specs.Canonical.{currencies_part, method_part};
ghost use Rattle.lot_command.specs.Canonical.{transaction_text, flag_text, part, narration_text, note_part, escaped};

mod posting;

use crate::command::{Closing, Command, Declaring, Opening, Quoting};
use crate::transaction::{Flag, Narration, Transaction};
use lot_base::{Commodity, Note};
use lot_cost::Method;
use posting::push_postings;
use std::alloc::{AllocError, Global};

/// Returns the canonical text of a command (docs/FORMATS.md, Canonical text). The only error is out of memory.
pub fn body(alloc: Global, command: &Command) -> Result<String, AllocError>
    ensures { IfOk result (λ text. string_bytes text ≡ canonical command.now) }
{
    match command {
        Command::Opening(opening) => opening_text(alloc, opening),
        Command::Closing(closing) => closing_text(alloc, closing),
        Command::Declaring(declaring) => declaring_text(alloc, declaring),
        Command::Quoting(quoting) => quoting_text(alloc, quoting),
        Command::Transaction(transaction) => transaction_text(alloc, transaction),
    }
}

fn opening_text(alloc: Global, opening: &Opening) -> Result<String, AllocError>
    ensures { IfOk result (λ text. string_bytes text ≡ opening_text opening.now) }
{
    let day = opening.day;
    let account = &opening.account;
    let currencies = currencies_part(alloc, opening.currencies.as_slice())?;
    let method = method_part(alloc, opening.method)?;
    format!(in alloc; "{day} open {account}{currencies}{method}\n")
}

/// Returns a space and the currencies, joined by commas, or nothing where there are none.
fn currencies_part(alloc: Global, currencies: &[Commodity]) -> Result<String, AllocError>
    ensures { IfOk result (λ text. string_bytes text ≡ currencies_part currencies.now) }
{
    let Some((first, others)) = currencies.split_first() else {
        return Ok(String::new(alloc));
    };
    let mut text = format!(in alloc; " {first}")?;
    for currency in others {
        write!(text, ",{currency}")?;
    }
    Ok(text)
}

/// Returns a space and the method's word in quotes, or nothing for STRICT.
fn method_part(alloc: Global, method: Method) -> Result<String, AllocError>
    ensures { IfOk result (λ text. string_bytes text ≡ method_part method) }
{
    if method == Method::Strict {
        return Ok(String::new(alloc));
    }
    let word = method.name();
    format!(in alloc; " \"{word}\"")
}

fn closing_text(alloc: Global, closing: &Closing) -> Result<String, AllocError>
    ensures { IfOk result (λ text. string_bytes text ≡ closing_text closing.now) }
{
    let day = closing.day;
    let account = &closing.account;
    format!(in alloc; "{day} close {account}\n")
}

fn declaring_text(alloc: Global, declaring: &Declaring) -> Result<String, AllocError>
    ensures { IfOk result (λ text. string_bytes text ≡ declaring_text declaring.now) }
{
    let day = declaring.day;
    let commodity = &declaring.commodity;
    format!(in alloc; "{day} commodity {commodity}\n")
}

fn quoting_text(alloc: Global, quoting: &Quoting) -> Result<String, AllocError>
    ensures { IfOk result (λ text. string_bytes text ≡ quoting_text quoting.now) }
{
    let day = quoting.day;
    let base = &quoting.base;
    let rate = quoting.rate.text(alloc)?;
    let quote = &quoting.quote;
    format!(in alloc; "{day} price {base} {rate} {quote}\n")
}

fn transaction_text(alloc: Global, transaction: &Transaction) -> Result<String, AllocError>
    ensures { IfOk result (λ text. string_bytes text ≡ transaction_text transaction.now) }
{
    let day = transaction.day;
    let flag = flag_text(transaction.flag);
    let notes = notes_part(alloc, &transaction.narration)?;
    let mut text = format!(in alloc; "{day} {flag}{notes}\n")?;
    push_postings(alloc, &mut text, transaction.postings.as_slice())?;
    Ok(text)
}

fn flag_text(flag: Flag) -> &'static str
    ensures { result.now ≡ flag_text flag }
{
    match flag {
        Flag::Complete => "*",
        Flag::Incomplete => "!",
    }
}

/// Returns a space and the note in quotes for each note, the payee first.
fn notes_part(alloc: Global, narration: &Option<Narration>) -> Result<String, AllocError>
    ensures { IfOk result (λ text. string_bytes text ≡ part narration_text narration.now) }
{
    match narration {
        Some(narration) => narration_text(alloc, narration),
        None => Ok(String::new(alloc)),
    }
}

fn narration_text(alloc: Global, narration: &Narration) -> Result<String, AllocError>
    ensures { IfOk result (λ text. string_bytes text ≡ narration_text narration.now) }
{
    let mut text = String::new(alloc);
    if let Some(payee) = &narration.payee {
        push_note(&mut text, payee)?;
    }
    push_note(&mut text, &narration.text)?;
    Ok(text)
}

/// Appends a space and the note in quotes.
fn push_note(text: &mut String, note: &Note) -> Result<(), AllocError>
    ensures { OnOk result (string_bytes text.new ≡ string_bytes text.old ++ note_part note.now) }
{
    text.push_str(" \"")?;
    for character in note.as_str().chars() {
        push_escaped(text, character)?;
    }
    text.push_str("\"")
}

/// Appends a character of a note, with a backslash before it where it is a quote or a backslash.
fn push_escaped(text: &mut String, character: char) -> Result<(), AllocError>
    ensures { OnOk result
        (string_bytes text.new ≡ string_bytes text.old ++ escaped (encode_utf8 character)) }
{
    match character {
        '"' => text.push_str("\\\""),
        '\\' => text.push_str("\\\\"),
        _ => text.push(character),
    }
}
