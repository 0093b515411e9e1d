//! The narration of a row.
ghost use Rattle.std.specs.Prelude.{◌≡◌, ◌<◌, ◌++◌, IfErr, IfOk, OnOk, Ok, true, length, map};
ghost use Rattle.std.specs.Char.{encode_utf8};
ghost use Rattle.std.specs.String.{string_bytes};
ghost use Rattle.std.specs.String.Boundary.{IsSplitPoint};
ghost use Rattle.lot_base.specs.Name.{is_note, is_note_byte};
ghost use Rattle.lot_roles.specs.Narration.{character_place, cut_to_note, narration_of, with_word, words_of, written_byte};
ghost use Rattle.lot_roles.specs.Reading.{Gives};
ghost use Rattle.lot_roles.specs.declared.fault.RowFault.TheVariants.{Memory};

use crate::fault::RowFault;
use crate::names::symbol_text;
use crate::parts::text;
use crate::rules::Rules;
use lot_base::Note;
use lot_field::Text;
use lot_profile::Role;
use lot_sheet::Row;
use std::alloc::{AllocError, Global};

/// The longest narration, in bytes.
const LONGEST: usize = 1_000;

/// Returns the narration of a row: the word of its kind, its symbol and its note, joined by blanks. Control bytes are blanks,
/// and it is cut to 1,000 bytes, not within a character.
///
/// The only error is `Memory`.
#[tactic(auto, unfolding(crate::specs::Narration::narration_of))]
pub fn narration(alloc: Global, rules: &Rules, row: &Row, kind: &str) -> Result<Note, RowFault>
    ensures { Gives result (Ok (narration_of rules.now row.now kind.now)) }
{
    let words = words(alloc, rules, row, kind)?;
    let mut written = written(alloc, words.as_str())?;
    cut_to_note(&mut written);
    Ok(note(alloc, written.as_str())?)
}

/// Returns a text as a note. The only error is out of memory.
fn note(alloc: Global, text: &str) -> Result<Note, AllocError>
    requires { is_note text.now ≡ true }
    ensures { IfOk result (λ note. note ≡ text.now) }
{
    match Note::new(alloc, text) {
        Ok(note) => Ok(note),
        Err(_) => Err(AllocError),
    }
}

/// Returns the words of a narration.
fn words(alloc: Global, rules: &Rules, row: &Row, kind: &str) -> Result<String, RowFault>
    ensures ok { IfOk result (λ words. string_bytes words ≡ words_of rules.now row.now kind.now) }
    ensures fault { IfErr result (λ fault. fault ≡ Memory) }
{
    let mut words = String::from_str(alloc, kind)?;
    push_word(&mut words, &symbol_text(alloc, rules, row)?)?;
    push_word(&mut words, &text(alloc, rules, row, Role::Note)?)?;
    Ok(words)
}

/// Appends a blank and a word, if there is one.
fn push_word(text: &mut String, word: &Option<Text>) -> Result<(), AllocError>
    ensures { OnOk result (string_bytes text.new ≡ with_word (string_bytes text.old) word.now) }
{
    match word {
        Some(word) if !word.as_str().is_empty() => {
            text.push_str(" ")?;
            text.push_str(word.as_str())
        }
        _ => Ok(()),
    }
}

/// Returns a text with blanks in place of control bytes. The only error is out of memory.
fn written(alloc: Global, text: &str) -> Result<String, AllocError>
    ensures { IfOk result (λ written. string_bytes written ≡ map written_byte text.now) }
{
    let mut written = String::new(alloc);
    for character in text.chars() {
        push_written(&mut written, character)?;
    }
    Ok(written)
}

/// Appends a character, a blank in place of a control byte.
fn push_written(text: &mut String, character: char) -> Result<(), AllocError>
    ensures { OnOk result (string_bytes text.new
        ≡ string_bytes text.old ++ map written_byte (encode_utf8 character)) }
{
    if is_written(character) {
        text.push(character)
    } else {
        text.push(' ')
    }
}

/// Returns whether a character may stand in a note.
fn is_written(character: char) -> bool
    ensures { result ≡ is_note_byte character }
{
    character == '\t' || !character.is_ascii_control()
}

/// Cuts a text to what a note may have, not within a character.
fn cut_to_note(text: &mut String)
    ensures { string_bytes text.new ≡ cut_to_note (string_bytes text.old) }
{
    if text.len() > LONGEST {
        text.truncate(character_place(text, LONGEST));
    }
}

/// Returns the last place up to another one, which is inside the text, at which a character begins.
fn character_place(text: &String, place: usize) -> usize
    requires { place < length (string_bytes text.now) }
    ensures value { result ≡ character_place (string_bytes text.now) place }
    ensures split { IsSplitPoint (string_bytes text.now) result }
{
    let mut place = place;
    while !text.is_char_boundary(place) {
        place -= 1;
    }
    place
}
