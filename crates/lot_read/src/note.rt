//! Parts that are notes. What they mean isn't kept yet.
ghost use Rattle.std.specs.Prelude.{◌≡◌, ◌≤◌, ◌++◌, false, ℕ, List, length, encode_utf8, IfErr, IfOk, IsTrue, MatchOption};
ghost use Rattle.std.specs.List.{list_all};
ghost use Rattle.std.specs.Str.Iter.{chars_rest};
ghost use Rattle.lot_base.specs.Name.{is_note, longest_note};
ghost use Rattle.lot_command.specs.Canonical.{escaped};
ghost use Rattle.lot_read.specs.Meaning.{FirstOutside, MeansPerhaps, Quotes, note_item, note_items};
ghost use Rattle.lot_syntax.specs.Header.{notes_seen};
ghost use Rattle.lot_read.specs.Checked.{is_plain, text_of};
ghost use Rattle.lot_read.specs.Outside.{IsOutside};

use crate::fault::ValueFault;
use crate::known::KnownNames;
use arrayvec::ArrayString;
use lot_base::Note;
use lot_command::Narration;
use lot_syntax::NotesForm;
use std::alloc::AllocError;
use std::marker::Model;
use std::str::Chars;

/// The longest note, in bytes (`longest_note` of the definitions).
const LONGEST_NOTE: usize = 1_000;

/// A text that isn't longer than a note may be.
type NoteText = ArrayString<LONGEST_NOTE>;

/// A part that is a note, in which each quote and each backslash has a backslash before it.
///
/// A contract sees the note.
#[derive(Drop)]
pub(crate) struct NotePart<'a> {
    part: &'a str,
}

impl<'a> Model for NotePart<'a> {
    ghost use Rattle.std.specs.Prelude.{ℕ, List};
    ghost use Rattle.lot_base.specs.Name.{is_note};
    ghost use Rattle.lot_read.specs.Checked.{text_of};
    ghost use Rattle.lot_read.specs.Meaning.{Quotes};

    ghost Value = { List ℕ };

    ghost view = { λ p. text_of p.part.now };

    ghost invariant = { λ p. Quotes is_note p.part.now (text_of p.part.now) };
}

impl<'a> NotePart<'a> {
    /// Returns the note that a part means. The error is `BadName`, exactly where it means none.
    pub(crate) fn new(part: &'a str) -> Result<NotePart<'a>, ValueFault>
        ensures means { IfOk result (λ note. Quotes is_note part.now note) }
        ensures outside { IfErr result (λ fault. IsOutside (note_item part.now) fault) }
    {
        if !quotes_note(part) {
            return Err(ValueFault::BadName);
        }
        Ok(NotePart { part })
    }

    /// Returns the note, which is kept. The only error is out of memory.
    pub(crate) fn keep(&self, names: &mut KnownNames) -> Result<Note, AllocError>
        ensures { IfOk result (λ note. note ≡ self.now) }
    {
        if is_plain(self.part) {
            return names.notes.keep(self.part);
        }
        self.keep_unescaped(names)
    }

    /// Returns the same by the text of which the part is the escape. A plain part needs no room for that text.
    #[inline(never)]
    fn keep_unescaped(&self, names: &mut KnownNames) -> Result<Note, AllocError>
        ensures { IfOk result (λ note. note ≡ self.now) }
    {
        match unescaped(self.part) {
            Some(text) => names.notes.keep(text.as_str()),
            // The part is the escape of a note.
            None => unreachable!(),
        }
    }
}

/// The parts that are the notes of a transaction.
#[derive(Drop)]
pub(crate) struct NotesPart<'a> {
    payee: Option<NotePart<'a>>,
    narration: NotePart<'a>,
}

impl<'a> NotesPart<'a> {
    /// Returns the notes that the parts mean. The error is `BadName`, exactly where one of them means none.
    #[tactic(auto, using(crate::proofs::ItemLemmas::outside_first, crate::proofs::ItemLemmas::outside_later))]
    pub(crate) fn new(notes: &NotesForm<'a>) -> Result<NotesPart<'a>, ValueFault>
        ensures means { IfOk result (λ parts. MeansPerhaps (Quotes is_note) (notes_seen notes.now).0
            parts.payee × Quotes is_note (notes_seen notes.now).1 parts.narration) }
        ensures outside { IfErr result
            (λ fault. FirstOutside (note_items (notes_seen notes.now)) fault) }
    {
        let payee = match notes.payee {
            Some(payee) => Some(NotePart::new(payee)?),
            None => None,
        };
        Ok(NotesPart {
            payee,
            narration: NotePart::new(notes.narration)?,
        })
    }

    /// Returns the notes, which are kept. The only error is out of memory.
    pub(crate) fn keep(&self, names: &mut KnownNames) -> Result<Narration, AllocError>
        ensures payee { IfOk result (λ narration. narration.payee ≡ self.now.payee) }
        ensures text { IfOk result (λ narration. narration.text ≡ self.now.narration) }
    {
        let payee = match &self.payee {
            Some(payee) => Some(payee.keep(names)?),
            None => None,
        };
        Ok(Narration {
            payee,
            text: self.narration.keep(names)?,
        })
    }
}

/// Returns whether a part is the escape of a note.
fn quotes_note(part: &str) -> bool
    ensures yes { IsTrue result → Quotes is_note part.now (text_of part.now) }
    ensures no { result ≡ false → (note : List ℕ) → Quotes is_note part.now note → ⊥ }
{
    if is_plain(part) {
        return Note::is_name(part);
    }
    unescapes_to_note(part)
}

/// Returns the same by the text of which the part is the escape. A plain part needs no room for that text.
#[inline(never)]
fn unescapes_to_note(part: &str) -> bool
    ensures yes { IsTrue result → Quotes is_note part.now (text_of part.now) }
    ensures no { result ≡ false → (note : List ℕ) → Quotes is_note part.now note → ⊥ }
{
    match unescaped(part) {
        Some(text) => Note::is_name(text.as_str()),
        None => false,
    }
}

/// Returns whether no quote and no backslash stands in a part, which is then its own escape.
fn is_plain(part: &str) -> bool
    ensures { result ≡ list_all is_plain part.now }
{
    part.as_bytes().iter().all(|b| !(*b == b'"' || *b == b'\\'))
}

/// Returns the text of which this is the escape, or `None` where there is none or it is longer than a note may be.
fn unescaped(escape: &str) -> Option<NoteText>
    ensures { MatchOption result ((text : List ℕ) → escape.now ≡ escaped text
        → length text ≤ longest_note → ⊥) (λ text. escape.now ≡ escaped text.bytes) }
{
    let mut text = NoteText::new();
    let mut characters = escape.chars();
    while let Some(character) = characters.next() {
        let meant = meant(character, &mut characters)?;
        if text.try_push(meant).is_err() {
            return None;
        }
    }
    Some(text)
}

/// Returns the character that this one stands for, with what follows it, or `None` where no escape begins so.
fn meant(character: char, rest: &mut Chars<'_>) -> Option<char>
    ensures { let written = encode_utf8 character ++ chars_rest rest.old in
        MatchOption result ((text : List ℕ) → written ≡ escaped text → ⊥)
        (λ c. written ≡ escaped (encode_utf8 c) ++ chars_rest rest.new) }
{
    match character {
        '"' => None,
        '\\' => match rest.next()? {
            '"' => Some('"'),
            '\\' => Some('\\'),
            _ => None,
        },
        _ => Some(character),
    }
}
