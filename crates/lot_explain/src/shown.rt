//! How texts are written on a line, or on several.

ghost use Rattle.std.specs.Prelude.{◌≡◌};
ghost use Rattle.lot_explain.specs.Explained.{column_behind, fits, gap};

use std::{fmt, str};

/// The most columns that are shown of a line of the input.
const MOST_COLUMNS: usize = 80;

/// A text of the input on one line, cut at 80 columns. A character that would move the cursor or
/// isn't UTF-8 is shown as a question mark.
#[derive(Clone, Copy)]
pub struct Shown<'a>(pub &'a [u8]);

impl fmt::Display for Shown<'_> {
    fn fmt<W: fmt::Write>(&self, f: &mut fmt::Formatter<W>) -> fmt::Result {
        match str::from_utf8(self.0) {
            Ok(text) => write_text(text, f),
            Err(_) => write_bytes(self.0, f),
        }
    }
}

/// Writes as much of a text as is shown, and two points where there is more.
fn write_text<W: fmt::Write>(text: &str, f: &mut fmt::Formatter<W>) -> fmt::Result {
    for (column, character) in text.chars().take(MOST_COLUMNS + 1).enumerate() {
        if column == MOST_COLUMNS {
            return f.write_str("..");
        }
        f.write_char(if character.is_control() {
            '?'
        } else {
            character
        })?;
    }
    Ok(())
}

/// Writes the same of bytes that are no text.
fn write_bytes<W: fmt::Write>(bytes: &[u8], f: &mut fmt::Formatter<W>) -> fmt::Result {
    for (column, byte) in bytes.iter().take(MOST_COLUMNS + 1).enumerate() {
        if column == MOST_COLUMNS {
            return f.write_str("..");
        }
        let is_shown = byte.is_ascii_graphic() || *byte == b' ';
        f.write_char(if is_shown { char::from(*byte) } else { '?' })?;
    }
    Ok(())
}

/// Prose, in lines of at most 80 columns where its words are no longer.
#[derive(Clone, Copy)]
pub(crate) struct Wrapped<'a>(pub(crate) &'a str);

impl fmt::Display for Wrapped<'_> {
    ghost use Rattle.std.specs.Prelude.{Some};
    ghost use Rattle.lot_explain.specs.Explained.{wrapped};

    ghost output = { λ prose. Some (wrapped prose.0.now) };

    fn fmt<W: fmt::Write>(&self, f: &mut fmt::Formatter<W>) -> fmt::Result {
        let mut column = 0usize;
        for word in self.0.split(' ') {
            f.write_str(gap(column, word))?;
            f.write_str(word)?;
            column = column_behind(column, word);
        }
        f.write_str("\n")
    }
}

/// Returns what stands before a word, behind so many columns of a line: a space, or a line break where the line would get too long.
fn gap(column: usize, word: &str) -> &'static str
    ensures { result.now ≡ gap column word.now }
{
    if column == 0 {
        ""
    } else if fits(column, word) {
        " "
    } else {
        "\n"
    }
}

/// Returns how many columns of the line the words up to this one take.
fn column_behind(column: usize, word: &str) -> usize
    ensures { result ≡ column_behind column word.now }
{
    if column != 0 && fits(column, word) {
        column + 1 + word.len()
    } else {
        word.len()
    }
}

/// Returns whether a word, and a space before it, find room behind so many columns of a line.
fn fits(column: usize, word: &str) -> bool
    ensures { result ≡ fits column word.now }
{
    column.saturating_add(word.len()) < MOST_COLUMNS
}
