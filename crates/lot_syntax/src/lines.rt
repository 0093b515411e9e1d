ghost use Rattle.std.specs.Prelude.{◌≡◌};
ghost use Rattle.lot_syntax.specs.Line.{AreLines, without_mark, without_return};

use memchr::memchr;
use std::marker::Model;

/// The lines of a text, one after another, without their line ends. A contract sees them as a list.
#[derive(Drop)]
pub struct Lines<'a> {
    rest: &'a [u8],
}

impl<'a> Model for Lines<'a> {
    ghost use Rattle.std.specs.Prelude.{ℕ, List};
    ghost use Rattle.lot_syntax.specs.Line.{lines_of};

    ghost Value = { List (List ℕ) };

    ghost view = { λ l. lines_of l.rest.now };
}

impl<'a> Lines<'a> {
    /// Returns the lines of a text (docs/FORMATS.md, Lines).
    pub fn new(text: &'a [u8]) -> Lines<'a>
        ensures { AreLines result text.now }
    {
        Lines {
            rest: without_mark(text),
        }
    }
}

impl<'a> Iterator for Lines<'a> {
    type Item = &'a [u8];

    ghost use Rattle.std.specs.Iterator.{YieldsFirstRef, item_count};

    ghost next_gives = { YieldsFirstRef (λ s. s) };

    ghost remaining = { item_count (λ s. s) };

    fn next(&mut self) -> Option<&'a [u8]> {
        let text = self.rest;
        if text.is_empty() {
            return None;
        }
        match memchr(b'\n', text) {
            Some(end) => {
                self.rest = &text[end + 1..];
                Some(without_return(&text[..end]))
            }
            None => {
                self.rest = &[];
                Some(without_return(text))
            }
        }
    }
}

/// Returns a text without a byte order mark, in UTF-8, at its start.
fn without_mark(text: &[u8]) -> &[u8]
    ensures { result.now ≡ without_mark text.now }
{
    match text {
        [0xef, 0xbb, 0xbf, rest @ ..] => rest,
        _ => text,
    }
}

/// Returns a line without one CR at its end.
fn without_return(line: &[u8]) -> &[u8]
    ensures { result.now ≡ without_return line.now }
{
    match line.split_last() {
        Some((last, front)) if *last == b'\r' => front,
        _ => line,
    }
}
