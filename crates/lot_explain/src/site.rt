//! On which line of a ledger text a command begins, or one of its postings stands.

ghost use Rattle.std.specs.Prelude.{◌≡◌, ℕ, List, option_map};
ghost use Rattle.lot_syntax.specs.Line.{AreLines};
ghost use Rattle.lot_read.specs.Line.{is_indented};
ghost use Rattle.lot_explain.specs.Site.{ends_at, first_at, found_at, has_tokens, kind_of, none_passed, seen, with_line, with_lines};

use lot_syntax::{Lines, Tokens};
use std::str;

/// A line of a text.
#[derive(Clone, Copy)]
pub(crate) struct Site<'a> {
    /// From 1.
    pub(crate) number: u64,
    /// Without its line end.
    pub(crate) line: &'a [u8],
}

/// What a line is to the lines around it.
#[derive(Clone, Copy)]
pub(crate) enum Kind {
    /// A command begins on it.
    Begins,
    /// It is a posting of the command before it.
    Posts,
    /// It is skipped, or can't be read.
    Other,
}

/// Returns what a line is to the lines around it.
pub(crate) fn kind_of(line: &[u8]) -> Kind
    ensures { result ≡ kind_of line.now }
{
    if matches!(line, [b'*', ..]) || !has_tokens(line) {
        Kind::Other
    } else if is_indented(line) {
        Kind::Posts
    } else {
        Kind::Begins
    }
}

/// Returns whether a line is UTF-8, and is cut into tokens, of which there are some.
fn has_tokens(line: &[u8]) -> bool
    ensures { result ≡ has_tokens line.now }
{
    match str::from_utf8(line) {
        Ok(text) => match Tokens::new(text) {
            Ok(tokens) => tokens.split_first().is_some(),
            Err(_) => false,
        },
        Err(_) => false,
    }
}

/// Returns whether a line begins with a space or a tab, as a posting does.
pub(crate) fn is_indented(line: &[u8]) -> bool
    ensures { result ≡ is_indented line.now }
{
    matches!(line, [b' ' | b'\t', ..])
}

/// Returns how many commands begin on the lines of a text.
pub(crate) fn commands_in(text: &[u8]) -> usize
    ensures { (lines : List (List ℕ)) × AreLines lines text.now
        × (result ≡ (with_lines lines none_passed).begun) }
{
    let mut passed = Passed::NONE;
    for line in Lines::new(text) {
        passed = passed.with(kind_of(line));
    }
    passed.begun
}

/// What was passed of a text.
#[derive(Clone, Copy)]
struct Passed {
    lines: u64,
    /// How many commands began on these lines.
    begun: usize,
    /// How many postings the last of them has so far.
    posted: usize,
}

impl Passed {
    /// Nothing.
    const NONE: Passed = Passed {
        lines: 0,
        begun: 0,
        posted: 0,
    };

    /// Returns the same with one line more.
    fn with(self, kind: Kind) -> Passed
        ensures { result ≡ with_line kind self }
    {
        let Passed { begun, posted, .. } = self;
        let (begun, posted) = match kind {
            Kind::Begins => (begun.saturating_add(1), 0),
            Kind::Posts => (begun, posted.saturating_add(1)),
            Kind::Other => (begun, posted),
        };
        Passed {
            lines: self.lines.saturating_add(1),
            begun,
            posted,
        }
    }

    /// Returns whether the command of that number begins on the last line, or its posting of that
    /// number stands there.
    fn ends_at(self, command: usize, posting: Option<usize>, kind: Kind) -> bool
        ensures { result ≡ ends_at command posting kind self }
    {
        match kind {
            Kind::Begins | Kind::Posts => {
                self.begun == command && self.posted == posting.unwrap_or(0)
            }
            Kind::Other => false,
        }
    }
}

/// How far a ledger text was gone through.
#[derive(Drop)]
pub(crate) struct Sites<'a> {
    lines: Lines<'a>,
    passed: Passed,
}

impl<'a> Sites<'a> {
    /// Returns the start of a text.
    pub(crate) fn new(text: &'a [u8]) -> Sites<'a>
        ensures lines { AreLines result.lines text.now }
        ensures passed { result.passed ≡ none_passed }
    {
        Sites {
            lines: Lines::new(text),
            passed: Passed::NONE,
        }
    }

    /// Goes on to the line on which the command of that number begins, or to that of its posting at
    /// that place; both count from 1.
    pub(crate) fn find(&mut self, command: usize, posting: Option<usize>) -> Option<Site<'a>>
        ensures { found_at self.new.passed self.new.lines (option_map seen result)
            ≡ first_at command posting self.old.passed self.old.lines }
    {
        while let Some(line) = self.lines.next() {
            let kind = kind_of(line);
            self.passed = self.passed.with(kind);
            if self.passed.ends_at(command, posting, kind) {
                return Some(Site {
                    number: self.passed.lines,
                    line,
                });
            }
        }
        None
    }
}
