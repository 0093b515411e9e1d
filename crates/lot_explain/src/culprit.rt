//! The part of a line that is at fault: the first token such that every line that begins with the
//! tokens up to it is faulty.

use crate::site::is_indented;
use lot_command::Command;
use lot_read::{LineFault, TextFault, read};
use lot_syntax::{Mark, Token, Tokens};
use std::alloc::{AllocError, Global};
use std::str;

/// What of a line is at fault.
#[derive(Clone, Copy)]
pub(crate) enum Culprit<'a> {
    /// This part, by its first column, from 1.
    Part { column: usize, text: &'a str },
    /// It ends too early.
    End,
    /// It is a posting, and no transaction stands before it.
    InputPlace,
    /// That isn't known.
    Unknown,
}

/// What a line would be without its fault, as far as the lines behind it depend on it.
#[derive(Clone, Copy)]
pub(crate) enum Sense {
    /// A transaction, so that postings may follow.
    Transaction,
    /// Anything else, or nothing.
    Other,
}

/// A text of which a line is the last line, so that it may be a posting.
const BEFORE_POSTING: &[u8] = b"2020-01-01 *\n";

/// The same of a line that isn't indented.
const BEFORE_HEADER: &[u8] = b"\n";

/// What may stand behind the beginning of a line that isn't indented.
const ENDS_OF_HEADERS: [&[u8]; 6] = [b"", b" *", b" Assets:A", b" A", b" A 1 A", b" 1 A"];

/// What may stand behind the beginning of a posting.
const ENDS_OF_POSTINGS: [&[u8]; 12] = [
    b"",
    b" A",
    b" 1 A",
    b"}",
    b" 1}",
    b" 2020-01-01}",
    b" \"x\"}",
    b" 1}}",
    b"}}",
    b", 1}}",
    b" 2020-01-01}}",
    b" \"x\"}}",
];

/// The most bytes of a line that can't be cut into tokens in which the place is looked for.
const MOST_UNCUT: usize = 512;

/// Returns what a line says behind that text, with one more text at its end, or its fault. The only
/// error is out of memory.
pub(crate) fn judge(
    alloc: Global,
    before: &[u8],
    line: &[u8],
    end: &[u8],
) -> Result<Result<Sense, LineFault>, AllocError> {
    let mut text = Vec::new(alloc);
    text.extend_from_slice(before)?;
    text.extend_from_slice(line)?;
    text.extend_from_slice(end)?;
    match read(alloc, &text) {
        Ok(commands) => Ok(Ok(match commands.last() {
            Some(Command::Transaction(_)) => Sense::Transaction,
            _ => Sense::Other,
        })),
        Err(TextFault::Line { fault, .. }) => Ok(Err(fault)),
        Err(TextFault::Memory { .. }) => Err(AllocError),
    }
}

/// Returns what stands before a line, so that it may stand there.
pub(crate) fn before(line: &[u8]) -> &'static [u8] {
    if is_indented(line) {
        BEFORE_POSTING
    } else {
        BEFORE_HEADER
    }
}

/// Returns the part of a line with that fault that is at fault. The only error is out of memory.
pub(crate) fn culprit_of(
    alloc: Global,
    line: &[u8],
    fault: LineFault,
) -> Result<Culprit<'_>, AllocError> {
    let Ok(text) = str::from_utf8(line) else {
        return Ok(Culprit::Unknown);
    };
    match Tokens::new(text) {
        _ if matches!(fault, LineFault::TooLong) => Ok(Culprit::Unknown),
        Ok(tokens) => first_amiss(alloc, text, tokens, fault),
        Err(_) => Ok(uncut(text)),
    }
}

/// Returns the first token of a line such that every line that begins with the tokens up to it has
/// such a fault.
fn first_amiss<'a>(
    alloc: Global,
    line: &'a str,
    tokens: Tokens<'_, 'a>,
    fault: LineFault,
) -> Result<Culprit<'a>, AllocError> {
    let (mut rest, mut end) = (tokens, 0usize);
    for _token in 0..line.len() {
        let Some((token, behind)) = rest.split_first() else {
            break;
        };
        let start = skip_blanks(line, end);
        end = start.saturating_add(width(token));
        let begun = line.get(..end).unwrap_or(line);
        if !begins_some(alloc, begun.as_bytes(), fault)? {
            return Ok(part_of(line, start, end));
        }
        rest = behind;
    }
    match judge(alloc, before(line.as_bytes()), line.as_bytes(), b"")? {
        Ok(_) => Ok(Culprit::InputPlace),
        Err(_) => Ok(Culprit::End),
    }
}

/// Returns whether a line without such a fault begins so.
fn begins_some(alloc: Global, begun: &[u8], fault: LineFault) -> Result<bool, AllocError> {
    let ends = if is_indented(begun) {
        ENDS_OF_POSTINGS.as_slice()
    } else {
        ENDS_OF_HEADERS.as_slice()
    };
    for end in ends {
        match judge(alloc, before(begun), begun, end)? {
            Ok(_) => return Ok(true),
            Err(found) if is_of_form(fault) && !is_of_form(found) => return Ok(true),
            Err(_) => {}
        }
    }
    Ok(false)
}

/// Returns whether a line with that fault has none of the forms.
fn is_of_form(fault: LineFault) -> bool {
    matches!(fault, LineFault::Syntax | LineFault::UnknownDirective)
}

/// Returns the place in a line, from that one on, at which no blank stands.
fn skip_blanks(line: &str, from: usize) -> usize {
    let rest = line.get(from..).unwrap_or("");
    let behind = rest.trim_start_matches([' ', '\t']);
    line.len().saturating_sub(behind.len())
}

/// Returns how many bytes a token has in its line.
fn width(token: Token<'_>) -> usize {
    match token {
        Token::Word(text) | Token::Number(text) | Token::Date(text) => text.len(),
        // with its quotes
        Token::Text(text) => text.len().saturating_add(2),
        Token::Mark(Mark::AtAt | Mark::OpenOpen | Mark::CloseClose) => 2,
        Token::Mark(_) => 1,
    }
}

/// Returns the part of a line from one byte to another.
fn part_of(line: &str, start: usize, end: usize) -> Culprit<'_> {
    let before = line.get(..start).unwrap_or("");
    Culprit::Part {
        column: before.chars().count().saturating_add(1),
        text: line.get(start..end).unwrap_or(""),
    }
}

/// Returns the part of a line that can't be cut into tokens which stands behind the last token.
fn uncut(line: &str) -> Culprit<'_> {
    let most = line.len().min(MOST_UNCUT);
    let mut cut = 0;
    for end in 0..=most {
        if let Some(begun) = line.get(..end)
            && Tokens::new(begun).is_ok()
        {
            cut = end;
        }
    }
    if cut == most {
        return Culprit::Unknown;
    }
    let start = skip_blanks(line, cut);
    let rest = line.get(start..).unwrap_or("");
    let word = rest.split([' ', '\t']).next().unwrap_or(rest);
    part_of(line, start, start.saturating_add(word.len()))
}
