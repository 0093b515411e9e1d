ghost use Rattle.std.specs.Prelude.{◌≡◌, ℕ, Bool, true, false, List, IfOk, IfErr};
ghost use Rattle.lot_read.specs.Line.{IsFaulty, IsReadable, is_heading, is_indented};
ghost use Rattle.lot_read.specs.Reading.{GivesStatement, IsLineOf, may_post};

use crate::fault::LineFault;
use crate::known::KnownNames;
use crate::statement::{Statement, StatementFault};
use crate::{header_line, posting_line};
use lot_syntax::{CurrencyWords, LineTokens, Parts, Tokens};
use std::alloc::Global;
use std::str;

/// Where a line stands.
#[derive(Clone, Copy)]
pub(crate) enum Context {
    /// Behind a transaction, of which it may be the next posting.
    InTransaction,
    /// Behind another command, or before all of them.
    Elsewhere,
}

/// The most bytes of a line (`longest_line` of the definitions).
const LONGEST_LINE: usize = 4_096;

/// What is kept from line to line, so that a further one takes the same memory.
#[derive(Drop)]
pub(crate) struct LineRoom<'a> {
    /// The accounts, commodities and labels.
    names: KnownNames,
    /// The tokens of the line.
    tokens: LineTokens<'a>,
    /// The currencies of an opening.
    currencies: CurrencyWords<'a>,
    /// The parts of a cost.
    parts: Parts<'a>,
}

impl<'a> LineRoom<'a> {
    /// Returns what is kept before the first line.
    pub(crate) fn new(alloc: Global) -> LineRoom<'a> {
        LineRoom {
            names: KnownNames::new(alloc),
            tokens: LineTokens::new(alloc),
            currencies: CurrencyWords::new(),
            parts: Parts::none(),
        }
    }
}

/// Returns what a line says, given without its line end, or nothing where it is skipped (docs/FORMATS.md, Forms). The error is
/// out of memory, or what is wrong with the line (docs/FORMATS.md, Order of faults).
pub(crate) fn statement<'a>(
    kept: &mut LineRoom<'a>,
    line: &'a [u8],
    context: Context,
) -> Result<Option<Statement>, StatementFault>
    ensures { GivesStatement (may_post context) line.now result }
{
    let text = readable(line)?;
    if is_heading(text) {
        return Ok(None);
    }
    kept.tokens.cut(text)?;
    let tokens = kept.tokens.tokens();
    if tokens.split_first().is_none() {
        return Ok(None);
    }
    if !is_indented(text) {
        return command(&mut kept.names, &mut kept.currencies, &tokens);
    }
    match context {
        Context::InTransaction => posting(&mut kept.names, &mut kept.parts, &tokens),
        Context::Elsewhere => Err(StatementFault::Line(LineFault::Syntax)),
    }
}

/// Returns the text of a line, or `NotUtf8`, or `TooLong` for more than 4,096 bytes.
fn readable(line: &[u8]) -> Result<&str, LineFault>
    ensures text { IfOk result (λ text. text.now ≡ line.now) }
    ensures readable { IfOk result (λ _. IsReadable line.now) }
    ensures fault { IfErr result (λ fault. (may_post : Bool) → IsFaulty may_post line.now fault) }
{
    match str::from_utf8(line) {
        Err(_) => Err(LineFault::NotUtf8),
        Ok(_) if line.len() > LONGEST_LINE => Err(LineFault::TooLong),
        Ok(text) => Ok(text),
    }
}

fn is_heading(line: &str) -> bool
    ensures { result ≡ is_heading line.now }
{
    matches!(line.as_bytes(), [b'*', ..])
}

/// Returns whether a line begins with a space or a tab, as a posting does.
fn is_indented(line: &str) -> bool
    ensures { result ≡ is_indented line.now }
{
    matches!(line.as_bytes(), [b' ' | b'\t', ..])
}

/// Returns the command that begins on a line that isn't indented, by its tokens, of which there are some. `room` takes the
/// currencies of an opening.
fn command<'a>(
    names: &mut KnownNames,
    room: &mut CurrencyWords<'a>,
    tokens: &Tokens<'_, 'a>,
) -> Result<Option<Statement>, StatementFault>
    ensures { (may_post : Bool) (line : List ℕ) → IsLineOf false tokens.now line
        → GivesStatement may_post line result }
{
    let form = lot_syntax::header(room, tokens)?;
    let command = header_line::command(names, &form)?;
    Ok(Some(Statement::Begins(command)))
}

/// Returns the posting on an indented line, by its tokens, of which there are some. `room` takes the parts of its cost.
fn posting<'a>(
    names: &mut KnownNames,
    room: &mut Parts<'a>,
    tokens: &Tokens<'_, 'a>,
) -> Result<Option<Statement>, StatementFault>
    ensures { (line : List ℕ) → IsLineOf true tokens.now line → GivesStatement true line result }
{
    let Some(form) = lot_syntax::posting(room, tokens) else {
        return Err(StatementFault::Line(LineFault::Syntax));
    };
    let posting = posting_line::posting(names, &form)?;
    Ok(Some(Statement::Posts(posting)))
}
