//! The parts of what a row says for a role, and its text.
ghost use Rattle.std.specs.Prelude.{◌≡◌, IfOk, Ok, map};
ghost use Rattle.std.specs.List.{join_with_byte};
ghost use Rattle.std.specs.Option.{option_map};
ghost use Rattle.lot_roles.specs.Parts.{is_nothing, joined, part_of, parts_of, text_of, up_to, value_in};
ghost use Rattle.lot_roles.specs.Reading.{Gives};

use crate::fault::RowFault;
use crate::rules::{Rules, sources};
use lot_field::{Text, cut, means_nothing};
use lot_profile::{FileForm, Role, Source};
use lot_sheet::{Row, field_if_any};
use std::alloc::{AllocError, Global};

/// Returns the text of a role in a row: what its sources say, joined by one blank, or `None` where they say nothing.
///
/// A source is a constant, or the field of a column, perhaps up to a text, unless it is one of those that mean nothing. The
/// only error is `Memory`.
#[tactic(auto, unfolding(crate::specs::Parts::text_of))]
pub fn text(alloc: Global, rules: &Rules, row: &Row, role: Role) -> Result<Option<Text>, RowFault>
    ensures { Gives result (Ok (text_of rules.now row.now role)) }
{
    let parts = parts(alloc, rules, row, role)?;
    Ok(joined(alloc, parts.as_slice())?)
}

/// Returns what a source says in a row, if it says anything.
pub(crate) fn part<'a>(form: &FileForm, row: &'a Row, source: &'a Source) -> Option<&'a str>
    ensures { option_map (λ part. part.now) result ≡ part_of form.now row.now source.now }
{
    match source {
        Source::Constant(text) => Some(text.as_str()),
        Source::Column(column) => value(form, field_if_any(row, column)?),
        Source::Until { column, until } => {
            let field = field_if_any(row, column)?;
            value(form, cut(up_to(until.as_str(), field)))
        }
    }
}

/// Returns whether a field means no value.
pub(crate) fn is_nothing(form: &FileForm, field: &str) -> bool
    ensures { result ≡ is_nothing form.now field.now }
{
    means_nothing(&form.nothing, field)
}

/// Returns a field, if it means a value.
fn value<'a>(form: &FileForm, field: &'a str) -> Option<&'a str>
    ensures { option_map (λ field. field.now) result ≡ value_in form.now field.now }
{
    if is_nothing(form, field) {
        None
    } else {
        Some(field)
    }
}

/// Returns what stands in a field before the first place where a text stands, or the whole field.
fn up_to<'a>(until: &str, field: &'a str) -> &'a str
    ensures { result.now ≡ up_to until.now field.now }
{
    match field.split_once(until) {
        Some((before, _)) => before,
        None => field,
    }
}

/// Returns what the sources of a role say in a row, in their order. The only error is out of memory.
#[tactic(auto, unfolding(crate::specs::Parts::parts_of))]
fn parts<'a>(
    alloc: Global,
    rules: &Rules<'a>,
    row: &'a Row,
    role: Role,
) -> Result<Vec<&'a str>, AllocError>
    ensures { IfOk result
        (λ parts. map (λ part. part.now) parts.items ≡ parts_of rules.now row.now role) }
{
    let mut parts = Vec::new(alloc);
    for source in sources(rules, role) {
        if let Some(part) = part(&rules.profile.file, row, source) {
            parts.push(part)?;
        }
    }
    Ok(parts)
}

/// Returns parts with a blank between them, or `None` where there is none. The only error is out of memory.
fn joined(alloc: Global, parts: &[&str]) -> Result<Option<Text>, AllocError>
    ensures { IfOk result (λ text. text ≡ joined (map (λ part. part.now) parts.now)) }
{
    if parts.is_empty() {
        return Ok(None);
    }
    Ok(Some(with_blanks(alloc, parts)?))
}

/// Returns texts with a blank between them. The only error is out of memory.
pub(crate) fn with_blanks(alloc: Global, texts: &[&str]) -> Result<Text, AllocError>
    ensures { IfOk result
        (λ text. text ≡ join_with_byte 32 (map (λ text. text.now) texts.now)) }
{
    let joined = texts.join(alloc, " ")?;
    Text::new(alloc, joined.as_str())
}
