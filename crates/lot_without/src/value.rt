ghost use Rattle.std.specs.Prelude.{◌≡◌, IfOk, IfSome, IsErr, IsTrue, is_some, option_map};
ghost use Rattle.std.specs.List.{list_all};
ghost use Rattle.lot_base.specs.Name.{is_label};
ghost use Rattle.lot_without.specs.Value.{is_no_blank, is_source, key_by, named, named_batch, named_entries, named_key, named_number};

use crate::without::Without;
use itoa::Buffer;
use lot_base::{Label, NameFault};
use lot_command::Key;
use std::alloc::{AllocError, Global};

/// By what the value of an option names the entries that are left out.
#[derive(Clone, Copy)]
pub enum By {
    /// By the key of one: its source, a blank, and its name, as its heading prints it.
    Key,
    /// By their batch: the source of their keys.
    Batch,
    /// By their numbers, as in `12-30`: the first and the last.
    Entries,
}

impl Without {
    /// Returns whether the value of an option says which entries are left out.
    pub fn is_value(by: By, text: &str) -> bool
        ensures { result ≡ is_some (named by text.now) }
    {
        match by {
            By::Key => cut_key(text).is_some(),
            By::Batch => is_source(text),
            By::Entries => entries(text).is_some(),
        }
    }

    /// Returns which entries the value of an option leaves out, or none where it says no such thing. The only error is out of
    /// memory, and comes only where it does.
    ///
    /// A key has its source up to the first blank, and its name is all that stands behind that blank; both are labels. A batch is
    /// a label without a blank. A range is two numbers of 32 bits with a dash between, without signs or leading zeros; the first
    /// is 1 at least, and the second isn't below it.
    pub fn parse(alloc: Global, by: By, text: &str) -> Result<Option<Without>, AllocError>
        ensures value { IfOk result (λ without. without ≡ named by text.now) }
        ensures memory { IsErr result → IsTrue (is_some (named by text.now)) }
    {
        match by {
            By::Key => key(alloc, text),
            By::Batch => batch(alloc, text),
            By::Entries => Ok(entries(text)),
        }
    }
}

/// Returns the entry under the key that a text is, or none where it is no key. The only error is out of memory.
fn key(alloc: Global, text: &str) -> Result<Option<Without>, AllocError>
    ensures value { IfOk result (λ without. without ≡ named_key text.now) }
    ensures memory { IsErr result → IsTrue (is_some (named_key text.now)) }
{
    match cut_key(text) {
        Some((source, name)) => {
            let source = label(alloc, source)?;
            let name = label(alloc, name)?;
            Ok(Some(Without::Key(Key { source, name })))
        }
        None => Ok(None),
    }
}

/// Returns the source and the name of the key that a text is, or none where it is no key.
fn cut_key(text: &str) -> Option<(&str, &str)>
    ensures value { named_key text.now ≡ option_map key_by result }
    ensures source { IfSome result (λ cut. IsTrue (is_label cut.0.now)) }
    ensures name { IfSome result (λ cut. IsTrue (is_label cut.1.now)) }
{
    let (source, name) = text.split_once(' ')?;
    if !Label::is_name(source) || !Label::is_name(name) {
        return None;
    }
    Some((source, name))
}

/// Returns the entries of the batch that a text names, or none where it names no batch. The only error is out of memory.
fn batch(alloc: Global, text: &str) -> Result<Option<Without>, AllocError>
    ensures value { IfOk result (λ without. without ≡ named_batch text.now) }
    ensures memory { IsErr result → IsTrue (is_some (named_batch text.now)) }
{
    if !is_source(text) {
        return Ok(None);
    }
    Ok(Some(Without::Batch(label(alloc, text)?)))
}

/// Returns whether a text is a label without a blank.
fn is_source(text: &str) -> bool
    ensures { result ≡ is_source text.now }
{
    Label::is_name(text) && has_no_blank(text.as_bytes())
}

/// Returns whether none of the bytes is a blank.
fn has_no_blank(bytes: &[u8]) -> bool
    ensures { result ≡ list_all is_no_blank bytes.now }
{
    bytes.iter().all(|byte| *byte != b' ')
}

/// Returns the label that a text is. The only error is out of memory.
fn label(alloc: Global, text: &str) -> Result<Label, AllocError>
    requires { IsTrue (is_label text.now) }
    ensures { IfOk result (λ label. label ≡ text.now) }
{
    match Label::new(alloc, text) {
        Ok(label) => Ok(label),
        Err(NameFault::Memory) => Err(AllocError),
        Err(_) => unreachable!(),
    }
}

/// Returns the entries whose numbers are in the range that a text names, or none where it names no range.
fn entries(text: &str) -> Option<Without>
    ensures { result ≡ named_entries text.now }
{
    let (digits, rest) = text.split_once('-')?;
    let first = number(digits)?;
    let last = number(rest)?;
    if first == 0 || last < first {
        return None;
    }
    Some(Without::Entries { first, last })
}

/// Returns the number that a text writes: the text is what is printed of it.
fn number(text: &str) -> Option<u32>
    ensures { result ≡ named_number text.now }
{
    let Ok(number) = text.parse() else {
        return None;
    };
    if Buffer::new().format(number).as_bytes() == text.as_bytes() {
        Some(number)
    } else {
        None
    }
}
