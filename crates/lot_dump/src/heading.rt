ghost use Rattle.std.specs.Prelude.{◌≡◌, Some, IfOk, IfSome, IsErr, IsTrue, option_copied, option_map};
ghost use Rattle.lot_base.specs.Name.{is_label};
ghost use Rattle.lot_dump.specs.Cutting.{heading_of, keyed, label_of};
ghost use Rattle.lot_dump.specs.Form.{IsHeading, heading_text};
ghost use Rattle.lot_dump.specs.declared.heading.Heading.{Heading as HeadingValue};

use crate::cut::{behind, cut, number_before};
use lot_base::{Label, NameFault};
use lot_command::Key;
use std::alloc::{AllocError, Global};

/// The line above an entry: `; entry NUMBER key SOURCE NAME`.
#[derive(Debug, PartialEq, Eq, Drop)]
pub struct Heading {
    /// The place of the entry in its book, from 1.
    pub number: u32,
    pub key: Key,
}

/// Returns what the heading of an entry says, or none where the line isn't one. It is given without its line end.
///
/// The number has no leading zeros, and fits 32 bits. The source of the key goes up to the first blank, and its name is the
/// rest of the line, whole; both are labels. The only error is out of memory, and comes only at a heading.
pub fn read_heading(alloc: Global, line: &[u8]) -> Result<Option<Heading>, AllocError>
    ensures heading { IfOk result (λ read. IfSome read (λ heading.
        IsHeading heading × (line.now ≡ heading_text heading))) }
    ensures every { (heading : HeadingValue) → IsHeading heading → line.now ≡ heading_text heading
        → IfOk result (λ read. read ≡ Some heading) }
    ensures memory { IsErr result
        → (heading : HeadingValue) × IsHeading heading × (line.now ≡ heading_text heading) }
{
    match cut_heading(line) {
        Some((number, source, name)) => {
            let source = label(alloc, source)?;
            let name = label(alloc, name)?;
            Ok(Some(Heading {
                number,
                key: Key { source, name },
            }))
        }
        None => Ok(None),
    }
}

/// Returns the label with that text. The only error is out of memory.
fn label(alloc: Global, text: &str) -> Result<Label, AllocError>
    requires { IsTrue (is_label text.now) }
    ensures { IfOk result (λ label. label ≡ text.now) }
{
    match Label::new(alloc, text) {
        Ok(label) => Ok(label),
        Err(NameFault::Memory) => Err(AllocError),
        Err(_) => unreachable!(),
    }
}

/// Returns the number, the source and the name of a heading, or none where the line isn't one.
#[tactic(auto, unfolding(crate::specs::Cutting::heading_of))]
fn cut_heading(line: &[u8]) -> Option<(u32, &str, &str)>
    ensures value { heading_of line.now ≡ option_map keyed result }
    ensures source { IfSome result (λ cut. IsTrue (is_label cut.1.now)) }
    ensures name { IfSome result (λ cut. IsTrue (is_label cut.2.now)) }
{
    let rest = behind(b"; entry ", line)?;
    let (number, key) = number_before(b"key ", rest)?;
    let (source, name) = cut(b' ', key)?;
    Some((number, label_text(source)?, label_text(name)?))
}

/// Returns the text of a label, or none where the bytes are no label.
fn label_text(bytes: &[u8]) -> Option<&str>
    ensures value { label_of bytes.now ≡ option_copied result }
    ensures label { IfSome result (λ text. IsTrue (is_label text.now)) }
{
    match str::from_utf8(bytes) {
        Ok(text) if Label::is_name(text) => Some(text),
        _ => None,
    }
}
