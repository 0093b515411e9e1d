ghost use Rattle.std.specs.Prelude.{◌≡◌, ◌↔◌, IfOk, IsErrOf, Ok};
ghost use Rattle.lot_dump.specs.Cutting.{any_head_of, this_format_of};
ghost use Rattle.lot_dump.specs.Form.{IsHead, IsNewer, head_text};
ghost use Rattle.lot_dump.specs.declared.head.Head.{Head as HeadValue};

use crate::cut::{behind, number, number_before};
use thiserror::Error;

/// The format of a dump that this crate reads.
const FORMAT: u32 = 1;

/// The edition of the rules by which the entries of such a dump were judged (docs/GUIDE.md, From edition 1).
const EDITION: u32 = 2;

/// The first line of a dump: `; lotbook dump 1 edition 2 migrated PLACE entries ENTRIES`.
#[derive(Clone, Copy, Debug, PartialEq, Eq)]
pub struct Head {
    /// How many entries were there when the book was migrated; 0 for a book that wasn't.
    pub place: u32,
    /// How many entries the book has.
    pub entries: u32,
}

/// The first line of a dump of any format and edition.
#[derive(Clone, Copy)]
struct AnyHead {
    format: u32,
    edition: u32,
    place: u32,
    entries: u32,
}

/// Why a line isn't the head of a dump that can be read.
#[derive(Clone, Copy, Debug, PartialEq, Eq, Error)]
pub enum HeadFault {
    /// The line isn't the head of a dump.
    #[error("this is not a dump")]
    NotADump,
    /// The line is the head of a dump of a later format, or of a book of a later edition.
    #[error("this dump needs a newer program")]
    NewerFormat,
}

/// Returns what the head of a dump says. The line is given without its line end.
///
/// Numbers have no leading zeros, and fit 32 bits. The error is `NewerFormat` where the line is the head of a dump of a later
/// format or edition, and has the same form else; it is `NotADump` for all other lines that aren't heads.
pub fn read_head(line: &[u8]) -> Result<Head, HeadFault>
    ensures head { IfOk result (λ head. IsHead head × (line.now ≡ head_text head)) }
    ensures every { (head : HeadValue) → IsHead head → line.now ≡ head_text head
        → result ≡ Ok head }
    ensures newer { IsErrOf result HeadFault.NewerFormat ↔ IsNewer line.now }
{
    match any_head(line) {
        Some(head) => this_format(head),
        None => Err(HeadFault::NotADump),
    }
}

/// Returns what a head says that is of this format.
fn this_format(head: AnyHead) -> Result<Head, HeadFault>
    ensures { result ≡ this_format_of head }
{
    if head.format > FORMAT || head.edition > EDITION {
        Err(HeadFault::NewerFormat)
    } else if head.format == FORMAT && head.edition == EDITION {
        Ok(Head {
            place: head.place,
            entries: head.entries,
        })
    } else {
        Err(HeadFault::NotADump)
    }
}

/// Returns what the head of a dump of any format and edition says.
#[tactic(auto, unfolding(crate::specs::Cutting::any_head_of))]
fn any_head(line: &[u8]) -> Option<AnyHead>
    ensures { result ≡ any_head_of line.now }
{
    let rest = behind(b"; lotbook dump ", line)?;
    let (format, rest) = number_before(b"edition ", rest)?;
    let (edition, rest) = number_before(b"migrated ", rest)?;
    let (place, rest) = number_before(b"entries ", rest)?;
    Some(AnyHead {
        format,
        edition,
        place,
        entries: number(rest)?,
    })
}
