ghost use Rattle.std.specs.Prelude.{◌≡◌, IfSome, Some};
ghost use Rattle.lot_dump.specs.Cutting.{end_of};
ghost use Rattle.lot_dump.specs.Form.{IsEnd, end_text};
ghost use Rattle.lot_dump.specs.declared.end.End.{End as EndValue};

use crate::cut::{behind, digest, number_before};

/// The last line of a dump: `; end ENTRIES sha256 DIGEST`.
#[derive(Clone, Copy, Debug, PartialEq, Eq)]
pub struct End {
    /// How many entries stand above it.
    pub entries: u32,
    /// The SHA-256 of all bytes above it, line ends included.
    pub digest: [u8; 32],
}

/// Returns what the last line of a dump says, or none where the line isn't one. It is given without its line end.
///
/// The number has no leading zeros, and fits 32 bits. The digest has 64 small hexadecimal digits.
pub fn read_end(line: &[u8]) -> Option<End>
    ensures end { IfSome result (λ end. IsEnd end × (line.now ≡ end_text end)) }
    ensures every { (end : EndValue) → IsEnd end → line.now ≡ end_text end → result ≡ Some end }
{
    cut_end(line)
}

/// Returns what the last line of a dump says, cut from its beginning on.
#[tactic(auto, unfolding(crate::specs::Cutting::end_of))]
fn cut_end(line: &[u8]) -> Option<End>
    ensures { result ≡ end_of line.now }
{
    let rest = behind(b"; end ", line)?;
    let (entries, rest) = number_before(b"sha256 ", rest)?;
    Some(End {
        entries,
        digest: digest(rest)?,
    })
}
