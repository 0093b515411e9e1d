//! The digest of a dump: how many entries it has, and the SHA-256 of all but its last line.
ghost use Rattle.std.specs.Prelude.{◌≡◌, ◌++◌, IfErr, OnErr, OnOk};
ghost use Rattle.hex.specs.Hex.{encode_lower};

use arrayvec::ArrayString;
use hex::encode_to_slice;
use itoa::Buffer;
use lot_io::CountedWrite;
use lot_report::{PrintFault, print_texts};

/// The digest of a dump of a book.
#[derive(Clone, Copy, Debug, PartialEq, Eq)]
pub struct BookDigest {
    /// How many entries the book has.
    pub entries: u32,
    /// The SHA-256 of all bytes of the dump before its last line.
    pub sha256: [u8; 32],
}

/// The digits of a digest: two small hexadecimal digits a byte.
const DIGITS: usize = 64;

impl BookDigest {
    ghost use Rattle.lot_book_report.specs.Dump.{digest_line};
    ghost use Rattle.lot_io.specs.Writes.{HasFailed, NoneFailed};
    ghost use Rattle.lot_report.specs.Written.{WritesLine};

    /// Writes a line with the number of entries and the digest. Nothing is flushed.
    ///
    /// The only fault is that of the writer. A prefix of the line is then written, but not all of it.
    pub fn print<W: CountedWrite>(&self, writer: &mut W) -> Result<(), PrintFault>
        ensures bytes { WritesLine (W.contents writer.old) (W.contents writer.new) result
            (digest_line self.now) }
        ensures fault { IfErr result (λ fault. fault ≡ PrintFault.Write) }
        ensures cause { OnErr result (HasFailed (W.calls writer.new)) }
        ensures none_failed { OnOk result (NoneFailed (W.calls writer.old) (W.calls writer.new)) }
    {
        self.print_behind("", writer)
    }

    /// Writes a line with the number of entries and the digest, behind a text.
    ///
    /// The only fault is that of the writer. A prefix of the line is then written, but not all of it.
    pub fn print_behind<W: CountedWrite>(
        &self,
        text: &str,
        writer: &mut W,
    ) -> Result<(), PrintFault>
        ensures bytes { WritesLine (W.contents writer.old) (W.contents writer.new) result
            (text.now ++ digest_line self.now) }
        ensures fault { IfErr result (λ fault. fault ≡ PrintFault.Write) }
        ensures cause { OnErr result (HasFailed (W.calls writer.new)) }
        ensures none_failed { OnOk result (NoneFailed (W.calls writer.old) (W.calls writer.new)) }
    {
        let mut count = Buffer::new();
        let digits = hex_of(&self.sha256);
        let texts = [
            text,
            count.format(self.entries),
            " sha256 ",
            digits.as_str(),
            "\n",
        ];
        print_texts(writer, &texts)
    }
}

/// Returns the digits of a digest.
fn hex_of(digest: &[u8; 32]) -> ArrayString<DIGITS>
    ensures { result.bytes ≡ encode_lower digest.now }
{
    let mut digits = [0u8; DIGITS];
    let _ = encode_to_slice(digest, &mut digits);
    match ArrayString::from_byte_string(&digits) {
        Ok(text) => text,
        Err(_) => ArrayString::new(),
    }
}
