ghost use Rattle.std.specs.Prelude.{◌≡◌, ◌∷◌, ◌++◌, [], ◌↔◌, List, Option, IfErr, IsErr, IsErrOf, IsFalse, IsTrue, OnErr, ℕ, OnOk};
ghost use Rattle.std.specs.Io.KnownBytes.{Appends};
ghost use Rattle.lot_report.specs.declared.journal.Entry.{Entry as EntryValue};
ghost use Rattle.lot_report.specs.Journal.{GrowsByEntry, entry_text, is_spent, journal_text};
ghost use Rattle.lot_io.specs.Writes.{HasFailed, NoneFailed};
ghost use Rattle.lot_report.specs.Written.{WritesLine};

use crate::line::{PrintFault, put_all};
use itoa::Buffer;
use lot_command::Key;
use lot_io::CountedWrite;
use thiserror::Error;

/// An accepted command as the journal lists it: its number, its key, and its canonical text.
#[derive(Debug, Drop)]
pub struct Entry {
    /// The place of the entry in its book, from 1.
    pub number: u32,
    pub key: Key,
    /// The canonical text of the command, with its last line end.
    pub body: String,
}

/// Why an entry of a journal wasn't written in full.
#[derive(Clone, Copy, Debug, PartialEq, Eq, Error)]
pub enum JournalFault {
    /// The writer failed.
    #[error("the output can't be written")]
    Write,
    /// The writer failed at an earlier entry.
    #[error("the journal has ended with a fault")]
    Spent,
}

/// The journal of a book. It takes entries one after another, and writes each behind those before it. It takes no memory.
///
/// After a fault of the writer nothing more is written, and each call returns `Spent`.
#[derive(Debug, Drop)]
pub struct Journal {
    is_spent: bool,
}

impl Journal {
    /// The journal before its first entry. A journal without entries has no bytes.
    pub fn new() -> Journal
        ensures { IsFalse (is_spent result) }
    {
        Journal { is_spent: false }
    }

    /// Writes one entry: a line with its number and its key, and its canonical text.
    ///
    /// Returns `Write` where the writer fails: a prefix of the entry's text is written, but not all of it. Returns `Spent`
    /// where the writer failed before, and writes nothing.
    pub fn row<W: CountedWrite>(
        &mut self,
        entry: &Entry,
        writer: &mut W,
    ) -> Result<(), JournalFault>
        ensures text { (entries : List EntryValue) (start : Option (List ℕ))
            → Appends start (W.contents writer.old) (journal_text entries)
            → GrowsByEntry entries entry.now start (W.contents writer.new) result }
        ensures cause { IsErrOf result JournalFault.Write → HasFailed (W.calls writer.new) }
        ensures none_failed { OnOk result (NoneFailed (W.calls writer.old) (W.calls writer.new)) }
        ensures spent { IsErrOf result JournalFault.Spent ↔ IsTrue (is_spent self.old) }
        ensures after { IsErr result ↔ IsTrue (is_spent self.new) }
    {
        if self.is_spent {
            return Err(JournalFault::Spent);
        }
        match print_entry(writer, entry) {
            Ok(()) => Ok(()),
            Err(_) => {
                self.is_spent = true;
                Err(JournalFault::Write)
            }
        }
    }

    /// Ends the journal. Nothing stands behind its last entry.
    ///
    /// Returns `Spent` where the writer failed before.
    pub fn end<W: CountedWrite>(self, _writer: &mut W) -> Result<(), JournalFault>
        ensures text { _writer.new ≡ _writer.old }
        ensures spent { IsErr result ↔ IsTrue (is_spent self) }
        ensures fault { IfErr result (λ fault. fault ≡ JournalFault.Spent) }
    {
        if self.is_spent {
            Err(JournalFault::Spent)
        } else {
            Ok(())
        }
    }
}

/// Writes the text of an entry without a buffer, since the canonical text of a command may be longer than any buffered line.
/// The only fault is that of the writer.
fn print_entry<W: CountedWrite>(writer: &mut W, entry: &Entry) -> Result<(), PrintFault>
    ensures bytes { WritesLine (W.contents writer.old) (W.contents writer.new) result
        (entry_text entry.now) }
    ensures fault { IfErr result (λ fault. fault ≡ PrintFault.Write) }
    ensures cause { OnErr result (HasFailed (W.calls writer.new)) }
    ensures none_failed { OnOk result (NoneFailed (W.calls writer.old) (W.calls writer.new)) }
{
    let mut digits = Buffer::new();
    let texts = [
        "; entry ",
        digits.format(entry.number),
        " key ",
        entry.key.source.as_str(),
        " ",
        entry.key.name.as_str(),
        "\n",
        entry.body.as_str(),
    ];
    put_all(writer, &texts)
}
