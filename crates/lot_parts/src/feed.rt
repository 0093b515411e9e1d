ghost use Rattle.std.specs.Prelude.{◌≡◌, ◌≤◌, ◌<◌, ◌+◌, ◌⊎◌, ◌++◌, [], length, vec_len, IfErr, IfOk, IfSome, IsErrOf, OnErr, OnOk};
ghost use Rattle.lot_io.specs.Reads.{counted, reads_between};
ghost use Rattle.std.specs.Io.KnownBytes.{Consumes, IsAtEnd, prepend_known};
ghost use Rattle.lot_syntax.specs.Line.{IsLine};
ghost use Rattle.lot_report.specs.Printed.{line};
ghost use Rattle.lot_stream.specs.Input.{NoneFailed};
ghost use Rattle.lot_dump.specs.Form.{IsEnd, IsHead, end_text, head_text};
ghost use Rattle.lot_parts.specs.Dump.{IsLedger, IsText};
ghost use Rattle.lot_parts.specs.Fault.{HasCause, SaysNoDump};
ghost use Rattle.lot_parts.specs.Reading.{BeginsNewer, HasLong, HasNoHead, IsEndlessAt, IsNoEndAt, lines_in, longest_text};

use crate::fault::DumpFault;
use lot_dump::{End, Head, Kind, LineEnd, LineReader, kind_of, read_end, read_head};
use lot_io::CountedRead;
use std::alloc::{AllocError, Global};

/// The most bytes that the text of an entry may have: 16 MiB, as an input of ledger text (docs/RULES.md, Limits).
const LONGEST: usize = 16_777_216;

/// The lines of a dump. Each has a line end, the last one too.
#[derive(Drop)]
pub(crate) struct Feed {
    pub(crate) lines: LineReader,
    /// The line that was read last, without its line end.
    pub(crate) line: Vec<u8>,
    /// How many lines were read.
    pub(crate) count: u64,
}

impl Feed {
    /// Returns the lines of a dump of which nothing was read.
    pub(crate) fn new(alloc: Global) -> Result<Feed, AllocError>
        ensures lines { IfOk result (λ feed. feed.lines ≡ []) }
        ensures count { IfOk result (λ feed. feed.count ≡ 0) }
    {
        Ok(Feed {
            lines: LineReader::new(alloc)?,
            line: Vec::new(alloc),
            count: 0,
        })
    }

    /// Reads the first line, and returns what it says as the head of a dump.
    pub(crate) fn read_head<R: CountedRead>(&mut self, reader: &mut R) -> Result<Head, DumpFault>
        requires first { self.old.count ≡ 0 }
        ensures head { IfOk result (λ head. IsHead head
            × (self.new.line.items ≡ head_text head)) }
        ensures count { OnOk result (self.new.count ≡ 1) }
        ensures bytes { OnOk result
            (Consumes (prepend_known self.old.lines (R.remaining reader.old))
            (prepend_known self.new.lines (R.remaining reader.new)) (line self.new.line.items)) }
        ensures no_dump { IfErr result (SaysNoDump (λ number. (number ≡ 1)
            × IfSome (prepend_known self.old.lines (R.remaining reader.old)) HasNoHead)) }
        ensures newer { IsErrOf result DumpFault.NewerFormat
            → IfSome (prepend_known self.old.lines (R.remaining reader.old)) BeginsNewer }
        ensures calls { OnOk result
            (NoneFailed (reads_between (R.calls reader.old) (R.calls reader.new))) }
        ensures too_long { IsErrOf result DumpFault.TooLong
            → IfSome (prepend_known self.old.lines (R.remaining reader.old)) HasLong }
        ensures cause { IfErr result
            (HasCause (reads_between (R.calls reader.old) (R.calls reader.new))) }
    {
        self.read_line(reader)?;
        Ok(read_head(&self.line)?)
    }

    /// Reads lines of ledger text into a buffer, in place of what it holds, each with its line end, up to a line that is none.
    pub(crate) fn read_text<R: CountedRead>(
        &mut self,
        reader: &mut R,
        text: &mut Vec<u8>,
    ) -> Result<(), DumpFault>
        ensures bytes { OnOk result
            (Consumes (prepend_known self.old.lines (R.remaining reader.old))
            (prepend_known self.new.lines (R.remaining reader.new))
            (text.new.items ++ line self.new.line.items)) }
        ensures ledger { OnOk result (IsLedger text.new.items) }
        ensures line { IsLine self.new.line.items }
        ensures other { OnOk result (IsText self.new.line.items → ⊥) }
        ensures count { OnOk result (self.new.count
            ≡ counted (self.old.count + lines_in text.new.items + 1)) }
        ensures no_dump { IfErr result (SaysNoDump (λ number.
            IfSome (prepend_known self.old.lines (R.remaining reader.old))
            (IsEndlessAt (self.old.count + 1) number))) }
        ensures newer { IsErrOf result DumpFault.NewerFormat → ⊥ }
        ensures calls { OnOk result
            (NoneFailed (reads_between (R.calls reader.old) (R.calls reader.new))) }
        ensures too_long { IsErrOf result DumpFault.TooLong
            → IfSome (prepend_known self.old.lines (R.remaining reader.old)) HasLong }
        ensures cause { IfErr result
            (HasCause (reads_between (R.calls reader.old) (R.calls reader.new))) }
    {
        text.clear();
        self.line.clear();
        for _line in 0..LONGEST + 1 {
            self.read_line(reader)?;
            match kind_of(&self.line) {
                Kind::Text => add_line(text, &self.line)?,
                Kind::Head | Kind::Heading | Kind::End => return Ok(()),
            }
        }
        Err(DumpFault::TooLong)
    }

    /// Returns what the line that was read last says as the end of a dump. Nothing may stand behind it.
    pub(crate) fn read_end<R: CountedRead>(&mut self, reader: &mut R) -> Result<End, DumpFault>
        ensures end { IfOk result (λ end. IsEnd end × (self.old.line.items ≡ end_text end)
            × IsAtEnd (prepend_known self.old.lines (R.remaining reader.old))) }
        ensures line { IsLine self.old.line.items → IsLine self.new.line.items }
        ensures no_dump { IfErr result (SaysNoDump (λ number.
            IsNoEndAt self.old.count number self.old.line.items
            (prepend_known self.old.lines (R.remaining reader.old)))) }
        ensures newer { IsErrOf result DumpFault.NewerFormat → ⊥ }
        ensures calls { OnOk result
            (NoneFailed (reads_between (R.calls reader.old) (R.calls reader.new))) }
        ensures too_long { IsErrOf result DumpFault.TooLong
            → IfSome (prepend_known self.old.lines (R.remaining reader.old)) HasLong }
        ensures cause { IfErr result
            (HasCause (reads_between (R.calls reader.old) (R.calls reader.new))) }
    {
        let Some(end) = read_end(&self.line) else {
            return Err(DumpFault::NotADump { line: self.count });
        };
        self.count = self.count.saturating_add(1);
        match self.lines.next_line(reader, &mut self.line)? {
            Some(_) => Err(DumpFault::NotADump { line: self.count }),
            None => Ok(end),
        }
    }

    /// Reads the next line, which has a line end.
    fn read_line<R: CountedRead>(&mut self, reader: &mut R) -> Result<(), DumpFault>
        ensures bytes { OnOk result
            (Consumes (prepend_known self.old.lines (R.remaining reader.old))
            (prepend_known self.new.lines (R.remaining reader.new)) (line self.new.line.items)) }
        ensures line { IsLine self.new.line.items }
        ensures count { OnOk result (self.new.count ≡ counted (self.old.count + 1)) }
        ensures no_dump { IfErr result (SaysNoDump (λ number.
            (number ≡ counted (self.old.count + 1))
            × IfSome (prepend_known self.old.lines (R.remaining reader.old)) IsLine)) }
        ensures newer { IsErrOf result DumpFault.NewerFormat → ⊥ }
        ensures calls { OnOk result
            (NoneFailed (reads_between (R.calls reader.old) (R.calls reader.new))) }
        ensures too_long { IsErrOf result DumpFault.TooLong
            → IfSome (prepend_known self.old.lines (R.remaining reader.old)) HasLong }
        ensures cause { IfErr result
            (HasCause (reads_between (R.calls reader.old) (R.calls reader.new))) }
    {
        self.count = self.count.saturating_add(1);
        match self.lines.next_line(reader, &mut self.line)? {
            Some(LineEnd::Newline) => Ok(()),
            Some(LineEnd::Missing) | None => Err(DumpFault::NotADump { line: self.count }),
        }
    }
}

/// Puts a line with its line end behind a text, where that is no more than the limit.
fn add_line(text: &mut Vec<u8>, more: &[u8]) -> Result<(), DumpFault>
    ensures too_long { IsErrOf result DumpFault.TooLong
        → longest_text ≤ vec_len text.old + length more.now }
    ensures limit { OnOk result (vec_len text.new ≤ longest_text) }
    ensures grows { OnOk result (vec_len text.old < vec_len text.new) }
    ensures ok { OnOk result (text.new.items ≡ text.old.items ++ line more.now) }
    ensures fault { IfErr result (λ fault. (fault ≡ DumpFault.TooLong)
        ⊎ (fault ≡ DumpFault.Memory)) }
{
    if text.len().saturating_add(more.len()) >= LONGEST {
        return Err(DumpFault::TooLong);
    }
    text.extend_from_slice(more)?;
    text.extend_from_slice(b"\n")?;
    Ok(())
}
