ghost use Rattle.std.specs.Prelude.{◌≡◌, ◌≢◌, ◌≤◌, ◌<◌, ◌+◌, ◌++◌, ◌↔◌, [], vec_len, length, IfErr, IfOk, IsErrOf, OnErr, OnOk};
ghost use Rattle.std.specs.Io.KnownBytes.{Consumes, prepend_known};
ghost use Rattle.lot_io.specs.Reads.{reads_between};
ghost use Rattle.lot_stream.specs.Input.{NoneFailed};
ghost use Rattle.lot_syntax.specs.Line.{IsLine};
ghost use Rattle.lot_dump.specs.Lines.{EndsFor, EndsLine, Fills, HasLongLine, Made, TakesAhead, longest_input_line, text_of};

use crate::cut::cut;
use lot_io::CountedRead;
use std::alloc::{AllocError, Global};
use std::io::ErrorKind;
use std::marker::Model;
use thiserror::Error;

/// The most bytes that a line may have without its line end: 1 MiB. A line of ledger text has at most 4,096 (docs/RULES.md,
/// Limits), and who reads the line says so of one that has more. This limit bounds the memory for a line of any other input.
const LONGEST: usize = 1_048_576;

/// The most calls of `read` that are made for a line, the interrupted ones included.
const CALLS: usize = 20_000_000;

/// How many bytes a reader is asked for at a time.
const CHUNK: usize = 65_536;

/// Why a line wasn't read.
#[derive(Clone, Copy, Debug, PartialEq, Eq, Error)]
pub enum LineFault {
    /// The reader failed, or 20,000,000 calls gave no whole line.
    #[error("the input can't be read")]
    Read,
    /// The line has more than 1,048,576 bytes.
    #[error("a line is longer than 1 MiB")]
    TooLong,
    /// There was no memory for the line.
    #[error("out of memory")]
    Memory,
}

impl From<AllocError> for LineFault {
    ghost use Rattle.std.specs.Prelude.{◌≡◌};
    ghost use Rattle.lot_dump.specs.declared.lines.LineFault.TheVariants.{Memory};

    ghost from_gives = { λ _ e. e ≡ Memory };

    fn from(_error: AllocError) -> LineFault {
        LineFault::Memory
    }
}

/// How a line ends.
#[derive(Clone, Copy, Debug, PartialEq, Eq)]
pub enum LineEnd {
    /// By LF.
    Newline,
    /// With the input, which has no line end there.
    Missing,
}

/// Reads the lines of an input one after another. It keeps at most 64 KiB that were read ahead.
///
/// A contract sees it as the bytes that were read ahead. All calls must have the same reader.
#[derive(Drop)]
pub struct LineReader {
    chunk: Vec<u8>,
    /// Where the bytes begin that no line had yet.
    start: usize,
    /// Where the bytes of the last call of `read` end.
    end: usize,
}

impl Model for LineReader {
    ghost use Rattle.std.specs.Prelude.{ℕ, List, ◌-◌, ◌≤◌, ◌≡◌, take, drop, vec_len};
    ghost use Rattle.lot_stream.specs.Input.{chunk_size};

    ghost Value = { List ℕ };

    ghost view = { λ r. take (r.end - r.start) (drop r.start r.chunk.items) };

    ghost invariant = { λ r. (r.start ≤ r.end) × (r.end ≤ vec_len r.chunk)
        × (vec_len r.chunk ≡ chunk_size) };
}

impl LineReader {
    /// Returns a reader of lines that has read nothing. The only error is out of memory.
    pub fn new(alloc: Global) -> Result<LineReader, AllocError>
        ensures { IfOk result (λ reader. reader ≡ []) }
    {
        Ok(LineReader {
            chunk: vec![in alloc; 0; CHUNK]?,
            start: 0,
            end: 0,
        })
    }

    /// Reads the next line into a buffer, in place of what it holds, without its line end. Returns how it ends, or none at the
    /// end of the input. An empty line is one where LF ends it.
    ///
    /// A read that was interrupted is tried again. The error is one of these; what was read of the line is in the buffer then.
    ///
    /// - `TooLong`: the line has more than 1,048,576 bytes.
    /// - `Memory`: there is no memory for the line.
    /// - `Read`: the reader fails, or 20,000,000 calls gave no whole line.
    ///
    /// For `Memory` it is proved that no call failed. That memory had ended is shown by tests alone.
    pub fn next_line<R: CountedRead>(
        &mut self,
        reader: &mut R,
        line: &mut Vec<u8>,
    ) -> Result<Option<LineEnd>, LineFault>
        // What was ahead and left of the reader is the line, its line end, and what is so afterwards.
        ensures bytes { Consumes (prepend_known self.old (R.remaining reader.old))
            (prepend_known self.new (R.remaining reader.new)) (text_of line.new.items result) }
        ensures line { IsLine line.new.items }
        ensures limit { vec_len line.new ≤ longest_input_line }
        ensures end { IfOk result (λ end. EndsLine end line.new.items
            (prepend_known self.new (R.remaining reader.new))) }
        ensures too_long { IsErrOf result LineFault.TooLong
            → HasLongLine (prepend_known self.old (R.remaining reader.old)) }
        ensures calls { OnOk result
            (NoneFailed (reads_between (R.calls reader.old) (R.calls reader.new))) }
        ensures cause { IfErr result
            (EndsFor (reads_between (R.calls reader.old) (R.calls reader.new))) }
    {
        line.clear();
        for _made in 0..CALLS {
            match self.take_ahead(line)? {
                Found::Whole => return Ok(Some(LineEnd::Newline)),
                Found::Part => {}
            }
            match self.fill(reader)? {
                Filled::Ended if line.is_empty() => return Ok(None),
                Filled::Ended => return Ok(Some(LineEnd::Missing)),
                Filled::Goes => {}
            }
        }
        Err(LineFault::Read)
    }

    /// Puts what was read ahead behind a line, up to the line end. Returns whether that was there.
    fn take_ahead(&mut self, line: &mut Vec<u8>) -> Result<Found, LineFault>
        requires { vec_len line.old ≤ longest_input_line }
        ensures takes { TakesAhead self.old line.old.items self.new line.new.items result }
        ensures limit { vec_len line.new ≤ longest_input_line }
    {
        let ahead = &self.chunk[self.start..self.end];
        match cut(b'\n', ahead) {
            Some((part, _)) => {
                append(line, part)?;
                self.start += part.len() + 1;
                Ok(Found::Whole)
            }
            None => {
                append(line, ahead)?;
                self.start = self.end;
                Ok(Found::Part)
            }
        }
    }

    /// Calls the reader once, where nothing is left that was read ahead. An interrupted call gives nothing.
    fn fill<R: CountedRead>(&mut self, reader: &mut R) -> Result<Filled, LineFault>
        requires { self.old ≡ [] }
        ensures bytes { Consumes (R.remaining reader.old) (R.remaining reader.new) self.new }
        ensures fills { Fills (R.remaining reader.new) self.new result }
        ensures calls { OnOk result
            (Made (reads_between (R.calls reader.old) (R.calls reader.new)) 1 0) }
        ensures failed { OnErr result
            (Made (reads_between (R.calls reader.old) (R.calls reader.new)) 1 1) }
    {
        self.start = 0;
        self.end = 0;
        match reader.read_counted(self.chunk.as_mut_slice()) {
            Ok(0) => Ok(Filled::Ended),
            Ok(count) => {
                self.end = count;
                Ok(Filled::Goes)
            }
            Err(error) if error.kind() == ErrorKind::Interrupted => Ok(Filled::Goes),
            Err(_) => Err(LineFault::Read),
        }
    }
}

/// Whether the line end was there.
enum Found {
    Whole,
    Part,
}

/// Whether a reader is at its end.
enum Filled {
    Ended,
    Goes,
}

/// Puts more bytes behind a line, where that is no more than the limit. After an error the line is as it was.
fn append(line: &mut Vec<u8>, more: &[u8]) -> Result<(), LineFault>
    requires { vec_len line.old ≤ longest_input_line }
    ensures ok { OnOk result (line.new.items ≡ line.old.items ++ more.now) }
    ensures err { OnErr result (line.new.items ≡ line.old.items) }
    ensures too_long { IsErrOf result LineFault.TooLong
        ↔ (longest_input_line < vec_len line.old + length more.now) }
    ensures cause { IfErr result (λ fault. fault ≢ LineFault.Read) }
    ensures limit { vec_len line.new ≤ longest_input_line }
{
    if more.len() > LONGEST - line.len() {
        return Err(LineFault::TooLong);
    }
    line.extend_from_slice(more)?;
    Ok(())
}
