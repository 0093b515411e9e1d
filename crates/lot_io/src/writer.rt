ghost use Rattle.std.specs.Prelude.{◌≡◌, ◌<◌, ℕ, List, length, Option, None, Some};
ghost use Rattle.std.specs.Io.{WritesAtMost};
ghost use Rattle.std.specs.Io.KnownBytes.{Keeps, WriteAppends};
ghost use Rattle.lot_io.specs.Writer.{calls_of, writer_of};
ghost use Rattle.lot_io.specs.Writes.{CountsFlush, CountsWrite, WriteCalls, no_writes};

use std::io::{self, ErrorKind, Write};

/// A writer whose calls may be counted: how many were made, whether one failed, and whether all that was taken is flushed.
///
/// Every writer is one without such counts. A `CountedWriter` has them.
pub trait CountedWrite {
    // The bytes that the writer holds, where they are known.
    ghost contents: { Self → Option (List ℕ) };

    // What all calls came to so far, where that is known.
    ghost calls: { Self → Option WriteCalls };

    /// Makes one call of `write`, of at least one byte.
    fn write_counted(&mut self, chunk: &[u8]) -> io::Result<usize>
        requires some { 0 < length chunk.now }
        ensures bound { WritesAtMost result chunk.now }
        ensures bytes { WriteAppends (contents self.old) (contents self.new) result chunk.now }
        ensures calls { CountsWrite (calls self.old) (calls self.new) result };

    /// Makes one call of `flush`.
    fn flush_counted(&mut self) -> io::Result<()>
        ensures bytes { Keeps (contents self.old) (contents self.new) }
        ensures calls { CountsFlush (calls self.old) (calls self.new) result };
}

impl<W: Write> CountedWrite for W {
    ghost contents = { W.contents };

    ghost calls = { λ _. None };

    fn write_counted(&mut self, chunk: &[u8]) -> io::Result<usize> {
        self.write(chunk)
    }

    fn flush_counted(&mut self) -> io::Result<()> {
        self.flush()
    }
}

/// A writer whose calls are counted. The count of calls of `write` stops at `u64::MAX`.
#[derive(Drop)]
pub struct CountedWriter<W> {
    writer: W,
    /// How many calls of `write` were made.
    made: u64,
    /// Whether a call failed. A call of `write` fails where it takes nothing or meets an error; one that was interrupted
    /// doesn't count. A call of `flush` fails where it meets an error.
    has_failed: bool,
    /// Whether nothing was taken since the last flush that succeeded.
    is_flushed: bool,
}

impl<W> CountedWriter<W> {
    /// Returns a counted writer over this one. No call is counted yet.
    pub fn new(writer: W) -> CountedWriter<W>
        ensures writer { writer_of result ≡ writer }
        ensures calls { calls_of result ≡ no_writes }
    {
        CountedWriter {
            writer,
            made: 0,
            has_failed: false,
            is_flushed: true,
        }
    }

    /// Returns the writer.
    pub fn into_writer(self) -> W
        ensures { result ≡ writer_of self }
    {
        self.writer
    }
}

impl<W: Write> CountedWrite for CountedWriter<W> {
    ghost contents = { λ counted. W.contents (writer_of counted) };

    ghost calls = { λ counted. Some (calls_of counted) };

    fn write_counted(&mut self, chunk: &[u8]) -> io::Result<usize> {
        let outcome = self.writer.write(chunk);
        self.made = self.made.saturating_add(1);
        match &outcome {
            Ok(0) => self.has_failed = true,
            Ok(_) => self.is_flushed = false,
            Err(error) if error.kind() == ErrorKind::Interrupted => {}
            Err(_) => self.has_failed = true,
        }
        outcome
    }

    fn flush_counted(&mut self) -> io::Result<()> {
        let outcome = self.writer.flush();
        match &outcome {
            Ok(()) => self.is_flushed = true,
            Err(_) => self.has_failed = true,
        }
        outcome
    }
}
