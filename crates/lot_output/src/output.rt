//! Standard output.

ghost use Rattle.std.specs.Prelude.{◌≡◌, [], IsTrue, OnOk, false};
ghost use Rattle.std.specs.Io.Buffered.{writer_buffer, writer_contents, writer_inner};
ghost use Rattle.std.specs.Io.KnownBytes.{Keeps};
ghost use Rattle.lot_output.specs.Output.{IsCutOff};

use crate::meter::Meter;
use crate::write_out::WriteOut;
use std::alloc::Global;
use std::io::{self, BufWriter, Write};

/// How an output is written.
#[derive(Clone, Copy)]
pub enum Pace {
    /// Each reply at once.
    AtOnce,
    /// Through a buffer, where there is memory for one: text that is written whole, or nearly so.
    Buffered,
}

/// An output to a writer, whose replies a meter counts. What a contract says that it holds is what the writer holds and, behind that,
/// what is in the buffer.
#[derive(Drop)]
pub struct Output<'a, W: Write + Drop> {
    buffer: BufWriter<W>,
    replies: Meter<'a>,
}

/// What is left of an output that has ended.
#[derive(Drop)]
pub struct Ended<W> {
    /// What it was an output to.
    pub writer: W,
    /// Whether the writer was handed all that was written. Else some of it couldn't be written.
    pub is_whole: bool,
}

impl<'a, W: Write + Copy + Drop> Output<'a, W> {
    /// Returns an output to a writer.
    pub fn new(alloc: Global, writer: W, pace: Pace, replies: Meter<'a>) -> Output<'a, W>
        ensures { writer_contents W.contents result.buffer ≡ W.contents writer }
    {
        Output {
            buffer: buffer(alloc, writer, pace),
            replies,
        }
    }
}

impl<W: Write + Drop> Output<'_, W> {
    /// Ends the line that shows the progress, if there is one, and returns the writer. What is still in the buffer, since it could
    /// not be written, is discarded.
    pub fn end(self) -> Ended<W>
        ensures writer { result.writer ≡ writer_inner self.entry.buffer }
        ensures whole { IsTrue result.is_whole → W.contents result.writer
            ≡ writer_contents W.contents self.entry.buffer }
        ensures all { writer_buffer self.entry.buffer ≡ [] → IsTrue result.is_whole }
        ensures cut { result.is_whole ≡ false → IsCutOff
            (writer_contents W.contents self.entry.buffer) (W.contents result.writer) }
    {
        let Output { buffer, replies } = self;
        let mut replies = replies;
        replies.end();
        // Dropping the buffer would try once more.
        let (writer, unwritten) = buffer.into_parts();
        Ended {
            writer,
            is_whole: unwritten.is_empty(),
        }
    }
}

/// Returns a buffer in front of a writer. One without room writes all at once.
fn buffer<W: Write + Copy + Drop>(alloc: Global, writer: W, pace: Pace) -> BufWriter<W>
    ensures { writer_contents W.contents result ≡ W.contents writer }
{
    if let Pace::Buffered = pace
        && let Ok(buffer) = BufWriter::new(alloc, writer)
    {
        return buffer;
    }
    match BufWriter::with_capacity(alloc, 0, writer) {
        Ok(buffer) => buffer,
        Err(_) => unreachable!(),
    }
}

impl<W: Write + Drop> Write for Output<'_, W> {
    ghost contents = { λ output. writer_contents W.contents output.buffer };

    fn write(&mut self, buf: &[u8]) -> io::Result<usize> {
        self.buffer.write(buf)
    }

    /// Writes out what is in the buffer, and counts a reply.
    fn flush(&mut self) -> io::Result<()>
        ensures bytes { Keeps (writer_contents W.contents self.old.buffer)
            (writer_contents W.contents self.new.buffer) }
        ensures buffer { OnOk result (writer_buffer self.new.buffer ≡ []) }
    {
        self.replies.add(1);
        self.buffer.flush()
    }
}

impl<W: Write + Drop> WriteOut for Output<'_, W> {
    ghost is_written_out = { λ output. writer_buffer output.buffer ≡ [] };

    fn write_out(&mut self) -> io::Result<()> {
        self.flush()
    }
}
