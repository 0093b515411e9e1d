ghost use Rattle.std.specs.Prelude.{◌≡◌, ℕ, List, Option, None, Some};
ghost use Rattle.std.specs.Io.{ReadsAtMost};
ghost use Rattle.std.specs.Io.KnownBytes.{ReadConsumes};
ghost use Rattle.lot_io.specs.Reads.{ReadCalls, CountsRead, no_reads};
ghost use Rattle.lot_io.specs.Reader.{counts_of, reader_of};

use std::io::{self, ErrorKind, Read};

/// A reader whose calls may be counted: how many were made, how many failed, how many met the end, and how many bytes they
/// gave.
///
/// Every reader is one without such counts. A `CountedReader` has them.
pub trait CountedRead {
    // The bytes that calls will give from here on, where they are known.
    ghost remaining: { Self → Option (List ℕ) };

    // What all calls came to so far, where that is known.
    ghost calls: { Self → Option ReadCalls };

    /// Makes one call of `read`, which puts the bytes that it gives at the start of the chunk.
    fn read_counted(&mut self, chunk: &mut [u8]) -> io::Result<usize>
        ensures bound { ReadsAtMost result chunk.new }
        ensures bytes { ReadConsumes (remaining self.old) (remaining self.new) result chunk.new }
        ensures calls { CountsRead (calls self.old) (calls self.new) result };

    /// Takes back the bytes that were read of it, once they are read as a text. A reader that keeps none lets them go.
    fn take_back(&mut self, bytes: Vec<u8>)
        ensures remaining { remaining self.new ≡ remaining self.old }
        ensures calls { calls self.new ≡ calls self.old };
}

impl<R: Read> CountedRead for R {
    ghost remaining = { R.remaining };

    ghost calls = { λ _. None };

    fn read_counted(&mut self, chunk: &mut [u8]) -> io::Result<usize> {
        self.read(chunk)
    }

    fn take_back(&mut self, _bytes: Vec<u8>) {}
}

/// A reader whose calls are counted. A count stops at `u64::MAX`.
#[derive(Drop)]
pub struct CountedReader<R> {
    reader: R,
    /// How many calls were made.
    made: u64,
    /// How many of them failed. Interrupted calls don't count.
    failed: u64,
    /// How many met the end: they gave no byte.
    ended: u64,
    /// How many bytes they gave.
    given: u64,
}

impl<R> CountedReader<R> {
    /// Returns a counted reader over this one. No call is counted yet.
    pub fn new(reader: R) -> CountedReader<R>
        ensures reader { reader_of result ≡ reader }
        ensures calls { counts_of result ≡ no_reads }
    {
        CountedReader {
            reader,
            made: 0,
            failed: 0,
            ended: 0,
            given: 0,
        }
    }
}

impl<R: Read> CountedRead for CountedReader<R> {
    ghost remaining = { λ counted. R.remaining (reader_of counted) };

    ghost calls = { λ counted. Some (counts_of counted) };

    fn read_counted(&mut self, chunk: &mut [u8]) -> io::Result<usize> {
        let outcome = self.reader.read(chunk);
        self.made = self.made.saturating_add(1);
        match &outcome {
            Ok(0) => self.ended = self.ended.saturating_add(1),
            Ok(count) => self.given = self.given.saturating_add(*count as u64),
            Err(error) if error.kind() == ErrorKind::Interrupted => {}
            Err(_) => self.failed = self.failed.saturating_add(1),
        }
        outcome
    }

    fn take_back(&mut self, _bytes: Vec<u8>) {}
}
