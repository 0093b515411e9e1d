//! The reader of a call, which keeps what was read for what is said of it.

ghost use Rattle.std.specs.Prelude.{◌≡◌, IsNone, IsSome, None, Some};
ghost use Rattle.std.specs.Io.{ReadsAtMost};
ghost use Rattle.std.specs.Io.KnownBytes.{ReadConsumes};
ghost use Rattle.lot_output.specs.Record.{held};
ghost use Rattle.lot_io.specs.Reads.{CountsRead, no_reads};
ghost use Rattle.lot_io.specs.Reader.{counts_of, reader_of};

use lot_io::{CountedRead, CountedReader};
use lot_output::Record;
use std::alloc::Global;
use std::io::{self, Read};

/// How many bytes of memory are set aside for what is said of a call: where memory has ended, the
/// stack couldn't grow for it.
const ROOM: usize = 1_048_576;

/// What a reader keeps.
#[derive(Clone, Copy)]
pub enum Keep {
    Nothing,
    /// The whole of it, once it is taken back, so that memory holds it once. Nothing is kept where
    /// there is no memory to set aside.
    TakenBack,
}

/// A reader that keeps what was read.
#[derive(Drop)]
pub struct Keeper<R> {
    reader: CountedReader<R>,
    pub kept: Record,
    /// What is set aside.
    room: Option<Vec<u8>>,
}

impl<R> Keeper<R> {
    /// Returns a reader over this one of which nothing is read yet, and that keeps so much.
    pub fn new(alloc: Global, reader: R, keep: Keep) -> Keeper<R>
        ensures reader { reader_of result.reader ≡ reader }
        ensures counts { counts_of result.reader ≡ no_reads }
        ensures none { keep ≡ Keep.Nothing → held result.kept ≡ None }
    {
        let room = match keep {
            Keep::TakenBack => Vec::with_capacity(alloc, ROOM).ok(),
            Keep::Nothing => None,
        };
        let kept = match keep {
            Keep::TakenBack if room.is_some() => Record::new(alloc),
            Keep::Nothing | Keep::TakenBack => Record { bytes: None },
        };
        Keeper {
            reader: CountedReader::new(reader),
            kept,
            room,
        }
    }

    /// Lets go of the memory that was set aside, once all is read and done.
    pub fn free_room(&mut self)
        ensures freed { self.new.room ≡ None }
        ensures kept { self.new.kept ≡ self.old.kept }
    {
        self.room = None;
    }
}

impl<R: Read> CountedRead for Keeper<R> {
    ghost remaining = { λ keeper. R.remaining (reader_of keeper.reader) };

    ghost calls = { λ keeper. Some (counts_of keeper.reader) };

    fn read_counted(&mut self, chunk: &mut [u8]) -> io::Result<usize>
        ensures bound { ReadsAtMost result chunk.new }
        ensures bytes { ReadConsumes (R.remaining (reader_of self.old.reader))
            (R.remaining (reader_of self.new.reader)) result chunk.new }
        ensures calls { CountsRead (Some (counts_of self.old.reader))
            (Some (counts_of self.new.reader)) result }
        ensures kept { self.new.kept ≡ self.old.kept }
    {
        self.reader.read_counted(chunk)
    }

    fn take_back(&mut self, bytes: Vec<u8>)
        ensures remaining { R.remaining (reader_of self.new.reader)
            ≡ R.remaining (reader_of self.old.reader) }
        ensures calls { Some (counts_of self.new.reader) ≡ Some (counts_of self.old.reader) }
        ensures taken { IsSome (held self.old.kept) → held self.new.kept ≡ Some bytes.items }
        ensures none { IsNone (held self.old.kept) → IsNone (held self.new.kept) }
    {
        if self.kept.bytes.is_some() {
            self.kept = Record { bytes: Some(bytes) };
        }
    }
}
