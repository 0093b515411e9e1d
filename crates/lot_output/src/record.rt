//! Bytes of what a call read or wrote that are kept for what is said of it on standard error.

ghost use Rattle.std.specs.Prelude.{◌≡◌, [], IfOk, None, Some, length};
ghost use Rattle.std.specs.Io.{WritesAtMost};
ghost use Rattle.std.specs.Io.KnownBytes.{WriteAppends};
ghost use Rattle.lot_output.specs.Record.{Keeps, held};

use std::alloc::Global;
use std::io::{self, ErrorKind, Write};

/// Bytes that are kept.
#[derive(Drop)]
pub struct Record {
    /// `None` where nothing is kept, or there was no memory for all of it.
    pub bytes: Option<Vec<u8>>,
}

impl Record {
    /// Returns nothing yet.
    pub fn new(alloc: Global) -> Record
        ensures { held result ≡ Some [] }
    {
        Record {
            bytes: Some(Vec::new(alloc)),
        }
    }

    /// Keeps more bytes behind those that are kept. Where memory ends all of them are let go.
    pub fn keep(&mut self, more: &[u8])
        ensures { Keeps more.now self.old self.new }
    {
        if let Some(bytes) = &mut self.bytes
            && bytes.extend_from_slice(more).is_err()
        {
            self.bytes = None;
        }
    }
}

/// A writer that keeps what is written. It fails where there is no memory.
impl Write for Record {
    fn write(&mut self, buf: &[u8]) -> io::Result<usize>
        ensures bound { WritesAtMost result buf.now }
        ensures bytes { WriteAppends None None result buf.now }
        ensures kept { Keeps buf.now self.old self.new }
        ensures whole { IfOk result (λ count. count ≡ length buf.now) }
    {
        self.keep(buf);
        match self.bytes {
            Some(_) => Ok(buf.len()),
            None => Err(ErrorKind::OutOfMemory.into()),
        }
    }

    fn flush(&mut self) -> io::Result<()> {
        Ok(())
    }
}
