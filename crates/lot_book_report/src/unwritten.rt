ghost use Rattle.std.specs.Prelude.{None};

use lot_io::CountedWrite;
use std::io;

/// A writer that takes all and writes it nowhere.
#[derive(Drop)]
pub(crate) struct Unwritten {}

impl CountedWrite for Unwritten {
    ghost contents = { λ _. None };

    ghost calls = { λ _. None };

    fn write_counted(&mut self, chunk: &[u8]) -> io::Result<usize> {
        Ok(chunk.len())
    }

    fn flush_counted(&mut self) -> io::Result<()> {
        Ok(())
    }
}
