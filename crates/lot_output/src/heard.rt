//! What was heard of a call, and a writer that hears it.

ghost use Rattle.std.specs.Prelude.{◌≡◌, ◌≢◌, ◌<◌, IfErr, IfOk, IsOk, IsSome, None, OnErr, OnOk, Some, false, length, take, true};
ghost use Rattle.std.specs.Io.{WritesAtMost};
ghost use Rattle.std.specs.IoError.{error_kind};
ghost use Rattle.std.specs.Io.KnownBytes.{Keeps, WriteAppends};
ghost use Rattle.lot_output.specs.Heard.{Hears, ends_line, told_by};

use crate::course::{Course, Said, said_in};
use crate::record::Record;
use crate::write_out::WriteOut;
use std::alloc::Global;
use std::io::{self, ErrorKind, Write};

/// What was heard of a call: how far it came, which lines said that something wasn't done, and why
/// the output couldn't be written.
#[derive(Drop)]
pub struct Heard {
    pub course: Course,
    /// Each with its line end.
    pub lines: Record,
    /// Where there is one, the last line isn't written whole.
    pub failure: Option<io::Error>,
}

/// A writer that hears the replies, and keeps the lines that say why something wasn't done.
#[derive(Drop)]
pub struct Witness<W> {
    pub writer: W,
    /// How many lines of refused commands are kept.
    most: u64,
    pub heard: Heard,
    /// Whether the next byte is the first of a line.
    begins: bool,
}

impl<W> Witness<W> {
    /// Returns a writer that keeps the lines of so many refused commands.
    pub fn new(alloc: Global, writer: W, most: u64) -> Witness<W>
        ensures { result.writer ≡ writer }
    {
        Witness {
            writer,
            most,
            heard: Heard {
                course: Course::BEGUN,
                lines: Record::new(alloc),
                failure: None,
            },
            begins: true,
        }
    }

    /// Returns the writer, and what was heard.
    pub fn into_parts(self) -> (W, Heard)
        ensures writer { result.0 ≡ self.writer }
        ensures heard { result.1 ≡ self.heard }
    {
        let Witness { writer, heard, .. } = self;
        (writer, heard)
    }

    /// Hears a line, and keeps it where it says that something wasn't done.
    fn hear(&mut self, line: &[u8])
        ensures heard { Hears self.old.most line.now self.old.heard self.new.heard }
        ensures failure { self.new.heard.failure ≡ self.old.heard.failure }
        ensures begins { self.new.begins ≡ self.old.begins }
        ensures most { self.new.most ≡ self.old.most }
        ensures writer { self.new.writer ≡ self.old.writer }
    {
        let Some(said) = said_in(line) else {
            return;
        };
        self.heard.course = self.heard.course.after(said);
        let is_kept = match said {
            Said::Accepted(_) | Said::Repeated(_) | Said::Restored => false,
            Said::Refused(_) => self.heard.course.refused <= self.most,
            Said::Stopped(_) | Said::Fault => true,
        };
        if is_kept {
            self.heard.lines.keep(line);
        }
    }
}

/// Each line of a reply or of a fault is handed to the writer whole. It is heard once, whether it can
/// be written or not: what it says is so. What the writer took of it is told, and nothing else is written.
impl<W: WriteOut> Write for Witness<W> {
    ghost contents = { λ witness. W.contents witness.writer };

    fn write(&mut self, buf: &[u8]) -> io::Result<usize>
        ensures bound { WritesAtMost result buf.now }
        ensures bytes { WriteAppends (W.contents self.old.writer) (W.contents self.new.writer)
            result buf.now }
        ensures failure { IfErr result (λ error. error_kind error ≢ ErrorKind.Interrupted
            → self.new.heard.failure ≡ Some error) }
        ensures written { IfOk result (λ count. 0 < count
            → self.new.heard.failure ≡ self.old.heard.failure) }
        ensures heard { self.old.begins ≡ true
            → Hears self.old.most buf.now self.old.heard self.new.heard }
        ensures once { self.old.begins ≡ false
            → self.new.heard.course ≡ self.old.heard.course }
        ensures kept { self.old.begins ≡ false
            → self.new.heard.lines ≡ self.old.heard.lines }
        ensures begins { IfOk result (λ count. self.new.begins ≡ ends_line (take count buf.now)) }
        ensures failed { OnErr result (self.new.begins ≡ false) }
    {
        if self.begins {
            self.hear(buf);
        }
        let outcome = self.writer.write(buf);
        self.heard.failure = failure_in(&outcome, buf.len()).or(self.heard.failure);
        self.begins = match outcome {
            Ok(count) => buf[..count].last() == Some(&b'\n'),
            Err(_) => false,
        };
        outcome
    }

    fn flush(&mut self) -> io::Result<()>
        ensures bytes { Keeps (W.contents self.old.writer) (W.contents self.new.writer) }
        ensures written_out { OnOk result (W.is_written_out self.new.writer) }
        ensures failure { IfErr result (λ error. self.new.heard.failure ≡ Some error) }
        ensures flushed { IsOk result → self.new.heard.failure ≡ self.old.heard.failure }
        ensures course { self.new.heard.course ≡ self.old.heard.course }
        ensures lines { self.new.heard.lines ≡ self.old.heard.lines }
        ensures begins { self.new.begins ≡ self.old.begins }
    {
        let outcome = self.writer.write_out();
        self.heard.failure = outcome.err().or(self.heard.failure);
        outcome
    }
}

/// Returns why a call couldn't write so many bytes. One that was interrupted is tried again.
fn failure_in(outcome: &io::Result<usize>, len: usize) -> Option<io::Error>
    ensures failed { IfErr outcome.now (λ error. result ≡ told_by (error_kind error) error) }
    ensures written { IfOk outcome.now (λ count. 0 < count → result ≡ None) }
    ensures nothing { IfOk outcome.now (λ count. count ≡ 0 → 0 < len → IsSome result) }
    ensures asked { IfOk outcome.now (λ _. len ≡ 0 → result ≡ None) }
{
    match outcome {
        Ok(0) if len > 0 => Some(ErrorKind::WriteZero.into()),
        Ok(_) => None,
        Err(error) if error.kind() == ErrorKind::Interrupted => None,
        Err(error) => Some(*error),
    }
}
