ghost use Rattle.std.specs.Prelude.{◌≡◌, IfErr, IfOk, IfSome, IsErrOf, OnOk};
ghost use Rattle.std.specs.Io.KnownBytes.{prepend_known};
ghost use Rattle.lot_report.specs.Printed.{line};
ghost use Rattle.lot_io.specs.Reads.{reads_between};
ghost use Rattle.lot_stream.specs.Input.{NoneFailed};
ghost use Rattle.lot_parts.specs.Fault.{HasCause, SaysNoDump};
ghost use Rattle.lot_parts.specs.Reading.{Begins, BeginsNewer, HasLong, Hears, IsNoDumpAt, IsNoRestAt, SaysNext, Takes};

use crate::fault::DumpFault;
use crate::feed::Feed;
use crate::step::{Step, Sum};
use lot_dump::{Head, read_heading};
use lot_io::CountedRead;
use sha2::{Digest, Sha256};
use std::alloc::Global;
use std::marker::Model;

/// Reads the parts of a dump one after another. It keeps a chunk of 64 KiB, and the line of the next heading.
///
/// All calls must have the same reader.
#[derive(Drop)]
pub struct DumpReader {
    /// Its last line is the next heading, or the end.
    feed: Feed,
    /// It has heard all lines above that.
    hasher: Sha256,
    /// The number of the last entry.
    last: u32,
    headings: u64,
}

impl Model for DumpReader {
    ghost use Rattle.lot_syntax.specs.Line.{IsLine};
    ghost use Rattle.lot_parts.specs.Reading.{Reading, ahead_of};

    ghost Value = { Reading };

    ghost view = { λ r. record {
      ahead = ahead_of r.feed;
      hasher = r.hasher;
      last = r.last;
      headings = r.headings;
      line = r.feed.count;
    } };

    ghost invariant = { λ r. IsLine r.feed.line.items };
}

impl DumpReader {
    /// Reads the head of a dump and the ledger text above its first entry, which is put into a buffer in place of what it holds.
    /// Returns what the head says, and a reader of what stands below.
    pub fn begin<R: CountedRead>(
        alloc: Global,
        reader: &mut R,
        above: &mut Vec<u8>,
    ) -> Result<(Head, DumpReader), DumpFault>
        ensures begins { IfOk result (λ begun. Begins (R.remaining reader.old)
            (R.remaining reader.new) begun.0 above.new.items begun.1) }
        ensures no_dump { IfErr result (SaysNoDump (λ number.
            IfSome (R.remaining reader.old) (IsNoDumpAt number))) }
        ensures newer { IsErrOf result DumpFault.NewerFormat
            → IfSome (R.remaining reader.old) BeginsNewer }
        ensures calls { OnOk result
            (NoneFailed (reads_between (R.calls reader.old) (R.calls reader.new))) }
        ensures too_long { IsErrOf result DumpFault.TooLong
            → IfSome (R.remaining reader.old) HasLong }
        ensures cause { IfErr result
            (HasCause (reads_between (R.calls reader.old) (R.calls reader.new))) }
    {
        let mut feed = Feed::new(alloc)?;
        let mut hasher = Sha256::new();
        let head = feed.read_head(reader)?;
        hear_line(&mut hasher, &feed.line);
        feed.read_text(reader, above)?;
        hasher.update(above.as_slice());
        Ok((
            head,
            DumpReader {
                feed,
                hasher,
                last: 0,
                headings: 0,
            },
        ))
    }

    /// Returns the number of the line that was read last, from 1: that of the next heading, or of the end.
    pub fn line(&self) -> u64
        ensures { result ≡ self.now.line }
    {
        self.feed.count
    }

    /// Reads the next entry, whose text is put into a buffer in place of what it holds, each line with its line end. At the end
    /// it returns what that says, and what was found above it.
    ///
    /// It is not called again after the end or an error.
    pub fn next<R: CountedRead>(
        &mut self,
        alloc: Global,
        reader: &mut R,
        text: &mut Vec<u8>,
    ) -> Result<Step, DumpFault>
        ensures bytes { Takes (prepend_known self.old.ahead (R.remaining reader.old))
            (prepend_known self.new.ahead (R.remaining reader.new)) text.new.items result }
        ensures says { SaysNext self.old self.new text.new.items result }
        ensures no_dump { IfErr result (SaysNoDump (λ number.
            IfSome (prepend_known self.old.ahead (R.remaining reader.old))
            (IsNoRestAt self.old.last self.old.line number))) }
        ensures newer { IsErrOf result DumpFault.NewerFormat → ⊥ }
        ensures calls { OnOk result
            (NoneFailed (reads_between (R.calls reader.old) (R.calls reader.new))) }
        ensures too_long { IsErrOf result DumpFault.TooLong
            → IfSome (prepend_known self.old.ahead (R.remaining reader.old)) HasLong }
        ensures cause { IfErr result
            (HasCause (reads_between (R.calls reader.old) (R.calls reader.new))) }
    {
        match read_heading(alloc, &self.feed.line)? {
            Some(heading) if heading.number < self.last => Err(DumpFault::NotADump {
                line: self.feed.count,
            }),
            Some(heading) => {
                hear_line(&mut self.hasher, &self.feed.line);
                self.feed.read_text(reader, text)?;
                self.hasher.update(text.as_slice());
                self.last = heading.number;
                self.headings = self.headings.saturating_add(1);
                Ok(Step::Entry(heading))
            }
            None => {
                let end = self.feed.read_end(reader)?;
                let hasher = self.hasher.clone()?;
                Ok(Step::End(Sum {
                    end,
                    digest: hasher.finalize(),
                    headings: self.headings,
                }))
            }
        }
    }
}

/// Adds a line with its line end to the message that is hashed.
fn hear_line(hasher: &mut Sha256, text: &[u8])
    ensures { Hears hasher.old hasher.new (line text.now) }
{
    hasher.update(text);
    hasher.update(b"\n".as_slice());
}
