//! That a page will be large, before it is printed.

ghost use Rattle.std.specs.Prelude.{◌≡◌, OnOk};
ghost use Rattle.std.specs.Io.{WritesAtMost};
ghost use Rattle.std.specs.Io.KnownBytes.{Keeps, WriteAppends};

use crate::call::Call;
use lot_args::{Action, Report};
use lot_output::WriteOut;
use std::io::{self, Write};
use std::str;

/// A book of more entries than this has a large page.
const MANY_ENTRIES: u64 = 50_000;

/// A writer that hears how many entries the book of a page has, before any of it is printed, and says on standard error that the
/// page will be large where there are many.
#[derive(Drop)]
pub struct Forewarner<'a, W> {
    rt: &'a HostRuntime,
    writer: W,
    /// Whether the head of a page may come.
    is_due: bool,
}

impl<'a, W> Forewarner<'a, W> {
    /// Returns a writer for what a call writes.
    pub fn new(call: &Call<'a>, writer: W) -> Forewarner<'a, W>
        ensures { result.writer ≡ writer }
    {
        Forewarner {
            rt: call.rt,
            writer,
            is_due: !call.is_quiet() && is_page(call.action),
        }
    }

    /// Returns the writer.
    pub fn into_writer(self) -> W
        ensures { result ≡ self.entry.writer }
    {
        let Forewarner { writer, .. } = self;
        writer
    }
}

/// What the writer took is told, and nothing else is written.
impl<W: WriteOut> Write for Forewarner<'_, W> {
    ghost contents = { λ forewarner. W.contents forewarner.writer };

    fn write(&mut self, buf: &[u8]) -> io::Result<usize>
        ensures bound { WritesAtMost result buf.now }
        ensures bytes { WriteAppends (W.contents self.old.writer) (W.contents self.new.writer)
            result buf.now }
    {
        if self.is_due
            && let Some(count) = entries_in(buf)
        {
            self.is_due = false;
            if count > MANY_ENTRIES {
                let _ = eprintln!(self.rt;
                    "lotbook: the book has {count} entries: the page will be large"
                );
            }
        }
        self.writer.write(buf)
    }

    fn flush(&mut self) -> io::Result<()>
        ensures bytes { Keeps (W.contents self.old.writer) (W.contents self.new.writer) }
        ensures written_out { OnOk result (W.is_written_out self.new.writer) }
    {
        self.writer.write_out()
    }
}

impl<W: WriteOut> WriteOut for Forewarner<'_, W> {
    ghost is_written_out = { λ forewarner. W.is_written_out forewarner.writer };

    fn write_out(&mut self) -> io::Result<()> {
        self.flush()
    }
}

/// Returns whether an action writes a page.
fn is_page(action: &Action) -> bool {
    matches!(
        action,
        Action::Report {
            report: Report::Page { .. },
            ..
        }
    )
}

/// Returns how many entries the head of a page says that the book has, where this is the head.
fn entries_in(buf: &[u8]) -> Option<u64> {
    let text = str::from_utf8(buf).ok()?;
    let (_, body) = text.split_once("</style>")?;
    let (_, rest) = body.split_once("</h1>")?;
    let (days, _) = rest.split_once(" entries</p>")?;
    let (_, number) = days.rsplit_once(' ')?;
    let mut count: u64 = 0;
    for digit in number.chars() {
        if let Some(digit) = digit.to_digit(10) {
            count = count.saturating_mul(10).saturating_add(u64::from(digit));
        }
    }
    Some(count)
}
