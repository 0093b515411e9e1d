//! What is noted of a call, a line each: as many as are wanted, and then how many there were more.

use crate::place::InputPlace;
use std::alloc::Global;
use std::fmt::Display;
use std::io::{self, Write};

/// The notes of a call.
#[derive(Drop)]
pub(crate) struct Notebook<'a, W> {
    alloc: Global,
    writer: &'a mut W,
    /// How many are written.
    most: u64,
    /// How many there were so far.
    made: u64,
}

impl<'a, W: Write> Notebook<'a, W> {
    /// Returns no notes, of which so many will be written.
    pub(crate) fn new(alloc: Global, writer: &'a mut W, most: u64) -> Notebook<'a, W> {
        Notebook {
            alloc,
            writer,
            most,
            made: 0,
        }
    }

    /// Returns whether one more note is written.
    pub(crate) fn has_room(&self) -> bool {
        self.made < self.most
    }

    /// Writes one more note in one piece, or counts it where enough are written: a place, what is
    /// said of it, and what stands there.
    pub(crate) fn note<T: Display + Drop>(
        &mut self,
        place: InputPlace<'_>,
        text: T,
    ) -> io::Result<()> {
        if self.has_room() {
            match place.line() {
                Some(line) => self.write(format_args!("{place}{text}: {line}"))?,
                None => self.write(format_args!("{place}{text}"))?,
            }
        }
        self.made = self.made.saturating_add(1);
        Ok(())
    }

    /// Counts notes that aren't written.
    pub(crate) fn pass(&mut self, count: u64) {
        self.made = self.made.saturating_add(count);
    }

    /// Writes how many there were more than were written.
    pub(crate) fn end(mut self) -> io::Result<()> {
        let more = self.made.saturating_sub(self.most);
        if more > 0 {
            self.write(format_args!("... and {more} more"))?;
        }
        Ok(())
    }

    /// Writes a line in one piece.
    fn write<T: Display + Drop>(&mut self, text: T) -> io::Result<()> {
        let line = format!(in self.alloc; "lotbook: {text}\n")?;
        self.writer.write_all(line.as_str().as_bytes())
    }
}
