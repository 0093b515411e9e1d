//! Where the files of a book are read, to be copied.

ghost use Rattle.std.specs.Prelude.{◌≡◌, ◌↔◌, ℕ, List, IsTrue, Result};
ghost use Rattle.lot_files.specs.BookFiles.{head_of, stamp_of};
ghost use Rattle.lot_files.specs.Image.{copy_of};
ghost use Rattle.lot_files.specs.declared.cause.Cause.{Cause as CauseOf};
ghost use Rattle.lot_files.specs.declared.source.Stamp.{Stamp as StampOf};

use crate::cause::Cause;
use crate::file_system::{Entry, FileSystem, HEAD};
use crate::located::Located;
use std::io::{self, ErrorKind};

/// Tells two states of the files of a book apart, unless commits were only put behind the log.
///
/// A program that writes puts each commit behind the log, and copies the log into the book's file from time to time.
/// The log then begins anew, with another head. So a file, and a log with the same head that was read behind it, hold
/// the commits up to a moment.
#[derive(Drop)]
pub(crate) struct Stamp {
    /// The number of the book's file on its disk.
    number: u64,
    len: u64,
    /// When the book's file was changed last: a second, and a part of it.
    second: i64,
    nanosecond: i64,
    /// The head of the log, all zeros where there is none.
    head: [u8; HEAD],
}

impl Stamp {
    /// Returns whether it is the same as another.
    pub(crate) fn is_same(&self, other: &Stamp) -> bool
        ensures { IsTrue result ↔ self.now ≡ other.now }
    {
        self.number == other.number
            && self.len == other.len
            && self.second == other.second
            && self.nanosecond == other.nanosecond
            && self.head == other.head
    }
}

/// Where the files of a book are read, which others may change from one call to the next.
///
/// Each ghost member says what a call may give in the first state, and that it leaves the second.
pub(crate) trait Source {
    // A stamp, or why there is none.
    ghost stamps: { Self → Result StampOf CauseOf → Self → Type 0 };

    // What a copy of the book's file holds, or why there is none.
    ghost reads_book: { Self → Result (List ℕ) CauseOf → Self → Type 0 };

    // The same of its log.
    ghost reads_log: { Self → Result (List ℕ) CauseOf → Self → Type 0 };

    /// Returns the stamp of the files.
    fn stamp(&mut self) -> Result<Stamp, Cause>
        ensures { stamps self.old result self.new };

    /// Reads the book's file.
    fn read_book(&mut self) -> io::Result<Vec<u8>>
        ensures { reads_book self.old (copy_of result) self.new };

    /// Reads its log.
    fn read_log(&mut self) -> io::Result<Vec<u8>>
        ensures { reads_log self.old (copy_of result) self.new };
}

/// The files of a book in a file system.
pub(crate) struct BookFiles<'a, F> {
    pub(crate) fs: &'a F,
    pub(crate) located: &'a Located,
}

impl<F> Drop for BookFiles<'_, F> {
    /// It is written out, so that a file system need not be one that can be dropped.
    fn drop(self) {
        let BookFiles { fs: _, located: _ } = self;
    }
}

impl<F: FileSystem> Source for BookFiles<'_, F> {
    ghost use Rattle.lot_files.specs.Copy.{reads_files};

    ghost stamps = { (reads_files F.FileSystem).stamps };

    ghost reads_book = { (reads_files F.FileSystem).reads_book };

    ghost reads_log = { (reads_files F.FileSystem).reads_log };

    fn stamp(&mut self) -> Result<Stamp, Cause> {
        let entry = match self.fs.metadata(self.located.book.as_str()) {
            Ok(entry) => entry,
            Err(error) => return Err(error.into()),
        };
        stamp_of(entry, self.fs.log_head(self.located.log.as_str()))
    }

    fn read_book(&mut self) -> io::Result<Vec<u8>> {
        self.fs.read(self.located.book.as_str())
    }

    fn read_log(&mut self) -> io::Result<Vec<u8>> {
        self.fs.read(self.located.log.as_str())
    }
}

/// Returns the stamp of a book's file and of what was read of the head of its log.
fn stamp_of(entry: Entry, read: io::Result<[u8; HEAD]>) -> Result<Stamp, Cause>
    ensures { result ≡ stamp_of entry (head_of read) }
{
    let head = match head_of(read) {
        Ok(head) => head,
        Err(cause) => return Err(cause),
    };
    Ok(Stamp {
        number: entry.number,
        len: entry.len,
        second: entry.second,
        nanosecond: entry.nanosecond,
        head,
    })
}

/// Returns the head of a log, all zeros where there is none.
fn head_of(read: io::Result<[u8; HEAD]>) -> Result<[u8; HEAD], Cause>
    ensures { result ≡ head_of read }
{
    match read {
        Ok(head) => Ok(head),
        Err(error) if error.kind() == ErrorKind::UnexpectedEof => Ok([0; HEAD]),
        Err(error) if error.kind() == ErrorKind::NotFound => Ok([0; HEAD]),
        Err(error) => Err(error.into()),
    }
}
