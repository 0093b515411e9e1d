//! The records of a broker file, one after another.

ghost use Rattle.std.specs.Prelude.{◌≡◌};
ghost use Rattle.csv.specs.Records.{fields_of};
ghost use Rattle.lot_import.specs.Row.{at_column};
ghost use Rattle.lot_explain.specs.Records.{column_of, is_of_another_lot};

use crate::place::InputPlace;
use csv::{ByteRecord, ErrorKind, Reader, ReaderBuilder};
use lot_import::{Cause, Version, causes_of, field};
use std::alloc::{AllocError, Global};

/// The byte order mark, which may stand at the start of a file.
const MARK: &[u8] = b"\xef\xbb\xbf";

/// The column of the `ref`, counted from 0, as the others are.
const REF: usize = 0;

/// The column of the action.
const ACTION: usize = 2;

/// The column of the units.
pub(crate) const UNITS: usize = 4;

/// The column of the price.
pub(crate) const PRICE: usize = 5;

/// The column of the fee.
pub(crate) const FEE: usize = 7;

/// How far a broker file was read.
#[derive(Drop)]
pub(crate) struct Records<'a> {
    alloc: Global,
    /// Without a byte order mark.
    file: &'a [u8],
    reader: Reader<&'a [u8]>,
    /// The header, as it stands in the file, with its line end.
    pub(crate) header: &'a [u8],
    /// The version of the file, where it has a header of one.
    version: Option<Version>,
    /// The last record.
    pub(crate) record: ByteRecord,
    /// That record as it stands in the file.
    written: &'a [u8],
    /// How many rows were read.
    pub(crate) row: usize,
}

impl<'a> Records<'a> {
    /// Returns the records of a file, behind its header. The only error is out of memory.
    pub(crate) fn new(alloc: Global, file: &'a [u8]) -> Result<Records<'a>, AllocError> {
        let file = file.strip_prefix(MARK).unwrap_or(file);
        let reader = ReaderBuilder::new()
            .has_headers(false)
            .flexible(true)
            .from_reader(alloc, file);
        let mut records = Records {
            alloc,
            file,
            reader,
            header: b"",
            version: None,
            record: ByteRecord::new(alloc),
            written: b"",
            row: 0,
        };
        if records.next_row()? {
            records.header = records.written;
            records.version = Version::of(&records.record);
            records.row = 0;
        }
        Ok(records)
    }

    /// Reads the next row, and returns whether there is one. The only error is out of memory.
    pub(crate) fn next_row(&mut self) -> Result<bool, AllocError> {
        let start = self.reader.position().byte() as usize;
        let found = match self.reader.read_byte_record(&mut self.record) {
            Ok(found) => found,
            Err(error) => match error.into_kind() {
                ErrorKind::OutOfMemory | ErrorKind::Io(_) => return Err(AllocError),
                _ => false,
            },
        };
        let end = self.reader.position().byte() as usize;
        self.written = self.file.get(start..end).unwrap_or(b"");
        self.row = self.row.saturating_add(usize::from(found));
        Ok(found)
    }

    /// Reads on to the row of that number, from 1, and returns its place. The only error is out of
    /// memory.
    pub(crate) fn go_to(&mut self, row: usize) -> Result<InputPlace<'_>, AllocError> {
        for _row in self.row..row {
            if !self.next_row()? {
                break;
            }
        }
        Ok(if self.row == row {
            self.place()
        } else {
            InputPlace::Number(row)
        })
    }

    /// Returns all causes for which the last row is faulty, by the reader of broker files. The only
    /// error is out of memory.
    pub(crate) fn causes(&self) -> Result<Vec<Cause>, AllocError> {
        match self.version {
            Some(version) => causes_of(self.alloc, version, &self.record),
            None => Ok(Vec::new(self.alloc)),
        }
    }

    /// Returns a field of the last record, counted from 0; it is empty where the record is shorter.
    pub(crate) fn field(&self, column: usize) -> &[u8]
        ensures { result.now ≡ at_column (fields_of self.now.«record») column }
    {
        field(&self.record, column)
    }

    /// Returns whether the last record is of a purchase whose lot isn't its `ref`.
    pub(crate) fn is_of_another_lot(&self, lot: &[u8]) -> bool
        ensures { result ≡ is_of_another_lot (fields_of self.now.«record») lot.now }
    {
        self.field(ACTION) == b"BUY".as_slice() && lot != self.field(REF)
    }

    /// Returns the place of the last record.
    pub(crate) fn place(&self) -> InputPlace<'_> {
        InputPlace::Row {
            row: self.row,
            name: self.field(REF),
            line: self.written.trim_ascii(),
        }
    }
}

/// Returns the column that is at fault, counted from 0, if it is one alone.
pub(crate) fn column(cause: Cause) -> Option<usize>
    ensures { result ≡ column_of cause }
{
    match cause {
        Cause::Length => None,
        Cause::Ref => Some(REF),
        Cause::Date => Some(1),
        Cause::Action => Some(ACTION),
        Cause::Symbol => Some(3),
        Cause::Units => Some(UNITS),
        Cause::Price => Some(PRICE),
        Cause::Currency => Some(6),
        Cause::Fee => Some(FEE),
        Cause::Lot => Some(8),
    }
}
